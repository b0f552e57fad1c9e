//! Filters that feed one another, as one filter.
ghost use Rattle.std.specs.Prelude.{◌≡◌, ◌⊎◌, ◌<◌, ℕ, Bool, IfOk, replicate, length, true, false};
ghost use Rattle.ff_filter.specs.Joins.{Ports};
ghost use Rattle.ff_graph_dag.specs.declared.graph.Port.{Port as APort};
ghost use Rattle.ff_graph_dag.specs.laws.Parts.{AreNew, composed};
ghost use Rattle.ff_filter.specs.Views.{IsNew};
ghost use Rattle.ff_graph_dag.specs.laws.Graphs.{graph_view, spots, feed_at, port_shut, Sound};
ghost use Rattle.ff_graph_dag.specs.laws.GraphLaws.{graph_grows, graph_hides, graph_quiet};
ghost use Rattle.ff_graph_dag.specs.laws.SettleLaws.{graph_settles};
ghost use Rattle.ff_graph_dag.specs.laws.Spends.{leads_to_spent as leads_so, Swept, Swept-prop, SaysSpent, AllGaveAll};
ghost use Rattle.ff_graph_dag.specs.laws.Over.{Told, Told-prop, all_true, each_over, graph_spends, graph_spent_only, graph_shut_spent, graph_done_spent};

use crate::graph::{Graph, Plan};
use crate::placed::{Placed, is_last};
use ff_filter::Filter;
use ff_stream::{Item, Refused};
use std::alloc::{AllocError, Global};

/// Filters fed by filters, as one filter.
#[derive(Drop)]
pub struct Dag<F: Filter> {
    /// The filters in their places.
    pub graph: Graph<F>,
    /// For each output, whether its closing item was given, or it was stopped.
    pub over: Vec<bool>,
    pub ghost told: { Told (graph_view graph.plan (spots F.view graph.places.items)) over.items } by { Told-prop
        (graph_view graph.plan (spots F.view graph.places.items)) over.items },
    // at any time each output that feeds a spent input has closed or was stopped
    pub ghost swept: { Swept F.view F.spends graph.plan graph.places.items } by { Swept-prop F.view F.spends graph.plan graph.places.items },
}

// So many outputs, none of which is over.
fn none_over(alloc: Global, count: usize) -> Result<Vec<bool>, AllocError>
    ensures { IfOk result (λ over. over.items ≡ replicate count false) }
{
    let mut over = Vec::new(alloc);
    over.resize(count, false)?;
    Ok(over)
}

// Whether each of them is true.
fn are_true(flags: &Vec<bool>) -> bool
    ensures { result ≡ all_true flags.now.items }
{
    'flags: for index in 0..flags.len() {
        if !flags[index] {
            return false;
        }
    }
    true
}

// Whether there are outputs, and each is over.
fn are_over(flags: &Vec<bool>) -> bool
    ensures { result ≡ each_over flags.now.items }
{
    !flags.is_empty() && are_true(flags)
}

impl<F: Filter + Drop> Dag<F> {
    /// Filters to which nothing was done, each in its place, fed as the plan says. They stand for the composition of
    /// their functions, which is the solution of a network of as many parts.
    pub fn new(alloc: Global, places: Vec<Placed<F>>, plan: Plan) -> Result<Dag<F>, AllocError>
        requires sound { Sound plan (spots F.view places.items) }
        requires new { AreNew (spots F.view places.items) }
        ensures composes { IfOk result (λ m. (ext : Ports) (q : ℕ)
            → (graph_view m.graph.plan (spots F.view m.graph.places.items)).rest ext q ≡ composed plan (spots F.view places.items) ext q) }
        ensures new { IfOk result (λ m. IsNew (graph_view m.graph.plan (spots F.view m.graph.places.items))) }
        ensures plan { IfOk result (λ m. m.graph.plan ≡ plan) }
    {
        let over = none_over(alloc, plan.outs.len())?;
        let mut graph = Graph { places, plan };
        graph.sweep();
        Ok(Dag { graph, over })
    }
}

impl<F: Filter> Dag<F> {
    // The same, as the filter there says.
    fn leads(&self, port: usize) -> bool
        requires { port < length self.now.graph.plan.feeds.items }
        ensures { result ≡ leads_so F.spends self.now.graph.plan self.now.graph.places.items self.now.over.items port }
    {
        !self.over.is_empty() && self.graph.is_spent(port)
    }

    /// Whether there are outputs, and the filter to which an input leads says that the input there is spent. By the rule
    /// for all filters together, that is only where this input is spent. Where each wanted output of a filter has given
    /// what it was fed, it is exactly there, or the input has closed.
    pub fn leads_to_spent(&self, port: usize) -> bool
        requires { port < length self.now.graph.plan.feeds.items }
        ensures is { result ≡ leads_so F.spends self.now.graph.plan self.now.graph.places.items self.now.over.items port }
        ensures sound { (s : APort → Bool) → SaysSpent self.now.graph.plan (spots F.view self.now.graph.places.items) s → result ≡ true
            → s (feed_at self.now.graph.plan port) ≡ true }
        ensures exact { (s : APort → Bool) → SaysSpent self.now.graph.plan (spots F.view self.now.graph.places.items) s
            → AllGaveAll (spots F.view self.now.graph.places.items) → 0 < length self.now.over.items → s (feed_at self.now.graph.plan port) ≡ true
            → (result ≡ true) ⊎ (port_shut (spots F.view self.now.graph.places.items) (feed_at self.now.graph.plan port) ≡ true) }
    {
        self.leads(port)
    }
}

impl<F: Filter> Filter for Dag<F> {
    ghost view = { λ m. graph_view m.graph.plan (spots F.view m.graph.places.items) };

    ghost spends = { λ m p. graph_spends (graph_view m.graph.plan (spots F.view m.graph.places.items)) m.over.items p };

    fn inputs(&self) -> usize {
        self.graph.plan.ins.len()
    }

    fn outputs(&self) -> usize {
        self.graph.plan.outs.len()
    }

    fn is_shut(&self, port: usize) -> bool {
        self.graph.is_shut(port)
    }

    fn is_stopped(&self, port: usize) -> bool {
        self.graph.is_stopped(port)
    }

    fn feed(&mut self, port: usize, item: Item) -> Result<(), Refused> {
        self.graph.feed(port, item)
    }

    fn pull(&mut self, port: usize) -> Result<Option<Item>, AllocError> {
        match self.graph.pull(port) {
            Err(error) => Err(error),
            Ok(None) => Ok(None),
            Ok(Some(item)) => {
                self.over[port] = is_last(&item);
                Ok(Some(item))
            }
        }
    }

    fn stop(&mut self, port: usize) {
        self.graph.stop(port);
        self.over[port] = true;
    }

    fn spent(&self, port: usize) -> bool {
        let shut = self.graph.is_shut(port);
        shut | are_over(&self.over)
    }

    fn lacks(&self, port: usize) -> bool {
        self.graph.lacks(port)
    }

    ghost grows = { λ m. graph_grows F.view F.grows m.graph.plan m.graph.places.items };

    ghost hides = { λ m. graph_hides F.view F.grows F.hides m.graph.plan m.graph.places.items };

    ghost settles = { λ m. graph_settles F.view F.settles m.graph.plan m.graph.places.items m.graph.sound };

    ghost quiet = { λ m. graph_quiet F.view F.quiet m.graph.plan m.graph.places.items m.graph.sound };

    ghost spent_only = { λ m p lt e. graph_spent_only (graph_view m.graph.plan (spots F.view m.graph.places.items)) m.over.items p m.told e };

    ghost shut_spent = { λ m p lt e. graph_shut_spent (graph_view m.graph.plan (spots F.view m.graph.places.items)) m.over.items p e };

    ghost done_spent = { λ m p lt z d. graph_done_spent (graph_view m.graph.plan (spots F.view m.graph.places.items)) m.over.items p m.told z d };
}
