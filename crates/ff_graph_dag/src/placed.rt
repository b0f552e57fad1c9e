//! A filter of a graph, with one item that waits before each input.
ghost use Rattle.std.specs.Prelude.{◌≡◌, ℕ, ◌<◌, length, slice_set, replicate, is_some, not, IfOk, Option, None, Ok, Some, OnOk, OnErr, true, false, refl};
ghost use Rattle.ff_filter.specs.Joins.{silence, Ports};
ghost use Rattle.ff_stream.specs.Ports.{nothing};
ghost use Rattle.ff_filter.specs.Views.{Gave, Waits, Same, Stopped, IsNew, closes};
ghost use Rattle.ff_filter.specs.laws.Held.{held_closes};
ghost use Rattle.ff_graph_dag.specs.laws.Parts.{IsNewSpot};
ghost use Rattle.ff_graph_dag.specs.laws.Dags.{spot_of, spot_shut, held_at, IsDecided, IsReady, Delivered, Kept, Pulled, Halted};

use ff_filter::Filter;
use ff_stream::{Item, Refused};
use std::alloc::{AllocError, Global};

/// A filter, and one item that waits before each input.
#[derive(Drop)]
pub struct Placed<F> {
    /// The filter.
    pub filter: F,
    /// What waits before each input.
    pub held: Vec<Option<Item>>,
}

// So many inputs, with nothing before any of them.
fn none_held(alloc: Global, count: usize) -> Result<Vec<Option<Item>>, AllocError>
    ensures { IfOk result (λ held. held.items ≡ replicate count None) }
{
    let mut held = Vec::with_capacity(alloc, count)?;
    'made: for i in 0..count {
        held.push_reserved(None);
    }
    Ok(held)
}

impl<F: Filter + Drop> Placed<F> {
    /// A filter in its place, where nothing waits.
    pub fn new(alloc: Global, filter: F) -> Result<Placed<F>, AllocError>
        ensures filter { IfOk result (λ place. place.filter ≡ filter) }
        ensures held { IfOk result (λ place. place.held.items ≡ replicate (length (F.view filter).ins) None) }
        ensures new { IfOk result (λ place. IsNew (F.view filter) → IsNewSpot (spot_of F.view place)) }
    {
        let held = none_held(alloc, filter.inputs())?;
        Ok(Placed { filter, held })
    }
}

impl<F: Filter> Placed<F> {
    /// Whether an item waits there.
    pub fn holds(&self, port: usize) -> bool
        requires { port < length self.now.held.items }
        ensures { result ≡ is_some (held_at self.now.held.items port) }
    {
        self.held[port].is_some()
    }

    /// Puts an item before an input where none waits.
    pub fn store(&mut self, port: usize, item: Item)
        requires { port < length self.old.held.items }
        ensures filter { self.new.filter ≡ self.old.filter }
        ensures held { self.new.held.items ≡ slice_set self.old.held.items port (Some item) }
    {
        self.held[port] = Some(item);
    }

    /// Feeds what waits before an input; nothing where none waits.
    pub fn deliver(&mut self, port: usize) -> Result<(), AllocError>
        requires there { port < length self.old.held.items }
        requires ready { IsReady (spot_of F.view self.old) port }
        ensures delivered { OnOk result (Delivered (spot_of F.view self.old) (spot_of F.view self.new) port) }
        ensures unchanged { OnErr result (Kept (spot_of F.view self.old) (spot_of F.view self.new)) }
    {
        match self.held[port].take() {
            None => Ok(()),
            Some(item) => match self.filter.feed(port, item) {
                Ok(()) => Ok(()),
                Err(refused) => {
                    self.held[port] = Some(refused.item);
                    Err(AllocError)
                }
            },
        }
    }

    /// The next item of an output; None where it isn't wanted.
    pub fn pull(&mut self, port: usize) -> Result<Option<Item>, AllocError>
        requires there { port < length (F.view self.old.filter).outs }
        ensures gives { (x : Item) → result ≡ Ok (Some x) → Pulled (spot_of F.view self.old) (spot_of F.view self.new) port x }
        ensures waits { result ≡ Ok None → Kept (spot_of F.view self.old) (spot_of F.view self.new)
            × ((F.view self.new.filter).stopped port ≡ false → (F.view self.new.filter).rest silence port ≡ nothing) }
        ensures unchanged { OnErr result (Kept (spot_of F.view self.old) (spot_of F.view self.new)) }
    {
        if self.filter.is_stopped(port) {
            return Ok(None);
        }
        self.filter.pull(port)
    }

    /// The receiver of an output has finished.
    pub fn stop(&mut self, port: usize)
        requires { port < length (F.view self.old.filter).outs }
        ensures { Halted (spot_of F.view self.old) (spot_of F.view self.new) port }
    {
        self.filter.stop(port);
    }

    /// Whether more of an input may matter to the filter, or it has closed.
    pub fn needs(&self, port: usize) -> bool
        requires there { port < length (F.view self.now.filter).ins }
        ensures decided { result ≡ false → IsDecided (F.view self.now.filter) }
        ensures spends { (F.view self.now.filter).shut port ≡ false → result ≡ not (F.spends self.now.filter port) }
    {
        if self.filter.is_shut(port) {
            return true;
        }
        !self.filter.spent(port)
    }

    /// Whether the closing item was fed to an input, or waits before it.
    pub fn is_shut(&self, port: usize) -> bool
        requires held { port < length self.now.held.items }
        requires there { port < length (F.view self.now.filter).ins }
        ensures { result ≡ spot_shut (spot_of F.view self.now) port }
    {
        let fed = self.filter.is_shut(port);
        fed | closes_there(&self.held[port])
    }
}

// Whether what waits closes its stream.
fn closes_there(held: &Option<Item>) -> bool
    ensures { result ≡ held_closes held.now }
{
    match held {
        None => false,
        Some(item) => is_last(item),
    }
}

/// Whether nothing comes after an item.
pub fn is_last(item: &Item) -> bool
    ensures { result ≡ closes item.now }
{
    match item {
        Item::Audio(_) | Item::Video(_) | Item::Packet(_) | Item::Trailer(_) => false,
        Item::End | Item::Broken => true,
    }
}
