//! The names and labels of a job's complex graphs, their loops, and the first label that nothing uses.
ghost use Rattle.std.specs.Prelude.{◌≡◌, ◌+◌, ◌^◌, ◌<◌, ◌≤◌, ◌++◌, None, is_some, not, IfOk, IfErr, vec_len, length, map};
ghost use Rattle.std.proofs.Props.{props};
ghost use Rattle.std.specs.List.{AllByRecursion};
ghost use Rattle.ff_lang.specs.declared.graph.Graph.{Graph};
ghost use Rattle.ff_words.specs.maps.Choice.{lists};
ghost use Rattle.ff_graph_links.specs.labels.Labels.{filters_of};
ghost use Rattle.ff_plan_layout.specs.Labels.{stream_of_label as of_label, refusal_of, labels_fault};
ghost use Rattle.ff_plan_layout.specs.Order.{loop_fault};
ghost use Rattle.ff_plan_layout.specs.laws.Refusals.{IsFault};

use crate::error::PlanError;
use crate::filtering::Filtering;
use crate::labelled::stream_of_label;
use ff_frame::{ConfigError, StreamHead};
use ff_graph_links::{Known, LabelFault, check_labels, graph_on_loop};
use ff_lang::Graph;
use std::alloc::{AllocError, Global};

// What names and labels of graphs may name: filters, and streams of inputs.
#[derive(Drop)]
struct Names<'a, F> {
    filtering: &'a F,
    heads: &'a [Vec<StreamHead>],
    ghost inputs: { length heads.now < 2 ^ 32 },
    ghost streams: { AllByRecursion (λ v. vec_len v < 2 ^ 32) heads.now } by { Prim.hlevel props },
}

impl<'a, F: Filtering> Known for Names<'a, F> {
    ghost filter = { λ names. (F.rules names.filtering.now).known };

    ghost stream = { λ names label. is_some (of_label (F.rules names.filtering.now) (lists names.heads.now) label) };

    fn is_filter(&self, name: &str) -> bool {
        self.filtering.is_known(name)
    }

    fn is_stream(&self, alloc: Global, label: &str) -> Result<bool, AllocError> {
        let stream = stream_of_label(alloc, self.filtering, self.heads, label)?;
        Ok(stream.is_some())
    }
}

/// A fault of names and labels as a refusal.
pub(crate) fn refusal(fault: LabelFault) -> PlanError
    ensures { result ≡ refusal_of fault }
{
    match fault {
        LabelFault::UnknownFilter { graph, filter } => PlanError::Config {
            graph,
            filter,
            kind: ConfigError::UnknownFilter,
        },
        LabelFault::UnknownLabel { label } => PlanError::UnknownLabel { label },
        LabelFault::LabelTwice { label } => PlanError::LabelTwice { label },
        LabelFault::NoMemory => PlanError::NoMemory,
    }
}

/// Looks at the names and labels of complex graphs, by graph and filter.
pub(crate) fn check_graphs<F: Filtering>(
    alloc: Global,
    filtering: &F,
    heads: &[Vec<StreamHead>],
    graphs: &[Graph],
) -> Result<(), PlanError>
    requires inputs { length heads.now < 2 ^ 32 }
    requires streams { AllByRecursion (λ v. vec_len v < 2 ^ 32) heads.now }
    requires graphs { length graphs.now ≤ 16 }
    requires filters { AllByRecursion (λ (g : Graph). length (filters_of g) ≤ 65536) graphs.now }
    ensures fine { IfOk result (λ _. labels_fault (F.rules filtering.now) (lists heads.now) graphs.now ≡ None) }
    ensures fault { IfErr result (IsFault (labels_fault (F.rules filtering.now) (lists heads.now) graphs.now)) }
{
    let names = Names { filtering, heads };
    match check_labels(alloc, &names, graphs) {
        Ok(()) => Ok(()),
        Err(fault) => Err(refusal(fault)),
    }
}

// A mark for each graph that has a loop of its own.
fn own_loops<F: Filtering>(
    alloc: Global,
    filtering: &F,
    graphs: &[Graph],
) -> Result<Vec<bool>, AllocError>
    ensures { IfOk result (λ own. own.items ≡ map (F.rules filtering.now).loops graphs.now) }
{
    let mut own = Vec::new(alloc);
    for graph in graphs {
        let looped = filtering.has_loop(alloc, graph)?;
        own.push(looped)?;
    }
    Ok(own)
}

/// Looks for loops of complex graphs: the least graph on one.
pub(crate) fn check_loops<F: Filtering>(
    alloc: Global,
    filtering: &F,
    graphs: &[Graph],
) -> Result<(), PlanError>
    requires { length graphs.now ≤ 16 }
    ensures fine { IfOk result (λ _. loop_fault (F.rules filtering.now) graphs.now ≡ None) }
    ensures fault { IfErr result (IsFault (loop_fault (F.rules filtering.now) graphs.now)) }
{
    let own = own_loops(alloc, filtering, graphs)?;
    match graph_on_loop(alloc, graphs, own.as_slice())? {
        Some(graph) => Err(PlanError::Loop { graph }),
        None => Ok(()),
    }
}
