//! The edges on the way to each output.
ghost use Rattle.std.specs.Prelude.{◌≡◌, ◌<◌, ℕ, List, Bool, true, false, Some, length, slice_get, slice_set, replicate, IfOk};
ghost use Rattle.ff_graph_dag.specs.declared.graph.Port.{Port as APort};
ghost use Rattle.ff_graph_dag.specs.declared.graph.Wire.{Wire as AWire};
ghost use Rattle.ff_graph_dag.specs.laws.Graphs.{among};
ghost use Rattle.ff_graph_dag.specs.laws.ties.Tied.{is_needed as needed_is, wire_needed as wire_is_needed, ways_at, with_feeder, IsReached, IsUpward};

use crate::{Plan, Port, Wire};
use std::alloc::{AllocError, Global};

// Whether a filter is needed.
fn is_needed(needed: &[bool], filter: usize) -> bool
    ensures { result ≡ needed_is needed.now filter }
{
    filter < needed.len() && needed[filter]
}

// A filter is needed.
fn mark(needed: &mut Vec<bool>, filter: usize)
    ensures { needed.new.items ≡ slice_set needed.old.items filter true }
{
    if filter < needed.len() {
        needed[filter] = true;
    }
}

// So is the one that an edge leaves, where the one to which it leads is.
fn mark_feeder(needed: &mut Vec<bool>, wire: Wire)
    ensures { needed.new.items ≡ with_feeder needed.old.items wire }
{
    if is_needed(needed, wire.to.filter) {
        if let Some(from) = wire.from {
            mark(needed, from.filter);
        }
    }
}

// So many filters, none of which is needed.
fn none_needed(alloc: Global, count: usize) -> Result<Vec<bool>, AllocError>
    ensures { IfOk result (λ needed. needed.items ≡ replicate count false) }
{
    let mut needed = Vec::new(alloc);
    needed.resize(count, false)?;
    Ok(needed)
}

// The filters that are needed at an output: the one there, and those that feed one that is needed.
fn needed_at(alloc: Global, plan: &Plan, pad: Port) -> Result<Vec<bool>, AllocError>
    ensures pad { pad.filter < length plan.now.nodes.items → IfOk result (λ needed. needed_is needed.items pad.filter ≡ true) }
    ensures closed { IsUpward plan.now.wires.items → IfOk result (λ needed. (w : ℕ) (x : AWire) (g : APort) → slice_get plan.now.wires.items w ≡ Some x
        → needed_is needed.items x.to.filter ≡ true → x.from ≡ Some g → needed_is needed.items g.filter ≡ true) }
{
    let mut needed = none_needed(alloc, plan.nodes.len())?;
    mark(&mut needed, pad.filter);
    let mut edge = plan.wires.len();
    'down: while edge > 0 {
        edge -= 1;
        mark_feeder(&mut needed, plan.wires[edge]);
    }
    Ok(needed)
}

// The edges that lead to a needed filter, the highest first.
fn needed_edges(alloc: Global, plan: &Plan, needed: &[bool]) -> Result<Vec<usize>, AllocError>
    ensures { IfOk result (λ ways. (w : ℕ) → among ways.items w ≡ wire_is_needed needed.now (slice_get plan.now.wires.items w)) }
{
    let mut ways = Vec::new(alloc);
    let mut edge = plan.wires.len();
    'down: while edge > 0 {
        edge -= 1;
        if is_needed(needed, plan.wires[edge].to.filter) {
            ways.push(edge)?;
        }
    }
    Ok(ways)
}

// The edges on the way to an output, where the edges go upward.
fn upward_way(alloc: Global, plan: &Plan, pad: Port) -> Result<Vec<usize>, AllocError>
    requires upward { IsUpward plan.now.wires.items }
    requires there { pad.filter < length plan.now.nodes.items }
    ensures { IfOk result (λ ways. (needed : List Bool) × IsReached plan.now ways.items pad needed) }
{
    let needed = needed_at(alloc, plan, pad)?;
    needed_edges(alloc, plan, &needed)
}

/// For each output the edges on the way to it, the highest first, where the edges go upward.
pub(crate) fn upward_ways(alloc: Global, plan: &Plan) -> Result<Vec<Vec<usize>>, AllocError>
    requires upward { IsUpward plan.now.wires.items }
    requires there { (q : ℕ) (f : APort) → slice_get plan.now.pads.items q ≡ Some f → f.filter < length plan.now.nodes.items }
    ensures count { IfOk result (λ ways. length ways.items ≡ length plan.now.pads.items) }
    ensures reached { IfOk result (λ ways. (q : ℕ) (f : APort) → slice_get plan.now.pads.items q ≡ Some f
        → (needed : List Bool) × IsReached plan.now (ways_at ways.items q) f needed) }
{
    let mut ways = Vec::with_capacity(alloc, plan.pads.len())?;
    'each: for q in 0..plan.pads.len() {
        let way = upward_way(alloc, plan, plan.pads[q])?;
        ways.push_reserved(way);
    }
    Ok(ways)
}
