//! The plan of a drawing of filters.
ghost use Rattle.std.specs.Prelude.{◌≡◌, ◌-◌, ◌≤◌, ℕ, length, IfOk};
ghost use Rattle.ff_graph_dag.specs.laws.ties.Tied.{IsTied};
ghost use Rattle.ff_graph_links.specs.pads.Links.{pads_in};
ghost use Rattle.ff_graph_dag.specs.wiring.Flows.{placed as feeds_placed, placed_counts as counts_placed, placed_pads as pads_placed, IsDrawing};
ghost use Rattle.ff_graph_dag.specs.laws.wiring.Wires.{feeds_in, numbers, IsLinked, IsWired};

use crate::ties::upward_ways;
use crate::wiring::ends::{ends, starts};
use crate::wiring::nodes::nodes;
use crate::wiring::placing::{placed, placed_counts, placed_pads};
use crate::wiring::wires::wires;
use crate::{Plan, Port};
use ff_graph_links::Pad;
use ff_stream::Lane;
use std::alloc::{AllocError, Global};

// The numbers from one up to another.
fn numbers_to(alloc: Global, first: usize, past: usize) -> Result<Vec<usize>, AllocError>
    requires { first ≤ past }
    ensures { IfOk result (λ edges. edges.items ≡ numbers first (past - first)) }
{
    let mut edges = Vec::new(alloc);
    'edges: for edge in first..past {
        edges.push(edge)?;
    }
    Ok(edges)
}

// The plan without the ways to its outputs.
fn unled(
    alloc: Global,
    fed: &[Vec<Option<Port>>],
    counts: &[usize],
    opens: Vec<Port>,
    pads: Vec<Port>,
    ins: Vec<Lane>,
    outs: Vec<Lane>,
) -> Result<Plan, AllocError>
    requires { length counts.now ≡ length fed.now }
    ensures wired { IfOk result (λ plan. IsWired (feeds_in fed.now) counts.now opens.items pads.items plan) }
    ensures ins { IfOk result (λ plan. plan.ins ≡ ins) }
    ensures outs { IfOk result (λ plan. plan.outs ≡ outs) }
{
    let wires = wires(alloc, fed, &opens)?;
    let starts = starts(alloc, &wires, &pads)?;
    let ends = ends(alloc, &wires)?;
    let nodes = nodes(alloc, fed, counts, &ends, &starts)?;
    let edges = numbers_to(alloc, wires.len(), starts.len())?;
    Ok(Plan {
        ins,
        outs,
        nodes,
        wires,
        feeds: opens,
        pads,
        edges,
        ways: Vec::new(alloc),
    })
}

/// The plan of filters that feed one another: `fed` has for each filter which output feeds each of its inputs, and
/// `counts` how many outputs it has. `opens` and `pads` are the inputs and outputs of the graph, and `ins` and `outs`
/// say what these carry.
pub fn wired(
    alloc: Global,
    fed: &[Vec<Option<Port>>],
    counts: &[usize],
    opens: Vec<Port>,
    pads: Vec<Port>,
    ins: Vec<Lane>,
    outs: Vec<Lane>,
) -> Result<Plan, AllocError>
    requires linked { IsLinked (feeds_in fed.now) counts.now opens.items pads.items }
    requires inputs { length ins.items ≡ length opens.items }
    requires outputs { length outs.items ≡ length pads.items }
    ensures wired { IfOk result (λ plan. IsWired (feeds_in fed.now) counts.now opens.items pads.items plan) }
    ensures tied { IfOk result IsTied }
    ensures ins { IfOk result (λ plan. plan.ins ≡ ins) }
    ensures outs { IfOk result (λ plan. plan.outs ≡ outs) }
{
    let mut plan = unled(alloc, fed, counts, opens, pads, ins, outs)?;
    plan.ways = upward_ways(alloc, &plan)?;
    Ok(plan)
}

/// Filters of a graph as they are drawn, by the order of writing.
#[derive(Clone, Copy)]
pub struct Drawing<'a> {
    /// The order in which they are made.
    pub order: &'a [usize],
    /// Which output pad feeds each input pad of each filter; None where it is open.
    pub sources: &'a [Vec<Option<Pad>>],
    /// How many output pads each filter has.
    pub counts: &'a [usize],
    /// The input pads that are the graph's inputs.
    pub opens: &'a [Pad],
    /// The output pads that are the graph's outputs.
    pub outs: &'a [Pad],
}

/// The plan of a drawing, with its filters in the order in which they are made. `ins` and `outs` say what the graph's
/// inputs and outputs carry.
pub fn drawn_plan(
    alloc: Global,
    drawing: &Drawing<'_>,
    ins: Vec<Lane>,
    outs: Vec<Lane>,
) -> Result<Plan, AllocError>
    requires drawing { IsDrawing (pads_in drawing.now.sources.now) drawing.now.order.now drawing.now.counts.now drawing.now.opens.now drawing.now.outs.now }
    requires inputs { length ins.items ≡ length drawing.now.opens.now }
    requires outputs { length outs.items ≡ length drawing.now.outs.now }
    ensures wired { IfOk result (λ plan. IsWired (feeds_placed drawing.now.order.now (pads_in drawing.now.sources.now))
        (counts_placed drawing.now.order.now drawing.now.counts.now) (pads_placed drawing.now.order.now drawing.now.opens.now)
        (pads_placed drawing.now.order.now drawing.now.outs.now) plan) }
    ensures tied { IfOk result IsTied }
    ensures ins { IfOk result (λ plan. plan.ins ≡ ins) }
    ensures outs { IfOk result (λ plan. plan.outs ≡ outs) }
{
    let fed = placed(alloc, drawing.order, drawing.sources)?;
    let counted = placed_counts(alloc, drawing.order, drawing.counts)?;
    let feeds = placed_pads(alloc, drawing.order, drawing.opens)?;
    let pads = placed_pads(alloc, drawing.order, drawing.outs)?;
    wired(alloc, &fed, &counted, feeds, pads, ins, outs)
}
