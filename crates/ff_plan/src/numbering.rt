//! The plan made of a layout, by numbering its nodes.
ghost use Rattle.std.specs.Prelude.{◌≡◌, ◌+◌, ◌≤◌, IfOk, length, vec_len};
ghost use Rattle.std.specs.List.{AllByRecursion};
ghost use Rattle.ff_words.specs.maps.Choice.{lists};
ghost use Rattle.ff_plan_layout.specs.Layout.{placed as placed_in};
ghost use Rattle.ff_plan.specs.Nodes.{plan_of};
ghost use Rattle.ff_plan.specs.laws.Numbering.{drawing_of, firsts_at, outputs_wires, plan_in, routes_in};
ghost use Rattle.ff_plan_layout.specs.laws.Limits.{HasFewIns};
ghost use Rattle.ff_plan_layout.specs.laws.Limits.{IsSmall};
ghost use Rattle.ff_plan_layout.specs.laws.Rows.{layout_in};
ghost use Rattle.ff_plan.specs.Wires.{edges_of};

use crate::firsts::Firsts;
use crate::nodes::{all_nodes, place};
use crate::number::number_ports;
use crate::origins::{all_origins, behind, used_inputs, used_sources, used_streams};
use crate::planned::{Plan, PlanNode};
use crate::routes::{graph_ways, ways};
use crate::wires::wire_up;
use ff_frame::StreamHead;
use ff_lang::Sequence;
use ff_plan_layout::{GraphText, Laid, Laying, Placed};
use ff_sched::{Graphs, Routes, Ways};
use ff_source::Made;
use ff_stream::Edge;
use ff_words::maps::Stream;
use std::alloc::{AllocError, Global};

/// The nodes of a plan and the edges between them.
#[derive(Drop)]
pub(crate) struct Drawing {
    nodes: Sequence<PlanNode>,
    edges: Sequence<Edge>,
}

// The first numbers after so many nodes of each kind.
fn first_numbers(
    inputs: usize,
    streams: usize,
    graphs: usize,
    shortests: u32,
    placed: usize,
) -> Firsts
    requires inputs { inputs ≤ 16 }
    requires streams { streams ≤ 272 }
    requires graphs { graphs ≤ 16 }
    requires shortests { shortests ≤ 16 }
    requires placed { placed ≤ 16 }
    ensures { result ≡ firsts_at inputs streams graphs shortests placed }
{
    let decs = inputs as u32;
    let first_graph = decs + streams as u32;
    let first_shortest = first_graph + graphs as u32;
    let encs = first_shortest + shortests;
    Firsts {
        decs,
        graphs: first_graph,
        shortests: first_shortest,
        encs,
        muxes: encs + placed as u32,
    }
}

// The edges between the nodes of these rows.
fn all_edges(
    alloc: Global,
    inputs: &[u32],
    read: &[Stream],
    streams: &[Stream],
    graphs: &[Laid],
    placed: &[Placed],
    outputs: u32,
) -> Result<Vec<Edge>, AllocError>
    requires inputs { length inputs.now ≤ 16 }
    requires read { length read.now ≤ 256 }
    requires streams { length streams.now ≤ 272 }
    requires graphs { length graphs.now ≤ 16 }
    requires ins { AllByRecursion HasFewIns graphs.now }
    requires placed { length placed.now ≤ 16 }
    requires small { AllByRecursion IsSmall placed.now }
    requires outputs { outputs ≤ 16 }
    ensures { IfOk result (λ es. es.items ≡ edges_of (outputs_wires inputs.now read.now streams.now graphs.now placed.now outputs)) }
{
    let firsts = first_numbers(
        inputs.len(),
        streams.len(),
        graphs.len(),
        outputs,
        placed.len(),
    );
    let wires = wire_up(alloc, firsts, inputs, read, streams, graphs, placed)?;
    number_ports(alloc, wires.as_slice())
}

fn all_routes(
    alloc: Global,
    sources: u32,
    graphs: &[Laid],
    placed: &[Placed],
) -> Result<Routes, AllocError>
    requires { length graphs.now ≤ 16 }
    ensures { IfOk result (λ r. r ≡ routes_in sources graphs.now placed.now) }
{
    let streams = ways(alloc, placed)?;
    let graphs = graph_ways(alloc, graphs)?;
    Ok(Routes {
        sources,
        streams: Ways::new(streams),
        graphs: Graphs::new(graphs),
    })
}

// The nodes of these rows of so many inputs, and the edges between them.
fn draw(
    alloc: Global,
    count: u32,
    inputs: &[u32],
    read: &[Stream],
    streams: &[Stream],
    graphs: &[Laid],
    placed: &[Placed],
    outputs: u32,
) -> Result<Drawing, AllocError>
    requires inputs { length inputs.now ≤ 16 }
    requires read { length read.now ≤ 256 }
    requires streams { length streams.now ≤ 272 }
    requires graphs { length graphs.now ≤ 16 }
    requires ins { AllByRecursion HasFewIns graphs.now }
    requires placed { length placed.now ≤ 16 }
    requires small { AllByRecursion IsSmall placed.now }
    requires outputs { outputs ≤ 16 }
    ensures { IfOk result (λ d. d ≡ drawing_of count inputs.now read.now streams.now graphs.now placed.now outputs) }
{
    let nodes = all_nodes(alloc, count, inputs, streams, graphs, placed, outputs)?;
    let edges = all_edges(alloc, inputs, read, streams, graphs, placed, outputs)?;
    Ok(Drawing {
        nodes: Sequence::of(nodes),
        edges: Sequence::of(edges),
    })
}

// The plan of so many outputs with these streams and sources.
fn plan_placed(
    alloc: Global,
    heads: &[Vec<StreamHead>],
    graphs: &[Laid],
    placed: &[Placed],
    outputs: u32,
    texts: Vec<GraphText>,
    made: Vec<Made>,
) -> Result<Plan, AllocError>
    requires inputs { length heads.now + length made.items ≤ 16 }
    requires streams { AllByRecursion (λ v. vec_len v ≤ 16) heads.now }
    requires graphs { length graphs.now ≤ 16 }
    requires ins { AllByRecursion HasFewIns graphs.now }
    requires placed { length placed.now ≤ 16 }
    requires small { AllByRecursion IsSmall placed.now }
    requires outputs { outputs ≤ 16 }
    ensures { IfOk result (λ p. p ≡ plan_in (lists heads.now) made.items graphs.now placed.now outputs texts.items) }
{
    let origins = all_origins(alloc, graphs, placed)?;
    let count = heads.len() as u32;
    let read = used_streams(alloc, heads, origins.as_slice())?;
    let sources = used_sources(alloc, count, made.as_slice(), origins.as_slice())?;
    let streams = behind(sources, read.as_slice())?;
    let inputs = used_inputs(alloc, heads.len(), read.as_slice())?;
    let drawing = draw(
        alloc,
        count,
        inputs.as_slice(),
        read.as_slice(),
        streams.as_slice(),
        graphs,
        placed,
        outputs,
    )?;
    let routes = all_routes(alloc, count + made.len() as u32, graphs, placed)?;
    Ok(Plan {
        nodes: drawing.nodes,
        edges: drawing.edges,
        routes,
        texts: Sequence::of(texts),
        made: Sequence::of(made),
    })
}

/// The plan of a layout, for inputs with these heads.
pub(crate) fn numbered_plan(
    alloc: Global,
    heads: &[Vec<StreamHead>],
    laying: Laying,
) -> Result<Plan, AllocError>
    requires inputs { length heads.now + length laying.made.items ≤ 16 }
    requires streams { AllByRecursion (λ v. vec_len v ≤ 16) heads.now }
    requires few { length (placed_in (layout_in (lists heads.now) laying)) ≤ 16 }
    requires graphs { length laying.graphs.items ≤ 16 }
    requires ins { AllByRecursion HasFewIns laying.graphs.items }
    requires outputs { length laying.outputs.items ≤ 16 }
    ensures { IfOk result (λ p. p ≡ plan_of (layout_in (lists heads.now) laying)) }
{
    let Laying {
        made,
        graphs,
        outputs,
        texts,
    } = laying;
    let placed = place(alloc, outputs.as_slice())?;
    plan_placed(
        alloc,
        heads,
        graphs.as_slice(),
        placed.as_slice(),
        outputs.len() as u32,
        texts,
        made,
    )
}
