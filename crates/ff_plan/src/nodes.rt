//! The streams of outputs in their places, and the nodes.
ghost use Rattle.std.specs.Prelude.{◌≡◌, ◌+◌, ◌^◌, ◌<◌, ◌≤◌, ◌++◌, IfOk, OnOk, vec_len, length, map};
ghost use Rattle.std.specs.List.{AllByRecursion, range_with_len};
ghost use Rattle.ff_words.specs.declared.maps.streams.Stream.{Stream};
ghost use Rattle.ff_plan_layout.specs.declared.layout.Laid.{Laid};
ghost use Rattle.ff_plan_layout.specs.declared.layout.Placed.{Placed};
ghost use Rattle.ff_plan.specs.declared.planned.PlanNode.TheVariants as node;
ghost use Rattle.ff_plan_layout.specs.Layout.{place_row as row_placed, place_from};
ghost use Rattle.ff_plan.specs.Nodes.{start_node as node_of_stream};
ghost use Rattle.ff_plan.specs.laws.Numbering.{nodes_in};
ghost use Rattle.ff_plan_layout.specs.laws.Rows.{rows};

use crate::planned::PlanNode;
use ff_plan_layout::{Laid, OutStream, Placed};
use ff_words::maps::Stream;
use std::alloc::{AllocError, Global};

// The streams of an output in their places, of which the first has this number.
fn place_row(
    placed: &mut Vec<Placed>,
    first: u32,
    output: u32,
    streams: &[OutStream],
) -> Result<(), AllocError>
    requires { first + length streams.now < 2 ^ 32 }
    ensures { OnOk result (placed.new.items ≡ placed.old.items ++ row_placed first output 0 streams.now) }
{
    for (stream, what) in streams.iter().enumerate() {
        placed.push(Placed {
            number: first + stream as u32,
            output,
            stream: stream as u32,
            what: *what,
        })?;
    }
    Ok(())
}

/// The streams of all outputs in their places.
pub(crate) fn place(alloc: Global, all: &[Vec<OutStream>]) -> Result<Vec<Placed>, AllocError>
    requires outputs { length all.now ≤ 16 }
    requires few { AllByRecursion (λ v. vec_len v ≤ 16) all.now }
    ensures { IfOk result (λ ps. ps.items ≡ place_from 0 0 (rows all.now)) }
{
    let mut placed = Vec::new(alloc);
    let mut number = 0;
    for (output, streams) in all.iter().enumerate() {
        place_row(&mut placed, number, output as u32, streams.as_slice())?;
        number += streams.len() as u32;
    }
    Ok(placed)
}

fn add_demuxes(nodes: &mut Vec<PlanNode>, inputs: &[u32]) -> Result<(), AllocError>
    ensures { OnOk result (nodes.new.items ≡ nodes.old.items ++ map (λ i. node.Demux i) inputs.now) }
{
    for input in inputs {
        nodes.push(PlanNode::Demux { input: *input })?;
    }
    Ok(())
}

// The node of a stream, behind so many inputs.
fn start_node(inputs: u32, stream: &Stream) -> PlanNode
    ensures { result ≡ node_of_stream inputs stream.now }
{
    if stream.at.input < inputs {
        PlanNode::Dec { stream: stream.at }
    } else {
        PlanNode::Gen {
            source: stream.at.input,
        }
    }
}

fn add_starts(nodes: &mut Vec<PlanNode>, inputs: u32, streams: &[Stream]) -> Result<(), AllocError>
    ensures { OnOk result (nodes.new.items ≡ nodes.old.items ++ map (node_of_stream inputs) streams.now) }
{
    for stream in streams {
        nodes.push(start_node(inputs, stream))?;
    }
    Ok(())
}

fn add_graphs(nodes: &mut Vec<PlanNode>, graphs: &[Laid]) -> Result<(), AllocError>
    ensures { OnOk result (nodes.new.items ≡ nodes.old.items ++ map (λ (g : Laid). node.Graph g.graph) graphs.now) }
{
    for graph in graphs {
        nodes.push(PlanNode::Graph { graph: graph.graph })?;
    }
    Ok(())
}

fn add_shortests(nodes: &mut Vec<PlanNode>, outputs: u32) -> Result<(), AllocError>
    ensures { OnOk result (nodes.new.items ≡ nodes.old.items ++ map (λ o. node.Shortest o) (range_with_len 0 outputs)) }
{
    for output in 0..outputs {
        nodes.push(PlanNode::Shortest { output })?;
    }
    Ok(())
}

fn add_encs(nodes: &mut Vec<PlanNode>, placed: &[Placed]) -> Result<(), AllocError>
    ensures { OnOk result (nodes.new.items ≡ nodes.old.items ++ map (λ (p : Placed). node.Enc p.output p.stream) placed.now) }
{
    for one in placed {
        nodes.push(PlanNode::Enc {
            output: one.output,
            stream: one.stream,
        })?;
    }
    Ok(())
}

fn add_muxes(nodes: &mut Vec<PlanNode>, outputs: u32) -> Result<(), AllocError>
    ensures { OnOk result (nodes.new.items ≡ nodes.old.items ++ map (λ o. node.Mux o) (range_with_len 0 outputs)) }
{
    for output in 0..outputs {
        nodes.push(PlanNode::Mux { output })?;
    }
    Ok(())
}

/// The nodes of these of so many inputs, and of these streams, graphs and outputs.
pub(crate) fn all_nodes(
    alloc: Global,
    count: u32,
    inputs: &[u32],
    streams: &[Stream],
    graphs: &[Laid],
    placed: &[Placed],
    outputs: u32,
) -> Result<Vec<PlanNode>, AllocError>
    ensures { IfOk result (λ ns. ns.items ≡ nodes_in count inputs.now streams.now graphs.now placed.now outputs) }
{
    let mut nodes = Vec::new(alloc);
    add_demuxes(&mut nodes, inputs)?;
    add_starts(&mut nodes, count, streams)?;
    add_graphs(&mut nodes, graphs)?;
    add_shortests(&mut nodes, outputs)?;
    add_encs(&mut nodes, placed)?;
    add_muxes(&mut nodes, outputs)?;
    Ok(nodes)
}
