//! The lanes at the ports of a node.
ghost use Rattle.std.specs.Prelude.{◌≡◌, IfOk};
ghost use Rattle.std.specs.List.{filter_map};
ghost use Rattle.ff_stream.specs.Lanes.{head_of as head_of_lane};
ghost use Rattle.ff_stream.specs.edges.Ports.{shape_of};
ghost use Rattle.ff_plan.specs.Numbers.{leads_between as leads_between_nodes, streams_between as streams_between_nodes};
ghost use Rattle.ff_run_plan.specs.Tasks.{heads_on as heads_on_lanes};
ghost use Rattle.ff_stream.specs.edges.Ports.{lane_of, lanes_into as lanes_into_of, lanes_out_of as lanes_out_of_node};

use ff_frame::StreamHead;
use ff_stream::{Edge, Lane, edges_into, edges_out_of};
use std::alloc::{AllocError, Global};

/// The head of the streams on a lane.
pub(crate) fn head_of(lane: &Lane) -> StreamHead
    ensures { result ≡ head_of_lane lane.now }
{
    match lane {
        Lane::Frames(head) | Lane::Packets(head) => *head,
    }
}

// How many edges lead to a node.
fn count_into(edges: &[Edge], node: usize) -> usize
    ensures { result ≡ (shape_of edges.now node).inputs }
{
    let mut count: usize = 0;
    for k in 0..edges.len() {
        if edges[k].to as usize == node {
            count += 1;
        }
    }
    count
}

/// How many edges leave a node.
pub(crate) fn count_out_of(edges: &[Edge], node: usize) -> usize
    ensures { result ≡ (shape_of edges.now node).outputs }
{
    let mut count: usize = 0;
    for k in 0..edges.len() {
        if edges[k].from as usize == node {
            count += 1;
        }
    }
    count
}

// The lanes of the edges of these numbers, as far as they are there.
fn lanes_of(alloc: Global, edges: &[Edge], numbers: &[usize]) -> Result<Vec<Lane>, AllocError>
    ensures { IfOk result (λ lanes. lanes.items ≡ filter_map (lane_of edges.now) numbers.now) }
{
    let mut lanes = Vec::new(alloc);
    for k in 0..numbers.len() {
        let number = numbers[k];
        if number < edges.len() {
            lanes.push(edges[number].lane.copy())?;
        }
    }
    Ok(lanes)
}

/// The heads of the streams on some lanes.
pub(crate) fn heads_on(alloc: Global, lanes: &[Lane]) -> Result<Vec<StreamHead>, AllocError>
    ensures { IfOk result (λ heads. heads.items ≡ heads_on_lanes lanes.now) }
{
    let mut heads = Vec::new(alloc);
    for k in 0..lanes.len() {
        heads.push(head_of(&lanes[k]))?;
    }
    Ok(heads)
}

// Whether an edge leads to one of the nodes from `low` on, before `high`.
fn leads_between(edge: &Edge, low: usize, high: usize) -> bool
    ensures { result ≡ leads_between_nodes low high edge.now }
{
    low <= edge.to as usize && (edge.to as usize) < high
}

/// How many edges lead to the nodes from `low` on, before `high`.
pub(crate) fn streams_between(edges: &[Edge], low: usize, high: usize) -> usize
    ensures { result ≡ streams_between_nodes low high edges.now }
{
    let mut count: usize = 0;
    for k in 0..edges.len() {
        if leads_between(&edges[k], low, high) {
            count += 1;
        }
    }
    count
}

/// The lanes of the edges at the inputs of a node, by port.
pub(crate) fn lanes_into(
    alloc: Global,
    edges: &[Edge],
    node: usize,
) -> Result<Vec<Lane>, AllocError>
    ensures { IfOk result (λ lanes. lanes.items ≡ lanes_into_of edges.now node) }
{
    let numbers = edges_into(alloc, edges, node, count_into(edges, node))?;
    lanes_of(alloc, edges, &numbers)
}

/// The lanes of the edges at its outputs.
pub(crate) fn lanes_out_of(
    alloc: Global,
    edges: &[Edge],
    node: usize,
) -> Result<Vec<Lane>, AllocError>
    ensures { IfOk result (λ lanes. lanes.items ≡ lanes_out_of_node edges.now node) }
{
    let numbers = edges_out_of(alloc, edges, node, count_out_of(edges, node))?;
    lanes_of(alloc, edges, &numbers)
}
