//! The cuts of what decoders and graphs give.
ghost use Rattle.std.specs.Prelude.{◌≡◌, IfOk, Some, slice_get};
ghost use Rattle.std.specs.List.{filter_map};
ghost use Rattle.ff_run_plan.specs.Cuts.{uncut as uncut_time, input_cut as input_cut_of, output_cut as output_cut_of};
ghost use Rattle.ff_run_plan.specs.Cuts.{all_kept as all_kept_cut, counted_on as counted_on_lane, for_lane as cut_for_lane};
ghost use Rattle.ff_run_plan.specs.Cuts.{cut_before as cut_before_node, cut_at_end as cut_at_end_of, cut_on, cuts_out_of as cuts_out_of_node};

use crate::lanes::count_out_of;
use ff_frame::StreamHead;
use ff_plan::PlanNode;
use ff_stream::{Edge, Lane, edges_out_of};
use ff_time::TimeCut;
use ff_trim::OutputCut;
use ff_words::{InputJob, OutputJob};
use std::alloc::{AllocError, Global};

// All is kept.
fn uncut() -> TimeCut
    ensures { result ≡ uncut_time }
{
    TimeCut {
        start: 0,
        length: None,
    }
}

/// The cut of the input of this number.
pub(crate) fn input_cut(inputs: &[InputJob], number: u32) -> TimeCut
    ensures { result ≡ input_cut_of (slice_get inputs.now number) }
{
    match inputs.get(number as usize) {
        Some(input) => input.cut,
        None => uncut(),
    }
}

fn all_kept() -> OutputCut
    ensures { result ≡ all_kept_cut }
{
    OutputCut {
        time: uncut(),
        frames: None,
    }
}

// That of the output of this number.
fn output_cut(outputs: &[OutputJob], number: u32) -> OutputCut
    ensures { result ≡ output_cut_of (slice_get outputs.now number) }
{
    match outputs.get(number as usize) {
        Some(out) => OutputCut {
            time: out.cut,
            frames: out.frames,
        },
        None => all_kept(),
    }
}

// That of frames that go to a node.
fn cut_before(outputs: &[OutputJob], node: PlanNode) -> OutputCut
    ensures { result ≡ cut_before_node outputs.now node }
{
    match node {
        PlanNode::Shortest { output } => output_cut(outputs, output),
        PlanNode::Demux { .. }
        | PlanNode::Gen { .. }
        | PlanNode::Dec { .. }
        | PlanNode::Graph { .. }
        | PlanNode::Enc { .. }
        | PlanNode::Mux { .. } => all_kept(),
    }
}

// That of frames that go to the node of this number.
fn cut_at_end(outputs: &[OutputJob], nodes: &[PlanNode], number: u32) -> OutputCut
    ensures { result ≡ cut_at_end_of outputs.now (slice_get nodes.now number) }
{
    match nodes.get(number as usize) {
        Some(node) => cut_before(outputs, *node),
        None => all_kept(),
    }
}

// Frames are counted where they are pictures.
fn counted_on(lane: &Lane, frames: Option<u32>) -> Option<u32>
    ensures { result ≡ counted_on_lane lane.now frames }
{
    match lane {
        Lane::Frames(StreamHead::Video { .. }) => frames,
        Lane::Frames(StreamHead::Audio { .. }) => None,
        Lane::Packets(_) => None,
    }
}

fn for_lane(lane: &Lane, cut: OutputCut) -> OutputCut
    ensures { result ≡ cut_for_lane lane.now cut }
{
    OutputCut {
        time: cut.time,
        frames: counted_on(lane, cut.frames),
    }
}

// Those of frames on the edges of these numbers, as far as they are there.
fn cuts_on(
    alloc: Global,
    outputs: &[OutputJob],
    nodes: &[PlanNode],
    edges: &[Edge],
    numbers: &[usize],
) -> Result<Vec<OutputCut>, AllocError>
    ensures { IfOk result (λ cuts. cuts.items ≡ filter_map (λ w. cut_on outputs.now nodes.now (slice_get edges.now w)) numbers.now) }
{
    let mut cuts = Vec::new(alloc);
    for k in 0..numbers.len() {
        let number = numbers[k];
        if number < edges.len() {
            let edge = &edges[number];
            cuts.push(for_lane(&edge.lane, cut_at_end(outputs, nodes, edge.to)))?;
        }
    }
    Ok(cuts)
}

/// Those of the frames at the outputs of a node, by port.
pub(crate) fn cuts_out_of(
    alloc: Global,
    outputs: &[OutputJob],
    nodes: &[PlanNode],
    edges: &[Edge],
    node: usize,
) -> Result<Vec<OutputCut>, AllocError>
    ensures { IfOk result (λ cuts. cuts.items ≡ cuts_out_of_node outputs.now nodes.now edges.now node) }
{
    let numbers = edges_out_of(alloc, edges, node, count_out_of(edges, node))?;
    cuts_on(alloc, outputs, nodes, edges, &numbers)
}
