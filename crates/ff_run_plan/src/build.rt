//! The part of each node of a plan.
ghost use Rattle.std.specs.Prelude.{◌≡◌, ◌+◌, ◌-◌, ◌^◌, ◌<◌, ◌≤◌, ◌∷◌, ℕ, List, [], length, map, slice_get, vec_capacity};
ghost use Rattle.std.specs.Prelude.{Option, Some, None, IfSome, IsNone, IfOk, IfErr};
ghost use Rattle.ff_stream.specs.declared.item.Lane.{Lane};
ghost use Rattle.ff_stream.specs.declared.item.Lane.TheVariants.{Frames, Packets};
ghost use Rattle.ff_net.specs.Pasts.{start};
ghost use Rattle.ff_source.specs.declared.made.Made.{Made};
ghost use Rattle.ff_source.specs.Sources.{head_of as head_of_made};
ghost use Rattle.ff_words.specs.declared.job.OutputJob.{OutputJob};
ghost use Rattle.ff_plan.specs.Decoded.{decoded_of};
ghost use Rattle.ff_plan.specs.declared.planned.PlanNode.TheVariants.{Demux as DemuxNode, Mux as MuxNode};
ghost use Rattle.ff_run_plan.specs.Asked.{asked_of};
ghost use Rattle.ff_run_plan.specs.Kinds.{AreUsed, IsNew, used_heads};
ghost use Rattle.ff_run_plan.specs.Tasks.{first_at, cuts_at};
ghost use Rattle.ff_run_plan.specs.Parts.{HaveNumbers, IsFitting, IsAside, IsPart, AreFitting, AreOrdered, AllAside, AreParts};
ghost use Rattle.ff_stream.specs.edges.Ports.{lanes_into as lanes_into_of, lanes_out_of as lanes_out_of_node};
ghost use Rattle.ff_plan.specs.declared.planned.PlanNode.{PlanNode};

use crate::connecting::connect_all;
use crate::cuts::{cuts_out_of, input_cut};
use crate::decoding::decoded_in;
use crate::graphs::{graph_at, shortest_at};
use crate::kinds::Kinds;
use crate::lanes::{head_of, heads_on, lanes_into, lanes_out_of, streams_between};
use crate::tables::{put, take};
use ff_frame::StreamHead;
use ff_host::{Sink, Source};
use ff_net::Machine;
use ff_plan::PlanNode;
use ff_plan_layout::GraphText;
use ff_source::Made;
use ff_stream::{Edge, Lane};
use ff_trim::OutputCut;
use ff_words::{Job, OutputJob};
use std::alloc::Global;

/// The sources and sinks of a run in their places, by number; a place is empty while a part has what belongs there.
#[derive(Drop)]
pub(crate) struct Places<Src: Drop, Snk: Drop> {
    /// The sources, by input.
    pub(crate) srcs: Vec<Option<Src>>,
    /// The sinks, by output.
    pub(crate) snks: Vec<Option<Snk>>,
}

// The demuxer of an input, of which these nodes decode some streams, over the source in its place.
fn demuxer_at<
    K: Kinds<Src, Snk, M>,
    Src: Source + Send + Drop,
    Snk: Sink + Send + Drop,
    M: Machine + Send + Drop,
>(
    alloc: Global,
    input: u32,
    heads: &[K::Head],
    nodes: &[PlanNode],
    srcs: &mut Vec<Option<Src>>,
) -> Option<M>
    requires there { (src : Src) × (slice_get srcs.old.items input ≡ Some (Some src)) }
    requires fits { (head : K.Head) × (slice_get heads.now input ≡ Some head) × K.is.IsHead head × AreUsed (K.is.streams head) (decoded_of nodes.now input) }
    ensures made { IfSome result (λ m. (src : Src) → slice_get srcs.old.items input ≡ Some (Some src) → (head : K.Head) → slice_get heads.now input ≡ Some head
        → IsNew (Some input) [] (map (λ h. Packets h) (used_heads (K.is.streams head) (decoded_of nodes.now input))) (Src.name src) (Src.faults src) (M.view m)) }
    ensures starts { IfSome result (λ m. (src : Src) → slice_get srcs.old.items input ≡ Some (Some src) → (head : K.Head) → slice_get heads.now input ≡ Some head
        → (bytes : List ℕ) → Src.left src ≡ Some bytes → (M.view m).stands (start (K.is.demux_task input head (decoded_of nodes.now input) bytes))) }
    ensures back { IsNone result → (w : ℕ) → slice_get srcs.new.items w ≡ slice_get srcs.old.items w }
    ensures kept { (w : ℕ) → (w ≡ input → ⊥) → slice_get srcs.new.items w ≡ slice_get srcs.old.items w }
    ensures as_many { length srcs.new.items ≡ length srcs.old.items }
{
    let Ok(used) = decoded_in(alloc, nodes, input) else {
        return None;
    };
    let place = input as usize;
    let src = take(srcs, place);
    match K::demuxer(alloc, input, &heads[place], &used, src) {
        Ok(part) => Some(part),
        Err(src) => {
            put(srcs, place, src);
            None
        }
    }
}

// The part of a source filter, whose number among the sources is behind those of so many inputs.
fn generator_at<
    K: Kinds<Src, Snk, M>,
    Src: Source + Send + Drop,
    Snk: Sink + Send + Drop,
    M: Machine + Send + Drop,
>(alloc: Global, source: u32, inputs: usize, made: &[Made]) -> M
    requires { (m : Made) × (slice_get made.now (source - inputs) ≡ Some m) × K.is.CanMake m }
    ensures new { (m : Made) → slice_get made.now (source - inputs) ≡ Some m → IsNew (Some source) [] (Frames (head_of_made m) ∷ []) None 0 (M.view result) }
    ensures starts { (m : Made) → slice_get made.now (source - inputs) ≡ Some m → (M.view result).stands (start (K.is.gen_task source m)) }
{
    let place = (source as usize).saturating_sub(inputs);
    K::generator(alloc, source, made[place])
}

// The muxer of an output, whose first stream has this number, over the sink in its place.
fn muxer_at<
    K: Kinds<Src, Snk, M>,
    Src: Source + Send + Drop,
    Snk: Sink + Send + Drop,
    M: Machine + Send + Drop,
>(
    alloc: Global,
    output: u32,
    first: u32,
    outputs: &[OutputJob],
    coded: &[StreamHead],
    snks: &mut Vec<Option<Snk>>,
) -> Option<M>
    requires there { (snk : Snk) × (slice_get snks.old.items output ≡ Some (Some snk)) }
    requires fits { (out : OutputJob) × (slice_get outputs.now output ≡ Some out) × K.is.CanMux out coded.now }
    requires numbers { first + length coded.now ≤ 2 ^ 32 }
    ensures made { IfSome result (λ m. (snk : Snk) → slice_get snks.old.items output ≡ Some (Some snk)
        → IsNew None (map (λ head. Packets head) coded.now) [] (Snk.name snk) (Snk.faults snk) (M.view m)) }
    ensures starts { IfSome result (λ m. (snk : Snk) → slice_get snks.old.items output ≡ Some (Some snk) → (out : OutputJob) → slice_get outputs.now output ≡ Some out
        → Snk.holds snk ≡ Some [] → (M.view m).stands (start (K.is.mux_task first out coded.now))) }
    ensures back { IsNone result → (w : ℕ) → slice_get snks.new.items w ≡ slice_get snks.old.items w }
    ensures kept { (w : ℕ) → (w ≡ output → ⊥) → slice_get snks.new.items w ≡ slice_get snks.old.items w }
    ensures as_many { length snks.new.items ≡ length snks.old.items }
{
    let place = output as usize;
    let snk = take(snks, place);
    match K::muxer(alloc, first, &outputs[place], coded, snk) {
        Ok(part) => Some(part),
        Err(snk) => {
            put(snks, place, snk);
            None
        }
    }
}

// The part of a node with these lanes at its inputs and outputs, and with these cuts after its outputs. Its first
// output stream has this number. None where memory is refused; then all is in its place.
fn part_at<
    K: Kinds<Src, Snk, M>,
    Src: Source + Send + Drop,
    Snk: Sink + Send + Drop,
    M: Machine + Send + Drop,
>(
    alloc: Global,
    node: PlanNode,
    nodes: &[PlanNode],
    first: u32,
    cuts: &[OutputCut],
    ins: &[Lane],
    outs: &[Lane],
    heads: &[K::Head],
    job: &Job,
    texts: &[GraphText],
    made: &[Made],
    places: &mut Places<Src, Snk>,
) -> Option<M>
    requires fits { IsFitting K.is (asked_of job.now texts.now made.now nodes.now) heads.now ins.now outs.now node }
    requires numbers { (o : ℕ) → node ≡ MuxNode o → first + length ins.now ≤ 2 ^ 32 }
    requires as_many { length cuts.now ≡ length outs.now }
    requires source { (i : ℕ) → node ≡ DemuxNode i → (s : Src) × (slice_get places.old.srcs.items i ≡ Some (Some s)) }
    requires sink { (o : ℕ) → node ≡ MuxNode o → (s : Snk) × (slice_get places.old.snks.items o ≡ Some (Some s)) }
    ensures made { IfSome result (λ m. (srcs : List Src) (snks : List Snk) → ((i : ℕ) → node ≡ DemuxNode i → IsAside srcs places.old.srcs.items i)
        → ((o : ℕ) → node ≡ MuxNode o → IsAside snks places.old.snks.items o)
        → IsPart K.is Src.left Src.name Src.faults Snk.holds Snk.name Snk.faults (asked_of job.now texts.now made.now nodes.now) heads.now srcs snks
        first cuts.now ins.now outs.now node (M.view m)) }
    ensures srcs_back { IsNone result → (w : ℕ) → slice_get places.new.srcs.items w ≡ slice_get places.old.srcs.items w }
    ensures snks_back { IsNone result → (w : ℕ) → slice_get places.new.snks.items w ≡ slice_get places.old.snks.items w }
    ensures srcs_kept { (w : ℕ) → (node ≡ DemuxNode w → ⊥) → slice_get places.new.srcs.items w ≡ slice_get places.old.srcs.items w }
    ensures snks_kept { (w : ℕ) → (node ≡ MuxNode w → ⊥) → slice_get places.new.snks.items w ≡ slice_get places.old.snks.items w }
    ensures src_count { length places.new.srcs.items ≡ length places.old.srcs.items }
    ensures snk_count { length places.new.snks.items ≡ length places.old.snks.items }
{
    match node {
        PlanNode::Demux { input } => {
            demuxer_at::<K, Src, Snk, M>(alloc, input, heads, nodes, &mut places.srcs)
        }
        PlanNode::Gen { source } => {
            let inputs = job.inputs.as_slice().len();
            Some(generator_at::<K, Src, Snk, M>(alloc, source, inputs, made))
        }
        PlanNode::Dec { stream } => {
            let cut = input_cut(job.inputs.as_slice(), stream.input);
            K::decoder(alloc, &head_of(&ins[0]), cut, outs.len()).ok()
        }
        PlanNode::Graph { graph } => {
            let Ok(heads) = heads_on(alloc, ins) else {
                return None;
            };
            graph_at::<K, Src, Snk, M>(alloc, graph, job, texts, &heads, cuts)
        }
        PlanNode::Shortest { output } => {
            let Ok(heads) = heads_on(alloc, ins) else {
                return None;
            };
            shortest_at::<K, Src, Snk, M>(alloc, output, job.outputs.as_slice(), &heads)
        }
        PlanNode::Enc { .. } => K::encoder(alloc, &head_of(&ins[0]), &head_of(&outs[0])).ok(),
        PlanNode::Mux { output } => {
            let Ok(coded) = heads_on(alloc, ins) else {
                return None;
            };
            let outputs = job.outputs.as_slice();
            muxer_at::<K, Src, Snk, M>(alloc, output, first, outputs, &coded, &mut places.snks)
        }
    }
}

// The part of the node of this number, by its edges.
fn part_of<
    K: Kinds<Src, Snk, M>,
    Src: Source + Send + Drop,
    Snk: Sink + Send + Drop,
    M: Machine + Send + Drop,
>(
    alloc: Global,
    number: usize,
    nodes: &[PlanNode],
    edges: &[Edge],
    heads: &[K::Head],
    job: &Job,
    texts: &[GraphText],
    made: &[Made],
    places: &mut Places<Src, Snk>,
) -> Option<M>
    requires there { number < length nodes.now }
    requires fitting { AreFitting K.is (asked_of job.now texts.now made.now nodes.now) heads.now edges.now nodes.now }
    requires numbers { HaveNumbers (asked_of job.now texts.now made.now nodes.now) edges.now nodes.now }
    requires source { (i : ℕ) → slice_get nodes.now number ≡ Some (DemuxNode i) → (s : Src) × (slice_get places.old.srcs.items i ≡ Some (Some s)) }
    requires sink { (o : ℕ) → slice_get nodes.now number ≡ Some (MuxNode o) → (s : Snk) × (slice_get places.old.snks.items o ≡ Some (Some s)) }
    ensures made { IfSome result (λ m. (n : PlanNode) → slice_get nodes.now number ≡ Some n → (srcs : List Src) (snks : List Snk)
        → ((i : ℕ) → n ≡ DemuxNode i → IsAside srcs places.old.srcs.items i) → ((o : ℕ) → n ≡ MuxNode o → IsAside snks places.old.snks.items o)
        → IsPart K.is Src.left Src.name Src.faults Snk.holds Snk.name Snk.faults (asked_of job.now texts.now made.now nodes.now) heads.now srcs snks
        (first_at (asked_of job.now texts.now made.now nodes.now) nodes.now edges.now number) (cuts_at (asked_of job.now texts.now made.now nodes.now) nodes.now edges.now number)
        (lanes_into_of edges.now number) (lanes_out_of_node edges.now number) n (M.view m)) }
    ensures srcs_back { IsNone result → (w : ℕ) → slice_get places.new.srcs.items w ≡ slice_get places.old.srcs.items w }
    ensures snks_back { IsNone result → (w : ℕ) → slice_get places.new.snks.items w ≡ slice_get places.old.snks.items w }
    ensures srcs_kept { (w : ℕ) → (slice_get nodes.now number ≡ Some (DemuxNode w) → ⊥) → slice_get places.new.srcs.items w ≡ slice_get places.old.srcs.items w }
    ensures snks_kept { (w : ℕ) → (slice_get nodes.now number ≡ Some (MuxNode w) → ⊥) → slice_get places.new.snks.items w ≡ slice_get places.old.snks.items w }
    ensures src_count { length places.new.srcs.items ≡ length places.old.srcs.items }
    ensures snk_count { length places.new.snks.items ≡ length places.old.snks.items }
{
    let Ok(ins) = lanes_into(alloc, edges, number) else {
        return None;
    };
    let Ok(outs) = lanes_out_of(alloc, edges, number) else {
        return None;
    };
    let outputs = job.outputs.as_slice();
    let Ok(cuts) = cuts_out_of(alloc, outputs, nodes, edges, number) else {
        return None;
    };
    let muxes = nodes.len().saturating_sub(outputs.len());
    let first = streams_between(edges, muxes, number) as u32;
    part_at::<K, Src, Snk, M>(
        alloc,
        nodes[number],
        nodes,
        first,
        &cuts,
        &ins,
        &outs,
        heads,
        job,
        texts,
        made,
        places,
    )
}

/// The parts of all nodes, told of each other along the edges. Where memory is refused they are those of the first
/// nodes, at most of all.
pub(crate) fn build<
    K: Kinds<Src, Snk, M>,
    Src: Source + Send + Drop,
    Snk: Sink + Send + Drop,
    M: Machine + Send + Drop,
>(
    alloc: Global,
    nodes: &[PlanNode],
    edges: &[Edge],
    queue: usize,
    heads: &[K::Head],
    job: &Job,
    texts: &[GraphText],
    made: &[Made],
    mut parts: Vec<M>,
    places: &mut Places<Src, Snk>,
) -> Result<Vec<M>, Vec<M>>
    requires room { (parts.items ≡ []) × (length nodes.now ≤ vec_capacity parts) }
    requires fitting { AreFitting K.is (asked_of job.now texts.now made.now nodes.now) heads.now edges.now nodes.now }
    requires numbers { HaveNumbers (asked_of job.now texts.now made.now nodes.now) edges.now nodes.now }
    requires ordered { AreOrdered (length places.old.srcs.items) (length places.old.snks.items) nodes.now }
    requires aside { (srcs : List Src) × (snks : List Snk) × AllAside srcs places.old.srcs.items × AllAside snks places.old.snks.items }
    ensures all { IfOk result (λ parts. length parts.items ≡ length nodes.now) }
    ensures ok { IfOk result (λ parts. (srcs : List Src) (snks : List Snk) → AllAside srcs places.old.srcs.items → AllAside snks places.old.snks.items
        → AreParts K.is Src.left Src.name Src.faults Snk.holds Snk.name Snk.faults M.view (asked_of job.now texts.now made.now nodes.now) heads.now edges.now nodes.now srcs snks
        parts.items places.new.srcs.items places.new.snks.items) }
    ensures err { IfErr result (λ parts. (srcs : List Src) (snks : List Snk) → AllAside srcs places.old.srcs.items → AllAside snks places.old.snks.items
        → AreParts K.is Src.left Src.name Src.faults Snk.holds Snk.name Snk.faults M.view (asked_of job.now texts.now made.now nodes.now) heads.now edges.now nodes.now srcs snks
        parts.items places.new.srcs.items places.new.snks.items) }
{
    for number in 0..nodes.len() {
        match part_of::<K, Src, Snk, M>(
            alloc, number, nodes, edges, heads, job, texts, made, places,
        ) {
            Some(part) => parts.push_reserved(part),
            None => return Err(parts),
        }
    }
    match connect_all::<K, Src, Snk, M>(alloc, queue, edges, parts.as_mut_slice()) {
        Ok(()) => Ok(parts),
        Err(_) => Err(parts),
    }
}
