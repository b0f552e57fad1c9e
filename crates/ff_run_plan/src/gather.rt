//! The sources and sinks that the parts of a plan's nodes give back.
ghost use Rattle.std.specs.Prelude.{◌≡◌, ◌<◌, ◌≤◌, ℕ, List, [], length, slice_get, Option, Some};
ghost use Rattle.ff_plan.specs.declared.planned.PlanNode.{PlanNode};
ghost use Rattle.ff_plan.specs.declared.planned.PlanNode.TheVariants.{Demux as DemuxNode, Mux as MuxNode};
ghost use Rattle.ff_run_plan.specs.Kinds.{IsEndOf, IsSinkOf};
ghost use Rattle.ff_run_plan.specs.Parts.{IsBefore, AreOrdered, HasEnds};

use crate::build::Places;
use crate::kinds::{Ends, Kinds};
use crate::tables::put;
use ff_host::{Sink, Source};
use ff_net::Machine;
use ff_plan::PlanNode;

// Puts what the part of a node gives back into its place.
fn put_back<
    K: Kinds<Src, Snk, M>,
    Src: Source + Send + Drop,
    Snk: Sink + Send + Drop,
    M: Machine + Send + Drop,
>(node: PlanNode, part: M, places: &mut Places<Src, Snk>)
    requires ends { HasEnds node (M.view part) }
    requires source { (i : ℕ) → node ≡ DemuxNode i → i < length places.old.srcs.items }
    requires sink { (o : ℕ) → node ≡ MuxNode o → o < length places.old.snks.items }
    ensures source { (i : ℕ) → node ≡ DemuxNode i → (s : Src) × (slice_get places.new.srcs.items i ≡ Some (Some s)) × IsEndOf Src.name Src.faults (M.view part) s }
    ensures sink { (o : ℕ) → node ≡ MuxNode o
        → (s : Snk) × (slice_get places.new.snks.items o ≡ Some (Some s)) × IsSinkOf K.is Snk.holds Snk.name Snk.faults (M.view part) s }
    ensures srcs_kept { (w : ℕ) → (node ≡ DemuxNode w → ⊥) → slice_get places.new.srcs.items w ≡ slice_get places.old.srcs.items w }
    ensures snks_kept { (w : ℕ) → (node ≡ MuxNode w → ⊥) → slice_get places.new.snks.items w ≡ slice_get places.old.snks.items w }
    ensures src_count { length places.new.srcs.items ≡ length places.old.srcs.items }
    ensures snk_count { length places.new.snks.items ≡ length places.old.snks.items }
{
    match K::into_ends(part) {
        Ends::Source(src) => {
            if let PlanNode::Demux { input } = node {
                put(&mut places.srcs, input as usize, src);
            }
        }
        Ends::Sink(snk) => {
            if let PlanNode::Mux { output } = node {
                put(&mut places.snks, output as usize, snk);
            }
        }
        Ends::Neither => {}
    }
}

/// Puts all sources and sinks that are in the parts of the first nodes into their places.
pub(crate) fn gather<
    K: Kinds<Src, Snk, M>,
    Src: Source + Send + Drop,
    Snk: Sink + Send + Drop,
    M: Machine + Send + Drop,
>(nodes: &[PlanNode], parts: Vec<M>, places: &mut Places<Src, Snk>)
    requires few { length parts.items ≤ length nodes.now }
    requires ends { (k : ℕ) (n : PlanNode) (m : M) → slice_get nodes.now k ≡ Some n → slice_get parts.items k ≡ Some m → HasEnds n (M.view m) }
    requires ordered { AreOrdered (length places.old.srcs.items) (length places.old.snks.items) nodes.now }
    ensures sources { (k i : ℕ) (m : M) → slice_get nodes.now k ≡ Some (DemuxNode i) → slice_get parts.items k ≡ Some m
        → (s : Src) × (slice_get places.new.srcs.items i ≡ Some (Some s)) × IsEndOf Src.name Src.faults (M.view m) s }
    ensures sinks { (k o : ℕ) (m : M) → slice_get nodes.now k ≡ Some (MuxNode o) → slice_get parts.items k ≡ Some m
        → (s : Snk) × (slice_get places.new.snks.items o ≡ Some (Some s)) × IsSinkOf K.is Snk.holds Snk.name Snk.faults (M.view m) s }
    ensures other_srcs { (i : ℕ) → (IsBefore nodes.now (length parts.items) (DemuxNode i) → ⊥) → slice_get places.new.srcs.items i ≡ slice_get places.old.srcs.items i }
    ensures other_snks { (o : ℕ) → (IsBefore nodes.now (length parts.items) (MuxNode o) → ⊥) → slice_get places.new.snks.items o ≡ slice_get places.old.snks.items o }
    ensures src_count { length places.new.srcs.items ≡ length places.old.srcs.items }
    ensures snk_count { length places.new.snks.items ≡ length places.old.snks.items }
{
    let count = parts.len();
    let mut left = parts.into_iter();
    for number in 0..count {
        let Some(part) = left.next() else {
            break;
        };
        put_back::<K, Src, Snk, M>(nodes[number], part, places);
    }
}
