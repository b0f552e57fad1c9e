//! The heads and graphs that are ready before the outputs of a job.
ghost use Rattle.std.specs.Prelude.{◌^◌, ◌<◌, ◌≤◌, vec_len, length};
ghost use Rattle.std.proofs.Props.{props};
ghost use Rattle.std.specs.List.{AllByRecursion};
ghost use Rattle.ff_plan_layout.specs.laws.Limits.{HasFewPads};

use crate::layout::Made;
use ff_frame::StreamHead;
use ff_lang::Graph;

/// What was made before the outputs.
#[derive(Drop)]
pub(crate) struct Ready<'a> {
    /// The heads of the streams of each input.
    pub(crate) heads: &'a [Vec<StreamHead>],
    /// The complex graphs of the job.
    pub(crate) graphs: &'a [Graph],
    /// These graphs, configured, in the order of their nodes.
    pub(crate) made: &'a [Made],
    ghost inputs: { length heads.now < 2 ^ 32 },
    ghost streams: { AllByRecursion (λ v. vec_len v < 2 ^ 32) heads.now } by { Prim.hlevel props },
    ghost count: { length graphs.now ≤ 16 },
    ghost pads: { AllByRecursion HasFewPads made.now } by { Prim.hlevel props },
}
