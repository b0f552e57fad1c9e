//! The state of `join`.
ghost use Rattle.std.specs.Prelude.{◌≡◌, ◌<◌, length, true};
ghost use Rattle.ff_joins.specs.laws.Lots.{lots, has_started};

use crate::sound_inlet::SoundInlet;
use ff_filter::After;
use ff_frame::StreamHead;
use std::alloc::Global;

/// `join`: the channels of all inputs side by side, sample by sample, in frames of 1,024 sample frames.
#[derive(Drop)]
pub struct Join {
    /// The head of the output.
    pub head: StreamHead,
    /// Where the memory of the frames comes from.
    pub alloc: Global,
    /// What waits of each input.
    pub inlets: Vec<SoundInlet>,
    /// When the first item of the first input starts, once something came there.
    pub first: Option<i64>,
    /// How many frames were given.
    pub given: u64,
    /// Whether the closing item was given.
    pub ended: bool,
    /// Whether the output isn't wanted any more.
    pub stopped: bool,
    /// How the output stands after what was given.
    pub after: After,
    pub ghost there: { 0 < length inlets.items },
    pub ghost started: { has_started first (lots inlets.items 0) ≡ true },
}
