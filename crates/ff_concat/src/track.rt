//! One output of `concat`: what waits of each segment, and how far it has come.
ghost use Rattle.std.specs.Prelude.{◌≡◌, ◌<◌, ◌≤◌, ◌^◌, length};
ghost use Rattle.ff_concat.specs.Concats.{begin_in};
ghost use Rattle.ff_concat.specs.laws.Queues.{AreTold};

use crate::backlog::Backlog;
use ff_frame::StreamHead;

/// One output, and what waits for it. Its items are moved, and zeros are made, as they are pulled.
#[derive(Drop)]
pub struct Track {
    /// The head of its streams.
    pub head: StreamHead,
    /// How many units of time a tick has.
    pub tick: u128,
    /// What waits of each segment.
    pub backlogs: Vec<Backlog>,
    /// How many items it gave.
    pub before: u64,
    /// The segment whose items are given.
    pub current: usize,
    /// When that segment begins, in units.
    pub begin: u128,
    /// The same in whole ticks, by which its items are later.
    pub by: u128,
    /// Where the zeros begin that are still to be given before the segment; the end of what was given before it.
    pub end: u128,
    /// Whether the closing item was given.
    pub ended: bool,
    /// Whether it isn't wanted any more.
    pub stopped: bool,
    pub ghost there: { current ≤ length backlogs.items },
    pub ghost some: { 0 < tick },
    pub ghost small: { tick < 2 ^ 62 },
    pub ghost shift: { by ≡ begin_in tick begin },
    pub ghost told: { AreTold head current by stopped ended backlogs.items },
}
