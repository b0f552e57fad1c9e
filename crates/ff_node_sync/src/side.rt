//! The state of one stream that others may shorten.
ghost use Rattle.std.specs.Prelude.{◌≡◌, ◌≤◌, ◌^◌, true};
ghost use Rattle.ff_filter.specs.Views.{none_closes};

use ff_filter::After;
use ff_frame::StreamHead;
use ff_stream::Item;
use std::collections::VecDeque;

/// A stream that is shortened by others.
#[derive(Drop)]
pub struct Side {
    /// The head of the stream.
    pub head: StreamHead,
    /// What isn't given yet of what came, the next item first.
    pub queue: VecDeque<Item>,
    /// How the stream stands after that.
    pub after: After,
    /// The latest end of what came, in ticks of its time base.
    pub reach: u128,
    /// Whether the closing item was given.
    pub ended: bool,
    /// Whether the output isn't wanted any more.
    pub stopped: bool,
    pub ghost unclosed: { none_closes queue.items ≡ true },
    pub ghost near: { reach ≤ 2 ^ 65 },
}
