//! Events with their places in the history.
use ff_frame::Event;

/// An event at its place in the history: an entry of the log of a pass.
#[derive(Clone, Copy, Debug, PartialEq, Eq)]
pub struct Logged {
    /// How many events come before it.
    pub place: u64,
    /// The event.
    pub event: Event,
}
