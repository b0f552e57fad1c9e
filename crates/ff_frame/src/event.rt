//! The events of the scheduler, and the tickets that it grants.

/// The leave of a source to give one packet, or its end.
#[derive(Clone, Copy, Debug, PartialEq, Eq)]
pub struct Ticket {
    /// The number of the source.
    pub source: u32,
    /// The place of the grant, counted from 0.
    pub place: u64,
}

/// What a scheduler is told, and what it grants.
#[derive(Clone, Copy, Debug, PartialEq, Eq)]
pub enum Event {
    /// A source was granted one read.
    Grant(u32),
    /// An output stream took a packet of this time in microseconds.
    Sent(u32, u64),
    /// An output stream is done.
    Finished(u32),
    /// A graph now waits for this input of it.
    Best(u32, u32),
    /// A source is done.
    Exited(u32),
}
