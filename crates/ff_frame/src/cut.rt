//! The answers of reading a head, and of cutting bytes into packets.
use crate::packet::Pkt;

/// Why the first bytes of an input give no head, or none yet.
#[derive(Clone, Copy, Debug, PartialEq, Eq)]
pub enum HeadEnd {
    /// What follows decides.
    NotYet,
    /// The input breaks its format's grammar at this offset.
    Damaged { offset: u64 },
    /// The input is of a kind that isn't read, as the bytes at this offset say.
    Unsupported { offset: u64 },
    /// There was no memory.
    NoMemory,
}

/// What a cut gives, which takes the packets out of an input's bytes.
#[derive(Debug, Drop)]
pub enum Cut {
    /// The next packet.
    Pkt(Pkt),
    /// More bytes are wanted.
    NotYet,
    /// All packets were given.
    End,
    /// No packet begins at this offset.
    Broken { offset: u64 },
}
