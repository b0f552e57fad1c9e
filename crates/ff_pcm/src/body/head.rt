//! The head of an input whose body is linear PCM.
use ff_frame::StreamHead;

/// What a head says of the body after it, whose bytes are samples of linear PCM.
#[derive(Clone, Copy, PartialEq, Eq, Debug)]
pub struct PcmHead {
    /// What is known of its stream.
    pub head: StreamHead,
    /// The offset of the body, in bytes.
    pub start: u64,
    /// The size of the body in bytes; None where it goes to the end of the input.
    pub len: Option<u64>,
}
