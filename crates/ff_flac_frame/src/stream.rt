//! The rate, depth and channels that all frames of a stream share.

/// What a stream says of its frames.
#[derive(Clone, Copy, Debug, PartialEq, Eq)]
pub struct FlacStream {
    /// Sample frames a second, below 2^20.
    pub rate: u32,
    /// Bits of a sample, 4 to 24.
    pub bits: u8,
    /// Channels, 1 to 8.
    pub channels: u8,
}
