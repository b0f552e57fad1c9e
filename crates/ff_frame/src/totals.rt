//! The totals of a stream that an encoder knows at its end.

/// What an audio encoder knows of a stream once it has ended: what the stream's first header leaves open.
#[derive(Clone, Copy, Debug, PartialEq, Eq)]
pub struct Totals {
    /// The least number of bytes of a coded frame; 0 without frames.
    pub min_frame: u32,
    /// The greatest number of bytes of a coded frame; 0 without frames.
    pub max_frame: u32,
    /// The number of sample frames.
    pub samples: u64,
    /// The MD5 digest of the samples, interleaved, each signed and little-endian in the least number of whole bytes.
    pub md5: [u8; 16],
}
