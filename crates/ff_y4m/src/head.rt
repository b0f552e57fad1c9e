//! The head of a YUV4MPEG2 input.
use ff_frame::StreamHead;

/// The head of a YUV4MPEG2 input: its first line (yuv4mpeg(5), "Stream Header").
#[derive(Clone, Copy, PartialEq, Eq, Debug)]
pub struct Y4mHead {
    /// What is known of its stream.
    pub head: StreamHead,
    /// The offset of the first frame, in bytes.
    pub start: u64,
    /// The size of a frame's planes, in bytes.
    pub frame_bytes: u64,
}
