//! References to the streams of inputs.
ghost use Rattle.std.specs.Prelude.{◌≡◌};
ghost use Rattle.ff_words.specs.maps.Choice.{has_kind as is_of_kind, size as size_of};

use crate::maps::map::Kind;
use ff_frame::StreamHead;

/// A stream by its input and its number there.
#[derive(Clone, Copy, Debug, PartialEq, Eq)]
pub struct StreamRef {
    /// The number of the input, from 0.
    pub input: u32,
    /// The number of the stream in that input, from 0.
    pub stream: u32,
}

/// A stream: where it is, and its head.
#[derive(Clone, Copy, Debug, PartialEq, Eq)]
pub struct Stream {
    /// Where it is.
    pub at: StreamRef,
    /// Its head.
    pub head: StreamHead,
}

/// Whether a stream of this head has this kind.
pub(crate) fn has_kind(kind: Kind, head: StreamHead) -> bool
    ensures { result ≡ is_of_kind kind head }
{
    match (kind, head) {
        (Kind::Audio, StreamHead::Audio { .. }) | (Kind::Video, StreamHead::Video { .. }) => true,
        _ => false,
    }
}

/// How large a stream is: the samples of a video frame, the channels of audio.
pub(crate) fn size(head: StreamHead) -> u64
    ensures { result ≡ size_of head }
{
    match head {
        StreamHead::Audio { channels, .. } => u64::from(channels),
        StreamHead::Video { width, height, .. } => u64::from(width) * u64::from(height),
    }
}
