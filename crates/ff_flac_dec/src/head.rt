//! The head of a FLAC input.
ghost use Rattle.std.specs.Prelude.{◌≡◌};
ghost use Rattle.ff_flac_dec.specs.Streams.{stream_of};

use ff_flac_frame::FlacStream;
use ff_frame::StreamHead;
use ff_reader::Step;

/// The head of a FLAC input: what comes before its first frame (RFC 9639, section 8).
#[derive(Clone, Copy, PartialEq, Eq, Debug)]
pub struct FlacHead {
    /// What is known of its stream.
    pub head: StreamHead,
    /// The offset of the first frame, in bytes.
    pub start: u64,
}

/// What is known where a head is read on.
#[derive(Clone, Copy, PartialEq, Eq, Debug)]
pub enum HeadState {
    /// Tags may come, and then `fLaC`.
    Tags,
    /// A metadata block comes; the blocks before it, if any, say this of the stream.
    Blocks(Option<StreamHead>),
}

/// What a tag or a metadata block does to the reading of a head: where it is passed over, this is known from there on.
pub(crate) type BlockStep = Step<FlacHead, HeadState>;

impl FlacHead {
    /// What it says of the frames: rate, bits and channels.
    pub fn stream(&self) -> FlacStream
        ensures { result ≡ stream_of self.now.head }
    {
        match self.head {
            StreamHead::Audio {
                rate,
                bits,
                channels,
                ..
            } => FlacStream {
                rate,
                bits,
                channels,
            },
            StreamHead::Video { .. } => FlacStream {
                rate: 0,
                bits: 0,
                channels: 0,
            },
        }
    }
}
