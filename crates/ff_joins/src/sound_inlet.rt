//! An audio input that keeps sample frames until they can be used.
ghost use Rattle.std.specs.Prelude.{◌≡◌, ◌*◌, length};
ghost use Rattle.ff_joins.specs.JoinOptions.{channels_of};

use crate::sample_queue::SampleQueue;
use ff_filter::After;
use ff_frame::StreamHead;

/// An audio input that keeps sample frames until they can be used.
#[derive(Drop)]
pub struct SoundInlet {
    /// The head of the input.
    pub head: StreamHead,
    /// The samples, interleaved by channel, the next one first.
    pub samples: SampleQueue,
    /// How many sample frames they are.
    pub count: usize,
    /// How the input stands after them.
    pub after: After,
    pub ghost rows: { length samples ≡ count * channels_of head },
}
