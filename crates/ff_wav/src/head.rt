//! The head of a WAV input, and what its chunks say before it is whole.
use ff_frame::StreamHead;
use ff_pcm::PcmHead;
use ff_reader::Step;

/// The head of a WAV: what comes before the bytes of its samples (RIFF WAVE).
pub type WavHead = PcmHead;

/// What the chunks so far say. None: nothing yet, and `ds64` comes first (EBU Tech 3306). After it, or where none is
/// due: how many bytes the body has where its chunk says 2^32 - 1 (None: it goes on to the end of the input), and the
/// stream's head, after `fmt `.
pub(crate) type WavState = Option<(Option<u64>, Option<StreamHead>)>;

/// What a chunk does to the reading of a head: where it is passed over, the stream's head so far goes on.
pub type ChunkStep = Step<WavHead, Option<StreamHead>>;

/// What a chunk does to the reading of a head in either form of WAV.
pub(crate) type WavStep = Step<WavHead, WavState>;
