//! WAV (RIFF WAVE): heads, the packets of a body, and the headers around a body that is written.
//!
//! A file is `RIFF`, a size, `WAVE`, and chunks. A chunk is an id of 4 bytes, a size of 32 bits, the bytes, and a pad
//! byte where the size is odd. Past 4 GiB it begins with `RF64`, and its first chunk, `ds64`, has the sizes in 64 bits
//! (EBU Tech 3306). `specs/Chunks` says what one chunk does to the reading of a head. `specs/Heads` says what the head
//! of a whole input is, and which first bytes decide it. The body is linear PCM, and its packets are those of
//! ff_pcm. `specs/Header` has the header that is written, in each form, and `specs/Layout` how a file is written.
#![tactic(auto)]

mod chunk;
mod head;
mod header;
mod laws;
mod put;
mod walk;
mod writer;

pub use chunk::{at_32, format_chunk_at, has_id};
pub use head::{ChunkStep, WavHead};
pub use header::{HeaderForm, Sizes};
pub use laws::{
    finished_wavs_are_riff, streamed_wavs_are_read_again, what_is_written_is_read_again,
};
pub use put::WavPut;
pub use walk::{BothForms, Rf64Wave, RiffWave, WavCut, WavWalk, read_head};
