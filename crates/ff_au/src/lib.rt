//! AU (the audio file format of NeXT and Sun): heads, and the header of a file that is written.
//!
//! ```text
//! .snd │ data offset, data size, encoding, rate, channels: 32 bits each, the highest byte first │ annotation │ body
//! ```
//!
//! `specs/Fields` says what the fields tell, and which fault comes first. `specs/Heads` says what the head of a whole input
//! is, and which first bytes decide it. The body is linear PCM, and its packets are those of ff_pcm. `specs/Layout` says how
//! a file is written.
#![tactic(auto)]

mod fields;
mod head;
mod header;
mod laws;
mod put;
mod walk;
mod writer;

pub use head::AuHead;
pub use laws::{finished_aus_are_files, what_is_written_is_read_again};
pub use put::AuPut;
pub use walk::{Au, AuCut, AuWalk, read_head};
