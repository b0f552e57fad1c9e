//! What a person reads of a fault: one line in words, beside the ruled line of the log.
//!
//! ```text
//! words, status ──┐
//! first bytes,    ├──► explain ──► ffmpeg: -bogus isn't an option; the nearest is -vbogus
//! system's cause ─┘
//! ```
//!
//! The words are looked at by the list of options (`roles`, `line`), and what is expected of one comes from the lists by which
//! it is read: options, codecs, formats, filters. So a line in one of those is told here too. No clause speaks of a
//! text: what is proved is that every function is safe. `-v` says whether a fault is told at all (`level`).

mod au;
mod avi;
mod bytes;
mod fault;
mod filter;
mod flac;
mod graphs;
mod input;
mod level;
mod line;
mod nearest;
mod plan;
mod quoted;
mod roles;
mod told;
mod values;
mod wav;
mod word;
mod y4m;

pub use fault::{Seen, explain, named_file};
pub use input::FRONT;
pub use level::{tells_faults, tells_progress};
pub(crate) use line::CommandLine;
