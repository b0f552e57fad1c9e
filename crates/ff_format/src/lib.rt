//! The formats of files: which there are, what an output of each takes, and what the writing of every format shares.
//!
//! ```text
//! first ──► header │ text of packet, text of packet, ..  │ tail       the text as a whole
//!           last ──► takes the place of as many bytes of it, once every stream is whole
//! ```
//!
//! `specs/Formats` has a row for each format. `specs/Layouts` says what a format is to whoever writes files. That is
//! a `Layout`, and by it the file as a whole, and the finished file, which is defined once for all formats. `Writer`
//! is what gives the pieces. `specs/Outputs` has the record of a format that is written, which its writer's crate
//! gives. It says which streams it takes, how it writes them, and that it can write what its row takes.
#![tactic(auto)]

mod format;
mod laws;
mod writer;

pub use format::{FORMATS, FileFormat, OutputOptions, Rf64, SoundTaken, Taken};
pub use laws::{streams_are_packets, the_formats_are_as_defined};
pub use writer::{Patch, TooLarge, Writer};
