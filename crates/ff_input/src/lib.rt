//! An input in whichever format it is: its head, its packets, and how it is read.
//!
//! ```text
//! bytes ──► InputWalk ──► the format: as it was told, or by its first words ──► the walk of one of the formats ──► InputHead
//!       └─► SingleCut: the cut of one of the formats of one stream ──► packets; AviCut of ff_avi: those of two
//! ```
//!
//! A format is a head, a walk that reads it, and a cut of what follows: [`HeadReader`], `PacketCut` of ff_reader and
//! [`Demuxable`]. [`OneOf`] two of each is one of each again, by one `impl` of each trait. So the formats of one stream,
//! nested, are one format, and with AVI, which has two, one head and one walk. `formats` lists them, and beside it `specs/Formats` says what the head of a whole input
//! is. It is the head in the format that was given, or in the one whose first words the input has. `specs/FirstWords`
//! says when these are told. `specs/Answers` says what an answer means that was given at a prefix of the input. It is
//! not yet exactly where some bytes decide otherwise than others, and else the head, whatever follows. `specs/laws/Places`
//! says how far a walk has read, `specs/laws/Reading` which bytes a cut asks for, and `specs/laws/Shapes` that packets are in
//! shape.
#![tactic(auto)]

mod demuxable;
mod first_word;
mod formats;
mod head;
mod head_reader;
mod one_of;
mod read;
mod walk;

pub use demuxable::{Demuxable, PIECE};
pub use formats::{AnyWalk, InputHead, SingleCut, SingleHead, SingleWalk, Y4mWalk};
pub use head_reader::HeadReader;
pub use one_of::OneOf;
pub use read::read_input_head;
pub use walk::InputWalk;
