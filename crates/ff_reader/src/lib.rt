//! The parts that the readers of all formats share: what the first bytes of an input answer, and how its packets are
//! cut.
//!
//! ```text
//! input ──► head ──► HeadWalk (or the format's own reader) ──► a head, or its fault and place
//!       └─► body ──► PacketCut: feed, reserve, end ──► pull ──► packets, and where they break
//! ```
//!
//! `specs/Heads` says what the head of a whole input is, and which first bytes leave it open, in any format. `specs/Walks` says
//! it of a format by its `Grammar`: what an input begins with, and what one unit does (a chunk, a block of metadata). Such a
//! format is a `HeadFormat`: it writes its grammar, and has `read_head` and `HeadWalk`. `specs/Cutters` says what a cut of a body
//! is to contracts, and `PacketCut` is one.
#![tactic(auto)]

mod cutter;
mod fault;
mod format;
mod held;
mod step;
mod walk;

pub use cutter::PacketCut;
pub use fault::{HeadFault, answer_to};
pub use format::HeadFormat;
pub use held::Held;
pub use step::Step;
pub use walk::{HeadWalk, agree, read_head};
