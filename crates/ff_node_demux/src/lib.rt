//! The demuxer of a run: a lawful machine that gives the packets of an input, in whichever format it is.
//!
//! ```text
//!            ticket ──► ┌───────────────────────────┐
//! source ──► piece ──►  │ cut: feed, reserve, pull  │ ──► Packet, Packet, .. End, or Broken at a fault
//!    ▲                  └─────────────┬─────────────┘
//!    └──────────── not yet ───────────┘
//! ```
//!
//! It gives one packet for each ticket, and reads only where the cut wants more. `specs/Demuxing` says what it means:
//! the packets of the whole input as one stream, up to the limits, and the fault of an input. `specs/Sources` has the
//! laws of any machine that gives one such stream. `specs/laws/DemuxShapes` says that what is in shape is valid up to the
//! limits. `specs/laws/DemuxViews` has the demuxer as the laws of machines see it. `specs/laws/Reading` says which bytes of an
//! input are read. What a format owes is a law of `Demuxable` of ff_input.
//!
//! `gens` has the other source of a run, which reads no input: the machine of a source filter. `specs/gens/Generating`
//! says what it means.
#![tactic(auto)]

mod demux;
mod gens;
mod limits;
mod reading;
mod unit;

pub use demux::Demux;
pub use gens::{FrameSource, Gen, generator_of};
pub use limits::is_long;
