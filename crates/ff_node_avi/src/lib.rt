//! The demuxer of an AVI: a lawful machine that gives the packets of one or two streams, each at its port.
//!
//! ```text
//!            ticket ──► ┌───────────────────────────┐ ──► port 0: Packet, .. End, or Broken at a fault
//! source ──► piece ──►  │ cut: feed, reserve, pull  │
//!    ▲                  └─────────────┬─────────────┘ ──► port 1: Packet, .. End, or Broken at a fault
//!    └──────────── not yet ───────────┘
//! ```
//!
//! One ticket is one unit: the next packet in the file, of whichever stream in use. A packet of another port than the one that is
//! asked waits there, and no further ticket is taken until it was given. A packet of a port that was stopped is dropped under its
//! ticket. `specs/Demuxing` says what it means. `specs/Ported` has the state of any machine that gives several closed streams.
//! `specs/Reading` ties the cut to the file that is read, and `specs/laws/AviReading` says which bytes are read.
#![tactic(auto)]

mod demux;
mod ports;
mod reader;

pub use demux::AviDemux;
pub use ports::AviPorts;
