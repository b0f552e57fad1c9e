//! The sources and sinks of a run, and the hosts that open and create them.
//!
//! A [`Host`] opens a [`Source`] on a name and creates a [`Sink`] on one, and takes both back. Their contracts speak
//! of what they tell, which is optional. That is the bytes that a source has left, those that a sink holds, and the
//! files of a host. Each counts its faults, a host by name and direction, and answers `Failed` only where the count
//! rose. A host keeps its counts by name in a [`Table`] of [`Marks`]. [`Begun`] is a source of which some bytes were
//! read already.
//!
//! The hosts in memory are in ff_host, the one over the machine's files in the program.
//!
//! `memory`: Hosts in memory.
#![tactic(auto)]

mod begun;
mod fill;
mod host;
mod memory;
mod sink;
mod source;
mod tally;

pub use begun::Begun;
pub use fill::copy_front;
pub use host::{Host, HostError};
pub use memory::{
    FailAt, HostCall, MeetHost, MeetSource, MemHost, MemSink, MemSource, QuietHost, QuietSink,
    QuietSource,
};
pub use sink::{Sink, SinkError};
pub use source::{Failed, Source};
pub use tally::{Marks, Table, make_room, marks_of, set_marks};
