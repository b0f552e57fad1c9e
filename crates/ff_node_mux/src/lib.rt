//! The part of a run that writes an output in any format.
//!
//! [`Mux`] is a machine over a sink and a writer of a format. It has an input for each stream of the output, whose
//! packets it writes in the order of their merge. `specs/Muxing` says what of the streams it writes, and which file
//! that is once each is whole. It says so by the format's layout and the bases of their times alone. `specs/Telling`
//! says what it tells of them.
//!
//! `merge`: The packets of several streams in one order: by the time at which each is decoded, exactly, then by stream, then by position.
#![tactic(auto)]

mod laws;
mod merge;
mod mux;
mod telling;
mod totals;
mod write;
mod writing;

pub use laws::{
    events_of_a_stream, held_parts_stay, one_stream_is_written_as_it_is, sound_is_short,
};
pub use merge::{
    Interleave, PacketQueue, a_merge_has_each_stream, a_merge_is_in_order,
    one_stream_is_its_packets, what_is_decided_stays, whole_streams_are_merged_whole,
};
pub use mux::Mux;
