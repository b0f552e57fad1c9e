//! The packets of several streams in one order: by the time at which each is decoded, exactly, then by stream, then by position.
//!
//! ```text
//!   stream 0, at 1/25     ──a0────────a1────────►
//!   stream 1, at 1/100    ──b0──b2──────────►
//!   given                   a0 b0 b2              a1 waits: stream 1 may still have a packet before it
//! ```
//!
//! A packet is decided once each other stream is whole or has a packet after it in that order. What is decided doesn't hang on
//! the order in which packets arrive.

mod interleave;
mod laws;
mod queue;

pub use interleave::Interleave;
pub use laws::{
    a_merge_has_each_stream, a_merge_is_in_order, one_stream_is_its_packets, what_is_decided_stays,
    whole_streams_are_merged_whole,
};
pub use queue::PacketQueue;
