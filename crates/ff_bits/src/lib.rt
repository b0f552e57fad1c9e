//! Bits of bytes: a reader and a writer, coded numbers and checksums (RFC 9639). The most significant bit of a byte
//! comes first. The coded numbers are those of a FLAC frame header.
//!
//! To a contract a reader is the list of the bits that are left, and a writer the list of those that were written.
#![tactic(auto)]

mod bytes;
mod code;
mod crc;
mod laws;
mod number;
mod reader;
mod table16;
mod table8;
mod waiting;
mod window;
mod word;
mod writer;

pub use bytes::know_bytes;
pub use crc::{crc8, crc16};
pub use laws::{
    a_sum_behind_its_bytes_leaves_nothing, coded_numbers_are_apart,
    coded_numbers_have_31_or_36_bits, shortest_is_shortest, what_was_written_is_read,
};
pub use reader::{BitEnd, BitReader};
pub use window::BitWindow;
pub use writer::BitWriter;
