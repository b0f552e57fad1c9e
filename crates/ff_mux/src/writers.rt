//! The writers of FLAC, of raw formats, of digests and of nothing, and the sum over all formats, as pure state.
//!
//! A format's writer stands in a crate of its own, with a record of what the format is to whoever writes files (`OutputFormat` of ff_format).
//! `specs/writers/AnyWriters` has a line for each format: its record, and its writer as a variant of `AnyWriter`. Whoever writes files takes
//! all else from there.

mod any;
mod digests;
mod flac;
mod frame_crc;
mod frame_hash;
mod laws;
mod null;
mod raw;

pub use any::{AnyWriter, writer_of};
pub use digests::{JoinedWriter, StreamsWriter, SumWriter};
pub use flac::FlacWriter;
pub use frame_crc::CrcWriter;
pub use frame_hash::HashWriter;
pub use laws::{
    finished_crcs_are_texts, finished_digests_are_texts, finished_flacs_are_streams,
    finished_hashes_are_texts, finished_raw_is_packets, null_writes_nothing, streams_are_streamed,
    written_flacs_are_read_again,
};
pub use null::NullWriter;
pub use raw::RawWriter;
