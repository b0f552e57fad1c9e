//! The lines and headers of files that hold packets or tell of them, as pure functions.
//!
//! [`HashPut`] gives the lines of a framehash file, in the pieces in which they are written. These are those before
//! the packets, and a line for each packet. `specs/HashTexts` has them, for any number of streams and either digest.
//! `specs/CrcTexts` has those of framecrc, with the Adler-32 sum of `specs/Adler`. `specs/DigestTexts` has the texts that
//! are one digest of all packets, or one of each stream.
//!
//! `writers` has what an output's format writes: its bytes around the packets and of each, as pure state, in any format.
#![tactic(auto)]

mod adler;
mod digest;
mod digests;
mod flac;
mod frame_crc;
mod frame_hash;
mod laws;
mod put;
mod writers;

pub use flac::{flac_first, flac_last};
pub use laws::stream_info_is_its_fields;
pub use put::HashPut;
pub use writers::{
    AnyWriter, CrcWriter, FlacWriter, HashWriter, JoinedWriter, NullWriter, RawWriter,
    StreamsWriter, SumWriter, finished_crcs_are_texts, finished_digests_are_texts,
    finished_flacs_are_streams, finished_hashes_are_texts, finished_raw_is_packets,
    null_writes_nothing, streams_are_streamed, writer_of, written_flacs_are_read_again,
};
