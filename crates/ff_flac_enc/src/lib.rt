//! FLAC frames in the fewest bits (RFC 9639, section 9).
//!
//! `specs/Layout` lists the ways to write the subframes of a frame, in the order of ties; `specs/Head` says what stands
//! before and after them. `encode_block` writes the first of the shortest.
//!
//! `Blocks` gathers the samples of frames in blocks (`specs/Gathered`, `specs/laws/Cuts`), and `Counter` what the header of a
//! stream tells of its frames (`specs/Totals`).
#![tactic(auto)]

mod at_once;
mod blocks;
mod blocks_laws;
mod channels;
mod counter;
mod format;
mod frame;
mod head;
mod laws;
mod pair;
mod shape;
mod sides;
mod waiting;

pub use at_once::{Gate, NoGate, coded_block, encode_blocks};
pub use blocks::Blocks;
pub use blocks_laws::{
    blocks_have_all_samples, blocks_of_changed_samples, blocks_stay,
    frames_of_a_valid_stream_can_be_fed,
};
pub use counter::Counter;
pub use format::Format;
pub use frame::encode_block;
pub use laws::{frames_of_blocks_are_short, least_is_the_first_of_the_shortest};
