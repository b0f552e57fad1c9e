//! The values that travel through a run: heads of streams, frames, packets, tickets and events.
//!
//! Times are counted in ticks of a stream's time base. A frame or a packet is given by its fields alone: two with
//! equal fields are one value for every contract, wherever their bytes lie.
//!
//! A codec is one row: `Codec` in `src/head.rt`, and `codec_row` in `specs/Codecs`, with its name and how it codes.
//!
//! `specs/Heads` and `Codecs` say which heads there are and which packets a codec makes, `Audio` and `Video` when the
//! fields of a frame agree.
#![tactic(auto)]

mod audio;
mod coding;
mod config;
mod cut;
mod event;
mod hash;
mod head;
mod lists;
mod packet;
mod size;
mod totals;
mod video;

pub use audio::AFrame;
pub use coding::{ByteOrder, Coding, PcmDepth, PcmForm};
pub use config::ConfigError;
pub use cut::{Cut, HeadEnd};
pub use event::{Event, Ticket};
pub use hash::HashKind;
pub use head::{Codec, StreamHead};
pub use lists::{Bytes, Samples};
pub use packet::Pkt;
pub use size::{is_side, read_sides};
pub use totals::Totals;
pub use video::{Format, VFrame};
