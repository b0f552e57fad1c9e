//! AVI (AVI RIFF File Reference): files with at most one stream of I420 pictures and at most one of PCM sound, read.
//!
//! ```text
//! RIFF │ size │ AVI  │ chunks and lists: LIST hdrl ( LIST strl ( strh, strf ) .. ) .. │ LIST movi │ the data
//! the data: 00db .. │ 01wb .. │ LIST rec ( 00db .., 01wb .. ) │ others, which are passed over
//! ```
//!
//! A list is a chunk `LIST` whose data begins with its type. `specs/Streams` says what the list of one stream tells, and
//! `specs/Lists` what each chunk or list does to the reading of a head. `specs/Heads` says what the head of a whole input is,
//! and which first bytes decide it. `specs/Data` says what a unit of the data is, and `specs/Chains` which packets follow a
//! head, in one chain for both streams. `specs/laws/Cuts` says how a cut's state is tied to what it was fed and gave.
#![tactic(auto)]

mod cut;
mod data;
mod head;
mod kind;
mod lane;
mod laws;
mod list;
mod stream;
mod walk;

pub use cut::AviCut;
pub use head::AviHead;
pub use laws::{
    chains_of_some_files, heads_of_some_files, packets_belong_to_their_streams,
    used_streams_are_chosen,
};
pub use walk::{Avi, AviWalk, read_head};
