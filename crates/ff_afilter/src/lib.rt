//! Audio filters with one input.
//!
//! ```text
//!   arguments, heads ──► T::configure ──► its machine, the heads of its outputs
//!                                          feed │ pull │ stop │ spent
//! ```
//!
//! Each filter is a function on whole streams, in `specs/`, within the limits of every stream. `configure` says which
//! function it is by its arguments, or refuses; its machine meets `ff_filter::Filter`. A tick of an audio stream is a
//! sample frame.
#![tactic(auto)]

mod anull;
mod aset_pts;
mod asplit;
mod atrim;
mod channel_split;
mod lasting_atrim;
mod laws;

pub use anull::ANull;
pub use aset_pts::ASetPts;
pub use asplit::ASplit;
pub use atrim::ATrim;
pub use channel_split::{ChannelSplit, Channels};
pub use lasting_atrim::LastingATrim;
pub use laws::{
    channels_are_valid, sound_keeps_the_broken_rule, sound_kept_is_sound,
    trimmed_audio_ends_at_the_stop,
};
