//! `join`: the channels of several audio streams side by side, sample by sample.
//!
//! ```text
//!   input 0  ──a───b──►        ┌ a b ┐
//!   input 1  ──x───y──►  join: │ x y │──►  sample frames of all channels
//! ```
#![tactic(auto)]

mod arguments;
mod interleaving;
mod join;
mod join_configured;
mod join_filter;
mod join_options;
mod joining;
mod keeping;
mod laws;
mod rows;
mod sample_queue;
mod sound_inlet;

pub use arguments::last_number;
pub use join::Join;
pub use join_options::{JoinSettings, join_head};
pub use laws::{
    joined_sound_keeps_the_broken_rule, sound_further_on_is_joined_further_on,
    two_channels_stand_side_by_side, unbroken_inputs_make_no_break, valid_streams_make_valid_ones,
};
pub use sample_queue::SampleQueue;
pub use sound_inlet::SoundInlet;
