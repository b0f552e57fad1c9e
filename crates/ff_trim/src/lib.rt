//! Cuts in time, and a filter with a cut after each output. A cut keeps of a stream what lies from a start on to
//! below an end, with the start taken from all times.
//!
//! ```text
//!   of the stream   ──a──┼──b──┼──c──┼──d──►      from a start within b to below an end within c
//!   is left            ├─b─┼─c┤                   audio is cut at the sample frame, video frames stay whole
//! ```
//!
//! A cut closes with the frame that reaches its end. From then on nothing more is wanted of the filter there, which
//! may so be done with its inputs early.
#![tactic(auto)]

mod counted;
mod cut;
mod cutting;
mod examples;
mod laws;
mod tap;

pub use counted::{FirstOf, OutputCut};
pub use cut::Cut;
pub use cutting::Cutting;
pub use examples::cuts_of_some_streams;
pub use laws::{
    cut_audio_ends_at_its_length, cuts_are_as_their_rule_says,
    cuts_by_number_end_with_the_last_frame, cuts_go_frame_by_frame, cuts_keep_limits,
    cuts_keep_the_broken_rule, filters_with_cuts_are_limited, outputs_are_cut_as_their_streams_are,
    streams_further_on_are_cut_further_on, valid_streams_are_cut_to_valid_ones,
};
pub use tap::{Tap, Turn};
