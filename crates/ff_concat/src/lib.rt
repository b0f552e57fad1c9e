//! Segments of video, of audio or of both, one after another.
//!
//! ```text
//!   input 0  ──a────b────┤        output 0  ──a────b────┬──x────y──►
//!   input 1  ──c──d──┤            output 1  ──c──d──0─0─┴──z───────►
//!   input 2  ──x────y──┤                      the latest end of segment 0
//!   input 3  ──z──┤
//! ```
//!
//! Each output is decided by itself. A `Track` keeps what waits for it, and moves times and makes zeros as it is pulled.
//! Of the other streams it sees how far they have come, their `Reach`.
#![tactic(auto)]

mod arguments;
mod asked;
mod backlog;
mod concat;
mod concat_filter;
mod configured;
mod cutting;
mod feeding;
mod keeping;
mod lacking;
mod laws;
mod pulling;
mod reach;
mod segment;
mod settings;
mod shifts;
mod silence;
mod standing;
mod starting;
mod times;
mod track;
mod turning;

pub use backlog::Backlog;
pub use concat::Concat;
pub use laws::{
    answers_are_a_function, few_inputs_are_asked_for, inputs_are_all_heads,
    long_sound_delays_pictures, one_kind_follows_the_last_end, only_limits_cut, outputs_only_grow,
    segments_keep_the_broken_rule, segments_meet_without_overlap, short_sound_is_filled,
    unbroken_inputs_make_no_break, units_are_exact, valid_inputs_make_valid_outputs,
};
pub use reach::Reach;
pub use settings::{Asked, ConcatSettings};
pub use track::Track;
