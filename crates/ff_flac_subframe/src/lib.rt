//! A subframe in the fewest bits (RFC 9639, section 9.2): constant, by a fixed predictor, or verbatim.
//!
//! `specs/Subframe` says how a subframe is written, and lists the ways to write it in the order of ties. `plan_of` finds
//! the first of the shortest, and `write_plan` writes it.
//!
//! `rice`: The residual of a fixed predictor, in the fewest bits (RFC 9639, section 9.2.7).
#![tactic(auto)]

mod laws;
mod rice;
mod samples;
mod subframe;

pub use laws::{
    least_is_the_first_of_the_shortest, subframes_are_read_back, subframes_stand_for_their_samples,
};
pub use rice::{
    Found, best_coding, coding_below, codings_are_read_back, least_bits,
    least_is_the_first_of_the_lowest, write_residual,
};
pub use subframe::{
    Outlook, Plan, Planned, outlook_of, plan_by, plan_of, write_plan, write_subframe,
};
