//! Any filter, by its name.
//!
//! ```text
//!   name ──► FilterName ─┐
//!   arguments, heads ────┴─► configure ──► AnyFilter, the heads of its outputs
//! ```
//!
//! [`AnyFilter`] is the machine of any filter that there is, so that a graph can hold them side by side. It meets
//! `ff_filter::Filter` as each of them does. What a filter is stands in one record, by its name
//! (`specs/Definitions`). What every filter owes stands in one more (`proofs/Owed`), which all that is proved of
//! graphs takes whole.
//!
//! `limited`: Each filter, as it is configured, is a function within the limits of its outputs.
#![tactic(auto)]

mod any;
mod configured;
mod laws;
mod limited;
mod name;
mod source;
mod step;

pub use any::AnyFilter;
pub use configured::configure;
pub use laws::{
    durations_are_read, filters_are_determined, filters_are_told, filters_carry_their_heads,
    made_sources_are_fit, the_function_needs_no_memory,
};
pub use limited::{configured_filters_are_limited, limits_cut_what_passes_them};
pub use name::{FILTERS, FilterName, inputs, is_apart, is_source, named, outputs, takes_sound};
pub use source::made_by_itself;
pub use step::{AnyStep, IntoAny};
