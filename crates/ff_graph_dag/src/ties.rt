//! The edges on the way to each output of a plan of filters.
//!
//! `specs/laws/ties/Tied` says what is read off a plan, edge by edge and port by port. That it makes a plan sound for
//! filters to which nothing was done is proved once for any plan (`tied_plans_are_sound`).

mod laws;
mod ways;

pub use laws::tied_plans_are_sound;
pub(crate) use ways::upward_ways;
