//! The residual of a fixed predictor, in the fewest bits (RFC 9639, section 9.2.7).
//!
//! `specs/rice/Rice` says how a residual is written, and lists the ways to write it in the order of ties. `best_coding` finds
//! the first of the shortest, `coding_below` the same where one may be short enough, and `write_residual` writes it. No list
//! of parameters is kept: each partition has its best.

mod coding;
mod column;
mod floor;
mod laws;
mod level;
mod parameter;
mod quotients;
mod span;
mod write;
mod zigzag;

pub use coding::{Found, best_coding, coding_below};
pub use floor::least_bits;
pub use laws::{codings_are_read_back, least_is_the_first_of_the_lowest};
pub use write::write_residual;
pub(crate) use zigzag::zigzag_of;
