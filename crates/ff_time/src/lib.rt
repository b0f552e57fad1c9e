//! Time bases and times.
//!
//! A `Rational` is a time base: a positive fraction in lowest terms, so many seconds a unit. A count of units is told
//! in another base by `rescale`, and two counts are ordered by `compare`. Several bases have a `common_base`.
//! Microseconds become units by `ceil_units`. A string becomes microseconds by `read_duration`, and a rate such as
//! 30000/1001 becomes a base by `read_rate`. All is whole numbers of at most 128 bits, and nothing takes memory.
//!
//! The clauses speak of exact fractions and of a grammar of strings; `laws` has what follows from
//! these definitions.
#![tactic(auto)]

mod bases;
mod cut;
mod decimal;
mod duration;
mod error;
/// Laws of the definitions, as functions that do nothing.
pub mod laws;
mod letter;
mod order;
mod rational;
mod reading;
mod rescaling;
mod units;

pub use bases::{common_base, units_in};
pub use cut::TimeCut;
pub use decimal::{digits, read_number, read_rate};
pub use duration::read_duration;
pub use error::TimeError;
pub use order::compare;
pub use rational::Rational;
pub use rescaling::rescale;
pub use units::ceil_units;
