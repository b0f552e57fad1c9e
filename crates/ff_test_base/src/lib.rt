//! Tests of the crates below the whole command that no row of data can say, and of the part that writes an output.
#![tactic(auto)]

#[cfg(test)]
mod base;
#[cfg(test)]
mod muxing;
