//! Definitions on lists of bytes and strings that every crate cites, and the few functions on slices that go with them.
//!
//! `specs/` has the definitions. `proofs/` has the lemmas. They are on known bytes after several appends (`Written`),
//! and on the strings of a list's first items (`Lines`). One more is on a change in a map with string keys
//! (`TextMap`).
#![tactic(auto)]

mod slices;

pub use slices::{from_place, front};
