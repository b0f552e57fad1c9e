//! The packets of a body of linear PCM, as several containers have it: what a head says of it, and its cut.
//!
//! ```text
//! a container's head ──► PcmHead: the stream, where the body begins, how long it is
//!                             └──► PcmCut: feed, reserve, end ──► pull ──► packets of 1,024 sample frames, the last one the rest
//! ```
//!
//! `specs/body/Packets` says which packets a body has, and `specs/body/Cuts` how a cut's state is tied to what it was fed and gave.

mod cut;
mod head;

pub use cut::PcmCut;
pub use head::PcmHead;
