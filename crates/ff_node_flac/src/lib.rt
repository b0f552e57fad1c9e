//! Audio coded as FLAC (RFC 9639).
//!
//! ```text
//! frames ──► Blocks ──► up to eight blocks, coded at once ──► packets, one by one, and after them the totals
//! ```
#![tactic(auto)]

mod coder;
mod enc;
mod in_order;
mod laws;
mod queue;
mod shut;

pub use coder::Coder;
pub use enc::FlacEnc;
pub use in_order::InOrder;
pub use laws::coded_streams_are_read_again;
pub use queue::{Given, Queue};
pub use shut::Shut;
