//! Bounded links between threads, each with one sender and one receiver.
//!
//! A link carries the items of one lane, first in first out, from the end that sends to the end that takes. It is two
//! queues. One of the link's size goes downwards, for the items. One of size 1 goes upwards, for the count that the
//! receiver sends when it finishes.
//!
//! ```text
//!              items, at most `size` of them
//!     Sender ---------------------------------> Receiver
//!        |   <---------------------------------     |
//!        |     how many were taken, once            | finish
//!        |                                          v
//!        +----------------- settle <------------ Finished
//! ```
//!
//! Each end knows its own list: the sender what was sent, the receiver what was taken. That the one begins with the
//! other is known where [`settle`] has joined the two ends, and not before. An end may be dropped at any time. That a
//! waiting end ever goes on is not promised.
#![tactic(auto)]

mod answers;
mod ends;
mod side;

pub use answers::{Put, Settled, Take};
pub use ends::{Finished, Receiver, Sender, link, link_claiming, settle};
pub use side::Claims;
