//! Any number of machines as nodes on links, a worker for each, by the edges between them, run under the scheduler and
//! settled.
#![tactic(auto)]

mod links;
/// Machines as the nodes of a network, run to its end.
pub mod network;

pub use links::{InEnd, Linked, OutEnd, Ran, Room, run_threads, settle_all};
