//! The edges between the nodes of a plan or a network, and the ports at which they stand.
//!
//! Nodes have numbers from 0, and so have the inputs of a node and its outputs. An edge names the output that it leaves and
//! the input that it leads to, and the lane of the items that go along it. The number of an edge is its place in the list.
//!
//! ```text
//!               out 0   edge 0   in 0 +--------+
//!     +--------+ ------------------>  | node 1 | out 0   edge 2   in 0 +--------+
//!     | node 0 |                      +--------+ ------------------>  | node 2 |
//!     +--------+ ---------------------------------------------------> +--------+
//!               out 1                  edge 1                    in 1
//! ```
//!
//! `specs/edges/Ports` says which edge stands at a port, and when each input is fed by an earlier node. The order of the list
//! means nothing: of two edges that name one port the first stands there.

mod edge;
mod ports;

pub use edge::Edge;
pub use ports::{edges_into, edges_out_of};
