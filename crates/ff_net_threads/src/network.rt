//! Any number of machines as the nodes of a network, on links between threads.
//!
//! Machines have numbers, by their places in a list, and an edge leads from an output of one to an input of a later
//! one. Each edge becomes a link of `ff_link`, and each machine a node of `ff_net_threads` at the ends of its links.
//! Each node runs in a thread of its own.
//!
//! ```text
//!     machines [m0, m1, m2, m3]      edges [m0.0 -> m1.0,  m0.1 -> m2.0,  m1.0 -> m3.0,  m2.0 -> m3.1]
//!                    |                                  |
//!                    +----------- wire_up --------------+
//!                                    v
//!                    +--- link 0 --> m1 --- link 2 ---+
//!                    |                                v
//!                   m0                               m3        a thread for each node
//!                    |                                ^
//!                    +--- link 1 --> m2 --- link 3 ---+
//!                                    |
//!                                 run_net
//!                                    v
//!            the machines in their order, the fault of the first that has one, and the history of the scheduler
//! ```
//!
//! The edges have to fit the machines (`specs/network/Fits`). At each port stands an edge of its lane, and the edge
//! at each input leaves an earlier machine. Then the solution of the network tells what each machine was fed
//! (`specs/laws/network/Runs`), whatever the sizes of the links and the order of the threads. All nodes share the cell of
//! one scheduler, at which each has a pass. Once they have ended, their passes give the one history of what was
//! granted and told (`specs/laws/network/Scheduling`). Each grant came where the history before it unchokes the source.
//! That a run ends is not promised.

mod laws;
mod node;
mod run;
mod tables;
mod taking;
mod wiring;

pub use run::{Ended, NodeFault, Ran, run_net, run_network};
pub use wiring::{into_machines, wire_up};
