//! Machines that stand on wires, and what comes of any order in which they run.
//!
//! A *machine* takes streams and gives streams, an item at a time: a demuxer, a decoder, a muxer. A *wire* carries the
//! items of one lane from an output of one machine to an input of another. A *node* is a machine on its wires, with the
//! items that it gave and that found no room yet. A *turn* of a node moves what can be moved and says whether anything
//! did.
//!
//! ```text
//!                 wire 0                    wire 1
//!    +--------+  ########   +---------+   ########   +--------+
//!    | node 0 | ----------> | node 1  | -----------> | node 2 |
//!    | source |  <-- done   |         |   <-- done   |  sink  |
//!    +--------+             +---------+              +--------+
//!      pass |                 pass |                   pass |
//!    Grant, Exited            Best |         Sent, Finished |
//!   ========o======================o========================o======== the scheduler's cell
//!
//!     a turn: items that are due go out, a source is granted a unit, items come in, the machine is fed and asked, what it
//!     has to tell is told, "done" goes back
//! ```
//!
//! Each node has a *pass* of the scheduler's cell (`ff_sched`). A source gives one unit for each grant that its node
//! took with the pass. A node tells the cell, with its pass, the events of its machine that are due by what it was
//! fed. So the log of a pass is what its node was granted, and then what its machine told (`LogStands`). Before a node
//! is done it has told each, but a machine may defer one (`Machine::defers`). A node whose source may not be read has
//! nothing to do until others have told more.
//!
//! The *solution* of a network is the streams that the machines' definitions give, node after node, from whole
//! inputs. No turn and no wire's size is in it. Whatever the turns were, what a node took is a prefix of its
//! solution. Once every node is done and none has a fault, a node without outputs was fed the solution itself.
//!
//! Not promised: that a network ever gets done, or that each node gets its turn. Nothing here waits; `ff_net_threads` runs
//! nodes in threads of their own.
#![tactic(auto)]

mod fault;
mod machine;
mod node;
mod ports;
mod serial;
mod wires;

pub use fault::Fault;
pub use machine::Machine;
pub use node::{Node, NodeRefused, Turn, turn_of};
pub use serial::run_serial;
pub use wires::{Put, Queue, Take, Wires};
