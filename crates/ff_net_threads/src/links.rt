//! A network of machines over links, each node in a worker of its own.
//!
//! A node of `ff_net` works on wires of one thread. Here each node has wires of its own, numbered as the links of the
//! network, and the ends of its links. What comes over a link goes onto the wire of its number. What the node puts on
//! a wire goes over the link.
//!
//! ```text
//!    link 0 ---> InEnd --wire 0--> Node --wire 1--> OutEnd ---> link 1
//!                  one thread, the node's own
//! ```
//!
//! So all that is known of a node on wires is known here. Nothing is shared but the links and the scheduler's cell,
//! at which each node has its pass. A node whose source may not be read sleeps until another has told the cell
//! something. That a run ends is not promised.

mod bells;
mod ends;
mod linked;
mod rest;
mod room;
mod settling;
mod threads;
mod worker;

pub use ends::{InEnd, OutEnd};
pub use linked::Linked;
pub use room::Room;
pub use settling::{Ran, settle_all};
pub use threads::run_threads;
