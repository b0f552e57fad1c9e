//! The scheduler: which sources may be read next, and the one history of what happened.
//!
//! The output stream that trails furthest decides. Its source may be read, and so may the sources of all streams that
//! are less than 100,000 microseconds ahead of it. A stream says how far it is when a packet of it is taken to be
//! written. Where it hangs on a graph, the way to its source goes through the input that the graph waits for.
//!
//! The state of this lies in a cell of 20 machine words that all workers of a run share. A worker has a pass of the cell: the right
//! to add so many events, and the log of those that it added. Each event is one exchange of the words; a grant is one that is
//! made only where the words unchoke its source. Once the passes are together again, their logs are the history.
//!
//! ```text
//!     muxers, graphs            SchedCell               sources
//!                         .-------------------.
//!     Sent, Finished ---> | last dts | marks  | ---> Grant
//!     Best           ---> | best   |  count   | <--- Exited
//!                         '-------------------'
//!        Pass: log                                  Pass: log
//!     (1, Sent) (4, ..)                        (0, Grant) (2, ..)
//!              \                                    /
//!               '---------> close <----------------'
//!                             |
//!            History: 0 Grant, 1 Sent, 2 .., 3 .., 4 ..
//! ```
//!
//! What a pass knows of the history is the prefix of it that the pass has seen. Nothing is known across two passes before
//! [`SchedCell::close`] has put all of them together. That a choked source is ever granted isn't promised.
#![tactic(auto)]

mod cell;
mod choking;
mod close;
mod history;
mod laws;
mod logged;
mod node;
mod pass;
mod print;
mod routes;
mod rule;
mod state;
mod words;

pub use cell::{Grant, SchedCell};
pub use choking::unchoked;
pub use close::CloseRefused;
pub use history::History;
pub use laws::one_log_keeps_its_order;
pub use logged::Logged;
pub use node::SchedNode;
pub use pass::Pass;
pub use print::print_history;
pub use routes::{Graphs, Routes, Way, Ways};
pub use state::{SchedState, step};
