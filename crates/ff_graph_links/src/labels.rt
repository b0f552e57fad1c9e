//! Names, labels and order of filtergraphs: what a plan asks of a job's graphs before it numbers nodes.
//!
//! A label at an input pad names the output pad of a complex graph that has it, else a stream of an input. So graphs
//! feed graphs. `specs/labels/Labels` says which labels a graph takes and gives. `specs/labels/Names` says what is
//! wrong with names and labels, and what comes first. `specs/labels/Order` says which graph feeds which, which lies
//! on a loop, and in which order they stand. Each stands after those that feed it, else by number.

mod alone;
mod fault;
mod known;
mod labels;
mod laws;
mod names;
mod order;

pub use alone::{check_names, check_own_labels};
pub use fault::LabelFault;
pub use known::Known;
pub use labels::{are_short, gives, is_short, takes};
pub use laws::{orders_are_whole, orders_go_upward};
pub use names::{check_labels, labels_given};
pub use order::{graph_on_loop, graphs_in_order};
