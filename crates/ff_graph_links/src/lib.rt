//! Filtergraphs before any filter is known: which output pad feeds which input pad, names, labels, which graph feeds
//! which, loops, in which order they stand.
#![tactic(auto)]

mod labels;
mod orders;
mod pads;

pub use labels::{
    Known, LabelFault, are_short, check_labels, check_names, check_own_labels, gives,
    graph_on_loop, graphs_in_order, is_short, labels_given, orders_are_whole, orders_go_upward,
    takes,
};
pub use orders::{loops_have_no_order, order, order_is_lowest, order_is_one};
pub use pads::{Drawn, Pad, feeders, giver, open_inputs, sources};
