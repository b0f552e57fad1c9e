//! A filtergraph as one filter.
//!
//! ```text
//!   graph, heads ──► configure_graph (ff_graph): the filters, and what feeds each
//!                      └──► drawn_plan (ff_graph_dag): the edges between them ──► Dag (ff_graph_dag): one filter
//!   cuts ──► Cutting (ff_trim): a cut after each output
//! ```
//!
//! The filter does what the definition of the graph says, pad by pad. Its outputs are broken off by a limit only
//! where a limit of one of its filters cuts. What it gives may then be cut in time, output by output.

mod connecting;
mod graph;
mod laws;
mod lists;
mod machine;

pub use graph::{GraphFilter, MadeGraph, make_graph};
pub use laws::{
    configured_heads_are_of_streams, graphs_are_drawings, graphs_have_open_pads, texts_are_limited,
    written_graphs_have_filters,
};
pub use machine::{CutGraph, GraphMachine, graph_machine};
