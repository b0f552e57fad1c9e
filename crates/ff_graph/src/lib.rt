//! Filtergraphs as they are written. That is the filters in their order, what feeds each, and the order in which they
//! can be made. It is what the open pads are, and the filters themselves, each configured by the heads of what comes
//! to it.
//!
//! ```text
//!   Graph ──► drawn ──► sources (ff_graph_links): the output pad that feeds each input pad
//!     │            └──► in_order: each after those that feed it, else by number; None for a loop
//!     ├────► open_inputs, has_loop, source_fault: what a plan asks before any head is known
//!     ├────► make_all: with the heads of the open inputs, the filters in that order, or the first refusal
//!     └────► configure_graph: all of that, and the open output pads with their heads
//! ```
//!
//! `composed`: A filtergraph as one filter.
#![tactic(auto)]

mod composed;
mod configuring;
mod drawing;
mod fitting;
mod heads;
mod laws;
mod making;
mod opening;
mod ordering;
mod outputs;
mod refusal;
mod sources;

pub use composed::{
    CutGraph, GraphFilter, GraphMachine, MadeGraph, configured_heads_are_of_streams, graph_machine,
    graphs_are_drawings, graphs_have_open_pads, make_graph, texts_are_limited,
    written_graphs_have_filters,
};
pub use configuring::{Configured, configure_graph};
pub use drawing::drawn;
pub use laws::{graphs_by_example, refusals_are_of_filters};
pub use making::make_all;
pub use opening::{OpenInput, SourceInput, is_known, open_inputs};
pub use ordering::{has_loop, in_order};
pub use outputs::OpenOutput;
pub use refusal::Refusal;
pub use sources::{SourceFault, source_fault};
