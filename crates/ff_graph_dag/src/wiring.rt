//! The plan of the edges of filters that feed one another: which edge stands at which port.
//!
//! ```text
//!   inputs of the graph ──0──► filter 0 ──2──► filter 1 ──4──► output of the graph
//!                       ──1─────────────────►          ──5──►
//! ```
//!
//! Input i of the graph is edge i. After these stands an edge for each input that a filter feeds, and then one for
//! each output of the graph. A plan that is made so is one whose edges fit together (`ff_graph_dag`).

mod ends;
mod laws;
mod nodes;
mod placing;
mod plan;
mod wires;

pub use laws::{
    drawings_are_linked, drawn_plans_are_limited, drawn_plans_mean, filters_in_order_solve,
    graphs_are_limited, open_inputs_are_open, orders_go_forward, pad_places_are_positions,
    wired_plans_solve,
};
pub use plan::{Drawing, drawn_plan, wired};
