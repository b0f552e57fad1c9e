//! Filters fed by filters, without a loop, as one filter.
//!
//! ```text
//!   input 0 ──edge 0──►│ A │──edge 1──►│ B │──edge 3──►│   │
//!                      │   │──edge 2────────────────►│ C │──edge 4──► output 0
//! ```
//!
//! Each edge has a number and one stream; input i of the graph is edge i. Filters stand in an order in which each
//! feeds later ones only. One item may wait before each input of a filter. To pull at an output is to ask the filter
//! there. Where that has nothing, one item moves along one edge from which that output can be reached, the highest
//! first. So nothing is asked that the output doesn't need, and nothing piles up in the middle. Where a filter needs
//! no more of an input, the output that feeds it is stopped, and so on upwards. So nothing is kept for an output that
//! is over.
//!
//! What a graph still gives is said on all edges at once (`specs/laws/Graphs`). At the start it is the solution of a
//! network with a part for each filter (`specs/laws/Parts`).
//!
//! `ties`: The edges on the way to each output of a plan, and what is read off a plan that makes it sound.
//!
//! `wiring`: The plan of the edges of filters that feed one another: which edge stands at which port.
#![tactic(auto)]

mod dag;
mod graph;
mod placed;
mod ties;
mod wiring;

pub use dag::Dag;
pub use graph::{Graph, Node, Plan, Port, Wire};
pub use placed::Placed;
pub use ties::tied_plans_are_sound;
pub use wiring::{
    Drawing, drawings_are_linked, drawn_plan, drawn_plans_are_limited, drawn_plans_mean,
    filters_in_order_solve, graphs_are_limited, open_inputs_are_open, orders_go_forward,
    pad_places_are_positions, wired, wired_plans_solve,
};
