//! The plan of a run: which nodes it has, and which of their ports are joined.
//!
//! ```text
//! layout of a job ─► nodes, wires ─► edges
//!
//! -i a.wav -i v.y4m -map 0:a o.wav -map 1:v p.y4m
//!   0 Demux 0 ──► 2 Dec 0:0 ──► 4 Graph 0 ──► 6 Shortest 0 ──► 8 Enc 0 0 ──► 10 Mux 0
//!   1 Demux 1 ──► 3 Dec 1:0 ──► 5 Graph 1 ──► 7 Shortest 1 ──► 9 Enc 1 0 ──► 11 Mux 1
//! ```
//!
//! `planned` of `specs/Planned` says which plan a job has with the heads of its inputs, or which refusal. To the
//! layout of ff_plan_layout come the numbers of the nodes and the wires between them (`Nodes`). Then come the ports
//! (`Wires`), of which each that isn't named is the next one of its node. `plan` makes that plan. `specs/laws/Laws` says
//! what holds of the edges of every plan, and `specs/laws/NodeRows` in which order the nodes stand. `specs/laws/StartFits`,
//! `specs/laws/GraphFits` and `specs/laws/EndFits` say what stands at their ports. `specs/Numbers` numbers the streams of all
//! outputs. `specs/laws/Sound` is what the layer that runs a plan rests on. The law of a function that does nothing is its
//! `ensures`.
#![tactic(auto)]

mod examples;
mod firsts;
mod graph_laws;
mod laws;
mod nodes;
mod number;
mod numbering;
mod origins;
mod plan_laws;
mod planned;
mod planning;
mod routes;
mod wires;

pub use graph_laws::{
    ends_fit, graph_plans_are_fed, graph_plans_are_laid, graphs_fit, graphs_have_outs,
    nodes_have_rows, starts_fit,
};
pub use number::{Wire, number_ports};
pub use plan_laws::{
    HeadFact, frames_are_kept, graph_inputs_are_routes, outputs_fit, plans_are_sound,
    plans_never_want_memory, sources_are_asked,
};
pub use planned::{Plan, PlanNode};
pub use planning::plan;
