//! The layout of a job: which streams each output has, through which graphs they pass, and what each graph takes.
//!
//! ```text
//! job, heads ─► complex graphs ─► streams by output ─► simple graphs, strings ─► limits
//! ```
//!
//! `laid_out` of `specs/LaidOut` says which layout a job has with the heads of its inputs, or which refusal. First
//! comes what the complex graphs take and give (`Pads`). Then comes which streams each output has, and what becomes
//! of each (`Streams`). No number of a node and no port occurs in it. `lay_out` makes that layout, by rules of graphs
//! that a `Filtering` has: what filters there are and what their graphs make of streams. `specs/laws/Graphs` says what
//! laws of plans need of such rules.
#![tactic(auto)]

mod asking;
mod choosing;
mod error;
mod filtering;
mod labelled;
mod laying;
mod layout;
mod lengths;
mod limits;
mod making;
mod mapping;
mod naming;
mod open_pads;
mod output_rows;
mod passing;
mod picking;
mod places;
mod ready;
mod sources;
mod takes;
mod wanting;

pub use error::PlanError;
pub use filtering::Filtering;
pub use laying::lay_out;
pub use layout::{GraphText, InPad, Laid, Laying, Made, Origin, OutStream, Passed, Placed, Want};
pub use limits::is_within_limits;
pub use open_pads::{OpenIn, OpenOut, Refused, SourcePad};
pub use passing::simple_graph;
pub use places::{same_ref, stream_at};
