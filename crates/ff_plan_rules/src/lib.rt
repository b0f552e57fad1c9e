//! The rules of filters and maps that plans go by: those of the filters that there are.
//!
//! ```text
//!   ff_words ───────► map_of ──────────────────────────────────────────────┐
//!   ff_graph ───────► known, loops, open_ins, source_fault, configured ────┴─► graph_rules ─► ff_plan
//! ```
//!
//! A plan is defined over rules (`ff_plan/specs/Rules`). They say which names are filters, what the open pads of a
//! graph are, and which map a string is. Here they are those of the product (`specs/Rules`), and [`GraphRules`] is
//! them as code. The laws say what plans need of them (`specs/Kept`, and `AreRules` of ff_plan).
#![tactic(auto)]

mod examples;
mod in_pads;
mod laws;
mod maps;
mod out_pads;
mod rules;
mod sources;

pub use laws::{heads_are_kept, maps_are_read, rules_are_rules, words_have_few_pads};
pub use rules::GraphRules;
