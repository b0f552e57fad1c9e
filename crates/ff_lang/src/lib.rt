//! The filtergraph language.
//!
//! A string such as `[0:v]trim=end=2,hflip[o]` stands for a `Graph`: chains of filters, each with its labels and
//! arguments. `specs/Grammar` says which strings are filtergraphs, and which graph each stands for. `read_graph`
//! reads exactly those, and says of any other string where it leaves the grammar.
#![tactic(auto)]

mod error;
mod graph;
mod laws;
mod letters;
mod lists;
mod parser;
mod print;
mod read;
mod soundness;
mod source;

pub use error::LangError;
pub use graph::{Arg, Chain, Filter, Graph};
pub use laws::graphs_have_one_meaning;
pub use lists::{Sequence, Text};
pub use print::print_graph;
pub use read::read_graph;
pub use soundness::graph_ok;
pub use source::{SourceName, has_source};
