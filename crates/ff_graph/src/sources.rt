//! Source filters in a graph: what they make, and the first that is refused.
ghost use Rattle.std.specs.Prelude.{◌≡◌, IfOk};
ghost use Rattle.std.specs.Option.{option_map};
ghost use Rattle.ff_graph.specs.Faults.{source_fault as fault_in};
ghost use Rattle.ff_graph.specs.laws.Pads.{fault_of};
ghost use Rattle.ff_graph.specs.Sources.{is_source_filter as makes_its_own, made_in};

use crate::drawing::drawn;
use ff_filters::{is_source, made_by_itself, named};
use ff_frame::ConfigError;
use ff_lang::{Filter, Graph};
use ff_source::Made;
use std::alloc::{AllocError, Global};

/// A source filter whose arguments are refused.
#[derive(Clone, Copy, Debug, PartialEq, Eq)]
pub struct SourceFault {
    /// Its number in the order of writing.
    pub filter: usize,
    /// Why it is refused; never `NoMemory`.
    pub kind: ConfigError,
}

/// Whether a filter is a source filter.
pub(crate) fn is_source_filter(filter: &Filter) -> bool
    ensures { result ≡ makes_its_own filter.now }
{
    match named(filter.name.as_str()) {
        None => false,
        Some(name) => is_source(name),
    }
}

/// What a source filter makes by its arguments alone, or why they are refused. None where it is no source filter.
pub(crate) fn made_by_filter(filter: &Filter) -> Result<Option<Made>, ConfigError>
    ensures { result ≡ made_in filter.now }
{
    match named(filter.name.as_str()) {
        None => Ok(None),
        Some(name) => made_by_itself(name, filter.args.as_slice()),
    }
}

/// The first source filter of a graph, in the order of writing, whose arguments are refused.
pub fn source_fault(alloc: Global, graph: &Graph) -> Result<Option<SourceFault>, AllocError>
    ensures { IfOk result (λ fault. option_map fault_of fault ≡ fault_in graph.now) }
{
    let filters = drawn(alloc, graph)?;
    'filters: for at in 0..filters.len() {
        if let Err(kind) = made_by_filter(filters[at].filter) {
            return Ok(Some(SourceFault { filter: at, kind }));
        }
    }
    Ok(None)
}
