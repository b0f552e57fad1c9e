//! The faults of names and labels.
ghost use Rattle.std.specs.Prelude.{◌≡◌};
ghost use Rattle.ff_graph_links.specs.declared.labels.fault.LabelFault.TheVariants.{NoMemory};

use ff_lang::Text;
use std::alloc::AllocError;

/// What is wrong with the names and labels of graphs.
#[derive(Debug, Drop)]
pub enum LabelFault {
    /// A filter that there isn't. Filters are numbered in the order of writing.
    UnknownFilter { graph: u32, filter: u32 },
    /// A label at an input pad that no graph gives and that is no stream.
    UnknownLabel { label: Text },
    /// A label at two output pads, or one that a graph gives at two input pads.
    LabelTwice { label: Text },
    /// There was no memory.
    NoMemory,
}

impl From<AllocError> for LabelFault {
    ghost from_gives = { λ _ e. e ≡ NoMemory };

    fn from(_: AllocError) -> Self {
        LabelFault::NoMemory
    }
}
