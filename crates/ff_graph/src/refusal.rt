//! The reasons why a graph is refused.
ghost use Rattle.std.specs.Prelude.{◌≡◌, Result, Err};
ghost use Rattle.ff_frame.specs.declared.config.ConfigError.TheVariants as fault;
ghost use Rattle.ff_graph.specs.Configured.{Made, Refused};
ghost use Rattle.ff_graph.specs.laws.Pads.{IsRefusal};
ghost use Rattle.ff_graph.specs.declared.refusal.Refusal.TheVariants.{NoMemory};

use ff_frame::ConfigError;
use std::alloc::AllocError;

/// Why a graph can't be had.
#[derive(Clone, Copy, Debug, PartialEq, Eq)]
pub enum Refusal {
    /// A filter is refused; its number in the order of writing. The kind is never `NoMemory`.
    Config { filter: usize, kind: ConfigError },
    /// Filters feed one another in a loop.
    Loop,
    /// There was no memory.
    NoMemory,
}

impl From<AllocError> for Refusal {
    ghost from_gives = { λ _ e. e ≡ NoMemory };

    fn from(_: AllocError) -> Self {
        Refusal::NoMemory
    }
}

/// The refusal of a filter.
pub(crate) fn refuse(filter: usize, kind: ConfigError) -> Refusal
    ensures memory { kind ≡ fault.NoMemory → result ≡ NoMemory }
    ensures refused { (r : Result Made Refused) → r ≡ Err (record { filter = filter; kind = kind }) → IsRefusal r result }
{
    match kind {
        ConfigError::NoMemory => Refusal::NoMemory,
        kind => Refusal::Config { filter, kind },
    }
}
