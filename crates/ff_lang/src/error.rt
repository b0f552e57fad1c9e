//! The reasons why a string isn't read as a filtergraph.
ghost use Rattle.std.specs.Prelude.{◌≡◌};
ghost use Rattle.ff_lang.specs.declared.error.LangError.TheVariants.{NoMemory};

use std::alloc::AllocError;

/// Why a string is not read.
#[derive(Clone, Copy, Debug, PartialEq, Eq)]
pub enum LangError {
    /// The string is no filtergraph; `at` is the first place, in bytes, at which none goes on.
    Bad { at: usize },
    /// There was no memory for the graph.
    NoMemory,
}

impl From<AllocError> for LangError {
    ghost from_gives = { λ _ e. e ≡ NoMemory };

    fn from(_: AllocError) -> Self {
        LangError::NoMemory
    }
}
