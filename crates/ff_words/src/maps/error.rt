//! The reasons why a string isn't read as a map.
ghost use Rattle.std.specs.Prelude.{◌≡◌};
ghost use Rattle.ff_words.specs.declared.maps.error.MapError.TheVariants.{NoMemory};

use std::alloc::AllocError;

/// Why a string is not read.
#[derive(Clone, Copy, Debug, PartialEq, Eq)]
pub enum MapError {
    /// The string is no map; `at` is the first place, in bytes, at which none goes on.
    Bad { at: usize },
    /// There was no memory for the label.
    NoMemory,
}

impl From<AllocError> for MapError {
    ghost from_gives = { λ _ e. e ≡ NoMemory };

    fn from(_: AllocError) -> Self {
        MapError::NoMemory
    }
}
