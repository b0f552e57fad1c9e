//! The reasons why a frame has no samples.
ghost use Rattle.std.specs.Prelude.{◌≡◌};
ghost use Rattle.ff_flac_dec.specs.declared.end.DecodeEnd.TheVariants.{NoMemory};

use std::alloc::{AllocError, AllocFailed};

/// Why a frame has no samples.
#[derive(Clone, Copy, Debug, PartialEq, Eq)]
pub enum DecodeEnd {
    /// A sample leaves its subframe's depth or the stream's.
    OutOfDepth,
    /// There was no memory.
    NoMemory,
}

impl From<AllocError> for DecodeEnd {
    ghost from_gives = { λ _ e. e ≡ NoMemory };

    fn from(_e: AllocError) -> DecodeEnd {
        DecodeEnd::NoMemory
    }
}

impl<T: Drop> From<AllocFailed<T>> for DecodeEnd {
    ghost from_gives = { λ _ e. e ≡ NoMemory };

    fn from(_e: AllocFailed<T>) -> DecodeEnd {
        DecodeEnd::NoMemory
    }
}
