//! The reasons why no frame was read.
ghost use Rattle.std.specs.Prelude.{◌≡◌};
ghost use Rattle.ff_flac_frame.specs.declared.end.FrameEnd.TheVariants.{NoMemory};

use std::alloc::{AllocError, AllocFailed};

/// Why no frame was read.
#[derive(Clone, Copy, Debug, PartialEq, Eq)]
pub enum FrameEnd {
    /// No frame begins the bytes, and with some bytes more one does.
    NotYet,
    /// No frame begins the bytes, whatever follows.
    Never,
    /// There was no memory.
    NoMemory,
}

impl From<AllocError> for FrameEnd {
    ghost from_gives = { λ _ e. e ≡ NoMemory };

    fn from(_e: AllocError) -> FrameEnd {
        FrameEnd::NoMemory
    }
}

impl<T: Drop> From<AllocFailed<T>> for FrameEnd {
    ghost from_gives = { λ _ e. e ≡ NoMemory };

    fn from(_e: AllocFailed<T>) -> FrameEnd {
        FrameEnd::NoMemory
    }
}
