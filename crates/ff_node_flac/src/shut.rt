//! The ways in which the frames of an encoder close.

/// How the frames closed.
#[derive(Clone, Copy, Debug, PartialEq, Eq)]
pub enum Shut {
    /// More may come.
    Open,
    /// All came.
    Whole,
    /// The rest was lost.
    Broken,
}
