//! The kinds of streams, as their headers say them.
use ff_time::Rational;

/// What the header of a stream says (AVISTREAMHEADER).
#[derive(Clone, Copy)]
pub enum StreamKind {
    /// Pictures, with ticks of so many seconds.
    Video(Rational),
    /// Sound; its format says all of it.
    Audio,
}
