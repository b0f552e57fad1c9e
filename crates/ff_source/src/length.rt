//! How long a source filter lasts.
ghost use Rattle.std.specs.Prelude.{◌<◌, ◌≤◌, ◌^◌, ℕ, IfSome, IsNone};
ghost use Rattle.ff_filter.specs.Options.{IsTime};
ghost use Rattle.ff_filter.specs.Ranges.{IsCeiling};

use ff_filter::{Range, read_time};
use ff_time::Rational;

/// A duration as an argument says it.
#[derive(Clone, Copy, Debug)]
pub struct Length {
    /// Microseconds.
    pub us: u64,
    pub ghost near: { us ≤ 10 ^ 15 },
}

impl Length {
    /// The duration that a text is.
    pub(crate) fn read(text: &str) -> Option<Length>
        ensures is { IfSome result (λ length. IsTime text.now length.us) }
        ensures none { IsNone result → (us : ℕ) → IsTime text.now us → ⊥ }
    {
        match read_time(text) {
            None => None,
            Some(us) => Some(Length { us }),
        }
    }

    /// The least number of ticks that is at least as long.
    pub(crate) fn ticks(self, base: Rational) -> u64
        ensures is { IsCeiling self.us base result }
        ensures near { result < 2 ^ 63 }
    {
        Range::ceiling(self.us, base)
    }
}
