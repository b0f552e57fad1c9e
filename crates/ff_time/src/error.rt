//! The refusals of the calls on times.

/// Why a call on times refuses.
#[derive(Clone, Copy, Debug, PartialEq, Eq)]
pub enum TimeError {
    /// A number of a fraction is below 1.
    NotPositive,
    /// A number of a reduced fraction exceeds 2^31 - 1, or a duration exceeds 10^15 microseconds.
    TooBig,
    /// A rescaled value is no `i64`.
    Overflow,
    /// The string is no duration; `at` is the first place at which none goes on.
    BadTime { at: usize },
}
