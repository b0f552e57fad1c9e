//! The cut of a stream in time: its start, and its length.
ghost use Rattle.std.specs.Prelude.{◌≤◌, ◌^◌};
ghost use Rattle.std.specs.Option.{ForSome};

/// A cut in microseconds: where it starts, and how long it is unless it has no end. Each number
/// is at most 10^15.
#[derive(Clone, Copy, Debug, PartialEq, Eq)]
pub struct TimeCut {
    /// Microseconds before the cut.
    pub start: u64,
    /// Microseconds in the cut; `None` goes on to the end.
    pub length: Option<u64>,
    pub ghost start_bound: { start ≤ 10 ^ 15 },
    pub ghost length_bound: { ForSome length (λ n. n ≤ 10 ^ 15) },
}
