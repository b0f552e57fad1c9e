//! The best parameter of a partition.

ghost use Rattle.std.specs.Prelude.{◌≡◌, ◌+◌, ◌*◌, ◌/◌, ◌^◌, ◌<◌, ◌≤◌, ℕ, length};
ghost use Rattle.ff_flac_subframe.specs.rice.Rice.{part_cost, best_k, count_of};

use crate::rice::quotients::{greatest, quotients_of, wide_quotients};
use crate::rice::span::span_at;

/// How many parameters a method has.
fn parameter_count(method: usize) -> usize
    ensures { result ≡ count_of method }
{
    if method == 0 { 15 } else { 31 }
}

/// The first of the parameters from `low` on and below `high` under which the values have the fewest bits.
fn best_between(part: &[u32], low: usize, high: usize) -> usize
    requires len { length part.now ≤ 2 ^ 15 }
    requires some { low < high }
    requires few { high ≤ 31 }
    ensures from { low ≤ result }
    ensures below { result < high }
    ensures before { (j : ℕ) → low ≤ j → j < result → part_cost 0 result part.now < part_cost 0 j part.now }
    ensures behind { (j : ℕ) → result ≤ j → j < high → part_cost 0 result part.now ≤ part_cost 0 j part.now }
{
    let most = greatest(part);
    let len = part.len() as u64;
    let mut best = low;
    let mut cost = len * (low as u64 + 1) + quotients_of(part, low as u32, most);
    for k in low + 1..high {
        let other = len * (k as u64 + 1) + quotients_of(part, k as u32, most);
        if other < cost {
            best = k;
            cost = other;
        }
    }
    best
}

/// The best parameter of a partition. It is among few, by the sum of the values.
pub fn best_parameter(part: &[u32], method: usize) -> usize
    requires len { length part.now ≤ 2 ^ 15 }
    requires method { method ≤ 1 }
    ensures is { result ≡ best_k method part.now }
    ensures below { result < count_of method }
{
    let count = parameter_count(method);
    let span = span_at(part.len() as u64, wide_quotients(part, 0));
    let low = span.low.saturating_sub(1);
    let best = best_between(part, low, span.high.min(count));
    if low < best {
        return best;
    }
    // One below may have as few bits.
    best_between(part, 0, count)
}
