//! The parameters among which the best one of each partition is.

ghost use Rattle.std.specs.Prelude.{◌≡◌, ◌+◌, ◌-◌, ◌*◌, ◌/◌, ◌%◌, ◌^◌, ◌<◌, ◌≤◌, length, All};
ghost use Rattle.std.specs.List.{AllByRecursion};
ghost use Rattle.ff_flac_subframe.specs.rice.Rice.{parts_of};
ghost use Rattle.ff_flac_subframe.specs.laws.rice.Spans.{IsLowEnd, IsHighEnd, IsSpan, Spans};

use crate::rice::quotients::total_of;

/// Parameters from `low` on and below `high`.
#[derive(Clone, Copy)]
pub struct Span {
    /// The lowest parameter.
    pub low: usize,
    /// One more than the highest parameter.
    pub high: usize,
}

/// So many times a power of two.
fn scaled(len: u64, k: usize) -> u64
    requires len { len ≤ 2 ^ 16 }
    requires k { k < 31 }
    ensures is { result ≡ len * 2 ^ k }
    ensures small { result ≤ 2 ^ 47 }
{
    len * (1u64 << k)
}

/// A low end for so many values with this sum, at most `low`.
fn low_end(low: usize, len: u64, total: u64) -> usize
    requires low { low ≤ 14 }
    requires len { len ≤ 2 ^ 16 }
    ensures within { result ≤ low }
    ensures is { IsLowEnd result len total }
{
    if low == 0 {
        return 0;
    }
    if 3 * scaled(len, low - 1) <= total {
        return low;
    }
    let mut low = low;
    while low > 0 && total < 3 * scaled(len, low - 1) {
        low -= 1;
    }
    low
}

/// A high end for so many values with this sum, at least `high`.
fn high_end(high: usize, len: u64, total: u64) -> usize
    requires high { (1 ≤ high) × (high ≤ 31) }
    requires len { len ≤ 2 ^ 16 }
    ensures within { high ≤ result }
    ensures last { result ≤ 31 }
    ensures is { IsHighEnd result len total }
{
    if high == 31 {
        return 31;
    }
    if total <= scaled(len, high - 1) {
        return high;
    }
    let mut high = high;
    while high < 31 && scaled(len, high - 1) < total {
        high += 1;
    }
    high
}

/// The parameters among which the best one of so many values with this sum is.
pub(crate) fn span_at(len: u64, total: u64) -> Span
    requires { len ≤ 2 ^ 16 }
    ensures span { IsSpan result.low result.high }
    ensures low { IsLowEnd result.low len total }
    ensures high { IsHighEnd result.high len total }
{
    let near = len.leading_zeros().saturating_sub(total.leading_zeros()) as usize;
    let low = low_end(near.saturating_sub(1).min(14), len, total);
    let high = high_end((near + 2).min(31), len, total);
    Span {
        low,
        high: high.max(low + 1),
    }
}

/// The parameters among which the best one of each partition is, for partitions of this order. No value is above `most`.
pub fn span_of(us: &[u32], most: u32, order: usize, partition_order: u32) -> Span
    requires len { length us.now ≤ 2 ^ 15 }
    requires most { All (λ u. u ≤ most) us.now }
    requires order { order ≤ 4 }
    requires partition_order { partition_order ≤ 8 }
    requires whole { (length us.now + order) % 2 ^ partition_order ≡ 0 }
    requires longer { order < (length us.now + order) / 2 ^ partition_order }
    ensures span { IsSpan result.low result.high }
    ensures spans { AllByRecursion (Spans result.low result.high) (parts_of order partition_order us.now) }
{
    let size = (us.len() + order) >> partition_order;
    let (first, mut rest) = us.split_at(size - order);
    let total = total_of(first, most);
    let mut low_total = u64::MAX;
    let mut high_total = 0u64;
    let mut left = (1usize << partition_order) - 1;
    while left > 0 {
        let (part, after) = rest.split_at(size);
        let other = total_of(part, most);
        low_total = low_total.min(other);
        high_total = high_total.max(other);
        rest = after;
        left -= 1;
    }
    let first_low = low_end(14, first.len() as u64, total);
    let low = low_end(first_low, size as u64, low_total);
    let first_high = high_end(1, first.len() as u64, total);
    let high = high_end(first_high, size as u64, high_total);
    Span {
        low,
        high: high.max(low + 1),
    }
}
