//! A lower bound of the bits of a residual, by the sums of its smallest partitions alone.

ghost use Rattle.std.specs.Prelude.{◌≡◌, ◌+◌, ◌*◌, ◌^◌, ◌<◌, ◌≤◌, ℕ, All, length, map};
ghost use Rattle.std.specs.List.{AllByRecursion, sum_by};
ghost use Rattle.ff_flac_subframe.specs.rice.Rice.{zigzagged, part_cost, residual_bits, codings};

use crate::rice::coding::finest_order;
use crate::rice::zigzag::zigzag_of;

/// The sum of the zigzag numbers of 16 values.
// Inlined, the loop over the partitions becomes one over lanes that are gathered one by one.
#[inline(never)]
fn total_of_16(part: &[i32], most: u32) -> u32
    requires len { length part.now ≡ 16 }
    requires most { All (λ x. zigzagged x ≤ most) part.now }
    requires fits { most < 2 ^ 27 }
    ensures is { result ≡ sum_by zigzagged part.now }
    ensures small { result + 16 ≤ 2 ^ 31 }
{
    let mut sum: u32 = 0;
    for i in 0..16 {
        sum += zigzag_of(part[i]);
    }
    sum
}

/// The values of a partition of 16 don't have fewer bits, whatever the parameter.
fn floor_of_16(part: &[i32], most: u32) -> u32
    requires len { length part.now ≡ 16 }
    requires most { All (λ x. zigzagged x ≤ most) part.now }
    requires fits { most < 2 ^ 27 }
    ensures below { (k : ℕ) → k < 31 → result ≤ part_cost 0 k (map zigzagged part.now) }
    ensures small { result ≤ 2 ^ 10 }
{
    let total = total_of_16(part, most) + 16;
    let k = 27 - total.leading_zeros();
    16 * k + (total >> k)
}

/// No coding of these residuals, whose zigzag numbers are at most `most`, has fewer bits.
pub fn least_bits(residuals: &[i32], order: usize, most: u32) -> u64
    requires len { length residuals.now ≤ 2 ^ 15 }
    requires some { 0 < length residuals.now }
    requires order { order ≤ 4 }
    requires most { All (λ x. zigzagged x ≤ most) residuals.now }
    ensures below { AllByRecursion (λ c. result ≤ length (residual_bits order c (map zigzagged residuals.now))) (codings (length residuals.now + order) order) }
    ensures small { result ≤ 2 ^ 60 }
{
    let finest = finest_order(residuals.len() + order, order);
    if (residuals.len() + order) >> finest != 16 || most >= 0x800_0000 {
        return 10 + residuals.len() as u64;
    }
    let (first, mut rest) = residuals.split_at(16 - order);
    let mut bits = first.len() as u64;
    let mut left = (1usize << finest) - 1;
    while left > 0 {
        let (part, after) = rest.split_at(16);
        bits += floor_of_16(part, most) as u64;
        rest = after;
        left -= 1;
    }
    10 + bits
}
