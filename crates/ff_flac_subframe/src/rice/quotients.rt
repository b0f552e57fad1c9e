//! Sums over a partition, under each parameter.

ghost use Rattle.std.specs.Prelude.{◌≡◌, ◌+◌, ◌*◌, ◌/◌, ◌^◌, ◌<◌, ◌≤◌, length, map, All};
ghost use lib.Lanes.{sum_l};
ghost use Rattle.ff_flac_subframe.specs.rice.Rice.{quotients, part_cost};

use std::simd::prelude::*;

/// The greatest value, or 0.
pub(crate) fn greatest(part: &[u32]) -> u32
    ensures { All (λ u. u ≤ result) part.now }
{
    let mut most: u32 = 0;
    for u in part {
        most = most.max(*u);
    }
    most
}

/// The sum of 16 values, where it fits 32 bits.
pub(crate) fn sum_of(lanes: u32x16) -> u32
    requires { sum_l lanes < 2 ^ 32 }
    ensures { result ≡ sum_l lanes }
{
    lanes.strict_reduce_sum()
}

/// The quotients of 16 values under one parameter.
pub(crate) fn lanes_at(part: &[u32], k: usize) -> u32x16
    requires len { length part.now ≡ 16 }
    requires k { k < 32 }
    ensures { result ≡ map (λ u. u / 2 ^ k) part.now }
{
    u32x16::from_slice(part) >> u32x16::splat(k as u32)
}

/// The sum of the quotients under one parameter, where it fits 32 bits.
fn narrow_quotients(part: &[u32], k: u32, most: u32) -> u32
    requires k { k < 32 }
    requires most { All (λ u. u ≤ most) part.now }
    requires fits { length part.now * most < 2 ^ 32 }
    ensures { result ≡ quotients k part.now }
{
    let mut sum: u32 = 0;
    for u in part {
        sum += *u >> k;
    }
    sum
}

/// The sum of the quotients under one parameter.
pub(crate) fn wide_quotients(part: &[u32], k: u32) -> u64
    requires len { length part.now ≤ 2 ^ 16 }
    requires k { k < 32 }
    ensures { result ≡ quotients k part.now }
{
    let mut sum: u64 = 0;
    for u in part {
        sum += (*u >> k) as u64;
    }
    sum
}

/// The sum of the quotients under one parameter.
pub(crate) fn quotients_of(part: &[u32], k: u32, most: u32) -> u64
    requires len { length part.now ≤ 2 ^ 16 }
    requires k { k < 32 }
    requires most { All (λ u. u ≤ most) part.now }
    ensures { result ≡ quotients k part.now }
{
    if part.len() as u64 * (most as u64) < 0x1_0000_0000 {
        return narrow_quotients(part, k, most) as u64;
    }
    wide_quotients(part, k)
}

/// The sum of values of which none is above `most`.
pub(crate) fn total_of(part: &[u32], most: u32) -> u64
    requires len { length part.now ≤ 2 ^ 16 }
    requires most { All (λ u. u ≤ most) part.now }
    ensures { result ≡ quotients 0 part.now }
{
    if part.len() == 16 && most < 0x1000_0000 {
        return sum_of(lanes_at(part, 0)) as u64;
    }
    wide_quotients(part, 0)
}

/// The bits of 16 values under a parameter, where their sum fits 32 bits.
pub(crate) fn cost_of_16(part: &[u32], k: usize, most: u32) -> u64
    requires len { length part.now ≡ 16 }
    requires k { k < 31 }
    requires most { All (λ u. u ≤ most) part.now }
    requires fits { 16 * most < 2 ^ 32 }
    ensures is { result ≡ part_cost 0 k part.now }
{
    16 * (k as u64 + 1) + sum_of(lanes_at(part, k)) as u64
}

/// The bits of the values under a parameter.
pub(crate) fn cost_of(part: &[u32], k: usize, most: u32) -> u64
    requires len { length part.now ≤ 2 ^ 15 }
    requires k { k < 31 }
    requires most { All (λ u. u ≤ most) part.now }
    ensures is { result ≡ part_cost 0 k part.now }
    ensures small { result ≤ 2 ^ 48 }
{
    part.len() as u64 * (k as u64 + 1) + quotients_of(part, k as u32, most)
}
