//! The best coding of a residual.

ghost use Rattle.std.specs.Prelude.{◌≡◌, ◌+◌, ◌-◌, ◌*◌, ◌/◌, ◌%◌, ◌^◌, ◌<◌, ◌≤◌, ℕ, length, IfOk, Ok, Some, None, true, nat_le, if◌then◌else◌};
ghost use Rattle.std.specs.List.{range_with_len, AllByRecursion};
ghost use Rattle.ff_flac_subframe.specs.rice.Least.{least};
ghost use Rattle.ff_flac_subframe.specs.rice.Rice.{is_allowed, orders, residual_bits, codings, best_at};

use crate::rice::column::{columns_of, halve};
use crate::rice::level::level_costs;
use crate::rice::quotients::greatest;
use crate::rice::span::span_of;
use std::alloc::{AllocError, Global};

/// A way to code a residual, and its bits.
#[derive(Clone, Copy)]
pub struct Found {
    /// The coding method: 0 for parameters of 4 bits, 1 for those of 5 (RFC 9639, section 9.2.7).
    pub method: usize,
    /// The exponent of 2 that gives the number of partitions.
    pub partition_order: u32,
    /// The bits of the coded residual.
    pub cost: u64,
}

/// A partition order, and the bits of all partitions.
#[derive(Clone, Copy)]
struct Choice {
    partition_order: u32,
    cost: u64,
}

/// Whether a block of `n` samples may have `2 ^ partition_order` partitions.
fn allows(n: usize, order: usize, partition_order: u32) -> bool
    requires { partition_order ≤ 8 }
    ensures { result ≡ is_allowed n order partition_order }
{
    n % (1usize << partition_order) == 0 && order < n >> partition_order
}

/// The greatest partition order of all that are allowed.
pub(crate) fn finest_order(n: usize, order: usize) -> u32
    requires { order < n }
    ensures within { result ≤ 8 }
    ensures allowed { is_allowed n order result ≡ true }
    ensures all { orders n order ≡ range_with_len 0 (result + 1) }
{
    let mut partition_order = 0;
    while partition_order < 8 {
        if !allows(n, order, partition_order + 1) {
            return partition_order;
        }
        partition_order += 1;
    }
    partition_order
}

/// The one with the lower cost, and at the same cost the lower partition order.
fn lower(choice: Choice, partition_order: u32, cost: u64) -> Choice
    ensures chosen { result ≡ (if nat_le cost choice.cost then record { partition_order = partition_order; cost = cost } else choice) }
    ensures small { result.cost ≤ choice.cost }
{
    if cost <= choice.cost {
        Choice {
            partition_order,
            cost,
        }
    } else {
        choice
    }
}

/// The best coding of the zigzag values of a residual, or none where no coding has fewer bits than so many.
pub fn coding_below(
    alloc: Global,
    us: &[u32],
    order: usize,
    limit: u64,
) -> Result<Option<Found>, AllocError>
    requires len { length us.now ≤ 2 ^ 15 }
    requires some { 0 < length us.now }
    requires order { order ≤ 4 }
    ensures none { result ≡ Ok None → AllByRecursion (λ c. limit ≤ length (residual_bits order c us.now)) (codings (length us.now + order) order) }
    ensures some { result ≡ Ok None → limit ≤ 2 ^ 58 }
    ensures least { (f : Found) → result ≡ Ok (Some f) → least (λ c. length (residual_bits order c us.now)) (codings (length us.now + order) order)
        ≡ Some (best_at order f.method f.partition_order us.now) }
    ensures cost { (f : Found) → result ≡ Ok (Some f) → f.cost ≡ length (residual_bits order (best_at order f.method f.partition_order us.now) us.now) }
    ensures method { (f : Found) → result ≡ Ok (Some f) → f.method ≤ 1 }
    ensures partition_order { (f : Found) → result ≡ Ok (Some f) → f.partition_order ≤ 8 }
    ensures allowed { (f : Found) → result ≡ Ok (Some f) → is_allowed (length us.now + order) order f.partition_order ≡ true }
    ensures small { (f : Found) → result ≡ Ok (Some f) → f.cost ≤ 2 ^ 58 }
{
    let finest = finest_order(us.len() + order, order);
    let most = greatest(us);
    let span = span_of(us, most, order, finest);
    let mut columns = columns_of(alloc, us, most, order, finest, span)?;
    let mut least = vec![in alloc; 0u64; 1usize << finest]?;
    let mut partition_order = finest;
    let (with_first, with_second) = level_costs(&columns, &mut least, span);
    // The method, the partition order and one parameter have at least 10 bits, and in larger partitions the values don't have fewer.
    if limit <= 10 + (with_second - 5 * (1u64 << finest)) {
        return Ok(None);
    }
    let mut first = Choice {
        partition_order,
        cost: with_first,
    };
    let mut second = Choice {
        partition_order,
        cost: with_second,
    };
    while partition_order > 0 {
        partition_order -= 1;
        halve(&mut columns);
        let places = 1usize << partition_order;
        let (with_first, with_second) = level_costs(&columns, &mut least[..places], span);
        first = lower(first, partition_order, with_first);
        second = lower(second, partition_order, with_second);
    }
    if second.cost < first.cost {
        return Ok(Some(Found {
            method: 1,
            partition_order: second.partition_order,
            cost: 6 + second.cost,
        }));
    }
    Ok(Some(Found {
        method: 0,
        partition_order: first.partition_order,
        cost: 6 + first.cost,
    }))
}

/// The best coding of the zigzag values of a residual.
pub fn best_coding(alloc: Global, us: &[u32], order: usize) -> Result<Found, AllocError>
    requires len { length us.now ≤ 2 ^ 15 }
    requires some { 0 < length us.now }
    requires order { order ≤ 4 }
    ensures least { IfOk result (λ f. least (λ c. length (residual_bits order c us.now)) (codings (length us.now + order) order)
        ≡ Some (best_at order f.method f.partition_order us.now)) }
    ensures cost { IfOk result (λ f. f.cost ≡ length (residual_bits order (best_at order f.method f.partition_order us.now) us.now)) }
    ensures method { IfOk result (λ f. f.method ≤ 1) }
    ensures partition_order { IfOk result (λ f. f.partition_order ≤ 8) }
    ensures allowed { IfOk result (λ f. is_allowed (length us.now + order) order f.partition_order ≡ true) }
    ensures small { IfOk result (λ f. f.cost ≤ 2 ^ 58) }
{
    match coding_below(alloc, us, order, u64::MAX)? {
        Some(found) => Ok(found),
        None => unreachable!(),
    }
}
