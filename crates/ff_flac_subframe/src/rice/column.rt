//! The bits of all partitions of one partition order, in a column for each parameter.

ghost use Rattle.std.specs.Prelude.{◌≡◌, ◌+◌, ◌-◌, ◌*◌, ◌/◌, ◌%◌, ◌^◌, ◌<◌, ◌≤◌, ◌∷◌};
ghost use Rattle.std.specs.Prelude.{length, map, take, slice_index, IfOk, All};
ghost use lib.Lanes.{pair_sums};
ghost use Rattle.ff_flac_subframe.specs.rice.Rice.{part_cost, parts_of, pieces};
ghost use Rattle.ff_flac_subframe.specs.laws.rice.Columns.{column, columns as columns_from, items_of};
ghost use Rattle.ff_flac_subframe.specs.laws.rice.Spans.{IsSpan};

use crate::rice::quotients::{cost_of, cost_of_16};
use crate::rice::span::Span;
use std::alloc::{AllocError, Global};

/// After the first, the bits of each partition of 16 values whose sum fits 32 bits.
fn fill_by_16(costs: &mut [u64], us: &[u32], k: usize, most: u32)
    requires some { 0 < length costs.old }
    requires len { length us.now ≡ (length costs.old - 1) * 16 }
    requires k { k < 31 }
    requires most { All (λ u. u ≤ most) us.now }
    requires fits { 16 * most < 2 ^ 32 }
    ensures { costs.new ≡ slice_index costs.old 0 ∷ column k (pieces (length costs.old - 1) 16 us.now) }
{
    for i in 0..costs.len() - 1 {
        costs[i + 1] = cost_of_16(&us[16 * i..16 * i + 16], k, most);
    }
}

/// After the first, the bits of each partition of so many values, whatever they are.
fn fill_by(costs: &mut [u64], us: &[u32], size: usize, k: usize, most: u32)
    requires some { 0 < length costs.old }
    requires len { length us.now ≡ (length costs.old - 1) * size }
    requires few { length us.now ≤ 2 ^ 15 }
    requires k { k < 31 }
    requires most { All (λ u. u ≤ most) us.now }
    ensures { costs.new ≡ slice_index costs.old 0 ∷ column k (pieces (length costs.old - 1) size us.now) }
{
    for i in 0..costs.len() - 1 {
        costs[i + 1] = cost_of(&us[size * i..size * i + size], k, most);
    }
}

/// After the first, the bits of each partition of so many values.
fn fill(costs: &mut [u64], us: &[u32], size: usize, k: usize, most: u32)
    requires some { 0 < length costs.old }
    requires len { length us.now ≡ (length costs.old - 1) * size }
    requires few { length us.now ≤ 2 ^ 15 }
    requires k { k < 31 }
    requires most { All (λ u. u ≤ most) us.now }
    ensures { costs.new ≡ slice_index costs.old 0 ∷ column k (pieces (length costs.old - 1) size us.now) }
{
    if size == 16 && most < 0x1000_0000 {
        fill_by_16(costs, us, k, most);
        return;
    }
    fill_by(costs, us, size, k, most);
}

/// The bits of each of `2 ^ partition_order` partitions under one parameter. No value is above `most`.
fn column_of(
    alloc: Global,
    us: &[u32],
    most: u32,
    order: usize,
    partition_order: u32,
    k: usize,
) -> Result<Vec<u64>, AllocError>
    requires len { length us.now ≤ 2 ^ 15 }
    requires most { All (λ u. u ≤ most) us.now }
    requires order { order ≤ 4 }
    requires partition_order { partition_order ≤ 8 }
    requires whole { (length us.now + order) % 2 ^ partition_order ≡ 0 }
    requires longer { order < (length us.now + order) / 2 ^ partition_order }
    requires k { k < 31 }
    ensures { IfOk result (λ costs. costs.items ≡ column k (parts_of order partition_order us.now)) }
{
    let size = (us.len() + order) >> partition_order;
    let (first, rest) = us.split_at(size - order);
    let mut costs = vec![in alloc; 0u64; 1usize << partition_order]?;
    costs[0] = cost_of(first, k, most);
    fill(&mut costs, rest, size, k, most);
    Ok(costs)
}

/// A column for each parameter of a span. No value is above `most`.
pub fn columns_of(
    alloc: Global,
    us: &[u32],
    most: u32,
    order: usize,
    partition_order: u32,
    span: Span,
) -> Result<Vec<Vec<u64>>, AllocError>
    requires len { length us.now ≤ 2 ^ 15 }
    requires most { All (λ u. u ≤ most) us.now }
    requires order { order ≤ 4 }
    requires partition_order { partition_order ≤ 8 }
    requires whole { (length us.now + order) % 2 ^ partition_order ≡ 0 }
    requires longer { order < (length us.now + order) / 2 ^ partition_order }
    requires span { IsSpan span.low span.high }
    ensures { IfOk result (λ columns. items_of columns.items ≡ columns_from span.low (span.high - span.low) (parts_of order partition_order us.now)) }
{
    let mut columns = Vec::with_capacity(alloc, span.high - span.low)?;
    for k in span.low..span.high {
        columns.push(column_of(alloc, us, most, order, partition_order, k)?)?;
    }
    Ok(columns)
}

/// Puts the sum of each two at the start.
fn add_neighbours(costs: &mut [u64])
    requires { All (λ cost. cost ≤ 2 ^ 48) costs.old }
    ensures len { length costs.new ≡ length costs.old }
    ensures sums { take (length costs.old / 2) costs.new ≡ pair_sums costs.old }
{
    for i in 0..costs.len() / 2 {
        costs[i] = costs[2 * i] + costs[2 * i + 1];
    }
}

/// Makes one partition of each two.
fn halve_column(costs: &mut Vec<u64>)
    requires { All (λ cost. cost ≤ 2 ^ 48) costs.old.items }
    ensures { costs.new.items ≡ pair_sums costs.old.items }
{
    let half = costs.len() / 2;
    add_neighbours(costs);
    costs.truncate(half);
}

/// Makes one partition of each two in each column.
pub fn halve(columns: &mut Vec<Vec<u64>>)
    requires { All (All (λ cost. cost ≤ 2 ^ 48)) (items_of columns.old.items) }
    ensures { items_of columns.new.items ≡ map pair_sums (items_of columns.old.items) }
{
    for i in 0..columns.len() {
        halve_column(&mut columns[i]);
    }
}
