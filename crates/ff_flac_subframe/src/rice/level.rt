//! The least bits of all partitions of one partition order.

ghost use Rattle.std.specs.Prelude.{◌≡◌, ◌+◌, ◌-◌, ◌*◌, ◌^◌, ◌<◌, ◌≤◌, min, length, take, All};
ghost use Rattle.std.specs.List.{fold, sum};
ghost use lib.Lanes.{zip2};
ghost use Rattle.ff_flac_subframe.specs.laws.rice.Columns.{least_each, items_of};
ghost use Rattle.ff_flac_subframe.specs.laws.rice.Spans.{IsSpan};

use crate::rice::span::Span;

/// Takes the lower of each two.
fn lower_each(least: &mut [u64], costs: &[u64])
    requires { length least.old ≡ length costs.now }
    ensures { least.new ≡ zip2 min least.old costs.now }
{
    for i in 0..least.len() {
        least[i] = least[i].min(costs[i]);
    }
}

/// Takes the least in each place, of these and of all columns.
fn lower_by(least: &mut [u64], columns: &[Vec<u64>])
    requires { All (λ costs. length costs ≡ length least.old) (items_of columns.now) }
    ensures len { length least.new ≡ length least.old }
    ensures least { least.new ≡ fold (zip2 min) least.old (items_of columns.now) }
{
    for costs in columns {
        lower_each(least, costs);
    }
}

/// Writes the least in each place of all columns.
fn put_least(least: &mut [u64], columns: &[Vec<u64>])
    requires some { 0 < length columns.now }
    requires same { All (λ costs. length costs ≡ length least.old) (items_of columns.now) }
    ensures len { length least.new ≡ length least.old }
    ensures least { least.new ≡ least_each (items_of columns.now) }
{
    least.copy_from_slice(&columns[0]);
    lower_by(least, &columns[1..]);
}

/// The sum of all.
fn total(costs: &[u64]) -> u64
    requires { sum costs.now ≤ 2 ^ 56 }
    ensures is { result ≡ sum costs.now }
    ensures small { result ≤ 2 ^ 56 }
{
    let mut total = 0u64;
    for cost in costs {
        total += *cost;
    }
    total
}

/// The least bits of all partitions with each method, under the parameters of a span. Room for a column is lent.
pub fn level_costs(columns: &[Vec<u64>], least: &mut [u64], span: Span) -> (u64, u64)
    requires span { IsSpan span.low span.high }
    requires count { length columns.now ≡ span.high - span.low }
    requires same { All (λ costs. length costs ≡ length least.old) (items_of columns.now) }
    requires few { length least.old ≤ 256 }
    requires small { All (All (λ cost. cost ≤ 2 ^ 48)) (items_of columns.now) }
    ensures len { length least.new ≡ length least.old }
    ensures first { result.0 ≡ 4 * length least.old + sum (least_each (take (min span.high 15 - span.low) (items_of columns.now))) }
    ensures second { result.1 ≡ 5 * length least.old + sum (least_each (items_of columns.now)) }
    ensures first_small { result.0 ≤ 2 ^ 57 }
    ensures second_small { result.1 ≤ 2 ^ 57 }
{
    let count = least.len() as u64;
    let (of_first, others) = columns.split_at(span.high.min(15) - span.low);
    put_least(least, of_first);
    let first = 4 * count + total(least);
    if others.is_empty() {
        return (first, count + first);
    }
    lower_by(least, others);
    (first, 5 * count + total(least))
}
