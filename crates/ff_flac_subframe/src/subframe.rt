//! The least spelling of a subframe.

ghost use Rattle.std.specs.Prelude.{◌≡◌, ◌+◌, ◌-◌, ◌*◌, ◌^◌, ◌<◌, ◌≤◌, ◌++◌, List, length, map, min, slice_index, IfOk, OnOk, All, None, Ok, Some, ℕ};
ghost use Rattle.std.specs.List.{AllByRecursion};
ghost use Rattle.ff_flac_subframe.specs.rice.Rice.{zigzagged};
ghost use Rattle.ff_flac_subframe.specs.laws.Leads.{so_far, IsFloor, Leads};
ghost use Rattle.ff_flac_subframe.specs.rice.Least.{choose, least};
ghost use Rattle.ff_frame.specs.Audio.{FitsBits};
ghost use Rattle.ff_flac_subframe.specs.Subframe.{magnitude, rest_of, subframe_bits, candidates, fixed_of, Spelling};
ghost use Rattle.ff_flac_subframe.specs.laws.Plan.{spelling_of, size, IsBestPlan, PlanFits, constants};
ghost use Rattle.ff_flac_subframe.specs.laws.Outlook.{IsOutlook};

use crate::rice::{best_coding, coding_below, least_bits, write_residual};
use crate::samples::{are_equal, greatest_zigzag, put_sample, put_samples, take_steps, zigzags_by};
use ff_bits::BitWriter;
use std::alloc::{AllocError, Global};

/// A way to write a subframe: a fixed one by its order, method and partition order.
#[derive(Clone, Copy)]
pub enum Plan {
    /// One sample, where all are equal.
    Constant,
    /// The residual of the fixed predictor of this order, under this coding method and partition order.
    Fixed(usize, usize, u32),
    /// The samples as they are.
    Verbatim,
}

/// A plan and its bits.
#[derive(Clone, Copy)]
pub struct Planned {
    /// The plan.
    pub plan: Plan,
    /// The bits of the subframe so written.
    pub cost: u64,
}

/// The first of the lower cost.
fn lower(best: Option<Planned>, new: Planned) -> Planned
    ensures chosen { choose (λ p. p.cost) best (Some new) ≡ Some result }
    ensures small { result.cost ≤ new.cost }
{
    match best {
        None => new,
        Some(old) => { if old.cost <= new.cost { old } else { new } }
    }
}

/// The constant, where it is a candidate.
fn constant_plan(samples: &[i32], depth: u32) -> Option<Planned>
    requires { 0 < length samples.now }
    ensures { IsBestPlan depth samples.now (constants samples.now) result }
{
    if !are_equal(samples) {
        return None;
    }
    Some(Planned {
        plan: Plan::Constant,
        cost: 8 + depth as u64,
    })
}

/// The best plan of one order, by the zigzag numbers of its residuals.
fn fixed_plan(
    alloc: Global,
    samples: &[i32],
    us: &[u32],
    order: usize,
    depth: u32,
) -> Result<Planned, AllocError>
    requires len { length samples.now ≤ 4096 }
    requires order { order ≤ 4 }
    requires longer { order < length samples.now }
    requires depth { depth ≤ 25 }
    requires is { us.now ≡ map zigzagged (rest_of order samples.now) }
    ensures least { IfOk result (λ p. least (size depth samples.now) (fixed_of (length samples.now) order) ≡ Some (spelling_of samples.now p.plan)) }
    ensures cost { IfOk result (λ p. p.cost ≡ size depth samples.now (spelling_of samples.now p.plan)) }
    ensures fits { IfOk result (λ p. PlanFits samples.now p.plan) }
    ensures small { IfOk result (λ p. p.cost < 2 ^ 60) }
{
    let found = best_coding(alloc, us, order)?;
    Ok(Planned {
        plan: Plan::Fixed(order, found.method, found.partition_order),
        cost: 8 + depth as u64 * order as u64 + found.cost,
    })
}

/// No spelling of one order has fewer bits, by its residuals, whose zigzag numbers are at most `most`.
fn floor_of(samples: &[i32], rest: &[i32], order: usize, depth: u32, most: u32) -> u64
    requires len { length samples.now ≤ 4096 }
    requires order { order ≤ 4 }
    requires longer { order < length samples.now }
    requires depth { depth ≤ 25 }
    requires is { rest.now ≡ rest_of order samples.now }
    requires most { All (λ x. zigzagged x ≤ most) rest.now }
    ensures { IsFloor depth samples.now order result }
{
    8 + depth as u64 * order as u64 + least_bits(rest, order, most)
}

/// No candidate has fewer bits, where none by a fixed predictor has.
fn bound_of(samples: &[i32], depth: u32, least: u64) -> u64
    requires some { 0 < length samples.now }
    requires len { length samples.now ≤ 4096 }
    requires depth { depth ≤ 25 }
    requires least { (o : ℕ) → o < min (length samples.now) 5 → IsFloor depth samples.now o least }
    ensures below { AllByRecursion (λ s. result ≤ size depth samples.now s) (candidates samples.now) }
    ensures small { result < 2 ^ 20 }
{
    let bound = least.min(8 + depth as u64 * samples.len() as u64);
    if are_equal(samples) {
        return bound.min(8 + depth as u64);
    }
    bound
}

/// What is known of samples before an order is searched.
#[derive(Drop)]
pub struct Outlook {
    /// No spelling of an order has fewer bits.
    pub floors: Vec<u64>,
    /// The first order with the least floor.
    pub first: usize,
    /// No candidate has fewer bits.
    pub bound: u64,
}

/// How few bits samples may have.
pub fn outlook_of(alloc: Global, samples: &[i32], depth: u32) -> Result<Outlook, AllocError>
    requires some { 0 < length samples.now }
    requires len { length samples.now ≤ 4096 }
    requires depth { depth ≤ 25 }
    requires fits { All (FitsBits 25) samples.now }
    ensures { IfOk result (λ v. IsOutlook depth samples.now v) }
{
    let orders = samples.len().min(5);
    let mut rest = Vec::from_slice(alloc, samples)?;
    let mut most = greatest_zigzag(samples);
    let mut least = floor_of(samples, &rest, 0, depth, most);
    let mut first = 0;
    let mut floors = Vec::new(alloc);
    floors.push(least)?;
    for order in 1..orders {
        take_steps(&mut rest);
        most *= 2;
        let floor = floor_of(samples, &rest, order, depth, most);
        floors.push(floor)?;
        if floor < least {
            least = floor;
            first = order;
        }
    }
    let bound = bound_of(samples, depth, least);
    Ok(Outlook {
        floors,
        first,
        bound,
    })
}

/// The best plan of one order.
fn plan_by_order(
    alloc: Global,
    samples: &[i32],
    order: usize,
    depth: u32,
) -> Result<Planned, AllocError>
    requires len { length samples.now ≤ 4096 }
    requires order { order ≤ 4 }
    requires longer { order < length samples.now }
    requires depth { depth ≤ 25 }
    requires fits { All (FitsBits 25) samples.now }
    ensures least { IfOk result (λ p. least (size depth samples.now) (fixed_of (length samples.now) order) ≡ Some (spelling_of samples.now p.plan)) }
    ensures cost { IfOk result (λ p. p.cost ≡ size depth samples.now (spelling_of samples.now p.plan)) }
    ensures fits { IfOk result (λ p. PlanFits samples.now p.plan) }
    ensures small { IfOk result (λ p. p.cost < 2 ^ 60) }
{
    let us = zigzags_by(alloc, samples, order)?;
    fixed_plan(alloc, samples, &us, order, depth)
}

/// The best plan of one order, or none where no spelling of it has fewer bits than so many.
fn plan_below(
    alloc: Global,
    samples: &[i32],
    order: usize,
    depth: u32,
    limit: u64,
) -> Result<Option<Planned>, AllocError>
    requires len { length samples.now ≤ 4096 }
    requires order { order ≤ 4 }
    requires longer { order < length samples.now }
    requires depth { depth ≤ 25 }
    requires fits { All (FitsBits 25) samples.now }
    ensures none { result ≡ Ok None → IsFloor depth samples.now order limit }
    ensures least { (p : Planned) → result ≡ Ok (Some p) → least (size depth samples.now) (fixed_of (length samples.now) order) ≡ Some (spelling_of samples.now p.plan) }
    ensures cost { (p : Planned) → result ≡ Ok (Some p) → p.cost ≡ size depth samples.now (spelling_of samples.now p.plan) }
    ensures fits { (p : Planned) → result ≡ Ok (Some p) → PlanFits samples.now p.plan }
{
    let us = zigzags_by(alloc, samples, order)?;
    let before = 8 + depth as u64 * order as u64;
    match coding_below(alloc, &us, order, limit.saturating_sub(before))? {
        None => Ok(None),
        Some(found) => Ok(Some(Planned {
            plan: Plan::Fixed(order, found.method, found.partition_order),
            cost: before + found.cost,
        })),
    }
}

/// The best plan of the constant and of the orders below one, of whose spellings one has so many bits. Orders all of
/// whose spellings have more are passed over.
fn best_before(
    alloc: Global,
    samples: &[i32],
    order_known: usize,
    depth: u32,
    floors: &[u64],
    limit: u64,
) -> Result<Option<Planned>, AllocError>
    requires some { 0 < length samples.now }
    requires len { length samples.now ≤ 4096 }
    requires few { order_known ≤ 4 }
    requires there { order_known < length samples.now }
    requires depth { depth ≤ 25 }
    requires fits { All (FitsBits 25) samples.now }
    requires small { limit < 2 ^ 60 }
    requires all { order_known ≤ length floors.now }
    requires floors { (o : ℕ) → o < order_known → IsFloor depth samples.now o (slice_index floors.now o) }
    ensures { IfOk result (Leads depth samples.now limit (so_far samples.now order_known)) }
{
    let mut best = constant_plan(samples, depth);
    for order in 0..order_known {
        if floors[order] <= limit {
            if let Some(new) = plan_below(alloc, samples, order, depth, limit + 1)? {
                best = Some(lower(best, new));
            }
        }
    }
    Ok(best)
}

/// The best plan of those so far and of one order.
fn with_order(
    alloc: Global,
    samples: &[i32],
    order: usize,
    depth: u32,
    floor: u64,
    best: Planned,
) -> Result<Planned, AllocError>
    requires len { length samples.now ≤ 4096 }
    requires order { order ≤ 4 }
    requires longer { order < length samples.now }
    requires depth { depth ≤ 25 }
    requires fits { All (FitsBits 25) samples.now }
    requires floor { IsFloor depth samples.now order floor }
    ensures { IfOk result (λ new. (spellings : List Spelling) → IsBestPlan depth samples.now spellings (Some best)
        → IsBestPlan depth samples.now (spellings ++ fixed_of (length samples.now) order) (Some new)) }
{
    if best.cost <= floor {
        return Ok(best);
    }
    match plan_below(alloc, samples, order, depth, best.cost)? {
        None => Ok(best),
        Some(new) => Ok(lower(Some(best), new)),
    }
}

/// The plan of the least spelling, by what is known of the samples.
///
/// The order that may have the fewest bits is searched first: most of the others can't have fewer.
pub fn plan_by(
    alloc: Global,
    samples: &[i32],
    depth: u32,
    outlook: &Outlook,
) -> Result<Planned, AllocError>
    requires some { 0 < length samples.now }
    requires len { length samples.now ≤ 4096 }
    requires depth { depth ≤ 25 }
    requires fits { All (FitsBits 25) samples.now }
    requires outlook { IsOutlook depth samples.now outlook.now }
    ensures least { IfOk result (λ p. least (size depth samples.now) (candidates samples.now) ≡ Some (spelling_of samples.now p.plan)) }
    ensures cost { IfOk result (λ p. p.cost ≡ size depth samples.now (spelling_of samples.now p.plan)) }
    ensures fits { IfOk result (λ p. PlanFits samples.now p.plan) }
    ensures small { IfOk result (λ p. p.cost < 2 ^ 20) }
    ensures bound { IfOk result (λ p. outlook.now.bound ≤ p.cost) }
{
    let first = outlook.first;
    let known = plan_by_order(alloc, samples, first, depth)?;
    let before = best_before(alloc, samples, first, depth, &outlook.floors, known.cost)?;
    let mut best = lower(before, known);
    for order in first + 1..outlook.floors.len() {
        best = with_order(alloc, samples, order, depth, outlook.floors[order], best)?;
    }
    let verbatim = Planned {
        plan: Plan::Verbatim,
        cost: 8 + depth as u64 * samples.len() as u64,
    };
    Ok(lower(Some(best), verbatim))
}

/// The plan of the least spelling.
pub fn plan_of(alloc: Global, samples: &[i32], depth: u32) -> Result<Planned, AllocError>
    requires some { 0 < length samples.now }
    requires len { length samples.now ≤ 4096 }
    requires depth { depth ≤ 25 }
    requires fits { All (FitsBits 25) samples.now }
    ensures least { IfOk result (λ p. least (size depth samples.now) (candidates samples.now) ≡ Some (spelling_of samples.now p.plan)) }
    ensures cost { IfOk result (λ p. p.cost ≡ size depth samples.now (spelling_of samples.now p.plan)) }
    ensures fits { IfOk result (λ p. PlanFits samples.now p.plan) }
    ensures small { IfOk result (λ p. p.cost < 2 ^ 20) }
{
    let outlook = outlook_of(alloc, samples, depth)?;
    plan_by(alloc, samples, depth, &outlook)
}

/// Writes a subframe by a fixed predictor.
fn write_fixed(
    alloc: Global,
    out: &mut BitWriter,
    samples: &[i32],
    depth: u32,
    order: usize,
    method: usize,
    partition_order: u32,
) -> Result<(), AllocError>
    requires depth { 0 < depth }
    requires within { depth ≤ 25 }
    requires len { length samples.now ≤ 4096 }
    requires fits { All (FitsBits depth) samples.now }
    requires plan { PlanFits samples.now (Plan.Fixed order method partition_order) }
    ensures { OnOk result (out.new ≡ out.old ++ subframe_bits depth samples.now (spelling_of samples.now (Plan.Fixed order method partition_order))) }
{
    out.put(16 + 2 * order as u64, 8)?;
    put_samples(out, &samples[..order], depth)?;
    let us = zigzags_by(alloc, samples, order)?;
    write_residual(out, &us, order, method, partition_order)?;
    Ok(())
}

/// Writes a subframe by a plan.
pub fn write_plan(
    alloc: Global,
    out: &mut BitWriter,
    samples: &[i32],
    depth: u32,
    plan: Plan,
) -> Result<(), AllocError>
    requires some { 0 < length samples.now }
    requires depth { 0 < depth }
    requires within { depth ≤ 25 }
    requires len { length samples.now ≤ 4096 }
    requires fits { All (FitsBits depth) samples.now }
    requires plan { PlanFits samples.now plan }
    ensures { OnOk result (out.new ≡ out.old ++ subframe_bits depth samples.now (spelling_of samples.now plan)) }
{
    match plan {
        Plan::Constant => {
            out.put(0, 8)?;
            put_sample(out, samples[0], depth)?;
            Ok(())
        }
        Plan::Fixed(order, method, partition_order) => write_fixed(
            alloc,
            out,
            samples,
            depth,
            order,
            method,
            partition_order,
        ),
        Plan::Verbatim => {
            out.put(2, 8)?;
            put_samples(out, samples, depth)?;
            Ok(())
        }
    }
}

/// Writes the least spelling of a block of samples of this depth.
pub fn write_subframe(
    alloc: Global,
    out: &mut BitWriter,
    samples: &[i32],
    depth: u32,
) -> Result<(), AllocError>
    requires some { 0 < length samples.now }
    requires len { length samples.now ≤ 4096 }
    requires depth { 0 < depth }
    requires within { depth ≤ 25 }
    requires fits { All (FitsBits depth) samples.now }
    ensures { OnOk result ((s : Spelling) × (least (size depth samples.now) (candidates samples.now) ≡ Some s)
        × (out.new ≡ out.old ++ subframe_bits depth samples.now s)) }
{
    let best = plan_of(alloc, samples, depth)?;
    write_plan(alloc, out, samples, depth, best.plan)?;
    Ok(())
}
