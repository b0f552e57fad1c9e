//! Samples and their residuals.

ghost use Rattle.std.specs.Prelude.{◌≡◌, ◌+◌, ◌-◌, ◌*◌, ◌^◌, ◌<◌, ◌≤◌, ◌++◌, length, map, take, slice_index_or, ℤ, pos, ◌+ℤ◌, ◌-ℤ◌, ◌*ℤ◌, IfOk, OnOk, All};
ghost use Rattle.std.specs.List.{flat_map, list_all};
ghost use Rattle.std.specs.Ordering.{int_eq};
ghost use Rattle.ff_flac_frame.specs.laws.Bounds.{IsSmall, IsBounded, IsWide};
ghost use Rattle.ff_flac_subframe.specs.rice.Rice.{zigzagged};
ghost use Rattle.ff_bits.specs.Integers.{unsigned};
ghost use Rattle.ff_frame.specs.Audio.{FitsBits};
ghost use Rattle.ff_flac_subframe.specs.Subframe.{steps, rest_of, magnitude, sample_bits, all_are, first_or_zero};

use crate::rice::zigzag_of;
use ff_bits::BitWriter;
use std::alloc::{AllocError, Global};

fn step(x: i32, before: i32) -> i32
    requires x { magnitude x < 2 ^ 30 }
    requires before { magnitude before < 2 ^ 30 }
    ensures { result ≡ x -ℤ before }
{
    x - before
}

/// Makes of each sample but the last how the next one differs from it.
fn step_each(xs: &mut [i32])
    requires { All (λ x. magnitude x < 2 ^ 30) xs.old }
    ensures len { length xs.new ≡ length xs.old }
    ensures is { take (length xs.old - 1) xs.new ≡ steps xs.old }
{
    for i in 0..xs.len().saturating_sub(1) {
        xs[i] = step(xs[i + 1], xs[i]);
    }
}

/// Makes of samples how each differs from the one before.
pub fn take_steps(xs: &mut Vec<i32>)
    requires { All (λ x. magnitude x < 2 ^ 30) xs.old.items }
    ensures { xs.new.items ≡ steps xs.old.items }
{
    let count = xs.len();
    step_each(xs);
    xs.truncate(count.saturating_sub(1));
}

/// The greatest of the numbers that stand for samples.
pub fn greatest_zigzag(xs: &[i32]) -> u32
    requires { All (λ x. magnitude x < 2 ^ 24) xs.now }
    ensures most { All (λ x. zigzagged x ≤ result) xs.now }
    ensures small { result < 2 ^ 25 }
{
    let mut most: u32 = 0;
    for x in xs {
        most = most.max(zigzag_of(*x));
    }
    most
}

fn zeros(alloc: Global, count: usize) -> Result<Vec<u32>, AllocError>
    ensures { IfOk result (λ v. length v.items ≡ count) }
{
    vec![in alloc; 0; count]
}

/// A residual of the first order.
fn first_step(v: i32, x: i32) -> i32
    requires v { IsSmall v }
    requires x { IsSmall x }
    ensures value { result ≡ x -ℤ v }
    ensures wide { IsWide result }
{
    x - v
}

/// A residual of the second order.
fn second_step(v: i32, x: i32, y: i32) -> i32
    requires v { IsSmall v }
    requires x { IsSmall x }
    requires y { IsSmall y }
    ensures value { result ≡ y -ℤ ((pos 2 *ℤ x) -ℤ v) }
    ensures wide { IsWide result }
{
    y - 2 * x + v
}

/// The part that the samples between have in a residual of the third order.
fn third_middle(x: i32, y: i32) -> i32
    requires x { IsSmall x }
    requires y { IsSmall y }
    ensures value { result ≡ pos 3 *ℤ (x -ℤ y) }
    ensures bounded { IsBounded result }
{
    3 * (x - y)
}

/// A residual of the third order.
fn third_step(v: i32, middle: i32, z: i32) -> i32
    requires v { IsSmall v }
    requires middle { IsBounded middle }
    requires z { IsSmall z }
    ensures value { result ≡ (middle +ℤ z) -ℤ v }
    ensures wide { IsWide result }
{
    middle + z - v
}

/// The part that the samples between have in a residual of the fourth order.
fn fourth_middle(x: i32, y: i32, z: i32) -> i32
    requires x { IsSmall x }
    requires y { IsSmall y }
    requires z { IsSmall z }
    ensures value { result ≡ (pos 6 *ℤ y) -ℤ (pos 4 *ℤ (x +ℤ z)) }
    ensures bounded { IsBounded result }
{
    6 * y - 4 * (x + z)
}

/// A residual of the fourth order.
fn fourth_step(v: i32, middle: i32, next: i32) -> i32
    requires v { IsSmall v }
    requires middle { IsBounded middle }
    requires next { IsSmall next }
    ensures value { result ≡ (middle +ℤ next) +ℤ v }
    ensures wide { IsWide result }
{
    middle + next + v
}

/// A sample.
fn sample_at(xs: &[i32], i: usize) -> i32
    requires there { i < length xs.now }
    requires small { All (λ x. magnitude x < 2 ^ 24) xs.now }
    ensures value { result ≡ slice_index_or xs.now i (pos 0) }
    ensures small { IsSmall result }
{
    xs[i]
}

/// A residual of an order.
#[inline(always)]
fn residual_of(order: usize, xs: &[i32], i: usize) -> i32
    requires order { order ≤ 4 }
    requires there { i + order < length xs.now }
    requires small { All (λ x. magnitude x < 2 ^ 24) xs.now }
    ensures value { result ≡ slice_index_or (rest_of order xs.now) i (pos 0) }
    ensures wide { IsWide result }
{
    let v = sample_at(xs, i);
    if order == 0 {
        return v;
    }
    let x = sample_at(xs, i + 1);
    if order == 1 {
        return first_step(v, x);
    }
    let y = sample_at(xs, i + 2);
    if order == 2 {
        return second_step(v, x, y);
    }
    let z = sample_at(xs, i + 3);
    if order == 3 {
        return third_step(v, third_middle(x, y), z);
    }
    let next = sample_at(xs, i + 4);
    fourth_step(v, fourth_middle(x, y, z), next)
}

/// Writes the numbers that stand for residuals. It stands at each call of its own with the order known.
#[inline(always)]
fn zigzag_each(us: &mut [u32], xs: &[i32], order: usize)
    requires order { order ≤ 4 }
    requires len { length us.old ≡ length xs.now - order }
    requires small { All (λ x. magnitude x < 2 ^ 24) xs.now }
    ensures { us.new ≡ map zigzagged (rest_of order xs.now) }
{
    for i in 0..us.len() {
        us[i] = zigzag_of(residual_of(order, xs, i));
    }
}

/// Writes the numbers that stand for the residuals of an order.
fn write_zigzags(us: &mut [u32], xs: &[i32], order: usize)
    requires order { order ≤ 4 }
    requires len { length us.old ≡ length xs.now - order }
    requires small { All (λ x. magnitude x < 2 ^ 24) xs.now }
    ensures { us.new ≡ map zigzagged (rest_of order xs.now) }
{
    match order {
        0 => zigzag_each(us, xs, 0),
        1 => zigzag_each(us, xs, 1),
        2 => zigzag_each(us, xs, 2),
        3 => zigzag_each(us, xs, 3),
        _ => zigzag_each(us, xs, 4),
    }
}

/// The numbers from 0 on that stand for the residuals of an order.
pub fn zigzags_by(alloc: Global, samples: &[i32], order: usize) -> Result<Vec<u32>, AllocError>
    requires order { order ≤ 4 }
    requires small { All (λ x. magnitude x < 2 ^ 24) samples.now }
    ensures { IfOk result (λ v. v.items ≡ map zigzagged (rest_of order samples.now)) }
{
    let mut us = zeros(alloc, samples.len().saturating_sub(order))?;
    write_zigzags(&mut us, samples, order);
    Ok(us)
}

/// A sample in two's complement.
fn code_of(x: i32, depth: u32) -> u64
    requires some { 0 < depth }
    requires within { depth ≤ 32 }
    requires fits { FitsBits depth x }
    ensures is { result ≡ unsigned depth x }
    ensures below { result < 2 ^ depth }
{
    if x >= 0 {
        return x as u64;
    }
    (1u64 << depth) - ((-(x + 1)) as u64 + 1)
}

/// Writes a sample in two's complement.
pub fn put_sample(out: &mut BitWriter, x: i32, depth: u32) -> Result<(), AllocError>
    requires some { 0 < depth }
    requires within { depth ≤ 32 }
    requires fits { FitsBits depth x }
    ensures { OnOk result (out.new ≡ out.old ++ sample_bits depth x) }
{
    out.put(code_of(x, depth), depth)?;
    Ok(())
}

/// Writes samples.
pub fn put_samples(out: &mut BitWriter, xs: &[i32], depth: u32) -> Result<(), AllocError>
    requires some { 0 < depth }
    requires within { depth ≤ 32 }
    requires fits { All (FitsBits depth) xs.now }
    ensures { OnOk result (out.new ≡ out.old ++ flat_map (sample_bits depth) xs.now) }
{
    for x in xs {
        put_sample(out, *x, depth)?;
    }
    Ok(())
}

fn all_equal(xs: &[i32], first: i32) -> bool
    ensures { result ≡ list_all (λ y. int_eq y first) xs.now }
{
    xs.iter().all(|x| *x == first)
}

/// Whether all samples are the first.
pub fn are_equal(xs: &[i32]) -> bool
    requires { 0 < length xs.now }
    ensures { result ≡ all_are (first_or_zero xs.now) xs.now }
{
    all_equal(xs, xs[0])
}
