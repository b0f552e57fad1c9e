//! Linear predictors.

ghost use Rattle.std.specs.Prelude.{◌≡◌, ◌<◌, ◌≤◌, ◌+◌, ◌^◌, ◌-◌, ◌*◌, drop, length, ◌*ℤ◌, ◌+ℤ◌, FitsSigned, unsigned_abs, vec_len, vec_capacity, IfOk, IfSome, IfNone};
ghost use Rattle.std.specs.Int.{w64};
ghost use Rattle.ff_frame.specs.Audio.{FitsBits};
ghost use Rattle.ff_flac_frame.specs.Prediction.{ago, weighted, linear, restored, AllInDepth};

use crate::fixed::{is_in_depth, last_of};
use std::alloc::{AllocError, Global};

/// The same number.
fn wide_of(c: &i32) -> i64
    ensures { result ≡ c.now }
{
    let narrow = *c;
    narrow as i64
}

/// The same coefficients as numbers of 64 bits: so a term of a prediction takes no instruction that widens one.
pub fn widened(alloc: Global, coefs: &[i32]) -> Result<Vec<i64>, AllocError>
    ensures { IfOk result (λ v. v.items ≡ coefs.now) }
{
    let mut wide = Vec::with_capacity(alloc, coefs.len())?;
    for c in coefs {
        wide.push(wide_of(c))?;
    }
    Ok(wide)
}

/// A coefficient times a sample.
fn product(c: &i64, x: i64) -> i64
    requires coefficient { FitsBits 15 c.now }
    requires sample { FitsBits 25 x }
    ensures value { result ≡ c.now *ℤ x }
    ensures bound { unsigned_abs result ≤ 2 ^ 38 }
{
    let coefficient = *c;
    coefficient * x
}

/// The sum of these, each at most 2^38.
fn plus(sum: i64, term: i64) -> i64
    requires sum { unsigned_abs sum ≤ 2 ^ 43 }
    requires term { unsigned_abs term ≤ 2 ^ 38 }
    ensures value { result ≡ sum +ℤ term }
    ensures bound { unsigned_abs result ≤ unsigned_abs sum + unsigned_abs term }
{
    sum + term
}

/// Each coefficient from the second on times its sample.
#[inline(always)]
fn weigh_behind(order: usize, coefs: &[i64], xs: &[i32]) -> i64
    requires order { order ≡ length coefs.now }
    requires few { order ≤ 32 }
    requires there { order ≤ length xs.now }
    requires coefs { AllInDepth 15 coefs.now }
    requires within { AllInDepth 25 xs.now }
    ensures value { result ≡ weighted (drop 1 coefs.now) 2 xs.now }
    ensures bound { unsigned_abs result ≤ (order - 1) * 2 ^ 38 }
{
    let last = xs.len();
    let mut sum = 0i64;
    for i in 1..order {
        sum = plus(sum, product(&coefs[i], xs[last - 1 - i] as i64));
    }
    sum
}

/// Each coefficient times its sample, the first of them on the last sample.
///
/// The last sample was just restored: its term comes after the others, which don't wait for it.
#[inline(always)]
fn weigh(order: usize, coefs: &[i64], xs: &[i32], last: i64) -> i64
    requires order { order ≡ length coefs.now }
    requires few { order ≤ 32 }
    requires there { order ≤ length xs.now }
    requires coefs { AllInDepth 15 coefs.now }
    requires within { AllInDepth 25 xs.now }
    requires last { last ≡ ago 1 xs.now }
    ensures value { result ≡ weighted coefs.now 1 xs.now }
    ensures bound { unsigned_abs result ≤ 2 ^ 43 }
{
    if order == 0 {
        return 0;
    }
    let behind = weigh_behind(order, coefs, xs);
    plus(behind, product(&coefs[0], last))
}

/// The sample that the residual stands for.
#[tactic(auto, unfolding(crate::specs::Prediction::linear))]
#[inline(always)]
pub fn next_linear(order: usize, coefs: &[i64], shift: u32, xs: &[i32], last: i64, r: &i32) -> i64
    requires order { order ≡ length coefs.now }
    requires few { order ≤ 32 }
    requires there { order ≤ length xs.now }
    requires shift { shift ≤ 15 }
    requires coefs { AllInDepth 15 coefs.now }
    requires within { AllInDepth 25 xs.now }
    requires last { last ≡ ago 1 xs.now }
    ensures value { result ≡ linear coefs.now shift xs.now +ℤ r.now }
    ensures fits { FitsSigned w64 result }
{
    let residual = *r;
    let predicted = weigh(order, coefs, xs, last) >> shift;
    predicted + residual as i64
}

/// What `restore_linear` gives, by this many coefficients. It stands at each call of its own with the order known, so that the
/// terms of a sample are no loop.
#[inline(always)]
fn restore_by(
    order: usize,
    coefs: &[i64],
    shift: u32,
    depth: u32,
    samples: Vec<i32>,
    rest: &[i32],
) -> Option<Vec<i32>>
    requires order { order ≡ length coefs.now }
    requires few { order ≤ 32 }
    requires there { order ≤ length samples.items }
    requires shift { shift ≤ 15 }
    requires coefs { AllInDepth 15 coefs.now }
    requires depth_low { 1 ≤ depth }
    requires depth_high { depth ≤ 25 }
    requires within { AllInDepth depth samples.items }
    requires room { vec_len samples + length rest.now ≤ vec_capacity samples }
    ensures some { IfSome result (λ v. v.items ≡ restored (linear coefs.now shift) samples.items rest.now) }
    ensures within { IfSome result (λ v. AllInDepth depth v.items) }
    ensures none { IfNone result (AllInDepth depth (restored (linear coefs.now shift) samples.items rest.now) → ⊥) }
{
    // (a list of its own keeps its place and its length in registers)
    let mut out = samples;
    let mut last = last_of(out.as_slice());
    for r in rest {
        let x = next_linear(order, coefs, shift, out.as_slice(), last, r);
        if !is_in_depth(depth, x) {
            return None;
        }
        out.push_reserved(x as i32);
        last = x;
    }
    Some(out)
}

/// The samples that these residuals stand for under a linear predictor, after those that there are, in memory that there is.
/// None exactly where one leaves the depth.
pub fn restore_linear(
    coefs: &[i64],
    shift: u32,
    depth: u32,
    samples: Vec<i32>,
    rest: &[i32],
) -> Option<Vec<i32>>
    requires few { length coefs.now ≤ 32 }
    requires there { length coefs.now ≤ length samples.items }
    requires shift { shift ≤ 15 }
    requires coefs { AllInDepth 15 coefs.now }
    requires depth_low { 1 ≤ depth }
    requires depth_high { depth ≤ 25 }
    requires within { AllInDepth depth samples.items }
    requires room { vec_len samples + length rest.now ≤ vec_capacity samples }
    ensures some { IfSome result (λ v. v.items ≡ restored (linear coefs.now shift) samples.items rest.now) }
    ensures within { IfSome result (λ v. AllInDepth depth v.items) }
    ensures none { IfNone result (AllInDepth depth (restored (linear coefs.now shift) samples.items rest.now) → ⊥) }
{
    match coefs.len() {
        1 => restore_by(1, coefs, shift, depth, samples, rest),
        2 => restore_by(2, coefs, shift, depth, samples, rest),
        3 => restore_by(3, coefs, shift, depth, samples, rest),
        4 => restore_by(4, coefs, shift, depth, samples, rest),
        5 => restore_by(5, coefs, shift, depth, samples, rest),
        6 => restore_by(6, coefs, shift, depth, samples, rest),
        7 => restore_by(7, coefs, shift, depth, samples, rest),
        8 => restore_by(8, coefs, shift, depth, samples, rest),
        9 => restore_by(9, coefs, shift, depth, samples, rest),
        10 => restore_by(10, coefs, shift, depth, samples, rest),
        11 => restore_by(11, coefs, shift, depth, samples, rest),
        12 => restore_by(12, coefs, shift, depth, samples, rest),
        order => restore_by(order, coefs, shift, depth, samples, rest),
    }
}
