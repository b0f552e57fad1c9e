//! Predictors, and what restores samples while their residuals are read.

ghost use Rattle.std.specs.Prelude.{◌≡◌, ◌≤◌, ◌+◌, ◌+ℤ◌, ◌++◌, List, ℤ, true, IfOk, OnOk, IfErr, IsTrue, ◌↔◌, [], ◌∷◌, FitsSigned, vec_len, vec_capacity};
ghost use Rattle.std.specs.Int.{w64};
ghost use Rattle.ff_flac_frame.specs.Prediction.{ago, restored, AllInDepth};
ghost use Rattle.ff_flac_frame.specs.laws.Restoring.{predicted, IsLinear, IsPredictor, IsReady, Follows};

use crate::end::FrameEnd;
use crate::fixed::{is_in_depth, next_fixed};
use crate::linear::next_linear;
use std::alloc::Global;

/// By what samples are predicted from those before them (RFC 9639, sections 9.2.5 and 9.2.6).
#[derive(Drop)]
pub struct Predictor<'a> {
    /// By coefficients of the subframe's own, and not by a fixed predictor.
    pub is_linear: bool,
    /// How many samples it looks back.
    pub order: usize,
    /// The coefficients of a linear one, the nearest sample's first.
    pub coefs: &'a [i64],
    /// How far a linear prediction is shifted right.
    pub shift: u32,
    /// The warm-up samples, which stand before those that it predicts.
    pub warm: &'a [i32],
}

impl Predictor<'_> {
    /// Whether samples are restored as their residuals are read. After more than two samples a loop that does both runs out of
    /// registers.
    fn is_short(&self) -> bool {
        !self.is_linear || self.order <= 2
    }
}

/// The samples so far of a subframe whose residuals are being read.
#[derive(Drop)]
pub struct Restoring {
    /// Whether they are restored at all, and none has left 25 bits.
    pub is_on: bool,
    /// The samples that were restored so far.
    pub samples: Vec<i32>,
}

/// The sample that the residual stands for. It stands at each call of its own with the first two known, so that the terms of
/// a sample are no loop.
#[inline(always)]
fn next_sample(
    is_linear: bool,
    order: usize,
    predictor: &Predictor,
    xs: &[i32],
    last: i64,
    r: &i32,
) -> i64
    requires form { is_linear ≡ predictor.now.is_linear }
    requires order { order ≡ predictor.now.order }
    requires sound { IsPredictor predictor.now xs.now }
    requires within { AllInDepth 25 xs.now }
    requires last { last ≡ ago 1 xs.now }
    ensures value { result ≡ predicted predictor.now xs.now +ℤ r.now }
    ensures fits { FitsSigned w64 result }
{
    if is_linear {
        next_linear(order, predictor.coefs, predictor.shift, xs, last, r)
    } else {
        next_fixed(order as u32, 25, xs, last, r)
    }
}

/// The next sample after these, put at their end, in memory that there is. False where it leaves 25 bits.
#[inline(always)]
pub fn restore_next(
    is_linear: bool,
    order: usize,
    predictor: &Predictor,
    samples: &mut Vec<i32>,
    last: &mut i64,
    r: i32,
) -> bool
    requires form { is_linear ≡ predictor.now.is_linear }
    requires order { order ≡ predictor.now.order }
    requires ready { IsReady predictor.now samples.old.items last.old }
    requires room { vec_len samples.old + 1 ≤ vec_capacity samples.old }
    ensures ready { IsTrue result → IsReady predictor.now samples.new.items last.new }
    ensures next { IsTrue result → samples.new.items ≡ restored (predicted predictor.now) samples.old.items (r ∷ []) }
    ensures len { IsTrue result → vec_len samples.new ≡ vec_len samples.old + 1 }
    ensures capacity { vec_capacity samples.new ≡ vec_capacity samples.old }
{
    let x = next_sample(is_linear, order, predictor, samples.as_slice(), *last, &r);
    if !is_in_depth(25, x) {
        return false;
    }
    samples.push_reserved(x as i32);
    *last = x;
    true
}

/// The next four samples, in the same way.
#[inline(always)]
pub fn restore_four(
    is_linear: bool,
    order: usize,
    predictor: &Predictor,
    samples: &mut Vec<i32>,
    last: &mut i64,
    four: (i32, i32, i32, i32),
) -> bool
    requires form { is_linear ≡ predictor.now.is_linear }
    requires order { order ≡ predictor.now.order }
    requires ready { IsReady predictor.now samples.old.items last.old }
    requires room { vec_len samples.old + 4 ≤ vec_capacity samples.old }
    ensures ready { IsTrue result → IsReady predictor.now samples.new.items last.new }
    ensures next { IsTrue result → samples.new.items ≡ restored (predicted predictor.now) samples.old.items (four.0 ∷ four.1 ∷ four.2 ∷ four.3 ∷ []) }
    ensures len { IsTrue result → vec_len samples.new ≡ vec_len samples.old + 4 }
    ensures capacity { vec_capacity samples.new ≡ vec_capacity samples.old }
{
    if !restore_next(is_linear, order, predictor, samples, last, four.0) {
        return false;
    }
    if !restore_next(is_linear, order, predictor, samples, last, four.1) {
        return false;
    }
    if !restore_next(is_linear, order, predictor, samples, last, four.2) {
        return false;
    }
    restore_next(is_linear, order, predictor, samples, last, four.3)
}

/// Whether each number is within the depth.
fn all_in_depth(depth: u32, xs: &[i32]) -> bool
    requires low { 1 ≤ depth }
    requires high { depth ≤ 25 }
    ensures { IsTrue result ↔ AllInDepth depth xs.now }
{
    for x in xs {
        if !is_in_depth(depth, *x as i64) {
            return false;
        }
    }
    true
}

/// Whether each coefficient is within the greatest precision.
fn are_coefficients(coefs: &[i64]) -> bool
    ensures { IsTrue result ↔ AllInDepth 15 coefs.now }
{
    for c in coefs {
        if !is_in_depth(15, *c) {
            return false;
        }
    }
    true
}

/// Whether it is one of the format's linear predictors.
fn is_linear_predictor(predictor: &Predictor) -> bool
    ensures { IsTrue result ↔ IsLinear predictor.now }
{
    predictor.order == predictor.coefs.len()
        && predictor.order <= 32
        && predictor.shift <= 15
        && are_coefficients(predictor.coefs)
}

/// Whether it is a predictor of the format, and looks back no further than these samples.
fn is_predictor(predictor: &Predictor, xs: &[i32]) -> bool
    ensures { IsTrue result ↔ IsPredictor predictor.now xs.now }
{
    if predictor.order > xs.len() {
        return false;
    }
    if predictor.is_linear {
        return is_linear_predictor(predictor);
    }
    predictor.order <= 4
}

/// What restores the samples after the warm-up samples, in memory for so many, where that is wanted and the predictor is a short one.
pub fn start_restoring(
    alloc: Global,
    is_wanted: bool,
    predictor: &Predictor,
    count: usize,
) -> Result<Restoring, FrameEnd>
    ensures ok { IfOk result (λ r. Follows predictor.now r []) }
    ensures memory { IfErr result (λ e. e ≡ FrameEnd.NoMemory) }
{
    let warm = predictor.warm;
    let is_on = is_wanted && predictor.is_short();
    if is_on && is_predictor(predictor, warm) && all_in_depth(25, warm) {
        let mut samples = Vec::with_capacity(alloc, count)?;
        samples.extend_from_slice(warm)?;
        return Ok(Restoring {
            is_on: true,
            samples,
        });
    }
    Ok(Restoring {
        is_on: false,
        samples: Vec::new(alloc),
    })
}
