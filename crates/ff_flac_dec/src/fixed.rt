//! Samples restored from the residuals of a fixed predictor (RFC 9639, section 9.2.5).
ghost use Rattle.std.specs.Prelude.{◌≡◌, ◌≤◌, IfOk, IsErrOf, length};
ghost use Rattle.ff_flac_frame.specs.Prediction.{fixed, restored, AllInDepth};

use crate::end::DecodeEnd;
use ff_flac_frame::{is_in_depth, last_of, next_fixed};
use std::alloc::Global;

/// What `restore_fixed` gives. It stands at each call of its own with the order known.
#[inline(always)]
fn restore_by(
    alloc: Global,
    order: u32,
    depth: u32,
    warm: &[i32],
    rest: &[i32],
) -> Result<Vec<i32>, DecodeEnd>
    requires order { order ≤ 4 }
    requires there { order ≤ length warm.now }
    requires depth_low { 1 ≤ depth }
    requires depth_high { depth ≤ 25 }
    requires within { AllInDepth depth warm.now }
    ensures ok { IfOk result (λ v. v.items ≡ restored (fixed order) warm.now rest.now) }
    ensures within { IfOk result (λ v. AllInDepth depth v.items) }
    ensures out { IsErrOf result DecodeEnd.OutOfDepth → AllInDepth depth (restored (fixed order) warm.now rest.now) → ⊥ }
{
    let mut out = Vec::from_slice(alloc, warm)?;
    out.reserve(rest.len())?;
    let mut last = last_of(warm);
    for r in rest {
        let x = next_fixed(order, depth, out.as_slice(), last, r);
        if !is_in_depth(depth, x) {
            return Err(DecodeEnd::OutOfDepth);
        }
        out.push(x as i32)?;
        last = x;
    }
    Ok(out)
}

/// The samples that these residuals stand for under a fixed predictor, after the warm-up samples.
pub fn restore_fixed(
    alloc: Global,
    order: u32,
    depth: u32,
    warm: &[i32],
    rest: &[i32],
) -> Result<Vec<i32>, DecodeEnd>
    requires order { order ≤ 4 }
    requires there { order ≤ length warm.now }
    requires depth_low { 1 ≤ depth }
    requires depth_high { depth ≤ 25 }
    requires within { AllInDepth depth warm.now }
    ensures ok { IfOk result (λ v. v.items ≡ restored (fixed order) warm.now rest.now) }
    ensures within { IfOk result (λ v. AllInDepth depth v.items) }
    ensures out { IsErrOf result DecodeEnd.OutOfDepth → AllInDepth depth (restored (fixed order) warm.now rest.now) → ⊥ }
{
    match order {
        0 => restore_by(alloc, 0, depth, warm, rest),
        1 => restore_by(alloc, 1, depth, warm, rest),
        2 => restore_by(alloc, 2, depth, warm, rest),
        3 => restore_by(alloc, 3, depth, warm, rest),
        _ => restore_by(alloc, 4, depth, warm, rest),
    }
}
