//! Samples restored from the residuals of a linear predictor (RFC 9639, section 9.2.6).
ghost use Rattle.std.specs.Prelude.{◌≡◌, ◌≤◌, IfOk, IsErrOf, length};
ghost use Rattle.ff_flac_frame.specs.Prediction.{linear, restored, AllInDepth};

use crate::end::DecodeEnd;
use ff_flac_frame::{restore_linear, widened};
use std::alloc::Global;

/// The samples that these residuals stand for under a linear predictor, after the warm-up samples.
pub fn restore_by_linear(
    alloc: Global,
    coefs: &[i32],
    shift: u32,
    depth: u32,
    warm: &[i32],
    rest: &[i32],
) -> Result<Vec<i32>, DecodeEnd>
    requires few { length coefs.now ≤ 32 }
    requires there { length coefs.now ≤ length warm.now }
    requires shift { shift ≤ 15 }
    requires coefs { AllInDepth 15 coefs.now }
    requires depth_low { 1 ≤ depth }
    requires depth_high { depth ≤ 25 }
    requires within { AllInDepth depth warm.now }
    ensures ok { IfOk result (λ v. v.items ≡ restored (linear coefs.now shift) warm.now rest.now) }
    ensures within { IfOk result (λ v. AllInDepth depth v.items) }
    ensures out { IsErrOf result DecodeEnd.OutOfDepth → AllInDepth depth (restored (linear coefs.now shift) warm.now rest.now) → ⊥ }
{
    let wide = widened(alloc, coefs)?;
    let mut samples = Vec::from_slice(alloc, warm)?;
    samples.reserve(rest.len())?;
    match restore_linear(wide.as_slice(), shift, depth, samples, rest) {
        Some(samples) => Ok(samples),
        None => Err(DecodeEnd::OutOfDepth),
    }
}
