//! The samples of one subframe, with its wasted bits.
ghost use Rattle.std.specs.Prelude.{◌≡◌, ◌<◌, ◌≤◌, ◌^◌, ◌-◌, ◌*ℤ◌, ℕ, IfOk, IsErrOf, IfErr, IfSome, length, pos, map, replicate, All, FitsSigned};
ghost use Rattle.std.specs.Int.{w32};
ghost use Rattle.ff_flac_frame.specs.laws.Parts.{part_of};
ghost use Rattle.ff_flac_frame.specs.laws.Facts.{IsPart};
ghost use Rattle.ff_flac_frame.specs.Prediction.{AllInDepth};
ghost use Rattle.ff_flac_dec.specs.Values.{coded_samples, channel_samples};

use crate::depth::{all_fit, power};
use crate::end::DecodeEnd;
use crate::fixed::restore_fixed;
use crate::linear::restore_by_linear;
use ff_flac_frame::{SubKind, Subframe};
use std::alloc::Global;

/// As many equal samples as the block has.
fn repeated(alloc: Global, sample: &i32, block: u32) -> Result<Vec<i32>, DecodeEnd>
    ensures ok { IfOk result (λ v. v.items ≡ replicate block sample.now) }
    ensures memory { IfErr result (λ e. e ≡ DecodeEnd.NoMemory) }
{
    let constant = *sample;
    Ok(vec![in alloc; constant; block as usize]?)
}

/// An equal list.
fn copied(alloc: Global, samples: &[i32]) -> Result<Vec<i32>, DecodeEnd>
    ensures ok { IfOk result (λ v. v.items ≡ samples.now) }
    ensures memory { IfErr result (λ e. e ≡ DecodeEnd.NoMemory) }
{
    Ok(Vec::from_slice(alloc, samples)?)
}

/// An equal list, where each sample is within the depth.
fn copied_within(alloc: Global, depth: u32, samples: &[i32]) -> Result<Vec<i32>, DecodeEnd>
    requires low { 1 ≤ depth }
    requires high { depth ≤ 25 }
    ensures ok { IfOk result (λ v. v.items ≡ samples.now) }
    ensures within { IfOk result (λ v. AllInDepth depth v.items) }
    ensures out { IsErrOf result DecodeEnd.OutOfDepth → AllInDepth depth samples.now → ⊥ }
{
    if !all_fit(depth, samples) {
        return Err(DecodeEnd::OutOfDepth);
    }
    copied(alloc, samples)
}

/// A subframe's samples without their wasted bits.
#[tactic(auto, unfolding(crate::specs::Values::coded_samples))]
fn without_wasted(
    alloc: Global,
    subframe: &Subframe,
    block: u32,
    depth: u32,
) -> Result<Vec<i32>, DecodeEnd>
    requires part { IsPart block depth (part_of subframe.now) }
    requires depth { depth ≤ 25 }
    ensures ok { IfOk result (λ v. v.items ≡ coded_samples block (part_of subframe.now)) }
    ensures within { IfOk result (λ v. AllInDepth (depth - subframe.now.wasted) v.items) }
    ensures out { IsErrOf result DecodeEnd.OutOfDepth → AllInDepth (depth - subframe.now.wasted) (coded_samples block (part_of subframe.now)) → ⊥ }
{
    let own = depth - subframe.wasted as u32;
    if let Some(samples) = subframe.restored() {
        return copied_within(alloc, own, samples);
    }
    match subframe.kind {
        SubKind::Constant => repeated(alloc, &subframe.warm.as_slice()[0], block),
        SubKind::Verbatim => copied(alloc, subframe.warm.as_slice()),
        SubKind::Fixed => restore_fixed(
            alloc,
            subframe.order as u32,
            own,
            subframe.warm.as_slice(),
            subframe.rest.as_slice(),
        ),
        SubKind::Lpc => restore_by_linear(
            alloc,
            subframe.coefs.as_slice(),
            subframe.shift as u32,
            own,
            subframe.warm.as_slice(),
            subframe.rest.as_slice(),
        ),
    }
}

/// A sample times a power of 2.
fn raised(sample: &i32, factor: i32) -> i32
    requires fits { FitsSigned w32 (sample.now *ℤ factor) }
    ensures { result ≡ sample.now *ℤ factor }
{
    let low = *sample;
    low * factor
}

/// Each sample times a power of 2.
fn raise_all(alloc: Global, samples: &[i32], factor: i32) -> Result<Vec<i32>, DecodeEnd>
    requires fits { All (λ x. FitsSigned w32 (x *ℤ factor)) samples.now }
    ensures ok { IfOk result (λ v. v.items ≡ map (λ x. x *ℤ factor) samples.now) }
    ensures memory { IfErr result (λ e. e ≡ DecodeEnd.NoMemory) }
{
    let mut out = Vec::new(alloc);
    for sample in samples {
        out.push(raised(sample, factor))?;
    }
    Ok(out)
}

/// Each sample with so many zeros after it.
fn with_wasted(alloc: Global, samples: Vec<i32>, wasted: u32) -> Result<Vec<i32>, DecodeEnd>
    requires depth { wasted ≤ 24 }
    requires within { AllInDepth (25 - wasted) samples.items }
    ensures ok { IfOk result (λ v. v.items ≡ map (λ x. x *ℤ pos (2 ^ wasted)) samples.items) }
    ensures memory { IfErr result (λ e. e ≡ DecodeEnd.NoMemory) }
{
    if wasted == 0 {
        return Ok(samples);
    }
    raise_all(alloc, samples.as_slice(), power(wasted))
}

/// A subframe's samples themselves, where they were restored as it was read, each is within the depth, and no bits were wasted.
#[tactic(auto, unfolding(crate::specs::Values::coded_samples, crate::specs::Values::channel_samples))]
pub fn kept(subframe: &Subframe, depth: u32) -> Option<&[i32]>
    requires low { 1 ≤ depth }
    requires high { depth ≤ 25 }
    ensures samples { (block : ℕ) → IfSome result (λ xs. xs.now ≡ channel_samples block (part_of subframe.now)) }
    ensures coded { (block : ℕ) → IfSome result (λ _. AllInDepth (depth - subframe.now.wasted) (coded_samples block (part_of subframe.now))) }
    ensures within { IfSome result (λ xs. AllInDepth depth xs.now) }
{
    if subframe.wasted > 0 {
        return None;
    }
    let samples = subframe.restored()?;
    if all_fit(depth, samples) {
        Some(samples)
    } else {
        None
    }
}

/// A subframe's samples. They have the subframe's depth.
#[tactic(auto, unfolding(crate::specs::Values::channel_samples))]
pub fn samples_of(
    alloc: Global,
    subframe: &Subframe,
    block: u32,
    depth: u32,
) -> Result<Vec<i32>, DecodeEnd>
    requires part { IsPart block depth (part_of subframe.now) }
    requires depth { depth ≤ 25 }
    ensures ok { IfOk result (λ v. v.items ≡ channel_samples block (part_of subframe.now)) }
    ensures coded { IfOk result (λ _. AllInDepth (depth - subframe.now.wasted) (coded_samples block (part_of subframe.now))) }
    ensures within { IfOk result (λ v. AllInDepth depth v.items) }
    ensures len { IfOk result (λ v. length v.items ≡ block) }
    ensures out { IsErrOf result DecodeEnd.OutOfDepth → AllInDepth (depth - subframe.now.wasted) (coded_samples block (part_of subframe.now)) → ⊥ }
{
    let coded = without_wasted(alloc, subframe, block, depth)?;
    let samples = with_wasted(alloc, coded, subframe.wasted as u32)?;
    Ok(samples)
}
