//! Samples at another depth.
ghost use Rattle.std.specs.Prelude.{◌≡◌, ◌≤◌, ◌<◌, ◌-◌, ◌^◌, ◌*ℤ◌, pos, All, map};
ghost use Rattle.std.specs.Int.{w32};
ghost use Rattle.std.specs.Int.RustNames.{FitsSigned};
ghost use Rattle.std.specs.Int.Signed.{shr_z};
ghost use Rattle.ff_frame.specs.Audio.{FitsBits, IsAudio};
ghost use Rattle.ff_pcm.specs.Depth.{shifted, at_depth};

use ff_frame::{AFrame, Samples};

/// A sample at a lower depth.
pub(crate) fn lowered(sample: i32, by: u8) -> i32
    requires { by ≤ 31 }
    ensures { result ≡ shr_z sample (2 ^ by) }
{
    sample >> by
}

// A sample at a higher depth.
fn raised(sample: i32, factor: i32) -> i32
    requires fits { FitsSigned w32 (sample *ℤ factor) }
    ensures { result ≡ sample *ℤ factor }
{
    sample * factor
}

// 2 to a power.
fn power(by: u8) -> i32
    requires { by ≤ 28 }
    ensures { result ≡ pos (2 ^ by) }
{
    (1u32 << by) as i32
}

// Each sample at a higher depth.
fn raise_all(samples: &mut Samples, factor: i32)
    requires fits { All (λ z. FitsSigned w32 (z *ℤ factor)) samples.old }
    ensures { samples.new ≡ map (λ z. z *ℤ factor) samples.old }
{
    let count = samples.as_slice().len();
    for i in 0..count {
        let sample = samples.as_slice()[i];
        samples.set(i, raised(sample, factor));
    }
}

// Each sample at a lower depth.
fn lower_all(samples: &mut Samples, by: u8)
    requires { by ≤ 28 }
    ensures { samples.new ≡ map (λ z. shr_z z (2 ^ by)) samples.old }
{
    let count = samples.as_slice().len();
    for i in 0..count {
        let sample = samples.as_slice()[i];
        samples.set(i, lowered(sample, by));
    }
}

// Each sample of `from` bits as one of `to` bits.
fn shift_all(samples: &mut Samples, from: u8, to: u8)
    requires fits { All (FitsBits from) samples.old }
    requires from_some { 4 ≤ from }
    requires from_few { from ≤ 32 }
    requires to_some { 4 ≤ to }
    requires to_few { to ≤ 32 }
    ensures { samples.new ≡ map (shifted from to) samples.old }
{
    if from == to {
        return;
    }
    if from <= to {
        raise_all(samples, power(to - from));
        return;
    }
    lower_all(samples, from - to);
}

/// Changes the depth of a frame's samples: each is shifted left, or right with its sign. Depths are 4 to 32 bits.
pub fn depth_change(frame: &mut AFrame, bits: u8)
    requires frame { IsAudio frame.old.bits frame.old.channels frame.old.samples }
    requires some_bits { 4 ≤ bits }
    requires few_bits { bits ≤ 32 }
    ensures value { frame.new ≡ at_depth bits frame.old }
    ensures sound { IsAudio frame.new.bits frame.new.channels frame.new.samples }
{
    shift_all(&mut frame.samples, frame.bits, bits);
    frame.bits = bits;
}
