//! Samples and their depth.

ghost use Rattle.std.specs.Prelude.{◌≡◌, ◌≤◌, ◌^◌, IsTrue, ◌↔◌, pos};
ghost use Rattle.ff_frame.specs.Audio.{FitsBits};
ghost use Rattle.ff_flac_frame.specs.Prediction.{AllInDepth};

/// 2 to a power.
pub fn power(by: u32) -> i32
    requires { by ≤ 24 }
    ensures { result ≡ pos (2 ^ by) }
{
    (1u32 << by) as i32
}

/// Whether a sample is within the depth.
#[inline(always)]
fn fits(depth: u32, x: i32) -> bool
    requires low { 1 ≤ depth }
    requires high { depth ≤ 25 }
    ensures { IsTrue result ↔ FitsBits depth x }
{
    let limit = power(depth - 1);
    -limit <= x && x < limit
}

/// Whether each sample is within the depth. It looks at all of them, so that it may look at several at once.
pub fn all_fit(depth: u32, samples: &[i32]) -> bool
    requires low { 1 ≤ depth }
    requires high { depth ≤ 25 }
    ensures { IsTrue result ↔ AllInDepth depth samples.now }
{
    let mut all = true;
    for sample in samples {
        all &= fits(depth, *sample);
    }
    all
}
