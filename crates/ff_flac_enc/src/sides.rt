//! The middle and the difference of two channels.

ghost use Rattle.std.specs.Prelude.{◌≡◌, ◌+◌, ◌-◌, ◌^◌, ◌<◌, ◌≤◌, ◌+ℤ◌, ◌-ℤ◌, length, IfOk, All};
ghost use Rattle.ff_frame.specs.Audio.{FitsBits};
ghost use Rattle.ff_flac_enc.specs.Layout.{half, mid_of, side_of};

use crate::channels::zeros;
use std::alloc::{AllocError, Global};

/// The middle of two samples.
fn middle(x: i32, y: i32) -> i32
    requires x { FitsBits 25 x }
    requires y { FitsBits 25 y }
    ensures { result ≡ half (x +ℤ y) }
{
    (x + y) >> 1
}

/// The difference of two samples.
fn difference(x: i32, y: i32) -> i32
    requires x { FitsBits 25 x }
    requires y { FitsBits 25 y }
    ensures { result ≡ x -ℤ y }
{
    x - y
}

/// Writes the middle of two channels.
fn middles(mid: &mut [i32], left: &[i32], right: &[i32])
    requires left { All (FitsBits 25) left.now }
    requires right { All (FitsBits 25) right.now }
    requires len { length left.now ≡ length right.now }
    requires count { length mid.old ≡ length left.now }
    ensures { mid.new ≡ mid_of left.now right.now }
{
    for i in 0..mid.len() {
        mid[i] = middle(left[i], right[i]);
    }
}

/// Writes the difference of two channels.
fn differences(side: &mut [i32], left: &[i32], right: &[i32])
    requires left { All (FitsBits 25) left.now }
    requires right { All (FitsBits 25) right.now }
    requires len { length left.now ≡ length right.now }
    requires count { length side.old ≡ length left.now }
    ensures { side.new ≡ side_of left.now right.now }
{
    for i in 0..side.len() {
        side[i] = difference(left[i], right[i]);
    }
}

/// The middle of two channels.
pub fn mid_samples(alloc: Global, left: &[i32], right: &[i32]) -> Result<Vec<i32>, AllocError>
    requires left { All (FitsBits 25) left.now }
    requires right { All (FitsBits 25) right.now }
    requires len { length left.now ≡ length right.now }
    ensures { IfOk result (λ v. v.items ≡ mid_of left.now right.now) }
{
    let mut out = zeros(alloc, left.len())?;
    middles(&mut out, left, right);
    Ok(out)
}

/// The difference of two channels.
pub fn side_samples(alloc: Global, left: &[i32], right: &[i32]) -> Result<Vec<i32>, AllocError>
    requires left { All (FitsBits 25) left.now }
    requires right { All (FitsBits 25) right.now }
    requires len { length left.now ≡ length right.now }
    ensures { IfOk result (λ v. v.items ≡ side_of left.now right.now) }
{
    let mut out = zeros(alloc, left.len())?;
    differences(&mut out, left, right);
    Ok(out)
}
