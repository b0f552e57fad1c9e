//! Calls that code residuals and subframes.
ghost use Rattle.std.specs.Prelude.{◌≡◌, ◌≤◌, true, All};
ghost use Rattle.ff_frame.specs.Audio.{FitsBits};

use crate::table::Stop;
use crate::told::Told;
use crate::words::Call;
use ff_bits::BitWriter;
use ff_flac_subframe::{best_coding, write_residual, write_subframe};

// Tells the bits, filled up to bytes.
fn tell_bits<E: Drop>(told: &mut Told, out: BitWriter, done: Result<(), E>) {
    let mut out = out;
    if done.is_err() || out.pad().is_err() {
        return told.fail(Stop::Broken);
    }
    told.hex(out.into_bytes().as_slice());
}

// Tells how many bits the best coding has, and these.
fn tell_coded(call: &Call, told: &mut Told, us: &[u32], order: usize) {
    if us.is_empty() || us.len() > 4096 || order > 4 {
        return told.text("out of range");
    }
    let Ok(found) = best_coding(call.alloc, us, order) else {
        return told.fail(Stop::Broken);
    };
    told.count(found.cost);
    told.text(" bits ");
    let mut out = BitWriter::new(call.alloc);
    let done = write_residual(&mut out, us, order, found.method, found.partition_order);
    tell_bits(told, out, done);
}

/// `residual ORDER NUMBER..`: the best coding of residuals after a predictor of this order. In it 0, -1, 1, -2 .. are
/// told as 0, 1, 2, 3 ..
pub fn residual(call: &mut Call, told: &mut Told) {
    let order = call.up_to(0, 4) as usize;
    let us = call.numbers(1);
    tell_coded(call, told, us.as_slice(), order);
}

fn fits(x: i32, depth: u32) -> bool
    requires some { 1 ≤ depth }
    requires few { depth ≤ 25 }
    ensures { result ≡ true → FitsBits depth x }
{
    let half = 1i64 << (depth - 1);
    -half <= x as i64 && (x as i64) < half
}

fn all_fit(samples: &[i32], depth: u32) -> bool
    requires some { 1 ≤ depth }
    requires few { depth ≤ 25 }
    ensures { result ≡ true → All (FitsBits depth) samples.now }
{
    for x in samples {
        if !fits(*x, depth) {
            return false;
        }
    }
    true
}

// Tells the bits of the subframe.
fn tell_subframe(call: &Call, told: &mut Told, samples: &[i32], depth: u32) {
    if samples.is_empty() || samples.len() > 4096 || depth < 1 || depth > 25 {
        return told.text("out of range");
    }
    if !all_fit(samples, depth) {
        return told.text("out of range");
    }
    let mut out = BitWriter::new(call.alloc);
    let done = write_subframe(call.alloc, &mut out, samples, depth);
    tell_bits(told, out, done);
}

/// `subframe DEPTH SAMPLE..`: the subframe of samples of so many bits, filled up to bytes.
pub fn subframe(call: &mut Call, told: &mut Told) {
    let depth = call.up_to(0, 25) as u32;
    let samples = call.samples(1);
    tell_subframe(call, told, samples.as_slice(), depth);
}
