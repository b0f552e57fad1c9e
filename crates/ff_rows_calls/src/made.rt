//! Samples that are made, for frames that are too long to be told.
ghost use Rattle.std.specs.Prelude.{◌≤◌, ◌<◌};

use std::alloc::{AllocError, Global};

/// What is made.
#[derive(Clone, Copy)]
pub enum Kind {
    /// All samples are 0.
    Silence,
    /// Four samples at the greatest value, four at the least.
    Square,
    /// Any samples.
    Noise,
    /// Each sample is 3 above the one before.
    Ramp,
    /// Samples from -4 to 3.
    SoftNoise,
    /// The greatest or the least value.
    Ends,
}

/// How the later channels are made.
#[derive(Clone, Copy)]
pub enum Later {
    /// As the first, by the numbers that follow.
    Own,
    /// The same samples.
    Same,
    /// The opposite samples, at most the greatest value.
    Opposite,
}

// Half of the range of so many bits.
fn half(bits: u8) -> u32
    ensures some { 8 ≤ result }
    ensures few { result ≤ 8388608 }
{
    match bits {
        4 => 8,
        8 => 128,
        12 => 2048,
        13 => 4096,
        16 => 32768,
        20 => 524288,
        _ => 8388608,
    }
}

// A sample and half of the range.
fn raw(kind: Kind, i: u32, x: u64, bits: u8) -> u32
    requires time { i ≤ 4096 }
    requires bits { bits ≤ 24 }
    ensures { result ≤ 33554432 }
{
    let half = half(bits);
    match kind {
        Kind::Silence => half,
        Kind::Square => { if i / 4 % 2 == 0 { 2 * half - 1 } else { 0 } }
        Kind::Noise => ((x >> (31 - bits as u32)) % 16777216) as u32,
        Kind::Ramp => half + 3 * i,
        Kind::SoftNoise => half + ((x >> 28) % 8) as u32 - 4,
        Kind::Ends => { if (x >> 30) % 2 == 1 { 2 * half - 1 } else { 0 } }
    }
}

// The same for a later channel.
fn later_value(way: Later, first: u32, own: u32, half: u32) -> u32
    requires first { first ≤ 33554432 }
    requires own { own ≤ 33554432 }
    requires some { 8 ≤ half }
    requires half { half ≤ 8388608 }
    ensures { result ≤ 33554432 }
{
    match way {
        Later::Own => own,
        Later::Same => first,
        Later::Opposite => {
            if first == 0 || first > 2 * half {
                2 * half - 1
            } else {
                2 * half - first
            }
        }
    }
}

fn next(x: u64) -> u64
    requires { x < 2147483648 }
    ensures { result < 2147483648 }
{
    (x * 1103515245 + 12345) % 2147483648
}

// The value less half of the range.
fn centred(value: u32, half: u32) -> i32
    requires value { value ≤ 33554432 }
    requires half { half ≤ 8388608 }
{
    value as i32 - half as i32
}

/// So many sample frames, interleaved.
pub fn made(
    alloc: Global,
    bits: u8,
    channels: u32,
    kind: Kind,
    way: Later,
    count: u32,
) -> Result<Vec<i32>, AllocError>
    requires bits { bits ≤ 24 }
    requires some { 0 < channels }
    requires few { channels ≤ 8 }
    requires count { count ≤ 4096 }
{
    let half = half(bits);
    let mut out = Vec::new(alloc);
    let mut x = 1u64;
    let mut first = 0u32;
    for j in 0..count * channels {
        x = next(x);
        let own = raw(kind, (j / channels).min(4096), x, bits);
        if j % channels == 0 {
            first = own;
        }
        let value = if j % channels == 0 {
            own
        } else {
            later_value(way, first, own, half)
        };
        out.push(centred(value.min(33554432), half))?;
    }
    Ok(out)
}
