//! The counter of what the stream's header says of all frames.
ghost use Rattle.std.specs.Prelude.{◌≡◌, ◌+◌, ◌*◌, ◌^◌, ◌<◌, ◌≤◌, ◌≢◌, List, [], ◌∷◌, ◌++◌, Some, None, min, max, length, IfOk, OnOk, OnErr, All};
ghost use Rattle.ff_frame.specs.Audio.{FitsBits, IsAudio};
ghost use Rattle.ff_flac_enc.specs.Totals.{sample_bytes, samples_bytes, frame_bytes, sample_frames};

use ff_frame::{AFrame, Totals};
use md5::{Digest, Md5};
use std::alloc::{AllocError, Global};

/// The least and the greatest number of bytes of a coded frame.
#[derive(Clone, Copy, Debug, PartialEq, Eq)]
pub struct Sizes {
    /// The fewest bytes of a frame.
    pub least: u32,
    /// The most bytes of a frame.
    pub greatest: u32,
}

/// Those of no frames.
const NO_SIZES: Sizes = Sizes {
    least: 0,
    greatest: 0,
};

/// Counts what the header of a stream tells of its frames (RFC 9639, section 8.2).
#[derive(Drop)]
pub struct Counter {
    alloc: Global,
    /// Those of the frames so far, once there is one.
    sizes: Option<Sizes>,
    /// The number of sample frames so far.
    samples: u64,
    hasher: Md5,
}

// With one frame more.
fn widened(sizes: Option<Sizes>, len: u32) -> Sizes
    ensures none { sizes ≡ None → (result.least ≡ len) × (result.greatest ≡ len) }
    ensures some { (s : Sizes) → sizes ≡ Some s → (result.least ≡ min s.least len) × (result.greatest ≡ max s.greatest len) }
{
    match sizes {
        None => Sizes {
            least: len,
            greatest: len,
        },
        Some(s) => Sizes {
            least: s.least.min(len),
            greatest: s.greatest.max(len),
        },
    }
}

fn bytes_1(sample: i32) -> [u8; 1]
    requires { FitsBits 8 sample }
    ensures { result ≡ sample_bytes 1 sample }
{
    let n = sample.cast_unsigned();
    [(n % 256) as u8]
}

fn bytes_2(sample: i32) -> [u8; 2]
    requires { FitsBits 16 sample }
    ensures { result ≡ sample_bytes 2 sample }
{
    let n = sample.cast_unsigned();
    [(n % 256) as u8, (n / 256 % 256) as u8]
}

fn bytes_3(sample: i32) -> [u8; 3]
    requires { FitsBits 24 sample }
    ensures { result ≡ sample_bytes 3 sample }
{
    let n = sample.cast_unsigned();
    [
        (n % 256) as u8,
        (n / 256 % 256) as u8,
        (n / 65536 % 256) as u8,
    ]
}

fn bytes_4(sample: i32) -> [u8; 4]
    requires { FitsBits 32 sample }
    ensures { result ≡ sample_bytes 4 sample }
{
    let n = sample.cast_unsigned();
    [
        (n % 256) as u8,
        (n / 256 % 256) as u8,
        (n / 65536 % 256) as u8,
        (n / 16777216) as u8,
    ]
}

fn push_1(out: &mut Vec<u8>, samples: &[i32]) -> Result<(), AllocError>
    requires { All (FitsBits 8) samples.now }
    ensures { OnOk result (out.new.items ≡ out.old.items ++ samples_bytes 1 samples.now) }
{
    for sample in samples {
        out.extend_from_slice(&bytes_1(*sample))?;
    }
    Ok(())
}

// Each sample in two bytes, in the place of others: faster than one after the other.
fn write_2(out: &mut [u8], samples: &[i32])
    requires fit { All (FitsBits 16) samples.now }
    requires len { length out.old ≡ 2 * length samples.now }
    ensures { out.new ≡ samples_bytes 2 samples.now }
{
    for i in 0..samples.len() {
        let bytes = bytes_2(samples[i]);
        out[2 * i] = bytes[0];
        out[2 * i + 1] = bytes[1];
    }
}

fn bytes_of_2(alloc: Global, samples: &[i32]) -> Result<Vec<u8>, AllocError>
    requires { All (FitsBits 16) samples.now }
    ensures { IfOk result (λ v. v.items ≡ samples_bytes 2 samples.now) }
{
    let mut out = vec![in alloc; 0u8; 2 * samples.len()]?;
    write_2(&mut out, samples);
    Ok(out)
}

// As `write_2`, of three bytes.
fn write_3(out: &mut [u8], samples: &[i32])
    requires fit { All (FitsBits 24) samples.now }
    requires len { length out.old ≡ 3 * length samples.now }
    ensures { out.new ≡ samples_bytes 3 samples.now }
{
    for i in 0..samples.len() {
        let bytes = bytes_3(samples[i]);
        out[3 * i] = bytes[0];
        out[3 * i + 1] = bytes[1];
        out[3 * i + 2] = bytes[2];
    }
}

fn bytes_of_3(alloc: Global, samples: &[i32]) -> Result<Vec<u8>, AllocError>
    requires { All (FitsBits 24) samples.now }
    ensures { IfOk result (λ v. v.items ≡ samples_bytes 3 samples.now) }
{
    let mut out = vec![in alloc; 0u8; 3 * samples.len()]?;
    write_3(&mut out, samples);
    Ok(out)
}

fn push_4(out: &mut Vec<u8>, samples: &[i32]) -> Result<(), AllocError>
    requires { All (FitsBits 32) samples.now }
    ensures { OnOk result (out.new.items ≡ out.old.items ++ samples_bytes 4 samples.now) }
{
    for sample in samples {
        out.extend_from_slice(&bytes_4(*sample))?;
    }
    Ok(())
}

fn push_all(out: &mut Vec<u8>, width: usize, samples: &[i32]) -> Result<(), AllocError>
    requires some { 1 ≤ width }
    requires few { width ≤ 4 }
    requires not_2 { width ≢ 2 }
    requires not_3 { width ≢ 3 }
    requires fit { All (FitsBits (8 * width)) samples.now }
    ensures { OnOk result (out.new.items ≡ out.old.items ++ samples_bytes width samples.now) }
{
    match width {
        1 => push_1(out, samples),
        _ => push_4(out, samples),
    }
}

// The samples of a frame, interleaved, each signed and little-endian in the least number of whole bytes.
fn bytes_of(alloc: Global, frame: &AFrame) -> Result<Vec<u8>, AllocError>
    requires { IsAudio frame.now.bits frame.now.channels frame.now.samples }
    ensures { IfOk result (λ v. v.items ≡ frame_bytes frame.now) }
{
    let width = (usize::from(frame.bits) + 7) / 8;
    let samples = frame.samples.as_slice();
    if width == 2 {
        return bytes_of_2(alloc, samples);
    }
    if width == 3 {
        return bytes_of_3(alloc, samples);
    }
    let mut out = Vec::new(alloc);
    out.reserve(samples.len().saturating_mul(width))?;
    push_all(&mut out, width, samples)?;
    Ok(out)
}

impl Counter {
    ghost use Rattle.ff_flac_enc.specs.Totals.{Added, Counts, added, counted, totals_of};

    /// Of no frames.
    pub fn new(alloc: Global) -> Counter
        ensures counts { Counts result [] }
        ensures none { counted result ≡ 0 }
    {
        Counter {
            alloc,
            sizes: None,
            samples: 0,
            hasher: Md5::new(),
        }
    }

    /// Counts a frame that was coded in so many bytes. There are fewer than 2^62 sample frames in all.
    pub fn add(&mut self, frame: &AFrame, len: u32) -> Result<(), AllocError>
        requires sound { IsAudio frame.now.bits frame.now.channels frame.now.samples }
        requires few { counted self.old + sample_frames frame.now < 2 ^ 62 }
        ensures ok { OnOk result ((all : List Added) → Counts self.old all → Counts self.new (all ++ added frame.now len ∷ [])) }
        ensures err { OnErr result (self.new ≡ self.old) }
        ensures counted { OnOk result (counted self.new ≡ counted self.old + sample_frames frame.now) }
    {
        let bytes = bytes_of(self.alloc, frame)?;
        self.hasher.update(bytes.as_slice());
        self.samples += (frame.samples.as_slice().len() / usize::from(frame.channels)) as u64;
        self.sizes = Some(widened(self.sizes, len));
        Ok(())
    }

    /// The totals of the frames that were added.
    pub fn totals(self) -> Totals
        ensures { (all : List Added) → Counts self all → result ≡ totals_of all }
    {
        let sizes = self.sizes.unwrap_or(NO_SIZES);
        Totals {
            min_frame: sizes.least,
            max_frame: sizes.greatest,
            samples: self.samples,
            md5: self.hasher.finalize(),
        }
    }
}
