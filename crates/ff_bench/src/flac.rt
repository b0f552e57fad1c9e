//! Blocks of audio as FLAC frames, measured.

ghost use Rattle.std.specs.Prelude.{◌≡◌, ◌*◌, ◌≤◌, IfOk, All, length};
ghost use Rattle.ff_frame.specs.Audio.{FitsBits};
ghost use Rattle.ff_flac_enc.specs.Frame.{IsBlock};

use ff_flac_enc::encode_block;
use ff_frame::{AFrame, Samples};
use std::alloc::{AllocError, Global};
use std::io;
use std::rt::Clock;
use std::time::{Duration, Instant};

/// How many blocks are coded: ten minutes of 44,100 sample frames a second.
const BLOCKS: u32 = 6460;

/// How many sample frames a block has.
const SAMPLE_FRAMES: usize = 4096;

/// Prints how long ten minutes of two channels of 16 bits take, and to how many bytes they come. Their blocks are
/// coded one after another.
pub fn measure(rt: &(impl Print + AllocGlobal + Clock)) -> io::Result<()> {
    let alloc = rt.alloc();
    let mut music = Music { time: 0, noise: 1 };
    let mut time = Duration::ZERO;
    let mut bytes = 0usize;
    for number in 0..BLOCKS {
        let block = block_of(alloc, &mut music)?;
        let start = Instant::now(rt)?;
        let coded = encode_block(alloc, &block, number)?;
        time = time.saturating_add(start.elapsed(rt)?);
        bytes = bytes.wrapping_add(coded.len());
    }
    let seconds = time.as_secs_f64();
    println!(rt; "encode_block: {seconds:.2} s ({bytes} bytes)")
}

/// Four voices whose pitch rises, and noise whose loudness changes.
#[derive(Drop)]
struct Music {
    time: u32,
    noise: u32,
}

/// A voice, nearly a sine from -4,096 to 4,096.
fn voice(phase: u32) -> i32 {
    let place = (phase >> 17 & 0x3fff) as i32;
    let height = place.wrapping_mul(0x4000 - place) >> 14;
    if phase >> 31 == 0 {
        height
    } else {
        height.wrapping_neg()
    }
}

/// The nearest sample of 16 bits.
fn sample(x: i32) -> i32
    ensures { FitsBits 16 result }
{
    x.clamp(-32768, 32767)
}

impl Music {
    /// A voice that begins with so many waves in 2^32 sample frames, and has half as many more 2^19 sample frames later.
    fn at_pitch(&self, pitch: u32) -> i32 {
        let steps = self.time & 0x7_ffff;
        let rise = (pitch >> 21).wrapping_mul(steps).wrapping_mul(steps);
        voice(pitch.wrapping_mul(steps).wrapping_add(rise))
    }

    /// Noise within 63 of 0, mostly near it.
    fn hiss(&mut self) -> i32 {
        self.noise = self
            .noise
            .wrapping_mul(1_664_525)
            .wrapping_add(1_013_904_223);
        let loud = 8 + (self.time >> 9 & 7) as i32;
        let both = (self.noise >> 26) as i32 + (self.noise >> 20 & 63) as i32 - 63;
        both.wrapping_mul(loud) >> 4
    }

    /// The next sample frame, left and right.
    fn next(&mut self) -> (i32, i32)
        ensures left { FitsBits 16 result.0 }
        ensures right { FitsBits 16 result.1 }
    {
        let low = self.at_pitch(21_426_000);
        let middle = self.at_pitch(50_935_000);
        let high = self.at_pitch(128_459_000);
        let top = self.at_pitch(305_421_000);
        let left = low
            .wrapping_mul(2)
            .wrapping_add(middle)
            .wrapping_add(high >> 1)
            .wrapping_add(top >> 3);
        let right = low
            .wrapping_add(middle)
            .wrapping_add(high >> 2)
            .wrapping_add(top >> 2);
        let both = self.hiss();
        let left = left.wrapping_add(both).wrapping_add(self.hiss());
        let right = right.wrapping_add(both).wrapping_add(self.hiss());
        self.time = self.time.wrapping_add(1);
        (sample(left), sample(right))
    }
}

fn samples_of(alloc: Global, music: &mut Music) -> Result<Vec<i32>, AllocError>
    ensures len { IfOk result (λ v. length v.items ≡ 8192) }
    ensures fit { IfOk result (λ v. All (FitsBits 16) v.items) }
{
    let mut samples = Vec::with_capacity(alloc, 2 * SAMPLE_FRAMES)?;
    for _ in 0..SAMPLE_FRAMES {
        let (left, right) = music.next();
        samples.push(left)?;
        samples.push(right)?;
    }
    Ok(samples)
}

/// The next block.
fn block_of(alloc: Global, music: &mut Music) -> Result<AFrame, AllocError>
    ensures { IfOk result IsBlock }
{
    let samples = samples_of(alloc, music)?;
    Ok(AFrame::make(0, 44100, 16, 2, Samples::new(samples)))
}
