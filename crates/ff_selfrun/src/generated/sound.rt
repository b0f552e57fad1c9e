//! The generated audio.
ghost use Rattle.std.specs.Prelude.{◌≡◌, ◌≤◌, ◌<◌, ◌++◌, ◌*◌, ◌+◌, IfOk, OnOk};
ghost use Rattle.ff_selfrun.specs.generated.Generated.{generated_wav, sample, sample_bytes, sound, sound_head};

use ff_format::Rf64;
use ff_frame::{Codec, StreamHead};
use ff_time::Rational;
use ff_wav::WavPut;
use std::alloc::{AllocError, Global};

/// Sample frames a second.
const RATE: u32 = 8_000;

fn head() -> StreamHead
    ensures { result ≡ sound_head }
{
    StreamHead::Audio {
        tb: Rational::one_over(RATE),
        rate: RATE,
        bits: 16,
        channels: 2,
        codec: Codec::PcmS16le,
    }
}

fn sample_of(frame: u32, channel: u32) -> i16
    requires frame { frame < 28800000 }
    requires channel { channel < 2 }
    ensures { result ≡ sample frame channel }
{
    ((frame * 37 + channel * 101) % 4_001) as i16 - 2_000
}

// Adds a sample frame.
fn push_frame(out: &mut Vec<u8>, frame: u32) -> Result<(), AllocError>
    requires { frame < 28800000 }
    ensures { OnOk result (out.new.items ≡ out.old.items ++ (sample_bytes (sample frame 0) ++ sample_bytes (sample frame 1))) }
{
    out.extend_from_slice(&sample_of(frame, 0).to_le_bytes())?;
    out.extend_from_slice(&sample_of(frame, 1).to_le_bytes())
}

// Adds so many sample frames.
fn push_sound(out: &mut Vec<u8>, count: u32) -> Result<(), AllocError>
    requires { count ≤ 28800000 }
    ensures { OnOk result (out.new.items ≡ out.old.items ++ sound count) }
{
    out.reserve(count as usize * 4)?;
    'frames: for frame in 0..count {
        push_frame(out, frame)?;
    }
    Ok(())
}

/// A WAV file of this many seconds, at most 3,600: 16 bits on two channels, 8,000 sample frames a second. Sample i of channel c is
/// (37 i + 101 c) mod 4,001, less 2,000.
pub fn gen_wav(alloc: Global, seconds: u32) -> Result<Vec<u8>, AllocError>
    requires { seconds ≤ 3600 }
    ensures { IfOk result (λ bytes. bytes.items ≡ generated_wav seconds) }
{
    let frames = RATE * seconds;
    let mut put = WavPut::new(alloc, &head(), Rf64::Never);
    let Ok(()) = put.add(u64::from(frames) * 4) else {
        unreachable!();
    };
    let mut bytes = put.last()?;
    push_sound(&mut bytes, frames)?;
    Ok(bytes)
}
