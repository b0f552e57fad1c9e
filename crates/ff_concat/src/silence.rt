//! Audio of zeros.
ghost use Rattle.std.specs.Prelude.{◌≡◌, ◌<◌, ◌≤◌, ◌^◌, IfOk, replicate, pos};
ghost use Rattle.ff_concat.specs.Silences.{silent_frame as silent_frame_of};

use ff_frame::{AFrame, Samples};
use ff_stream::Item;
use std::alloc::{AllocError, Global};

// So many zeros.
fn zeros(alloc: Global, count: usize) -> Result<Vec<i32>, AllocError>
    ensures { IfOk result (λ samples. samples.items ≡ replicate count (pos 0)) }
{
    vec![in alloc; 0; count]
}

/// The frame of so many sample frames of zeros from this time on.
pub fn silent_frame(
    alloc: Global,
    rate: u32,
    bits: u8,
    channels: u8,
    start: u64,
    count: usize,
) -> Result<Item, AllocError>
    requires near { start < 2 ^ 63 }
    requires few { count ≤ 1024 }
    ensures { IfOk result (λ item. item ≡ silent_frame_of rate bits channels start count) }
{
    let samples = zeros(alloc, count * channels as usize)?;
    Ok(Item::Audio(AFrame {
        pts: start as i64,
        rate,
        bits,
        channels,
        samples: Samples::new(samples),
    }))
}
