//! Samples of several inputs, interleaved by channel.
ghost use Rattle.std.specs.Prelude.{◌≡◌, ◌≤◌, ◌<◌, ◌+◌, ◌++◌, ◌*◌, ℕ, length, take, drop, true, IfOk};
ghost use Rattle.ff_joins.specs.laws.JoinCuts.{width_to};
ghost use Rattle.ff_joins.specs.JoinOptions.{channels_of as channels_of_head};
ghost use Rattle.ff_joins.specs.laws.Lots.{lot_of, lots, cell, cells_to};

use crate::join_options::channels;
use crate::rows::width;
use crate::sound_inlet::SoundInlet;
use ff_frame::Samples;
use std::alloc::{AllocError, Global};

// Writes one channel of the first samples of an input into a column of rows that are so wide.
fn put_channel(
    out: &mut [i32],
    inlet: &SoundInlet,
    channel: usize,
    count: usize,
    wide: usize,
    column: usize,
)
    requires there { count ≤ inlet.now.count }
    requires known { channel < channels_of_head inlet.now.head }
    requires fits { column < wide }
    requires len { length out.old ≡ count * wide }
    ensures rows { (r : ℕ) → r < count → take (column + 1) (drop (r * wide) out.new)
        ≡ take column (drop (r * wide) out.old) ++ take 1 (drop (r * channels_of_head inlet.now.head + channel) inlet.now.samples) }
    ensures len { length out.new ≡ length out.old }
{
    let channels = channels(&inlet.head) as usize;
    let samples = inlet.samples.as_slice();
    'rows: for row in 0..count {
        out[row * wide + column] = samples[row * channels + channel];
    }
}

// Writes the first samples of an input into rows that are so wide, from a column on. Each channel is written by
// itself: row by row it would take several times as long.
fn put_input(out: &mut [i32], inlet: &SoundInlet, count: usize, wide: usize, column: usize)
    requires there { count ≤ inlet.now.count }
    requires fits { column + channels_of_head inlet.now.head ≤ wide }
    requires len { length out.old ≡ count * wide }
    ensures rows { (r : ℕ) → r < count → take (column + channels_of_head inlet.now.head) (drop (r * wide) out.new)
        ≡ take column (drop (r * wide) out.old) ++ cell (lot_of inlet.now) r }
    ensures len { length out.new ≡ length out.old }
{
    let channels = channels(&inlet.head) as usize;
    'channels: for channel in 0..channels {
        put_channel(out, inlet, channel, count, wide, column + channel);
    }
}

// Writes the first samples of all inputs into rows that are so wide.
fn put_inputs(out: &mut [i32], inlets: &[SoundInlet], count: usize, wide: usize)
    requires there { (p : ℕ) → p < length inlets.now → count ≤ (lots inlets.now p).count }
    requires wide { wide ≡ width_to (lots inlets.now) (length inlets.now) }
    requires len { length out.old ≡ count * wide }
    ensures { out.new ≡ cells_to (lots inlets.now) (length inlets.now) count }
{
    let mut column = 0;
    'inputs: for p in 0..inlets.len() {
        put_input(out, &inlets[p], count, wide, column);
        column += channels(&inlets[p].head) as usize;
    }
}

// So many rows that are so wide, of zeros.
fn zeros(alloc: Global, count: usize, wide: usize) -> Result<Vec<i32>, AllocError>
    ensures { IfOk result (λ v. length v.items ≡ count * wide) }
{
    match count.checked_mul(wide) {
        None => Err(AllocError),
        Some(room) => {
            let mut out = Vec::with_capacity(alloc, room)?;
            out.resize(room, 0)?;
            Ok(out)
        }
    }
}

// Whether these are two inputs of one channel each.
fn is_pair(inlets: &[SoundInlet]) -> bool
    ensures two { result ≡ true → length inlets.now ≡ 2 }
    ensures one { result ≡ true → (p : ℕ) → p < 2 → (lots inlets.now p).channels ≡ 1 }
{
    inlets.len() == 2 && channels(&inlets[0].head) == 1 && channels(&inlets[1].head) == 1
}

// The samples at the first places of two inputs of one channel each. Both are written at once, which is quicker.
fn paired(alloc: Global, inlets: &[SoundInlet], count: usize) -> Result<Samples, AllocError>
    requires there { (p : ℕ) → p < length inlets.now → count ≤ (lots inlets.now p).count }
    requires two { length inlets.now ≡ 2 }
    requires one { (p : ℕ) → p < 2 → (lots inlets.now p).channels ≡ 1 }
    ensures { IfOk result (λ xs. xs ≡ cells_to (lots inlets.now) 2 count) }
{
    let Some(room) = count.checked_mul(2) else {
        return Err(AllocError);
    };
    let left = inlets[0].samples.as_slice();
    let right = inlets[1].samples.as_slice();
    let mut out = Vec::with_capacity(alloc, room)?;
    'rows: for row in 0..count {
        out.push_reserved(left[row]);
        out.push_reserved(right[row]);
    }
    Ok(Samples::new(out))
}

/// The samples at the first places of all inputs, interleaved by channel.
pub fn first_rows(alloc: Global, inlets: &[SoundInlet], count: usize) -> Result<Samples, AllocError>
    requires { (p : ℕ) → p < length inlets.now → count ≤ (lots inlets.now p).count }
    ensures { IfOk result (λ xs. xs ≡ cells_to (lots inlets.now) (length inlets.now) count) }
{
    if is_pair(inlets) {
        return paired(alloc, inlets, count);
    }
    let Ok(wide) = usize::try_from(width(inlets)) else {
        return Err(AllocError);
    };
    let mut out = zeros(alloc, count, wide)?;
    put_inputs(out.as_mut_slice(), inlets, count, wide);
    Ok(Samples::new(out))
}
