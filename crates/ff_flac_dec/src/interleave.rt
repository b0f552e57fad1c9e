//! The samples of channels, interleaved.
ghost use Rattle.std.specs.Prelude.{◌≡◌, ◌<◌, ◌≤◌, ◌++◌, ◌∷◌, [], length, IfOk, IfErr, OnOk, pos, slice_index_or};
ghost use Rattle.ff_flac_dec.specs.Channels.{sample_frame, interleaved};
ghost use Rattle.ff_flac_dec.specs.laws.Joins.{items_of};

use crate::end::DecodeEnd;
use std::alloc::Global;

/// The sample at a place, 0 past the end.
fn sample_at(channel: &[i32], place: usize) -> i32
    ensures { result ≡ slice_index_or channel.now place (pos 0) }
{
    if place < channel.len() {
        channel[place]
    } else {
        0
    }
}

/// Puts one sample of each channel after the others.
fn push_sample_frame(
    out: &mut Vec<i32>,
    channels: &[Vec<i32>],
    place: usize,
) -> Result<(), DecodeEnd>
    ensures ok { OnOk result (out.new.items ≡ out.old.items ++ sample_frame (items_of channels.now) place) }
    ensures memory { IfErr result (λ e. e ≡ DecodeEnd.NoMemory) }
{
    for channel in channels {
        out.push(sample_at(channel.as_slice(), place))?;
    }
    Ok(())
}

/// The samples of two channels of one length, sample frame after sample frame.
#[tactic(auto, unfolding(crate::specs::Channels::interleaved))]
pub fn interleave_two(alloc: Global, first: &[i32], second: &[i32]) -> Result<Vec<i32>, DecodeEnd>
    requires { length first.now ≡ length second.now }
    ensures ok { IfOk result (λ v. v.items ≡ interleaved (length first.now) (first.now ∷ second.now ∷ [])) }
    ensures memory { IfErr result (λ e. e ≡ DecodeEnd.NoMemory) }
{
    let count = first.len();
    let mut out = Vec::with_capacity(alloc, count + count)?;
    for i in 0..count {
        out.push_reserved(first[i]);
        out.push_reserved(second[i]);
    }
    Ok(out)
}

/// The samples of any channels, sample frame after sample frame.
#[tactic(auto, unfolding(crate::specs::Channels::interleaved))]
fn interleave_any(alloc: Global, channels: &[Vec<i32>], block: u32) -> Result<Vec<i32>, DecodeEnd>
    ensures ok { IfOk result (λ v. v.items ≡ interleaved block (items_of channels.now)) }
    ensures memory { IfErr result (λ e. e ≡ DecodeEnd.NoMemory) }
{
    let mut out = Vec::with_capacity(alloc, (block as usize).saturating_mul(channels.len()))?;
    for place in 0..block {
        push_sample_frame(&mut out, channels, place as usize)?;
    }
    Ok(out)
}

/// The samples of all channels, sample frame after sample frame.
pub fn interleave(alloc: Global, channels: &[Vec<i32>], block: u32) -> Result<Vec<i32>, DecodeEnd>
    ensures ok { IfOk result (λ v. v.items ≡ interleaved block (items_of channels.now)) }
    ensures memory { IfErr result (λ e. e ≡ DecodeEnd.NoMemory) }
{
    if channels.len() == 2 {
        let first = channels[0].as_slice();
        let second = channels[1].as_slice();
        if first.len() == block as usize && second.len() == block as usize {
            return interleave_two(alloc, first, second);
        }
    }
    interleave_any(alloc, channels, block)
}
