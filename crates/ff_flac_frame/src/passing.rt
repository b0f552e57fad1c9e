//! The reader that passes over a subframe, of which it keeps no sample and no residual.

ghost use Rattle.std.specs.Prelude.{◌≡◌, ◌<◌, ◌≤◌, nat_lt, if◌then◌else◌, []};
ghost use Rattle.ff_bits.specs.Reading.{times, give};
ghost use Rattle.ff_flac_frame.specs.Codes.{order_of};
ghost use Rattle.ff_flac_frame.specs.Frame.{sample, rice, partition, partitions, residual, subframe};
ghost use Rattle.ff_flac_frame.specs.laws.Gives.{Gives};
ghost use Rattle.ff_flac_frame.specs.laws.Passed.{passed};

use crate::end::FrameEnd;
use crate::field::read_field;
use crate::number::read_sample;
use crate::reading::{count_warm, predictor_of, read_wasted, samples};
use crate::residual::{fill_mask, next_four, next_rice};
use crate::rule::{Rule, order_from};
use ff_bits::BitReader;
use std::alloc::Global;

/// Passes so many samples of one depth.
fn pass_samples(reader: &mut BitReader, count: u32, depth: u32) -> Result<(), FrameEnd>
    requires { depth ≤ 32 }
    ensures { Gives (λ _. tt) result (passed (times count (sample depth)) reader.old) reader.new }
{
    for i in 0..count {
        read_sample(reader, depth)?;
    }
    Ok(())
}

/// Passes so many residuals of one parameter.
fn pass_rices(reader: &mut BitReader, count: u32, k: u32) -> Result<(), FrameEnd>
    requires { k ≤ 31 }
    ensures { Gives (λ _. tt) result (passed (times count (rice k)) reader.old) reader.new }
{
    // (only calls that are inlined are handed this window, so that it keeps to registers)
    let mut near = reader.window();
    let mask = fill_mask(k);
    let mut left = count;
    while left > 0 {
        if left & mask == 0 {
            near.fill();
        }
        match next_four(&mut near, left, k) {
            Some(_) => left -= 4,
            None => {
                next_rice(reader, &mut near, k)?;
                left -= 1;
            }
        }
    }
    *reader = near.reader();
    Ok(())
}

#[tactic(auto, unfolding(crate::specs::Frame::partition))]
fn pass_partition(reader: &mut BitReader, w: u32, count: u32) -> Result<(), FrameEnd>
    requires { w ≤ 5 }
    ensures { Gives (λ _. tt) result (passed (partition w count) reader.old) reader.new }
{
    let k = read_field(reader, w, Rule::Any)?;
    if k == (1u64 << w) - 1 {
        let width = read_field(reader, 5, Rule::Any)?;
        return pass_samples(reader, count, width as u32);
    }
    pass_rices(reader, count, k as u32)
}

fn pass_partitions(reader: &mut BitReader, n: u32, w: u32, count: u32) -> Result<(), FrameEnd>
    requires { w ≤ 5 }
    ensures { Gives (λ _. tt) result (passed (partitions n w count) reader.old) reader.new }
{
    for i in 0..n {
        pass_partition(reader, w, count)?;
    }
    Ok(())
}

#[tactic(auto, unfolding(crate::specs::Frame::residual))]
fn pass_residual(reader: &mut BitReader, block: u32, order: u32) -> Result<(), FrameEnd>
    requires { order ≤ block }
    ensures { Gives (λ _. tt) result (passed (residual block order) reader.old) reader.new }
{
    let method = read_field(reader, 2, Rule::Below(2))?;
    let p = read_field(reader, 4, Rule::Order(block, order))?;
    let count = block >> p;
    let w = method as u32 + 4;
    pass_partition(reader, w, count - order)?;
    pass_partitions(reader, (1u32 << p) - 1, w, count)
}

fn pass_rest(reader: &mut BitReader, block: u32, code: u64) -> Result<(), FrameEnd>
    requires small { code < 64 }
    requires order { order_of code ≤ block }
    ensures { Gives (λ _. tt) result (passed (if nat_lt code 2 then give [] else residual block (order_of code)) reader.old) reader.new }
{
    if code < 2 {
        return Ok(());
    }
    pass_residual(reader, block, order_from(code) as u32)
}

/// Passes a subframe.
#[tactic(auto, unfolding(crate::specs::Frame::subframe))]
pub fn pass_subframe(
    alloc: Global,
    reader: &mut BitReader,
    block: u32,
    depth: u32,
) -> Result<(), FrameEnd>
    requires low { 2 ≤ depth }
    requires high { depth ≤ 32 }
    ensures { Gives (λ _. tt) result (passed (subframe block depth) reader.old) reader.new }
{
    let _zero = read_field(reader, 1, Rule::Equal(0))?;
    let code = read_field(reader, 6, Rule::Kind(block))?;
    let wasted = read_wasted(reader, depth)?;
    let _warm = samples(alloc, reader, count_warm(block, code), depth - wasted)?;
    let _by = predictor_of(alloc, reader, code)?;
    pass_rest(reader, block, code)
}
