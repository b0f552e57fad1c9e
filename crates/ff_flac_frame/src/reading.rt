//! The reader of a subframe.

ghost use Rattle.std.specs.Prelude.{◌≡◌, ◌<◌, ◌≤◌, ◌^◌, IfOk, nat_lt, if◌then◌else◌, [], ◌∷◌};
ghost use Rattle.ff_bits.specs.Reading.{times, give};
ghost use Rattle.ff_flac_frame.specs.Codes.{kind_of, order_of, warm_count};
ghost use Rattle.ff_flac_frame.specs.Frame.{sample, residual, wasted_bits, predictor, subframe};
ghost use Rattle.ff_flac_frame.specs.laws.Gives.{Gives};
ghost use Rattle.ff_flac_frame.specs.laws.Parts.{part_of};
ghost use Rattle.ff_flac_frame.specs.laws.Restoring.{Follows};

use crate::end::FrameEnd;
use crate::field::read_field;
use crate::linear::widened;
use crate::number::read_zeros;
use crate::predictor::{Predictor, Restoring, start_restoring};
use crate::residual::{read_residual, read_samples};
use crate::rule::{Rule, order_from};
use crate::sequence::Sequence;
use crate::subframe::{SubKind, Subframe};
use ff_bits::BitReader;
use std::alloc::Global;

/// So many samples of one depth.
pub fn samples(
    alloc: Global,
    reader: &mut BitReader,
    count: u32,
    depth: u32,
) -> Result<Vec<i32>, FrameEnd>
    requires { depth ≤ 32 }
    ensures { Gives (λ v. v.items) result (times count (sample depth) reader.old) reader.new }
{
    let mut out = Vec::with_capacity(alloc, count as usize)?;
    read_samples(reader, &mut out, count, depth)?;
    Ok(out)
}

fn residuals(
    alloc: Global,
    reader: &mut BitReader,
    block: u32,
    order: u32,
    predictor: &Predictor,
    restoring: &mut Restoring,
) -> Result<Vec<i32>, FrameEnd>
    requires order { order ≤ block }
    requires follows { Follows predictor.now restoring.old [] }
    ensures reads { Gives (λ v. v.items) result (residual block order reader.old) reader.new }
    ensures follows { IfOk result (λ v. Follows predictor.now restoring.new v.items) }
{
    let mut out = Vec::with_capacity(alloc, block as usize)?;
    read_residual(reader, &mut out, block, order, predictor, restoring)?;
    Ok(out)
}

/// How many low bits of each sample are zero and left out, below the depth (RFC 9639, section 9.2.2).
#[tactic(auto, unfolding(crate::specs::Frame::wasted_bits))]
pub fn read_wasted(reader: &mut BitReader, depth: u32) -> Result<u32, FrameEnd>
    requires { 2 ≤ depth }
    ensures reads { Gives (λ v. v) result (wasted_bits depth reader.old) reader.new }
    ensures below { IfOk result (λ k. k < depth) }
{
    let flag = read_field(reader, 1, Rule::Any)?;
    if flag == 0 {
        return Ok(0);
    }
    let z = read_zeros(reader, (depth - 1) as u64)?;
    Ok(z as u32 + 1)
}

#[tactic(auto, unfolding(crate::specs::Frame::predictor))]
fn read_predictor(
    alloc: Global,
    reader: &mut BitReader,
    order: u32,
) -> Result<(u32, Vec<i32>), FrameEnd>
    ensures reads { Gives (λ v. (v.0, v.1.items)) result (predictor order reader.old) reader.new }
    ensures small { IfOk result (λ v. v.0 < 16) }
{
    let precision = read_field(reader, 4, Rule::Below(15))?;
    let shift = read_field(reader, 5, Rule::Below(16))?;
    let coefs = samples(alloc, reader, order, precision as u32 + 1)?;
    Ok((shift as u32, coefs))
}

/// What a subframe of this type code is.
#[tactic(auto, unfolding(crate::specs::Codes::kind_of))]
fn kind_from(code: u64) -> SubKind
    ensures { result ≡ kind_of code }
{
    if code == 0 {
        SubKind::Constant
    } else if code == 1 {
        SubKind::Verbatim
    } else if code < 32 {
        SubKind::Fixed
    } else {
        SubKind::Lpc
    }
}

/// How many samples stand before the residuals, or in their place.
#[tactic(auto, unfolding(crate::specs::Codes::warm_count))]
pub fn count_warm(block: u32, code: u64) -> u32
    requires { code < 64 }
    ensures { result ≡ warm_count block code }
{
    if code == 0 {
        1
    } else if code == 1 {
        block
    } else {
        order_from(code) as u32
    }
}

/// The shift and the coefficients of a linear predictor; 0 and none for any other type code (RFC 9639, section
/// 9.2.6).
pub fn predictor_of(
    alloc: Global,
    reader: &mut BitReader,
    code: u64,
) -> Result<(u32, Vec<i32>), FrameEnd>
    requires { code < 64 }
    ensures small { IfOk result (λ v. v.0 < 16) }
    ensures reads { Gives (λ v. (v.0, v.1.items)) result ((if nat_lt code 32 then give (0, []) else predictor (order_of code)) reader.old) reader.new }
{
    if code < 32 {
        return Ok((0, Vec::new(alloc)));
    }
    read_predictor(alloc, reader, order_from(code) as u32)
}

fn residuals_of(
    alloc: Global,
    reader: &mut BitReader,
    block: u32,
    code: u64,
    predictor: &Predictor,
    restoring: &mut Restoring,
) -> Result<Vec<i32>, FrameEnd>
    requires small { code < 64 }
    requires order { order_of code ≤ block }
    requires follows { Follows predictor.now restoring.old [] }
    ensures reads { Gives (λ v. v.items) result ((if nat_lt code 2 then give [] else residual block (order_of code)) reader.old) reader.new }
    ensures follows { IfOk result (λ v. Follows predictor.now restoring.new v.items) }
{
    if code < 2 {
        return Ok(Vec::new(alloc));
    }
    let order = order_from(code) as u32;
    residuals(alloc, reader, block, order, predictor, restoring)
}

/// A subframe's residuals, and its samples where they were restored.
struct Rest {
    rest: Vec<i32>,
    restored: Restoring,
}

/// The residuals of a subframe with these warm-up samples and, of a linear predictor, coefficients.
fn read_rest(
    alloc: Global,
    reader: &mut BitReader,
    block: u32,
    code: u64,
    predictor: &Predictor,
) -> Result<Rest, FrameEnd>
    requires small { code < 64 }
    requires order { order_of code ≤ block }
    ensures reads { Gives (λ r. r.rest.items) result ((if nat_lt code 2 then give [] else residual block (order_of code)) reader.old) reader.new }
    ensures follows { IfOk result (λ r. Follows predictor.now r.restored r.rest.items) }
{
    let mut restored = start_restoring(alloc, code >= 2, predictor, block as usize)?;
    let rest = residuals_of(alloc, reader, block, code, predictor, &mut restored)?;
    Ok(Rest { rest, restored })
}

/// A subframe, and its samples where they can be restored as its residuals are read.
#[tactic(auto, unfolding(crate::specs::Frame::subframe))]
pub fn read_subframe(
    alloc: Global,
    reader: &mut BitReader,
    block: u32,
    depth: u32,
) -> Result<Subframe, FrameEnd>
    requires low { 2 ≤ depth }
    requires high { depth ≤ 32 }
    ensures { Gives part_of result (subframe block depth reader.old) reader.new }
{
    let _zero = read_field(reader, 1, Rule::Equal(0))?;
    let code = read_field(reader, 6, Rule::Kind(block))?;
    let wasted = read_wasted(reader, depth)?;
    let warm = samples(alloc, reader, count_warm(block, code), depth - wasted)?;
    let (shift, coefs) = predictor_of(alloc, reader, code)?;
    let wide = widened(alloc, coefs.as_slice())?;
    let predictor = Predictor {
        is_linear: code >= 32,
        order: order_from(code) as usize,
        coefs: wide.as_slice(),
        shift,
        warm: warm.as_slice(),
    };
    let Rest { rest, restored } = read_rest(alloc, reader, block, code, &predictor)?;
    Ok(Subframe {
        wasted: wasted as u8,
        kind: kind_from(code),
        order: order_from(code) as u8,
        shift: shift as u8,
        coefs: Sequence::of(coefs),
        warm: Sequence::of(warm),
        rest: Sequence::of(rest),
        is_restored: code >= 2 && restored.is_on,
        samples: Sequence::of(restored.samples),
    })
}
