//! Residuals, put after what was read before.

ghost use Rattle.std.specs.Prelude.{◌≡◌, ◌<◌, ◌≤◌, ◌^◌, ◌+◌, ◌-◌, ◌/◌, OnOk, IfOk, IfSome, IfNone, true, [], ◌∷◌, ◌++◌, FitsSigned, vec_len, vec_capacity};
ghost use Rattle.std.specs.Int.{w32};
ghost use Rattle.ff_bits.specs.Reading.{Done, times};
ghost use Rattle.ff_flac_frame.specs.Frame.{sample, rice, partition, partitions, residual};
ghost use Rattle.ff_flac_frame.specs.laws.Gives.{Gives};
ghost use Rattle.ff_flac_frame.specs.laws.Front.{with_front};
ghost use Rattle.ff_flac_frame.specs.laws.Restoring.{Follows};

use crate::end::FrameEnd;
use crate::field::read_field;
use crate::fixed::last_of;
use crate::number::{read_rice, read_sample, rice_of, short_rice};
use crate::predictor::{Predictor, Restoring, restore_four, restore_next};
use crate::rule::Rule;
use ff_bits::{BitReader, BitWindow};

/// So many samples of one depth.
pub fn read_samples(
    reader: &mut BitReader,
    out: &mut Vec<i32>,
    count: u32,
    depth: u32,
) -> Result<(), FrameEnd>
    requires { depth ≤ 32 }
    ensures { Gives (λ _. out.new.items) result (with_front out.old.items (times count (sample depth) reader.old)) reader.new }
{
    for i in 0..count {
        let value = read_sample(reader, depth)?;
        out.push(value)?;
    }
    Ok(())
}

/// How many codes of so many low bits a word mostly holds that is filled up, which are 56 bits at least.
fn codes_in_word(k: u32) -> u32
    ensures { 1 ≤ result }
{
    match k {
        0..=4 => 8,
        5..=11 => 4,
        12..=22 => 2,
        _ => 1,
    }
}

/// Four codes of at most so many low bits mostly stand in a word that is filled up.
const FOUR_LOW: u32 = 11;

/// The word is filled up where the number of codes that are left has none of these bits. That is before each four
/// that are read at once, and else before as many as it mostly holds.
pub fn fill_mask(k: u32) -> u32 {
    if k <= FOUR_LOW {
        0
    } else {
        codes_in_word(k) - 1
    }
}

/// The next four residuals, where so many are left and the word shows them whole.
#[inline(always)]
pub fn next_four(near: &mut BitWindow, left: u32, k: u32) -> Option<(i32, i32, i32, i32)>
    ensures left { IfSome result (λ r. 4 ≤ left) }
    ensures read { IfSome result (λ r. times 4 (rice k) near.old ≡ Done (r.0 ∷ r.1 ∷ r.2 ∷ r.3 ∷ []) near.new) }
    ensures fits { IfSome result (λ r. FitsSigned w32 r.0 × FitsSigned w32 r.1 × FitsSigned w32 r.2 × FitsSigned w32 r.3) }
    ensures unchanged { IfNone result (near.new ≡ near.old) }
{
    if k > FOUR_LOW || left < 4 {
        return None;
    }
    let (a, b, c, d) = near.four(k)?;
    Some((
        short_rice(a.0, a.1, k),
        short_rice(b.0, b.1, k),
        short_rice(c.0, c.1, k),
        short_rice(d.0, d.1, k),
    ))
}

/// Puts four residuals after others, in memory that there is.
#[inline(always)]
fn push_four(out: &mut Vec<i32>, four: (i32, i32, i32, i32))
    requires room { vec_len out.old + 4 ≤ vec_capacity out.old }
    ensures items { out.new.items ≡ out.old.items ++ four.0 ∷ four.1 ∷ four.2 ∷ four.3 ∷ [] }
    ensures len { vec_len out.new ≡ vec_len out.old + 4 }
    ensures capacity { vec_capacity out.new ≡ vec_capacity out.old }
{
    out.push_reserved(four.0);
    out.push_reserved(four.1);
    out.push_reserved(four.2);
    out.push_reserved(four.3);
}

/// The next residual, from the word if that shows it whole.
#[inline(always)]
pub fn next_rice<'a>(
    reader: &mut BitReader<'a>,
    near: &mut BitWindow<'a>,
    k: u32,
) -> Result<i32, FrameEnd>
    requires { k ≤ 31 }
    ensures reads { Gives (λ v. v) result (rice k near.old) near.new }
    ensures fits { IfOk result (λ v. FitsSigned w32 v) }
{
    match near.code(k) {
        Some((zeros, low)) => rice_of(zeros, low, k),
        None => {
            *reader = near.reader();
            let long = read_rice(reader, k)?;
            *near = reader.window();
            Ok(long)
        }
    }
}

/// So many residuals of one parameter.
fn read_rices(
    reader: &mut BitReader,
    out: &mut Vec<i32>,
    count: u32,
    k: u32,
) -> Result<(), FrameEnd>
    requires { k ≤ 31 }
    ensures { Gives (λ _. out.new.items) result (with_front out.old.items (times count (rice k) reader.old)) reader.new }
{
    out.reserve(count as usize)?;
    // (only calls that are inlined are handed this window, so that it keeps to registers)
    let mut near = reader.window();
    let mask = fill_mask(k);
    let mut left = count;
    while left > 0 {
        if left & mask == 0 {
            near.fill();
        }
        match next_four(&mut near, left, k) {
            Some(four) => {
                push_four(out, four);
                left -= 4;
            }
            None => {
                let value = next_rice(reader, &mut near, k)?;
                out.push_reserved(value);
                left -= 1;
            }
        }
    }
    *reader = near.reader();
    Ok(())
}

/// The same, and their samples by a predictor of this form and order. It stands at each call of its own with these two known.
#[inline(always)]
fn read_rices_by(
    is_linear: bool,
    order: usize,
    reader: &mut BitReader,
    out: &mut Vec<i32>,
    count: u32,
    k: u32,
    predictor: &Predictor,
    restoring: &mut Restoring,
) -> Result<(), FrameEnd>
    requires form { is_linear ≡ predictor.now.is_linear }
    requires order { order ≡ predictor.now.order }
    requires parameter { k ≤ 31 }
    requires on { restoring.old.is_on ≡ true }
    requires follows { Follows predictor.now restoring.old out.old.items }
    ensures reads { Gives (λ _. out.new.items) result (with_front out.old.items (times count (rice k) reader.old)) reader.new }
    ensures follows { OnOk result (Follows predictor.now restoring.new out.new.items) }
{
    out.reserve(count as usize)?;
    restoring.samples.reserve(count as usize)?;
    let mut last = last_of(restoring.samples.as_slice());
    let mut near = reader.window();
    let mask = fill_mask(k);
    let mut left = count;
    while left > 0 {
        if left & mask == 0 {
            near.fill();
        }
        let samples = &mut restoring.samples;
        let is_within = match next_four(&mut near, left, k) {
            Some(four) => {
                push_four(out, four);
                left -= 4;
                restore_four(is_linear, order, predictor, samples, &mut last, four)
            }
            None => {
                let value = next_rice(reader, &mut near, k)?;
                out.push_reserved(value);
                left -= 1;
                restore_next(is_linear, order, predictor, samples, &mut last, value)
            }
        };
        if !is_within {
            restoring.is_on = false;
            *reader = near.reader();
            return read_rices(reader, out, left, k);
        }
    }
    *reader = near.reader();
    Ok(())
}

/// So many residuals of one parameter, and their samples as long as these are restored.
fn read_rices_restored(
    reader: &mut BitReader,
    out: &mut Vec<i32>,
    count: u32,
    k: u32,
    by: &Predictor,
    restoring: &mut Restoring,
) -> Result<(), FrameEnd>
    requires parameter { k ≤ 31 }
    requires follows { Follows by.now restoring.old out.old.items }
    ensures reads { Gives (λ _. out.new.items) result (with_front out.old.items (times count (rice k) reader.old)) reader.new }
    ensures follows { OnOk result (Follows by.now restoring.new out.new.items) }
{
    if !restoring.is_on {
        return read_rices(reader, out, count, k);
    }
    if by.is_linear {
        return match by.order {
            1 => read_rices_by(true, 1, reader, out, count, k, by, restoring),
            2 => read_rices_by(true, 2, reader, out, count, k, by, restoring),
            _ => {
                restoring.is_on = false;
                read_rices(reader, out, count, k)
            }
        };
    }
    match by.order {
        0 => read_rices_by(false, 0, reader, out, count, k, by, restoring),
        1 => read_rices_by(false, 1, reader, out, count, k, by, restoring),
        2 => read_rices_by(false, 2, reader, out, count, k, by, restoring),
        3 => read_rices_by(false, 3, reader, out, count, k, by, restoring),
        _ => read_rices_by(false, 4, reader, out, count, k, by, restoring),
    }
}

#[tactic(auto, unfolding(crate::specs::Frame::partition))]
fn read_partition(
    reader: &mut BitReader,
    out: &mut Vec<i32>,
    w: u32,
    count: u32,
    predictor: &Predictor,
    restoring: &mut Restoring,
) -> Result<(), FrameEnd>
    requires width { w ≤ 5 }
    requires follows { Follows predictor.now restoring.old out.old.items }
    ensures reads { Gives (λ _. out.new.items) result (with_front out.old.items (partition w count reader.old)) reader.new }
    ensures follows { OnOk result (Follows predictor.now restoring.new out.new.items) }
{
    let k = read_field(reader, w, Rule::Any)?;
    if k == (1u64 << w) - 1 {
        let width = read_field(reader, 5, Rule::Any)?;
        restoring.is_on = false;
        return read_samples(reader, out, count, width as u32);
    }
    read_rices_restored(reader, out, count, k as u32, predictor, restoring)
}

fn read_partitions(
    reader: &mut BitReader,
    out: &mut Vec<i32>,
    n: u32,
    w: u32,
    count: u32,
    predictor: &Predictor,
    restoring: &mut Restoring,
) -> Result<(), FrameEnd>
    requires width { w ≤ 5 }
    requires follows { Follows predictor.now restoring.old out.old.items }
    ensures reads { Gives (λ _. out.new.items) result (with_front out.old.items (partitions n w count reader.old)) reader.new }
    ensures follows { OnOk result (Follows predictor.now restoring.new out.new.items) }
{
    for i in 0..n {
        read_partition(reader, out, w, count, predictor, restoring)?;
    }
    Ok(())
}

/// The residuals after a predictor, put after others, and the samples that they stand for as long as these are restored.
#[tactic(auto, unfolding(crate::specs::Frame::residual))]
pub fn read_residual(
    reader: &mut BitReader,
    out: &mut Vec<i32>,
    block: u32,
    order: u32,
    predictor: &Predictor,
    restoring: &mut Restoring,
) -> Result<(), FrameEnd>
    requires order { order ≤ block }
    requires follows { Follows predictor.now restoring.old out.old.items }
    ensures reads { Gives (λ _. out.new.items) result (with_front out.old.items (residual block order reader.old)) reader.new }
    ensures follows { OnOk result (Follows predictor.now restoring.new out.new.items) }
{
    let method = read_field(reader, 2, Rule::Below(2))?;
    let p = read_field(reader, 4, Rule::Order(block, order))?;
    let count = block >> p;
    let w = method as u32 + 4;
    read_partition(reader, out, w, count - order, predictor, restoring)?;
    read_partitions(reader, out, (1u32 << p) - 1, w, count, predictor, restoring)
}
