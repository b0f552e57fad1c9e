//! The common base of the inputs of a stack, and frames with their times in its units.
ghost use Rattle.std.specs.Prelude.{◌≡◌, IfOk, map, ◌^◌, ◌<◌};
ghost use Rattle.ff_fsync.specs.stacks.Bases.{bases_of, units_on, frame_in as frame_told_in, item_in as item_told_in, times_of, item_at};
ghost use Rattle.ff_fsync.specs.stacks.Bases.{start_in as starts_in, end_in as ends_in};
ghost use Rattle.ff_stream.specs.Times.{with_base as head_with_base};

use crate::stacks::stacking::end_of;
use ff_filter::ticks_of;
use ff_frame::{StreamHead, VFrame};
use ff_stream::{Item, time_base};
use ff_time::{Rational, units_in};
use std::alloc::{AllocError, Global};

// The last start and the last end that frames can tell.
const LAST_START: u64 = (1 << 63) - 2;

const LAST_END: u64 = (1 << 63) - 1;

/// The time bases of streams.
pub(crate) fn bases(alloc: Global, heads: &[StreamHead]) -> Result<Vec<Rational>, AllocError>
    ensures { IfOk result (λ bases. bases.items ≡ bases_of heads.now) }
{
    let mut bases = Vec::with_capacity(alloc, heads.len())?;
    'heads: for i in 0..heads.len() {
        bases.push_reserved(time_base(&heads[i]));
    }
    Ok(bases)
}

/// Of each stream, how many units of the output's base are in one of its own.
pub(crate) fn units(
    alloc: Global,
    heads: &[StreamHead],
    out: &StreamHead,
) -> Result<Vec<u64>, AllocError>
    ensures { IfOk result (λ units. units.items ≡ units_on heads.now out.now) }
{
    let mut units = Vec::with_capacity(alloc, heads.len())?;
    'heads: for i in 0..heads.len() {
        units.push_reserved(units_in(time_base(&heads[i]), time_base(out)));
    }
    Ok(units)
}

// When a frame starts, in units so many of which are one of its own.
fn start_in(units: u64, frame: &VFrame) -> u64
    ensures is { result ≡ starts_in units frame.now }
    ensures near { result < 2 ^ 63 }
{
    ticks_of(frame.pts).saturating_mul(units).min(LAST_START)
}

// When it ends, in such units.
fn end_in(units: u64, frame: &VFrame) -> u64
    ensures is { result ≡ ends_in units frame.now }
    ensures near { result < 2 ^ 63 }
{
    end_of(frame).saturating_mul(units).min(LAST_END)
}

// The frame with its times in units so many of which are one of its own.
fn frame_in(units: u64, mut frame: VFrame) -> VFrame
    ensures { result ≡ frame_told_in units frame }
{
    if units == 1 {
        return frame;
    }
    let start = start_in(units, &frame);
    let end = end_in(units, &frame);
    frame.pts = start as i64;
    frame.duration = end.saturating_sub(start) as i64;
    frame
}

/// An item with its times in units so many of which are one of its own.
pub(crate) fn item_in(units: u64, item: Item) -> Item
    ensures { result ≡ item_told_in units item }
{
    match item {
        Item::Video(frame) => Item::Video(frame_in(units, frame)),
        Item::Audio(frame) => Item::Audio(frame),
        Item::Packet(packet) => Item::Packet(packet),
        Item::Trailer(totals) => Item::Trailer(totals),
        Item::End => Item::End,
        Item::Broken => Item::Broken,
    }
}

/// The times of a video frame; of another item none.
pub(crate) fn times(item: &Item) -> (i64, i64)
    ensures { result ≡ times_of item.now }
{
    match item {
        Item::Video(frame) => (frame.pts, frame.duration),
        Item::Audio(_) | Item::Packet(_) | Item::Trailer(_) | Item::End | Item::Broken => (0, 0),
    }
}

/// An item with these times, where it is a video frame.
pub(crate) fn at_times(times: (i64, i64), item: Item) -> Item
    ensures { result ≡ item_at times item }
{
    match item {
        Item::Video(mut frame) => {
            frame.pts = times.0;
            frame.duration = times.1;
            Item::Video(frame)
        }
        Item::Audio(frame) => Item::Audio(frame),
        Item::Packet(packet) => Item::Packet(packet),
        Item::Trailer(totals) => Item::Trailer(totals),
        Item::End => Item::End,
        Item::Broken => Item::Broken,
    }
}
