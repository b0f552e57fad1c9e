//! The machine of `concat` to which nothing came.
ghost use Rattle.std.specs.Prelude.{◌≡◌, ◌<◌, ◌≤◌, ◌^◌, ◌∷◌, [], IfOk};
ghost use Rattle.ff_frame.specs.Heads.{base_of_head};
ghost use Rattle.ff_concat.specs.ConcatOptions.{start_view};
ghost use Rattle.ff_concat.specs.laws.Fresh.{AreEmpty, AreNew, IsFresh};
ghost use Rattle.ff_concat.specs.laws.Tracks.{concat_view};

use crate::backlog::Backlog;
use crate::concat::Concat;
use crate::reach::Reach;
use crate::track::Track;
use ff_frame::StreamHead;
use ff_stream::time_base;
use std::alloc::{AllocError, Global};

// So many segments of which nothing waits.
fn backlogs_of(alloc: Global, count: usize) -> Result<Vec<Backlog>, AllocError>
    ensures { IfOk result (λ bs. AreEmpty count bs.items) }
{
    let mut backlogs = Vec::with_capacity(alloc, count)?;
    'segments: for k in 0..count {
        backlogs.push_reserved(Backlog::new(alloc));
    }
    Ok(backlogs)
}

// So many inputs to which nothing came.
fn reaches_of(alloc: Global, count: usize) -> Result<Vec<Reach>, AllocError>
    ensures { IfOk result (λ rs. AreNew count rs.items) }
{
    let mut reaches = Vec::with_capacity(alloc, count)?;
    'inputs: for p in 0..count {
        reaches.push_reserved(Reach::new());
    }
    Ok(reaches)
}

// An output of so many segments that gave nothing yet.
fn track_of(
    alloc: Global,
    head: &StreamHead,
    tick: u128,
    segments: usize,
) -> Result<Track, AllocError>
    requires some { 0 < tick }
    requires small { tick < 2 ^ 62 }
    ensures { IfOk result (λ t. IsFresh head.now tick segments t) }
{
    let backlogs = backlogs_of(alloc, segments)?;
    Ok(Track {
        head: *head,
        tick,
        backlogs,
        before: 0,
        current: 0,
        begin: 0,
        by: 0,
        end: 0,
        ended: false,
        stopped: false,
    })
}

/// The numerator of the time base of a stream of this head.
pub(crate) fn numerator(head: &StreamHead) -> u128
    ensures is { result ≡ (base_of_head head.now).num }
    ensures some { 0 < result }
    ensures small { result < 2 ^ 31 }
{
    time_base(head).num() as u128
}

/// The denominator.
pub(crate) fn denominator(head: &StreamHead) -> u128
    ensures is { result ≡ (base_of_head head.now).den }
    ensures some { 0 < result }
    ensures small { result < 2 ^ 31 }
{
    time_base(head).den() as u128
}

/// Segments of one stream of this head.
pub(crate) fn of_one(
    alloc: Global,
    head: &StreamHead,
    segments: usize,
) -> Result<Concat, AllocError>
    ensures { IfOk result (λ m. concat_view m ≡ start_view (head.now ∷ [], segments)) }
{
    let tick = numerator(head);
    let reaches = reaches_of(alloc, segments)?;
    let track = track_of(alloc, head, tick, segments)?;
    let mut ticks = Vec::with_capacity(alloc, 1)?;
    ticks.push_reserved(tick);
    let mut tracks = Vec::with_capacity(alloc, 1)?;
    tracks.push_reserved(track);
    Ok(Concat {
        ticks,
        segments,
        reaches,
        tracks,
        alloc,
    })
}

/// Segments of two streams of these heads.
pub(crate) fn of_two(
    alloc: Global,
    first: &StreamHead,
    second: &StreamHead,
    segments: usize,
) -> Result<Concat, AllocError>
    requires { segments ≤ 16 }
    ensures { IfOk result (λ m. concat_view m ≡ start_view (first.now ∷ second.now ∷ [], segments)) }
{
    let tick = numerator(first) * denominator(second);
    let other_tick = numerator(second) * denominator(first);
    let reaches = reaches_of(alloc, segments * 2)?;
    let track = track_of(alloc, first, tick, segments)?;
    let other_track = track_of(alloc, second, other_tick, segments)?;
    let mut ticks = Vec::with_capacity(alloc, 2)?;
    ticks.push_reserved(tick);
    ticks.push_reserved(other_tick);
    let mut tracks = Vec::with_capacity(alloc, 2)?;
    tracks.push_reserved(track);
    tracks.push_reserved(other_track);
    Ok(Concat {
        ticks,
        segments,
        reaches,
        tracks,
        alloc,
    })
}
