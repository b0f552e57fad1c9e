//! The checks whether streams of given heads can be stacked.
ghost use Rattle.std.specs.Prelude.{◌≡◌, ◌<◌, true, IfOk, map};
ghost use Rattle.ff_stream.specs.declared.item.Lane.TheVariants.{Frames};
ghost use Rattle.ff_filter.specs.Options.{is_video};
ghost use Rattle.ff_fsync.specs.Sides.{no_side};
ghost use Rattle.ff_fsync.specs.laws.Syncs.{sides_of};
ghost use Rattle.ff_fsync.specs.Synced.{each_of};
ghost use Rattle.ff_fsync.specs.stacks.Heads.{size_along, size_across, are_alike, on_grid};
ghost use Rattle.ff_fsync.specs.stacks.Heads.{head_on_grid, all_on_grid, total, has_size};

use crate::Input;
use crate::stacks::shape::{Direction, same_format};
use ff_frame::{Format, StreamHead};
use std::alloc::{AllocError, Global};

/// Whether all of these streams are video.
pub(crate) fn all_video(heads: &[StreamHead]) -> bool
    ensures { result ≡ each_of is_video heads.now }
{
    'heads: for i in 0..heads.len() {
        match heads[i] {
            StreamHead::Audio { .. } => return false,
            StreamHead::Video { .. } => {}
        }
    }
    true
}

// How long frames are in the direction of stacking.
fn along(direction: Direction, head: &StreamHead) -> u32
    ensures { result ≡ size_along direction head.now }
{
    match *head {
        StreamHead::Audio { .. } => 0,
        StreamHead::Video { width, height, .. } => match direction {
            Direction::Beside => width,
            Direction::Below => height,
        },
    }
}

// How long frames are in the other direction.
fn across(direction: Direction, head: &StreamHead) -> u32
    ensures { result ≡ size_across direction head.now }
{
    match *head {
        StreamHead::Audio { .. } => 0,
        StreamHead::Video { width, height, .. } => match direction {
            Direction::Beside => height,
            Direction::Below => width,
        },
    }
}

// Whether frames of two streams can be stacked.
fn alike(direction: Direction, a: &StreamHead, b: &StreamHead) -> bool
    ensures { result ≡ are_alike direction a.now b.now }
{
    match *a {
        StreamHead::Audio { .. } => false,
        StreamHead::Video { format, .. } => match *b {
            StreamHead::Audio { .. } => false,
            StreamHead::Video {
                format: other_format,
                ..
            } => same_format(format, other_format) && across(direction, a) == across(direction, b),
        },
    }
}

/// Whether frames of these streams can be stacked on those of one.
pub(crate) fn all_alike(direction: Direction, first: &StreamHead, heads: &[StreamHead]) -> bool
    ensures { result ≡ each_of (are_alike direction first.now) heads.now }
{
    'heads: for i in 0..heads.len() {
        if !alike(direction, first, &heads[i]) {
            return false;
        }
    }
    true
}

// Whether so many columns, or rows, of Y are whole ones of Cb and of Cr.
fn on_grid(direction: Direction, format: Format, number: u32) -> bool
    ensures { result ≡ on_grid direction format number }
{
    match format {
        Format::C420 => number % 2 == 0,
        Format::C422 => match direction {
            Direction::Beside => number % 2 == 0,
            Direction::Below => true,
        },
        Format::C444 | Format::Mono => true,
    }
}

// Whether frames of a stream are as long as whole pixels of Cb and of Cr are.
fn head_on_grid(direction: Direction, head: &StreamHead) -> bool
    ensures { result ≡ head_on_grid direction head.now }
{
    match *head {
        StreamHead::Audio { .. } => true,
        StreamHead::Video { format, .. } => on_grid(direction, format, along(direction, head)),
    }
}

// Whether those of all streams but the last are.
fn are_on_grid(direction: Direction, heads: &[StreamHead]) -> bool
    ensures { result ≡ all_on_grid direction heads.now }
{
    if heads.is_empty() {
        return true;
    }
    'heads: for i in 0..heads.len() - 1 {
        if !head_on_grid(direction, &heads[i]) {
            return false;
        }
    }
    true
}

/// How long the stack is.
pub(crate) fn total(direction: Direction, heads: &[StreamHead]) -> u128
    ensures { result ≡ total direction heads.now }
{
    let mut total: u128 = 0;
    'heads: for i in 0..heads.len() {
        total += along(direction, &heads[i]) as u128;
    }
    total
}

/// Whether the stack has a size.
pub(crate) fn has_size(direction: Direction, first: &StreamHead, heads: &[StreamHead]) -> bool
    ensures { result ≡ has_size direction first.now heads.now }
{
    let along = total(direction, heads);
    let across = across(direction, first);
    along >= 1
        && along <= 16384
        && (across >= 1 && across <= 16384)
        && are_on_grid(direction, heads)
}

/// The inputs of a stack, to which nothing came.
pub(crate) fn inputs_for(alloc: Global, heads: &[StreamHead]) -> Result<Vec<Input>, AllocError>
    ensures { IfOk result (λ inputs. sides_of inputs.items ≡ map (λ h. no_side (Frames h)) heads.now) }
{
    let mut inputs = Vec::with_capacity(alloc, heads.len())?;
    'heads: for i in 0..heads.len() {
        inputs.push_reserved(Input::new(alloc, heads[i]));
    }
    Ok(inputs)
}
