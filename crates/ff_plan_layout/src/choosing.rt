//! The input streams that an output asks for, and the refusal of a label.
ghost use Rattle.std.specs.Prelude.{◌≡◌, ◌⊎◌, ◌++◌, ◌∷◌, [], OnOk, IfOk, map};
ghost use Rattle.std.specs.List.{cons_option, filter};
ghost use Rattle.ff_words.specs.maps.Choice.{lists};
ghost use Rattle.ff_plan_layout.specs.Choice.{head_at, known};
ghost use Rattle.ff_plan_layout.specs.Streams.{as_pad, is_kept};

use crate::error::PlanError;
use crate::layout::{InPad, Origin};
use crate::takes::{drops, kind_of};
use ff_frame::StreamHead;
use ff_lang::Text;
use ff_words::OutputJob;
use ff_words::maps::{Stream, StreamRef};
use std::alloc::{AllocError, Global};

/// The head of the stream at a place.
pub(crate) fn head_of(heads: &[Vec<StreamHead>], at: StreamRef) -> Option<StreamHead>
    ensures { result ≡ head_at (lists heads.now) at }
{
    match heads.get(at.input as usize) {
        Some(streams) => streams.as_slice().get(at.stream as usize).copied(),
        None => None,
    }
}

fn pad_of(at: StreamRef, head: StreamHead) -> InPad
    ensures { result ≡ as_pad (record { at = at; head = head }) }
{
    InPad {
        source: Origin::Stream(at),
        head,
    }
}

/// The pad, if there is one.
pub(crate) fn at_most_one(alloc: Global, pad: Option<InPad>) -> Result<Vec<InPad>, AllocError>
    ensures { IfOk result (λ pads. pads.items ≡ cons_option pad []) }
{
    match pad {
        Some(pad) => Vec::from_slice(alloc, &[pad]),
        None => Ok(Vec::new(alloc)),
    }
}

/// The streams at these places.
pub(crate) fn shown(
    alloc: Global,
    heads: &[Vec<StreamHead>],
    refs: &[StreamRef],
) -> Result<Vec<InPad>, AllocError>
    ensures { IfOk result (λ pads. pads.items ≡ map as_pad (known (lists heads.now) refs.now)) }
{
    let mut pads = Vec::new(alloc);
    for at in refs {
        if let Some(head) = head_of(heads, *at) {
            pads.push(pad_of(*at, head))?;
        }
    }
    Ok(pads)
}

// One more stream, unless the output drops its kind.
fn add_kept(pads: &mut Vec<InPad>, out: &OutputJob, stream: &Stream) -> Result<(), AllocError>
    ensures { OnOk result (pads.new.items ≡ pads.old.items ++ map as_pad (filter (is_kept out.now) (stream.now ∷ []))) }
{
    if !drops(out, kind_of(stream.head)) {
        pads.push(pad_of(stream.at, stream.head))?;
    }
    Ok(())
}

/// Those of them whose kind the output doesn't drop.
pub(crate) fn kept(
    alloc: Global,
    heads: &[Vec<StreamHead>],
    out: &OutputJob,
    refs: &[StreamRef],
) -> Result<Vec<InPad>, AllocError>
    ensures { IfOk result (λ pads. pads.items ≡ map as_pad (filter (is_kept out.now) (known (lists heads.now) refs.now))) }
{
    let mut pads = Vec::new(alloc);
    for at in refs {
        if let Some(head) = head_of(heads, *at) {
            let stream = Stream { at: *at, head };
            add_kept(&mut pads, out, &stream)?;
        }
    }
    Ok(pads)
}

/// The refusal of a label that no graph gives.
pub(crate) fn unknown(alloc: Global, label: &Text) -> PlanError
    ensures { (result ≡ PlanError.NoMemory) ⊎ (result ≡ PlanError.UnknownLabel label.now) }
{
    match String::from_str(alloc, label.as_str()) {
        Ok(copy) => PlanError::UnknownLabel {
            label: Text::of(copy),
        },
        Err(_) => PlanError::NoMemory,
    }
}
