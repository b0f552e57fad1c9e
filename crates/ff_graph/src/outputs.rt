//! The open output pads of a graph.
ghost use Rattle.std.specs.Prelude.{◌≡◌, ◌++◌, [], IfOk, OnOk, length, map, slice_get};
ghost use Rattle.std.specs.List.{list_any};
ghost use Rattle.ff_graph_links.specs.pads.Links.{all_seen, pads_in};
ghost use Rattle.ff_graph.specs.Configured.{is_pad as is_at_pad, feeds_one as some_feeds, unless_fed, outs_at, outs_from};
ghost use Rattle.ff_graph.specs.laws.Pads.{heads_in, output_of};

use crate::heads::same_pad;
use ff_frame::StreamHead;
use ff_graph_links::{Drawn, Pad};
use ff_lang::Text;
use std::alloc::{AllocError, Global};

/// An open output pad of a graph.
#[derive(Debug, Drop)]
pub struct OpenOutput {
    /// Where it is.
    pub pad: Pad,
    /// Its label, if it has one.
    pub label: Option<Text>,
    /// The head of its stream.
    pub head: StreamHead,
}

// Whether what feeds an input pad is this pad.
fn is_pad(pad: Pad, from: Option<Pad>) -> bool
    ensures { result ≡ is_at_pad pad from }
{
    match from {
        None => false,
        Some(from) => same_pad(pad, from),
    }
}

// Whether an output pad feeds one of these input pads of a filter, of which each is fed so.
fn feeds(sources: &[Option<Pad>], pad: Pad) -> bool
    ensures { result ≡ list_any (is_at_pad pad) sources.now }
{
    'pads: for at in 0..sources.len() {
        if is_pad(pad, sources[at]) {
            return true;
        }
    }
    false
}

// Whether it feeds an input pad of any of these filters.
fn feeds_one(sources: &[Vec<Option<Pad>>], pad: Pad) -> bool
    ensures { result ≡ some_feeds (pads_in sources.now) pad }
{
    'filters: for at in 0..sources.len() {
        if feeds(&sources[at], pad) {
            return true;
        }
    }
    false
}

/// The label at a pad, if it has one.
pub(crate) fn copy_label(
    alloc: Global,
    labels: &[Text],
    pad: usize,
) -> Result<Option<Text>, AllocError>
    ensures { IfOk result (λ label. label ≡ slice_get labels.now pad) }
{
    if pad >= labels.len() {
        return Ok(None);
    }
    let text = String::from_str(alloc, labels[pad].as_str())?;
    Ok(Some(Text::of(text)))
}

// Adds an output pad of a filter that has these labels, where it feeds no input pad.
fn add_out(
    alloc: Global,
    outs: &mut Vec<OpenOutput>,
    sources: &[Vec<Option<Pad>>],
    labels: &[Text],
    pad: Pad,
    head: StreamHead,
) -> Result<(), AllocError>
    ensures { OnOk result (map output_of outs.new.items ≡ map output_of outs.old.items
        ++ unless_fed (some_feeds (pads_in sources.now) pad) (record { at = pad; label = slice_get labels.now pad.pad; head = head }) []) }
{
    if feeds_one(sources, pad) {
        return Ok(());
    }
    let label = copy_label(alloc, labels, pad.pad)?;
    outs.push(OpenOutput { pad, label, head })?;
    Ok(())
}

// Adds the open ones of the output pads of a filter, which have these heads.
fn add_outs(
    alloc: Global,
    outs: &mut Vec<OpenOutput>,
    sources: &[Vec<Option<Pad>>],
    labels: &[Text],
    filter: usize,
    heads: &[StreamHead],
) -> Result<(), AllocError>
    ensures { OnOk result (map output_of outs.new.items ≡ map output_of outs.old.items ++ outs_at (pads_in sources.now) labels.now filter 0 heads.now) }
{
    'pads: for pad in 0..heads.len() {
        add_out(
            alloc,
            outs,
            sources,
            labels,
            Pad { filter, pad },
            heads[pad],
        )?;
    }
    Ok(())
}

/// The open output pads of filters in the order of writing, where the output pads of each have these heads.
pub(crate) fn open_outs(
    alloc: Global,
    drawn: &[Drawn<'_>],
    sources: &[Vec<Option<Pad>>],
    heads: &[Vec<StreamHead>],
) -> Result<Vec<OpenOutput>, AllocError>
    requires size { length heads.now ≡ length drawn.now }
    ensures { IfOk result (λ outs. map output_of outs.items ≡ outs_from (pads_in sources.now) 0 (all_seen drawn.now) (heads_in heads.now)) }
{
    let mut outs = Vec::new(alloc);
    'filters: for filter in 0..drawn.len() {
        let written = drawn[filter].filter;
        add_outs(
            alloc,
            &mut outs,
            sources,
            written.outs.as_slice(),
            filter,
            &heads[filter],
        )?;
    }
    Ok(outs)
}
