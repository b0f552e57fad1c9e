//! The open input pads of a graph.
ghost use Rattle.std.specs.Prelude.{◌≡◌, IfOk, map, slice_get};
ghost use Rattle.ff_graph_links.specs.pads.Links.{all_seen};
ghost use Rattle.ff_filters.specs.Names.{filter_named};
ghost use Rattle.ff_graph.specs.Opens.{is_known as known, takes_sound_as, source_in, open_in, open_ins};
ghost use Rattle.ff_graph.specs.laws.Pads.{input_of};
ghost use Rattle.ff_graph.specs.Sources.{if_made, made_in};

use crate::drawing::drawn;
use crate::outputs::copy_label;
use crate::sources::{is_source_filter, made_by_filter};
use ff_filters::{named, takes_sound};
use ff_graph_links::{Drawn, Pad, sources};
use ff_lang::{Filter, Graph, Text};
use ff_source::Made;
use std::alloc::{AllocError, Global};

/// The source filter that an open input pad belongs to.
#[derive(Clone, Copy, Debug)]
pub struct SourceInput {
    /// The number of the filter in the order of writing.
    pub filter: usize,
    /// What the filter makes; none where its arguments are refused.
    pub made: Option<Made>,
}

/// An open input pad of a graph.
#[derive(Debug, Drop)]
pub struct OpenInput {
    /// Its label, if it has one.
    pub label: Option<Text>,
    /// Whether it takes audio; else it takes video.
    pub sound: bool,
    /// The source filter that it belongs to, if it is one's.
    pub source: Option<SourceInput>,
}

/// Whether there is a filter of this name.
pub fn is_known(name: &str) -> bool
    ensures { result ≡ known name.now }
{
    named(name).is_some()
}

// Whether the input pad of this number takes audio.
fn is_sound(filter: &Filter, pad: usize) -> bool
    ensures { result ≡ takes_sound_as (filter_named filter.now.name) filter.now.args pad }
{
    match named(filter.name.as_str()) {
        None => false,
        Some(name) => takes_sound(name, filter.args.as_slice(), pad),
    }
}

// What a source filter makes; None where it is refused, or no source filter.
fn made_if_any(filter: &Filter) -> Option<Made>
    ensures { result ≡ if_made (made_in filter.now) }
{
    match made_by_filter(filter) {
        Ok(made) => made,
        Err(_) => None,
    }
}

// The filter of this number, where it is a source filter.
fn source_input(number: usize, filter: &Filter) -> Option<SourceInput>
    ensures { result ≡ source_in number filter.now }
{
    if is_source_filter(filter) {
        Some(SourceInput {
            filter: number,
            made: made_if_any(filter),
        })
    } else {
        None
    }
}

// An input pad of a filter.
fn open_input(alloc: Global, drawn: &[Drawn<'_>], pad: Pad) -> Result<OpenInput, AllocError>
    ensures { IfOk result (λ input. input_of input ≡ open_in pad (slice_get (all_seen drawn.now) pad.filter)) }
{
    if pad.filter >= drawn.len() {
        return Ok(OpenInput {
            label: None,
            sound: false,
            source: None,
        });
    }
    let filter = drawn[pad.filter].filter;
    Ok(OpenInput {
        label: copy_label(alloc, filter.ins.as_slice(), pad.pad)?,
        sound: is_sound(filter, pad.pad),
        source: source_input(pad.filter, filter),
    })
}

/// The open input pads of a graph in the order of writing.
pub fn open_inputs(alloc: Global, graph: &Graph) -> Result<Vec<OpenInput>, AllocError>
    ensures { IfOk result (λ inputs. map input_of inputs.items ≡ open_ins graph.now) }
{
    let filters = drawn(alloc, graph)?;
    let fed = sources(alloc, &filters)?;
    let pads = ff_graph_links::open_inputs(alloc, &fed)?;
    let mut inputs = Vec::new(alloc);
    'pads: for at in 0..pads.len() {
        inputs.push(open_input(alloc, &filters, pads[at])?)?;
    }
    Ok(inputs)
}
