//! The origins of graph inputs and output streams, and the streams, sources and inputs that are used.
ghost use Rattle.std.specs.Prelude.{◌≡◌, ◌+◌, ◌^◌, ◌<◌, ◌++◌, ◌∷◌, [], IfOk, OnOk, vec_len, length, map};
ghost use Rattle.std.specs.List.{AllByRecursion, filter, flat_map, list_any, range_with_len};
ghost use Rattle.ff_words.specs.maps.Choice.{lists, all_streams, streams_of};
ghost use Rattle.ff_words.specs.declared.maps.streams.Stream.{Stream};
ghost use Rattle.ff_plan_layout.specs.declared.layout.InPad.{InPad};
ghost use Rattle.ff_plan_layout.specs.declared.layout.Placed.{Placed};
ghost use Rattle.ff_plan_layout.specs.Layout.{shows as is_shown_by};
ghost use Rattle.ff_plan_layout.specs.Sources.{source_streams};
ghost use Rattle.ff_source.specs.declared.made.Made.{Made};
ghost use Rattle.ff_plan.specs.laws.Numbering.{sources_of, all_sources, has_stream as input_has};

use ff_frame::StreamHead;
use ff_plan_layout::{InPad, Laid, Origin, Placed, same_ref, stream_at};
use ff_source::Made;
use ff_words::maps::{Stream, StreamRef};
use std::alloc::{AllocError, Global};

// Where the inputs of a graph come from.
fn add_sources(origins: &mut Vec<Origin>, ins: &[InPad]) -> Result<(), AllocError>
    ensures { OnOk result (origins.new.items ≡ origins.old.items ++ map (λ (i : InPad). i.source) ins.now) }
{
    for pad in ins {
        origins.push(pad.source)?;
    }
    Ok(())
}

fn add_graph_sources(origins: &mut Vec<Origin>, graphs: &[Laid]) -> Result<(), AllocError>
    ensures { OnOk result (origins.new.items ≡ origins.old.items ++ flat_map sources_of graphs.now) }
{
    for graph in graphs {
        add_sources(origins, graph.ins.as_slice())?;
    }
    Ok(())
}

fn add_stream_sources(origins: &mut Vec<Origin>, placed: &[Placed]) -> Result<(), AllocError>
    ensures { OnOk result (origins.new.items ≡ origins.old.items ++ map (λ (p : Placed). p.what.source) placed.now) }
{
    for one in placed {
        origins.push(one.what.source)?;
    }
    Ok(())
}

/// Where all inputs of these graphs and all these streams of outputs come from.
pub(crate) fn all_origins(
    alloc: Global,
    graphs: &[Laid],
    placed: &[Placed],
) -> Result<Vec<Origin>, AllocError>
    ensures { IfOk result (λ os. os.items ≡ all_sources graphs.now placed.now) }
{
    let mut origins = Vec::new(alloc);
    add_graph_sources(&mut origins, graphs)?;
    add_stream_sources(&mut origins, placed)?;
    Ok(origins)
}

fn shows(at: StreamRef, source: Origin) -> bool
    ensures { result ≡ is_shown_by at source }
{
    match source {
        Origin::Stream(shown) => same_ref(at, shown),
        Origin::Pad { .. } => false,
    }
}

fn is_shown(origins: &[Origin], at: StreamRef) -> bool
    ensures { result ≡ list_any (is_shown_by at) origins.now }
{
    for origin in origins {
        if shows(at, *origin) {
            return true;
        }
    }
    false
}

// One more stream, where something comes from it.
fn add_shown(used: &mut Vec<Stream>, origins: &[Origin], stream: &Stream) -> Result<(), AllocError>
    ensures { OnOk result (used.new.items ≡ used.old.items ++ filter (λ (s : Stream). list_any (is_shown_by s.at) origins.now) (stream.now ∷ [])) }
{
    if is_shown(origins, stream.at) {
        used.push(stream_at(stream.at.input, stream.at.stream, stream.head))?;
    }
    Ok(())
}

fn add_used(
    used: &mut Vec<Stream>,
    input: u32,
    heads: &[StreamHead],
    origins: &[Origin],
) -> Result<(), AllocError>
    requires { length heads.now < 2 ^ 32 }
    ensures { OnOk result (used.new.items ≡ used.old.items ++ filter (λ (s : Stream). list_any (is_shown_by s.at) origins.now) (streams_of input heads.now)) }
{
    for (number, head) in heads.iter().enumerate() {
        let stream = stream_at(input, number as u32, *head);
        add_shown(used, origins, &stream)?;
    }
    Ok(())
}

/// The streams of inputs from which something comes, by input and stream.
pub(crate) fn used_streams(
    alloc: Global,
    heads: &[Vec<StreamHead>],
    origins: &[Origin],
) -> Result<Vec<Stream>, AllocError>
    requires inputs { length heads.now < 2 ^ 32 }
    requires streams { AllByRecursion (λ v. vec_len v < 2 ^ 32) heads.now }
    ensures { IfOk result (λ ss. ss.items ≡ filter (λ (s : Stream). list_any (is_shown_by s.at) origins.now) (all_streams (lists heads.now))) }
{
    let mut used = Vec::new(alloc);
    for (input, streams) in heads.iter().enumerate() {
        add_used(&mut used, input as u32, streams.as_slice(), origins)?;
    }
    Ok(used)
}

/// The streams of sources from which something comes, behind so many inputs.
pub(crate) fn used_sources(
    alloc: Global,
    inputs: u32,
    made: &[Made],
    origins: &[Origin],
) -> Result<Vec<Stream>, AllocError>
    requires { inputs + length made.now < 2 ^ 32 }
    ensures { IfOk result (λ ss. ss.items ≡ filter (λ (s : Stream). list_any (is_shown_by s.at) origins.now) (source_streams inputs made.now)) }
{
    let mut used = Vec::new(alloc);
    for (number, source) in made.iter().enumerate() {
        let stream = stream_at(inputs + number as u32, 0, source.head());
        add_shown(&mut used, origins, &stream)?;
    }
    Ok(used)
}

/// The streams of sources, and those of inputs behind them.
pub(crate) fn behind(mut sources: Vec<Stream>, read: &[Stream]) -> Result<Vec<Stream>, AllocError>
    ensures { IfOk result (λ ss. ss.items ≡ sources.items ++ read.now) }
{
    sources.extend_from_slice(read)?;
    Ok(sources)
}

fn has_stream(streams: &[Stream], input: u32) -> bool
    ensures { result ≡ input_has streams.now input }
{
    for stream in streams {
        if stream.at.input == input {
            return true;
        }
    }
    false
}

/// The inputs of these streams.
pub(crate) fn used_inputs(
    alloc: Global,
    inputs: usize,
    streams: &[Stream],
) -> Result<Vec<u32>, AllocError>
    requires { inputs < 2 ^ 32 }
    ensures { IfOk result (λ is. is.items ≡ filter (input_has streams.now) (range_with_len 0 inputs)) }
{
    let mut used = Vec::new(alloc);
    for input in 0..inputs {
        if has_stream(streams, input as u32) {
            used.push(input as u32)?;
        }
    }
    Ok(used)
}
