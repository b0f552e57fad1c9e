//! The streams that the source filters of complex graphs make.
ghost use Rattle.std.specs.Prelude.{◌≡◌, ◌+◌, ◌^◌, ◌≤◌, ◌++◌, None, IfOk, IfErr, OnOk, vec_len, length};
ghost use Rattle.std.specs.List.{filter_map};
ghost use Rattle.ff_plan_layout.specs.laws.Passing.{source_count_fault};
ghost use Rattle.ff_plan_layout.specs.laws.Refusals.{IsFault};
ghost use Rattle.ff_plan_layout.specs.Sources.{made_at_pad as made_in, sources_of as all_sources, source_streams as streams_behind, sources_fault};

use crate::error::PlanError;
use crate::filtering::Filtering;
use crate::open_pads::OpenIn;
use crate::places::stream_at;
use ff_lang::Graph;
use ff_source::Made;
use ff_words::maps::Stream;
use std::alloc::{AllocError, Global};

/// What the source filter makes whose pad this is, unless the pad has a label.
pub(crate) fn made_at_pad(pad: &OpenIn) -> Option<Made>
    ensures { result ≡ made_in pad.now }
{
    match (&pad.label, pad.source) {
        (None, Some(source)) => source.made,
        (None, None) => None,
        (Some(_), _) => None,
    }
}

fn add_sources(all: &mut Vec<Made>, pads: &[OpenIn]) -> Result<(), AllocError>
    ensures items { OnOk result (all.new.items ≡ all.old.items ++ filter_map made_in pads.now) }
    ensures few { OnOk result (vec_len all.new ≤ vec_len all.old + length pads.now) }
{
    for pad in pads {
        if let Some(made) = made_at_pad(pad) {
            all.push(made)?;
        }
    }
    Ok(())
}

/// What the source filters of graphs make, by graph and pad.
pub(crate) fn sources_of<F: Filtering>(
    alloc: Global,
    filtering: &F,
    graphs: &[Graph],
) -> Result<Vec<Made>, AllocError>
    requires { length graphs.now ≤ 16 }
    ensures made { IfOk result (λ made. made.items ≡ all_sources (F.rules filtering.now) graphs.now) }
    ensures few { IfOk result (λ made. vec_len made ≤ 2 ^ 24) }
{
    let mut made = Vec::new(alloc);
    for graph in graphs {
        let pads = filtering.open_inputs(alloc, graph)?;
        add_sources(&mut made, pads.as_slice())?;
    }
    Ok(made)
}

/// The streams that source filters make, behind those of so many inputs.
pub(crate) fn source_streams(
    alloc: Global,
    inputs: usize,
    made: &[Made],
) -> Result<Vec<Stream>, AllocError>
    requires inputs { inputs ≤ 16 }
    requires few { length made.now ≤ 2 ^ 24 }
    ensures { IfOk result (λ streams. streams.items ≡ streams_behind inputs made.now) }
{
    let mut streams = Vec::new(alloc);
    for (number, one) in made.iter().enumerate() {
        streams.push(stream_at((inputs + number) as u32, 0, one.head()))?;
    }
    Ok(streams)
}

/// Looks for a source filter of complex graphs whose arguments are refused, the first.
pub(crate) fn check_sources<F: Filtering>(
    alloc: Global,
    filtering: &F,
    graphs: &[Graph],
) -> Result<(), PlanError>
    requires { length graphs.now ≤ 16 }
    ensures fine { IfOk result (λ _. sources_fault (F.rules filtering.now) 0 graphs.now ≡ None) }
    ensures fault { IfErr result (IsFault (sources_fault (F.rules filtering.now) 0 graphs.now)) }
{
    for (number, graph) in graphs.iter().enumerate() {
        if let Some(refused) = filtering.source_fault(alloc, graph)? {
            return Err(PlanError::Config {
                graph: number as u32,
                filter: refused.filter,
                kind: refused.kind,
            });
        }
    }
    Ok(())
}

/// Looks whether there are too many inputs and source filters together.
pub(crate) fn check_source_count(inputs: usize, sources: usize) -> Result<(), PlanError>
    requires inputs { inputs ≤ 16 }
    requires sources { sources ≤ 2 ^ 24 }
    ensures fine { IfOk result (λ _. source_count_fault inputs sources ≡ None) }
    ensures fault { IfErr result (IsFault (source_count_fault inputs sources)) }
{
    if inputs + sources > 16 {
        return Err(PlanError::TooManySources);
    }
    Ok(())
}
