//! The open output pads of a graph, as plans have them.
ghost use Rattle.std.specs.Prelude.{◌≡◌, ◌≤◌, ◌^◌, IfOk, length, map};
ghost use Rattle.ff_graph.specs.laws.Pads.{output_of};
ghost use Rattle.ff_plan_rules.specs.Rules.{output_as, is_empty as has_none, configured as configured_as};

use crate::in_pads::MOST_PADS;
use ff_frame::{ConfigError, StreamHead};
use ff_graph::{OpenOutput, Refusal, configure_graph, has_loop};
use ff_lang::{Graph, Sequence};
use ff_plan_layout::{OpenOut, Refused};
use ff_words::text_of;
use std::alloc::{AllocError, Global};

fn output_pad(alloc: Global, output: &OpenOutput) -> Result<OpenOut, AllocError>
    ensures { IfOk result (λ pad. pad ≡ output_as (output_of output.now)) }
{
    let label = match &output.label {
        None => None,
        Some(label) => Some(text_of(alloc, label.as_str())?),
    };
    Ok(OpenOut {
        label,
        head: output.head,
    })
}

fn output_pads(alloc: Global, outputs: &[OpenOutput]) -> Result<Sequence<OpenOut>, AllocError>
    ensures pads { IfOk result (λ pads. pads ≡ map output_as (map output_of outputs.now)) }
    ensures few { IfOk result (λ pads. length pads ≤ 2 ^ 20) }
{
    if outputs.len() > MOST_PADS {
        return Err(AllocError);
    }
    let mut pads = Vec::new(alloc);
    'pads: for at in 0..outputs.len() {
        pads.push(output_pad(alloc, &outputs[at])?)?;
    }
    Ok(Sequence::of(pads))
}

/// The refusal of a filter, of which a graph whose string is an argument of a command has at most 65,536.
pub(crate) fn refused(filter: usize, kind: ConfigError) -> Result<Refused, AllocError>
    ensures { IfOk result (λ r. r ≡ record { filter = filter; kind = kind }) }
{
    match u32::try_from(filter) {
        Ok(filter) => Ok(Refused { filter, kind }),
        Err(_) => Err(AllocError),
    }
}

// Whether a graph has no filter. No string writes such a graph.
fn is_empty(graph: &Graph) -> bool
    ensures { result ≡ has_none graph.now }
{
    for chain in graph.chains.as_slice() {
        if chain.filters.as_slice().len() > 0 {
            return false;
        }
    }
    true
}

/// The open output pads of a graph whose open input pads have these heads, or the refusal that comes first.
pub(crate) fn configured(
    alloc: Global,
    graph: &Graph,
    heads: &[Option<StreamHead>],
) -> Result<Result<Sequence<OpenOut>, Refused>, AllocError>
    ensures pads { IfOk result (λ outs. outs ≡ configured_as graph.now heads.now) }
    ensures few { IfOk result (λ outs. IfOk outs (λ pads. length pads ≤ 2 ^ 20)) }
{
    if has_loop(alloc, graph)? || is_empty(graph) {
        return Ok(Err(refused(0, ConfigError::Pads)?));
    }
    match configure_graph(alloc, graph, heads) {
        Ok(made) => Ok(Ok(output_pads(alloc, &made.outs)?)),
        Err(Refusal::NoMemory) => Err(AllocError),
        Err(Refusal::Loop) => Ok(Err(refused(0, ConfigError::Pads)?)),
        Err(Refusal::Config { filter, kind }) => Ok(Err(refused(filter, kind)?)),
    }
}
