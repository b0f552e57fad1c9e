//! The open input pads of a graph, as plans have them.
ghost use Rattle.std.specs.Prelude.{◌≡◌, ◌≤◌, ◌^◌, IfOk, length};
ghost use Rattle.ff_graph.specs.laws.Pads.{input_of};
ghost use Rattle.ff_plan_rules.specs.Rules.{kind_by as kind_of, source_as, input_as, open_ins};

use ff_graph::{OpenInput, SourceInput, open_inputs};
use ff_lang::{Graph, Sequence};
use ff_plan_layout::{OpenIn, SourcePad};
use ff_words::maps::Kind;
use ff_words::text_of;
use std::alloc::{AllocError, Global};

/// How many open pads a graph that an argument of a command can write has at most: 65,536 filters of 16 pads.
pub(crate) const MOST_PADS: usize = 1_048_576;

// Audio, else video.
fn kind_by(sound: bool) -> Kind
    ensures { result ≡ kind_of sound }
{
    if sound { Kind::Audio } else { Kind::Video }
}

// A source filter, of whose graph an argument of a command writes at most 65,536 filters.
fn source_pad(source: SourceInput) -> Result<SourcePad, AllocError>
    ensures { IfOk result (λ pad. pad ≡ source_as source) }
{
    match u32::try_from(source.filter) {
        Ok(filter) => Ok(SourcePad {
            filter,
            made: source.made,
        }),
        Err(_) => Err(AllocError),
    }
}

fn input_pad(alloc: Global, input: &OpenInput) -> Result<OpenIn, AllocError>
    ensures { IfOk result (λ pad. pad ≡ input_as (input_of input.now)) }
{
    let label = match &input.label {
        None => None,
        Some(label) => Some(text_of(alloc, label.as_str())?),
    };
    let source = match input.source {
        None => None,
        Some(source) => Some(source_pad(source)?),
    };
    Ok(OpenIn {
        label,
        kind: kind_by(input.sound),
        source,
    })
}

/// The open input pads of a graph, in the order of writing.
pub(crate) fn input_pads(alloc: Global, graph: &Graph) -> Result<Sequence<OpenIn>, AllocError>
    ensures pads { IfOk result (λ pads. pads ≡ open_ins graph.now) }
    ensures few { IfOk result (λ pads. length pads ≤ 2 ^ 20) }
{
    let inputs = open_inputs(alloc, graph)?;
    if inputs.len() > MOST_PADS {
        return Err(AllocError);
    }
    let mut pads = Vec::new(alloc);
    'pads: for at in 0..inputs.len() {
        pads.push(input_pad(alloc, &inputs[at])?)?;
    }
    Ok(Sequence::of(pads))
}
