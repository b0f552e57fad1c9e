//! The streams that a map names.
ghost use Rattle.std.specs.Prelude.{◌≡◌, ◌^◌, ◌<◌, IfOk, vec_len, length, map, take, drop};
ghost use Rattle.std.specs.List.{AllByRecursion};
ghost use Rattle.ff_words.specs.maps.Choice.{lists, selected, picked as named_by, places, streams_of, of_kind as those_of_kind};

use crate::maps::map::{Kind, MapFrom, MapSpec, Pick};
use crate::maps::streams::{StreamRef, has_kind};
use ff_frame::StreamHead;
use std::alloc::{AllocError, Global};

/// The streams that a map names, in their order, of these heads of each input.
pub fn select(
    alloc: Global,
    spec: &MapSpec,
    heads: &[Vec<StreamHead>],
) -> Result<Vec<StreamRef>, AllocError>
    requires inputs { length heads.now < 2 ^ 32 }
    requires streams { AllByRecursion (λ v. vec_len v < 2 ^ 32) heads.now }
    ensures { IfOk result (λ refs. refs.items ≡ selected spec.now.from (lists heads.now)) }
{
    match &spec.from {
        MapFrom::Input { file, pick } => match heads.get(*file as usize) {
            Some(streams) => picked(alloc, *file, *pick, streams.as_slice()),
            None => Ok(Vec::new(alloc)),
        },
        MapFrom::Label(_) => Ok(Vec::new(alloc)),
    }
}

fn picked(
    alloc: Global,
    input: u32,
    pick: Pick,
    heads: &[StreamHead],
) -> Result<Vec<StreamRef>, AllocError>
    requires { length heads.now < 2 ^ 32 }
    ensures { IfOk result (λ refs. refs.items ≡ places (named_by pick (streams_of input heads.now))) }
{
    match pick {
        Pick::All => every(alloc, input, heads),
        Pick::Index(index) => {
            let all = every(alloc, input, heads)?;
            at_number(alloc, index, all.as_slice())
        }
        Pick::Kind(kind) => of_kind(alloc, input, kind, heads),
        Pick::Nth(kind, nth) => {
            let all = of_kind(alloc, input, kind, heads)?;
            at_number(alloc, nth, all.as_slice())
        }
    }
}

fn every(alloc: Global, input: u32, heads: &[StreamHead]) -> Result<Vec<StreamRef>, AllocError>
    requires { length heads.now < 2 ^ 32 }
    ensures { IfOk result (λ refs. refs.items ≡ places (streams_of input heads.now)) }
{
    let mut refs = Vec::new(alloc);
    for (stream, _head) in heads.iter().enumerate() {
        refs.push(StreamRef {
            input,
            stream: stream as u32,
        })?;
    }
    Ok(refs)
}

fn of_kind(
    alloc: Global,
    input: u32,
    kind: Kind,
    heads: &[StreamHead],
) -> Result<Vec<StreamRef>, AllocError>
    requires { length heads.now < 2 ^ 32 }
    ensures { IfOk result (λ refs. refs.items ≡ places (those_of_kind kind (streams_of input heads.now))) }
{
    let mut refs = Vec::new(alloc);
    for (stream, head) in heads.iter().enumerate() {
        if has_kind(kind, *head) {
            refs.push(StreamRef {
                input,
                stream: stream as u32,
            })?;
        }
    }
    Ok(refs)
}

// The one at a number, or none.
fn at_number(alloc: Global, number: u32, all: &[StreamRef]) -> Result<Vec<StreamRef>, AllocError>
    ensures { IfOk result (λ refs. refs.items ≡ take 1 (drop number all.now)) }
{
    let mut refs = Vec::new(alloc);
    if let Some(one) = all.get(number as usize) {
        refs.push(*one)?;
    }
    Ok(refs)
}
