//! The stream that a label names.
ghost use Rattle.std.specs.Prelude.{◌≡◌, ◌^◌, ◌<◌, Some, IfOk, vec_len, length};
ghost use Rattle.std.specs.List.{AllByRecursion};
ghost use Rattle.ff_words.specs.maps.Choice.{lists};
ghost use Rattle.ff_plan_layout.specs.Choice.{known};
ghost use Rattle.ff_plan_layout.specs.Labels.{first_known as first_stream, stream_of_spec as of_spec, stream_of_label as of_label};

use crate::choosing::head_of;
use crate::filtering::Filtering;
use ff_frame::StreamHead;
use ff_words::maps::{MapFrom, MapSpec, Stream, StreamRef, select};
use std::alloc::{AllocError, Global};

// The first of the streams at these places.
fn first_known(heads: &[Vec<StreamHead>], refs: &[StreamRef]) -> Option<Stream>
    ensures { result ≡ first_stream (known (lists heads.now) refs.now) }
{
    for at in refs {
        if let Some(head) = head_of(heads, *at) {
            return Some(Stream { at: *at, head });
        }
    }
    None
}

// The first stream that a map without `?` names.
fn stream_of_spec(
    alloc: Global,
    heads: &[Vec<StreamHead>],
    spec: &MapSpec,
) -> Result<Option<Stream>, AllocError>
    requires inputs { length heads.now < 2 ^ 32 }
    requires streams { AllByRecursion (λ v. vec_len v < 2 ^ 32) heads.now }
    ensures { IfOk result (λ stream. stream ≡ first_stream (of_spec (lists heads.now) (Some spec.now))) }
{
    match &spec.from {
        MapFrom::Input { file: _, pick: _ } if !spec.optional => {
            let refs = select(alloc, spec, heads)?;
            Ok(first_known(heads, refs.as_slice()))
        }
        _ => Ok(None),
    }
}

/// The stream of an input that a label names as a map without `?`: the first of them.
pub(crate) fn stream_of_label<F: Filtering>(
    alloc: Global,
    filtering: &F,
    heads: &[Vec<StreamHead>],
    label: &str,
) -> Result<Option<Stream>, AllocError>
    requires inputs { length heads.now < 2 ^ 32 }
    requires streams { AllByRecursion (λ v. vec_len v < 2 ^ 32) heads.now }
    ensures { IfOk result (λ stream. stream ≡ of_label (F.rules filtering.now) (lists heads.now) label.now) }
{
    match filtering.map_of(alloc, label)? {
        Some(spec) => stream_of_spec(alloc, heads, &spec),
        None => Ok(None),
    }
}
