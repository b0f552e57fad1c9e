//! The choice of streams where no `-map` is given.
ghost use Rattle.std.specs.Prelude.{◌≡◌, ◌^◌, ◌<◌, ◌++◌, ◌∷◌, [], IfOk, OnOk, List, vec_len, length, option_to_list};
ghost use Rattle.std.specs.List.{AllByRecursion};
ghost use Rattle.ff_words.specs.maps.Choice.{lists, places, streams_of, all_streams, AreBest, IsChoice, IsLargest};
ghost use Rattle.ff_words.specs.declared.maps.streams.Stream.{Stream};

use crate::maps::map::Kind;
use crate::maps::streams::{Stream, StreamRef, has_kind, size};
use ff_frame::StreamHead;
use std::alloc::{AllocError, Global};

/// The video stream with the largest width times height, and then the audio stream with the most channels, of the
/// kinds that are wanted. Of equals it is the one of the lowest input, and there the lowest stream.
pub fn best_streams(
    alloc: Global,
    heads: &[Vec<StreamHead>],
    video: bool,
    audio: bool,
) -> Result<Vec<StreamRef>, AllocError>
    requires inputs { length heads.now < 2 ^ 32 }
    requires streams { AllByRecursion (λ v. vec_len v < 2 ^ 32) heads.now }
    ensures { IfOk result (λ refs. AreBest video audio (lists heads.now) refs.items) }
{
    let mut refs = Vec::new(alloc);
    add(&mut refs, chosen(video, Kind::Video, heads))?;
    add(&mut refs, chosen(audio, Kind::Audio, heads))?;
    Ok(refs)
}

fn add(refs: &mut Vec<StreamRef>, stream: Option<Stream>) -> Result<(), AllocError>
    ensures { OnOk result (refs.new.items ≡ refs.old.items ++ places (option_to_list stream)) }
{
    if let Some(stream) = stream {
        refs.push(stream.at)?;
    }
    Ok(())
}

fn chosen(wanted: bool, kind: Kind, heads: &[Vec<StreamHead>]) -> Option<Stream>
    requires inputs { length heads.now < 2 ^ 32 }
    requires streams { AllByRecursion (λ v. vec_len v < 2 ^ 32) heads.now }
    ensures { IsChoice wanted kind (all_streams (lists heads.now)) result }
{
    if wanted { largest(kind, heads) } else { None }
}

fn largest(kind: Kind, heads: &[Vec<StreamHead>]) -> Option<Stream>
    requires inputs { length heads.now < 2 ^ 32 }
    requires streams { AllByRecursion (λ v. vec_len v < 2 ^ 32) heads.now }
    ensures { IsLargest kind (all_streams (lists heads.now)) result }
{
    let mut best = None;
    for (input, streams) in heads.iter().enumerate() {
        best = largest_with(kind, best, input as u32, streams.as_slice());
    }
    best
}

// The largest of some streams and those of an input after them.
fn largest_with(
    kind: Kind,
    first: Option<Stream>,
    input: u32,
    heads: &[StreamHead],
) -> Option<Stream>
    requires { length heads.now < 2 ^ 32 }
    ensures { (ss : List Stream) → IsLargest kind ss first → IsLargest kind (ss ++ streams_of input heads.now) result }
{
    let mut best = first;
    for (stream, head) in heads.iter().enumerate() {
        let at = StreamRef {
            input,
            stream: stream as u32,
        };
        best = larger(kind, best, Stream { at, head: *head });
    }
    best
}

// The largest of some streams and one after them.
fn larger(kind: Kind, best: Option<Stream>, stream: Stream) -> Option<Stream>
    ensures { (ss : List Stream) → IsLargest kind ss best → IsLargest kind (ss ++ stream ∷ []) result }
{
    if !has_kind(kind, stream.head) {
        return best;
    }
    match best {
        None => Some(stream),
        Some(before) => {
            if size(stream.head) <= size(before.head) {
                Some(before)
            } else {
                Some(stream)
            }
        }
    }
}
