//! The heads at the input pads of a filter.
ghost use Rattle.std.specs.Prelude.{◌≡◌, ◌&&◌, ◌==◌, IfOk, slice_get, slice_index_or, []};
ghost use Rattle.std.specs.Option.{option_map};
ghost use Rattle.ff_graph_dag.specs.wiring.Flows.{same_pad as same, pad_place};
ghost use Rattle.ff_graph.specs.Configured.{head_at as head_of, head_into as head_to, heads_into as heads_to};
ghost use Rattle.ff_graph.specs.laws.Pads.{heads_in};

use ff_frame::StreamHead;
use ff_graph_links::Pad;
use std::alloc::{AllocError, Global};

/// Whether these are the same pad.
pub(crate) fn same_pad(one: Pad, other: Pad) -> bool
    ensures { result ≡ same one other }
{
    one.filter == other.filter && one.pad == other.pad
}

// The place of a pad among others; their number where it isn't among them.
fn place_of(pad: Pad, pads: &[Pad]) -> usize
    ensures { result ≡ pad_place pads.now pad }
{
    'pads: for at in 0..pads.len() {
        if same_pad(pad, pads[at]) {
            return at;
        }
    }
    pads.len()
}

// The head at an output pad.
fn head_at(heads: &[Vec<StreamHead>], pad: Pad) -> Option<StreamHead>
    ensures { result ≡ head_of (heads_in heads.now) pad }
{
    if pad.filter >= heads.len() {
        return None;
    }
    let own = &heads[pad.filter];
    if pad.pad >= own.len() {
        return None;
    }
    Some(own[pad.pad])
}

// What is given to an open input pad.
fn given_at(given: &[Option<StreamHead>], place: usize) -> Option<StreamHead>
    ensures { result ≡ slice_index_or given.now place None }
{
    if place < given.len() {
        return given[place];
    }
    None
}

// The head of what comes to an input pad, of which it is told what feeds it. None where it has no stream.
fn head_into(
    opens: &[Pad],
    given: &[Option<StreamHead>],
    heads: &[Vec<StreamHead>],
    pad: Pad,
    from: Option<Pad>,
) -> Option<StreamHead>
    ensures { result ≡ head_to opens.now given.now (heads_in heads.now) pad from }
{
    match from {
        None => given_at(given, place_of(pad, opens)),
        Some(from) => head_at(heads, from),
    }
}

/// The heads of what comes to the input pads of a filter, of which each is fed so. None where one has no stream.
pub(crate) fn heads_into(
    alloc: Global,
    opens: &[Pad],
    given: &[Option<StreamHead>],
    heads: &[Vec<StreamHead>],
    filter: usize,
    sources: &[Option<Pad>],
) -> Result<Option<Vec<StreamHead>>, AllocError>
    ensures { IfOk result (λ o. option_map (λ v. v.items) o ≡ heads_to opens.now given.now (heads_in heads.now) filter 0 sources.now) }
{
    let mut found = Vec::new(alloc);
    'pads: for pad in 0..sources.len() {
        match head_into(opens, given, heads, Pad { filter, pad }, sources[pad]) {
            None => return Ok(None),
            Some(head) => found.push(head)?,
        }
    }
    Ok(Some(found))
}
