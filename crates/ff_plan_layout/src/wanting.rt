//! The stream that each open input pad of the complex graphs gets.
ghost use Rattle.std.specs.Prelude.{◌≡◌, ◌^◌, ◌<◌, ◌≤◌, ◌++◌, [], IfOk, vec_len, length, slice_get};
ghost use Rattle.std.specs.List.{AllByRecursion, find};
ghost use Rattle.ff_words.specs.maps.Choice.{lists, streams_of, all_streams, has_kind};
ghost use Rattle.ff_plan_layout.specs.Labels.{giver as number_of_giver, stream_of_label as of_label};
ghost use Rattle.ff_plan_layout.specs.Pads.{is_taken as was_taken, is_free as seems_free, known_or_nothing as known_or_none, want_of_giver};
ghost use Rattle.ff_plan_layout.specs.Pads.{want_of as the_want_of, want_at as the_want_at, wants_of as the_wants_of, wants_from};
ghost use Rattle.ff_plan_layout.specs.Pads.{is_source as is_of_source};
ghost use Rattle.ff_stream.specs.edges.Ports.{tally};
ghost use Rattle.ff_plan_layout.specs.laws.Limits.{IsFewWants};
ghost use Rattle.ff_plan_layout.specs.laws.Rows.{flat};

use crate::filtering::Filtering;
use crate::labelled::stream_of_label;
use crate::layout::Want;
use crate::open_pads::OpenIn;
use crate::places::{same_ref, stream_at};
use crate::sources::made_at_pad;
use ff_frame::StreamHead;
use ff_graph_links::gives;
use ff_lang::{Graph, Sequence, Text};
use ff_words::maps::{Kind, Stream};
use std::alloc::{AllocError, Global};

/// The number of the graph that gives a label.
pub(crate) fn giver(graphs: &[Graph], label: &str) -> Option<u32>
    requires { length graphs.now ≤ 16 }
    ensures { result ≡ number_of_giver graphs.now label.now }
{
    for (number, graph) in graphs.iter().enumerate() {
        if gives(graph, label) {
            return Some(number as u32);
        }
    }
    None
}

// Whether one of these pads took a stream.
fn in_row(row: &[Want], stream: &Stream) -> bool
    ensures { result ≡ was_taken row.now stream.now }
{
    for want in row {
        if let Want::KnownStream(other) = want {
            if same_ref(other.at, stream.at) {
                return true;
            }
        }
    }
    false
}

fn in_rows(rows: &[Sequence<Want>], stream: &Stream) -> bool
    ensures { result ≡ was_taken (flat rows.now) stream.now }
{
    for row in rows {
        if in_row(row.as_slice(), stream) {
            return true;
        }
    }
    false
}

/// Whether a stream has this kind.
pub(crate) fn is_kind(kind: Kind, head: StreamHead) -> bool
    ensures { result ≡ has_kind kind head }
{
    match (kind, head) {
        (Kind::Audio, StreamHead::Audio { .. }) => true,
        (Kind::Audio, StreamHead::Video { .. }) => false,
        (Kind::Video, StreamHead::Audio { .. }) => false,
        (Kind::Video, StreamHead::Video { .. }) => true,
    }
}

// Whether one of the pads of earlier graphs and of this one took a stream.
#[tactic(auto, using(crate::proofs::Wants::taken_append))]
fn is_taken(rows: &[Sequence<Want>], row: &[Want], stream: &Stream) -> bool
    ensures { result ≡ was_taken (flat rows.now ++ row.now) stream.now }
{
    in_rows(rows, stream) || in_row(row, stream)
}

// Whether a stream has this kind and none of the pads of earlier graphs and of this one took it.
fn is_free(kind: Kind, rows: &[Sequence<Want>], row: &[Want], stream: &Stream) -> bool
    ensures { result ≡ seems_free kind (flat rows.now ++ row.now) stream.now }
{
    is_kind(kind, stream.head) && !is_taken(rows, row, stream)
}

// The first such stream of an input.
fn free_in(
    input: u32,
    heads: &[StreamHead],
    kind: Kind,
    rows: &[Sequence<Want>],
    row: &[Want],
) -> Option<Stream>
    requires { length heads.now < 2 ^ 32 }
    ensures { result ≡ find (seems_free kind (flat rows.now ++ row.now)) (streams_of input heads.now) }
{
    for (number, head) in heads.iter().enumerate() {
        let stream = stream_at(input, number as u32, *head);
        if is_free(kind, rows, row, &stream) {
            return Some(stream);
        }
    }
    None
}

// The first such stream of all inputs.
fn free_stream(
    heads: &[Vec<StreamHead>],
    kind: Kind,
    rows: &[Sequence<Want>],
    row: &[Want],
) -> Option<Stream>
    requires inputs { length heads.now < 2 ^ 32 }
    requires streams { AllByRecursion (λ v. vec_len v < 2 ^ 32) heads.now }
    ensures { result ≡ find (seems_free kind (flat rows.now ++ row.now)) (all_streams (lists heads.now)) }
{
    for (input, streams) in heads.iter().enumerate() {
        if let Some(found) = free_in(input as u32, streams.as_slice(), kind, rows, row) {
            return Some(found);
        }
    }
    None
}

fn known_or_nothing(stream: Option<Stream>) -> Want
    ensures { result ≡ known_or_none stream }
{
    match stream {
        Some(stream) => Want::KnownStream(stream),
        None => Want::Nothing,
    }
}

fn labelled_want<F: Filtering>(
    alloc: Global,
    filtering: &F,
    heads: &[Vec<StreamHead>],
    graphs: &[Graph],
    label: &Text,
) -> Result<Want, AllocError>
    requires inputs { length heads.now < 2 ^ 32 }
    requires streams { AllByRecursion (λ v. vec_len v < 2 ^ 32) heads.now }
    requires graphs { length graphs.now ≤ 16 }
    ensures { IfOk result (λ want. want ≡ want_of_giver (of_label (F.rules filtering.now) (lists heads.now) label.now) label.now
        (number_of_giver graphs.now label.now)) }
{
    match giver(graphs, label.as_str()) {
        Some(graph) => Ok(Want::Labelled {
            graph,
            label: Text::of(String::from_str(alloc, label.as_str())?),
        }),
        None => {
            let stream = stream_of_label(alloc, filtering, heads, label.as_str())?;
            Ok(known_or_nothing(stream))
        }
    }
}

// What an open input pad gets that is no source filter's, after those of earlier graphs and of this one.
fn want_of<F: Filtering>(
    alloc: Global,
    filtering: &F,
    heads: &[Vec<StreamHead>],
    graphs: &[Graph],
    rows: &[Sequence<Want>],
    row: &[Want],
    pad: &OpenIn,
) -> Result<Want, AllocError>
    requires inputs { length heads.now < 2 ^ 32 }
    requires streams { AllByRecursion (λ v. vec_len v < 2 ^ 32) heads.now }
    requires graphs { length graphs.now ≤ 16 }
    ensures { IfOk result (λ want. want ≡ the_want_of (F.rules filtering.now) (lists heads.now) graphs.now (flat rows.now ++ row.now)
        pad.now.kind pad.now.label) }
{
    match &pad.label {
        Some(label) => labelled_want(alloc, filtering, heads, graphs, label),
        None => Ok(known_or_nothing(free_stream(heads, pad.kind, rows, row))),
    }
}

// Whether a pad got a stream of a source filter, behind so many inputs.
fn is_source(inputs: usize, want: &Want) -> bool
    ensures { result ≡ is_of_source inputs want.now }
{
    match want {
        Want::KnownStream(stream) => inputs <= stream.at.input as usize,
        Want::Labelled { graph: _, label: _ } => false,
        Want::Nothing => false,
    }
}

// How many of these pads got one.
fn sources_in_row(inputs: usize, row: &[Want]) -> usize
    requires { length row.now ≤ 2 ^ 20 }
    ensures count { result ≡ tally (is_of_source inputs) row.now }
    ensures few { result ≤ 2 ^ 20 }
{
    let mut count = 0;
    for want in row {
        if is_source(inputs, want) {
            count += 1;
        }
    }
    count
}

fn sources_in_rows(inputs: usize, rows: &[Sequence<Want>]) -> usize
    requires count { length rows.now ≤ 16 }
    requires few { AllByRecursion IsFewWants rows.now }
    ensures count { result ≡ tally (is_of_source inputs) (flat rows.now) }
    ensures few { result ≤ 2 ^ 24 }
{
    let mut count = 0;
    for row in rows {
        count += sources_in_row(inputs, row.as_slice());
    }
    count
}

// How many pads of earlier graphs and of this one got one.
fn sources_before(inputs: usize, rows: &[Sequence<Want>], row: &[Want]) -> usize
    requires count { length rows.now ≤ 16 }
    requires few { AllByRecursion IsFewWants rows.now }
    requires short { length row.now ≤ 2 ^ 20 }
    ensures { result ≡ tally (is_of_source inputs) (flat rows.now ++ row.now) }
{
    sources_in_rows(inputs, rows) + sources_in_row(inputs, row)
}

fn source_at(sources: &[Stream], number: usize) -> Option<Stream>
    ensures { result ≡ slice_get sources.now number }
{
    sources.get(number).copied()
}

// The stream of the next source filter, after the pads of earlier graphs and of this one.
fn next_source(
    inputs: usize,
    sources: &[Stream],
    rows: &[Sequence<Want>],
    row: &[Want],
) -> Option<Stream>
    requires count { length rows.now ≤ 16 }
    requires few { AllByRecursion IsFewWants rows.now }
    requires short { length row.now ≤ 2 ^ 20 }
    ensures { result ≡ slice_get sources.now (tally (is_of_source inputs) (flat rows.now ++ row.now)) }
{
    source_at(sources, sources_before(inputs, rows, row))
}

// What an open input pad gets, after those of earlier graphs and of this one.
fn want_at<F: Filtering>(
    alloc: Global,
    filtering: &F,
    sources: &[Stream],
    heads: &[Vec<StreamHead>],
    graphs: &[Graph],
    rows: &[Sequence<Want>],
    row: &[Want],
    pad: &OpenIn,
) -> Result<Want, AllocError>
    requires inputs { length heads.now < 2 ^ 32 }
    requires streams { AllByRecursion (λ v. vec_len v < 2 ^ 32) heads.now }
    requires graphs { length graphs.now ≤ 16 }
    requires count { length rows.now ≤ 16 }
    requires few { AllByRecursion IsFewWants rows.now }
    requires short { length row.now ≤ 2 ^ 20 }
    ensures { IfOk result (λ want. want ≡ the_want_at (F.rules filtering.now) sources.now (lists heads.now) graphs.now (flat rows.now ++ row.now)
        pad.now) }
{
    match made_at_pad(pad) {
        Some(_) => Ok(known_or_nothing(next_source(heads.len(), sources, rows, row))),
        None => want_of(alloc, filtering, heads, graphs, rows, row, pad),
    }
}

// What the open input pads of a graph get, after those of earlier graphs.
fn wants_of<F: Filtering>(
    alloc: Global,
    filtering: &F,
    sources: &[Stream],
    heads: &[Vec<StreamHead>],
    graphs: &[Graph],
    rows: &[Sequence<Want>],
    pads: &[OpenIn],
) -> Result<Vec<Want>, AllocError>
    requires inputs { length heads.now < 2 ^ 32 }
    requires streams { AllByRecursion (λ v. vec_len v < 2 ^ 32) heads.now }
    requires graphs { length graphs.now ≤ 16 }
    requires count { length rows.now ≤ 16 }
    requires few { AllByRecursion IsFewWants rows.now }
    requires short { length pads.now ≤ 2 ^ 20 }
    ensures wants { IfOk result (λ row. row.items
        ≡ the_wants_of (F.rules filtering.now) sources.now (lists heads.now) graphs.now (flat rows.now) pads.now) }
    ensures count { IfOk result (λ row. vec_len row ≡ length pads.now) }
{
    let mut row = Vec::new(alloc);
    for pad in pads {
        let want = want_at(
            alloc,
            filtering,
            sources,
            heads,
            graphs,
            rows,
            row.as_slice(),
            pad,
        )?;
        row.push(want)?;
    }
    Ok(row)
}

/// What the open input pads of all complex graphs get, by the number of the graph, where source filters make these
/// streams.
pub(crate) fn all_wants<F: Filtering>(
    alloc: Global,
    filtering: &F,
    sources: &[Stream],
    heads: &[Vec<StreamHead>],
    graphs: &[Graph],
) -> Result<Vec<Sequence<Want>>, AllocError>
    requires inputs { length heads.now < 2 ^ 32 }
    requires streams { AllByRecursion (λ v. vec_len v < 2 ^ 32) heads.now }
    requires graphs { length graphs.now ≤ 16 }
    ensures wants { IfOk result (λ rows. rows.items
        ≡ wants_from (F.rules filtering.now) sources.now (lists heads.now) graphs.now [] graphs.now) }
    ensures few { IfOk result (λ rows. AllByRecursion IsFewWants rows.items) }
{
    let mut rows = Vec::new(alloc);
    for graph in graphs {
        let pads = filtering.open_inputs(alloc, graph)?;
        let row = wants_of(
            alloc,
            filtering,
            sources,
            heads,
            graphs,
            rows.as_slice(),
            pads.as_slice(),
        )?;
        rows.push(Sequence::of(row))?;
    }
    Ok(rows)
}
