//! The complex graphs with the heads that their filters give, in the order of their nodes.
ghost use Rattle.std.specs.Prelude.{◌≡◌, ◌^◌, ◌<◌, ◌≤◌, ◌++◌, ◌∷◌, [], Some, Ok, IfOk, IfErr, OnOk, vec_len, length, map, slice_index_or, slice_get};
ghost use Rattle.std.specs.List.{AllByRecursion, filter_map, range_with_len};
ghost use Rattle.ff_words.specs.maps.Choice.{lists};
ghost use Rattle.ff_plan_layout.specs.Pads.{has_label as label_stands, labelled_out, made_at, pad_in as the_pad_in, head_in as the_head_in, made_of};
ghost use Rattle.ff_plan_layout.specs.Pads.{configure as as_configured, make_from, make_all as all_made, unlabelled_from, outs_of_made, unlabelled as all_unlabelled};
ghost use Rattle.ff_plan_layout.specs.laws.Refusals.{IsRefused};
ghost use Rattle.ff_plan_layout.specs.laws.Limits.{HasFewIns, IsFewWants};
ghost use Rattle.ff_plan_layout.specs.laws.Limits.{HasFewPads};
ghost use Rattle.ff_plan_layout.specs.Sources.{sources_of};

use crate::error::PlanError;
use crate::filtering::Filtering;
use crate::layout::{InPad, Laid, Made, Origin, Want};
use crate::open_pads::OpenOut;
use crate::sources::source_streams;
use crate::wanting::all_wants;
use ff_frame::StreamHead;
use ff_graph_links::graphs_in_order;
use ff_lang::{Graph, Sequence};
use std::alloc::{AllocError, Global};

fn has_label(label: &str, out: &OpenOut) -> bool
    ensures { result ≡ label_stands label.now out.now }
{
    match &out.label {
        Some(other) => other.as_str() == label,
        None => false,
    }
}

// The open output pad of a graph with this label.
fn pad_of(made: &Made, label: &str) -> Option<InPad>
    requires { HasFewPads made.now }
    ensures { result ≡ labelled_out label.now (Some made.now) }
{
    for (pad, out) in made.outs.as_slice().iter().enumerate() {
        if has_label(label, out) {
            return Some(InPad {
                source: Origin::Pad {
                    graph: made.laid.graph,
                    pad: pad as u32,
                },
                head: out.head,
            });
        }
    }
    None
}

/// The open output pad with this label of the graph of this number.
pub(crate) fn labelled_pad(made: &[Made], graph: u32, label: &str) -> Option<InPad>
    requires { AllByRecursion HasFewPads made.now }
    ensures { result ≡ labelled_out label.now (made_at made.now graph) }
{
    for one in made {
        if one.laid.graph == graph {
            return pad_of(one, label);
        }
    }
    None
}

fn pad_in(made: &[Made], want: &Want) -> Option<InPad>
    requires { AllByRecursion HasFewPads made.now }
    ensures { result ≡ the_pad_in made.now want.now }
{
    match want {
        Want::KnownStream(stream) => Some(InPad {
            source: Origin::Stream(stream.at),
            head: stream.head,
        }),
        Want::Labelled { graph, label } => labelled_pad(made, *graph, label.as_str()),
        Want::Nothing => None,
    }
}

fn head_in(pad: Option<InPad>) -> Option<StreamHead>
    ensures { result ≡ the_head_in pad }
{
    match pad {
        Some(pad) => Some(pad.head),
        None => None,
    }
}

// The pads that were found.
fn pads_in(alloc: Global, made: &[Made], row: &[Want]) -> Result<Vec<InPad>, AllocError>
    requires { AllByRecursion HasFewPads made.now }
    ensures pads { IfOk result (λ pads. pads.items ≡ filter_map (the_pad_in made.now) row.now) }
    ensures few { IfOk result (λ pads. vec_len pads ≤ length row.now) }
{
    let mut pads = Vec::new(alloc);
    for want in row {
        if let Some(pad) = pad_in(made, want) {
            pads.push(pad)?;
        }
    }
    Ok(pads)
}

// The heads of all pads.
fn heads_in(
    alloc: Global,
    made: &[Made],
    row: &[Want],
) -> Result<Vec<Option<StreamHead>>, AllocError>
    requires { AllByRecursion HasFewPads made.now }
    ensures { IfOk result (λ heads. heads.items ≡ map (λ w. the_head_in (the_pad_in made.now w)) row.now) }
{
    let mut heads = Vec::new(alloc);
    for want in row {
        heads.push(head_in(pad_in(made, want)))?;
    }
    Ok(heads)
}

// A graph whose open input pads get these.
fn made_with<F: Filtering>(
    alloc: Global,
    filtering: &F,
    made: &[Made],
    row: &[Want],
    number: u32,
    graph: &Graph,
) -> Result<Made, PlanError>
    requires pads { AllByRecursion HasFewPads made.now }
    requires wants { IsFewWants row.now }
    ensures made { IfOk result (λ m. made_of number (filter_map (the_pad_in made.now) row.now)
        ((F.rules filtering.now).configured graph.now (map (λ w. the_head_in (the_pad_in made.now w)) row.now)) ≡ Ok m) }
    ensures refused { IfErr result (IsRefused (made_of number (filter_map (the_pad_in made.now) row.now)
        ((F.rules filtering.now).configured graph.now (map (λ w. the_head_in (the_pad_in made.now w)) row.now)))) }
    ensures few { IfOk result HasFewPads }
    ensures ins { IfOk result (λ m. HasFewIns m.laid) }
{
    let ins = pads_in(alloc, made, row)?;
    let heads = heads_in(alloc, made, row)?;
    match filtering.configured(alloc, graph, heads.as_slice())? {
        Ok(outs) => Ok(Made {
            laid: Laid {
                graph: number,
                ins: Sequence::of(ins),
            },
            outs,
        }),
        Err(refused) => Err(PlanError::Config {
            graph: number,
            filter: refused.filter,
            kind: refused.kind,
        }),
    }
}

fn row_of(wants: &[Sequence<Want>], number: u32) -> &[Want]
    requires { AllByRecursion IsFewWants wants.now }
    ensures row { result.now ≡ slice_index_or wants.now number [] }
    ensures few { IsFewWants result.now }
{
    match wants.get(number as usize) {
        Some(row) => row.as_slice(),
        None => &[],
    }
}

// The graph of this number, after those that were made.
fn configure<F: Filtering>(
    alloc: Global,
    filtering: &F,
    graphs: &[Graph],
    made: &[Made],
    wants: &[Sequence<Want>],
    number: u32,
) -> Result<Made, PlanError>
    requires pads { AllByRecursion HasFewPads made.now }
    requires wants { AllByRecursion IsFewWants wants.now }
    ensures made { IfOk result (λ m. as_configured (F.rules filtering.now) made.now wants.now number (slice_get graphs.now number) ≡ Ok m) }
    ensures refused { IfErr result (IsRefused (as_configured (F.rules filtering.now) made.now wants.now number (slice_get graphs.now number))) }
    ensures few { IfOk result HasFewPads }
    ensures ins { IfOk result (λ m. HasFewIns m.laid) }
{
    match graphs.get(number as usize) {
        Some(graph) => made_with(alloc, filtering, made, row_of(wants, number), number, graph),
        None => Ok(Made {
            laid: Laid {
                graph: number,
                ins: Sequence::new(alloc),
            },
            outs: Sequence::new(alloc),
        }),
    }
}

fn add_made(all: &mut Vec<Made>, made: Made) -> Result<(), AllocError>
    requires few { AllByRecursion HasFewPads all.now.items }
    requires more { HasFewPads made }
    requires ins { AllByRecursion (λ m. HasFewIns m.laid) all.now.items }
    requires more_ins { HasFewIns made.laid }
    ensures items { OnOk result (all.new.items ≡ all.old.items ++ made ∷ []) }
    ensures few { OnOk result (AllByRecursion HasFewPads all.new.items) }
    ensures ins { OnOk result (AllByRecursion (λ m. HasFewIns m.laid) all.new.items) }
{
    all.push(made)?;
    Ok(())
}

fn make_in_order<F: Filtering>(
    alloc: Global,
    filtering: &F,
    graphs: &[Graph],
    wants: &[Sequence<Want>],
    order: &[u32],
) -> Result<Vec<Made>, PlanError>
    requires { AllByRecursion IsFewWants wants.now }
    ensures made { IfOk result (λ made. make_from (F.rules filtering.now) graphs.now wants.now [] order.now ≡ Ok made.items) }
    ensures refused { IfErr result (IsRefused (make_from (F.rules filtering.now) graphs.now wants.now [] order.now)) }
    ensures few { IfOk result (λ made. AllByRecursion HasFewPads made.items) }
    ensures ins { IfOk result (λ made. AllByRecursion (λ m. HasFewIns m.laid) made.items) }
    ensures count { IfOk result (λ made. vec_len made ≡ length order.now) }
{
    let mut made = Vec::new(alloc);
    for number in order {
        let one = configure(alloc, filtering, graphs, made.as_slice(), wants, *number)?;
        add_made(&mut made, one)?;
    }
    Ok(made)
}

/// All complex graphs in the order of their nodes, where their source filters make these.
pub(crate) fn make_all<F: Filtering>(
    alloc: Global,
    filtering: &F,
    sources: &[ff_source::Made],
    heads: &[Vec<StreamHead>],
    graphs: &[Graph],
) -> Result<Vec<Made>, PlanError>
    requires sources { sources.now ≡ sources_of (F.rules filtering.now) graphs.now }
    requires few { length sources.now ≤ 2 ^ 24 }
    requires inputs { length heads.now ≤ 16 }
    requires streams { AllByRecursion (λ v. vec_len v < 2 ^ 32) heads.now }
    requires graphs { length graphs.now ≤ 16 }
    ensures made { IfOk result (λ made. all_made (F.rules filtering.now) (lists heads.now) graphs.now ≡ Ok made.items) }
    ensures refused { IfErr result (IsRefused (all_made (F.rules filtering.now) (lists heads.now) graphs.now)) }
    ensures few { IfOk result (λ made. AllByRecursion HasFewPads made.items) }
    ensures ins { IfOk result (λ made. AllByRecursion (λ m. HasFewIns m.laid) made.items) }
{
    let streams = source_streams(alloc, heads.len(), sources)?;
    let wants = all_wants(alloc, filtering, streams.as_slice(), heads, graphs)?;
    let order = graphs_in_order(alloc, graphs)?;
    make_in_order(alloc, filtering, graphs, wants.as_slice(), order.as_slice())
}

fn add_unlabelled(pads: &mut Vec<InPad>, graph: u32, outs: &[OpenOut]) -> Result<(), AllocError>
    requires { length outs.now ≤ 2 ^ 20 }
    ensures { OnOk result (pads.new.items ≡ pads.old.items ++ unlabelled_from graph 0 outs.now) }
{
    for (pad, out) in outs.iter().enumerate() {
        if out.label.is_none() {
            pads.push(InPad {
                source: Origin::Pad {
                    graph,
                    pad: pad as u32,
                },
                head: out.head,
            })?;
        }
    }
    Ok(())
}

fn add_outs_of(pads: &mut Vec<InPad>, made: &[Made], graph: u32) -> Result<(), AllocError>
    requires { AllByRecursion HasFewPads made.now }
    ensures { OnOk result (pads.new.items ≡ pads.old.items ++ outs_of_made graph (made_at made.now graph)) }
{
    for one in made {
        if one.laid.graph == graph {
            return add_unlabelled(pads, graph, one.outs.as_slice());
        }
    }
    Ok(())
}

/// The open output pads without a label of the graphs below this number, by graph and pad.
pub(crate) fn unlabelled(
    alloc: Global,
    made: &[Made],
    graphs: u32,
) -> Result<Vec<InPad>, AllocError>
    requires { AllByRecursion HasFewPads made.now }
    ensures { IfOk result (λ pads. pads.items ≡ all_unlabelled made.now (range_with_len 0 graphs)) }
{
    let mut pads = Vec::new(alloc);
    for graph in 0..graphs {
        add_outs_of(&mut pads, made, graph)?;
    }
    Ok(pads)
}
