//! The layout of a plan: graphs, streams of outputs, and where the strings of graphs stand.
ghost use Rattle.std.specs.Prelude.{◌≡◌, ◌^◌, ◌<◌, ◌≤◌, ◌++◌, ◌∷◌, [], List, Ok, IfOk, IfErr, OnOk, vec_len, length, map};
ghost use Rattle.std.specs.List.{AllByRecursion, cons_option, flat_map, range_with_len};
ghost use Rattle.ff_words.specs.maps.Choice.{lists};
ghost use Rattle.ff_plan_layout.specs.Layout.{placed};
ghost use Rattle.ff_plan_layout.specs.laws.Limits.{HasFewIns};
ghost use Rattle.ff_plan_layout.specs.laws.Passing.{laid_by, rows_behind as passed_rows, streams_by};
ghost use Rattle.ff_plan_layout.specs.laws.Rows.{rows as rows_in, layout_in};
ghost use Rattle.ff_plan_layout.specs.laws.Limits.{HasShortGraphs, IsWithinLimits, HasFewPads};
ghost use Rattle.ff_plan_layout.specs.laws.Refusals.{IsRefused};
ghost use Rattle.ff_plan_layout.specs.LaidOut.{laid_out};
ghost use Rattle.ff_plan_layout.specs.Streams.{Passed as Through, graph_of, simple_of};
ghost use Rattle.ff_plan_layout.specs.Texts.{simple_or_null, texts_of_laid, texts_of_row, texts_from};
ghost use Rattle.ff_plan_layout.specs.declared.layout.Made.{Made as Built};
ghost use Rattle.ff_plan_layout.specs.declared.layout.GraphText.TheVariants as text;

use crate::error::PlanError;
use crate::filtering::Filtering;
use crate::layout::{GraphText, Laid, Laying, Made, OutStream, Passed};
use crate::making::{make_all, unlabelled};
use crate::mapping::check_unused;
use crate::naming::{check_graphs, check_loops};
use crate::output_rows::{check_counts, output_rows};
use crate::passing::simple_graph;
use crate::ready::Ready;
use crate::sources::{check_source_count, check_sources, sources_of};
use crate::takes::kind_of;
use ff_frame::StreamHead;
use ff_graph_links::{orders_are_whole, orders_go_upward};
use ff_lang::{Graph, Sequence};
use ff_words::maps::Kind;
use ff_words::{Job, OutputJob};
use std::alloc::{AllocError, Global};

fn text_of(output: u32, out: &OutputJob, kind: Kind) -> GraphText
    ensures { result ≡ simple_or_null output kind (simple_of out.now kind) }
{
    match simple_graph(out, kind) {
        Some(_) => GraphText::Simple { output, kind },
        None => GraphText::Null { kind },
    }
}

fn add_texts_of(
    texts: &mut Vec<GraphText>,
    output: u32,
    out: &OutputJob,
    laid: &Laid,
) -> Result<(), AllocError>
    ensures { OnOk result (texts.new.items ≡ texts.old.items ++ texts_of_laid output out.now laid.now) }
{
    for pad in laid.ins.as_slice() {
        texts.push(text_of(output, out, kind_of(pad.head)))?;
    }
    Ok(())
}

// The strings of the simple graphs of an output.
fn add_texts(
    texts: &mut Vec<GraphText>,
    output: u32,
    out: &OutputJob,
    row: &[Passed],
) -> Result<(), AllocError>
    ensures { OnOk result (texts.new.items ≡ texts.old.items ++ texts_of_row output out.now row.now) }
{
    for passed in row {
        if let Some(laid) = &passed.graph {
            add_texts_of(texts, output, out, laid)?;
        }
    }
    Ok(())
}

fn add_text(texts: &mut Vec<GraphText>, one: GraphText) -> Result<(), AllocError>
    ensures { OnOk result (texts.new.items ≡ texts.old.items ++ one ∷ []) }
{
    texts.push(one)?;
    Ok(())
}

fn complex_texts(alloc: Global, graphs: u32) -> Result<Vec<GraphText>, AllocError>
    ensures { IfOk result (λ texts. texts.items ≡ map text.Complex (range_with_len 0 graphs)) }
{
    let mut texts = Vec::new(alloc);
    for graph in 0..graphs {
        add_text(&mut texts, GraphText::Complex { graph })?;
    }
    Ok(texts)
}

// Where the string of each graph stands, with so many complex ones.
fn all_texts(
    alloc: Global,
    graphs: u32,
    outs: &[OutputJob],
    rows: &[Sequence<Passed>],
) -> Result<Vec<GraphText>, AllocError>
    requires same { length rows.now ≡ length outs.now }
    requires few { length outs.now ≤ 16 }
    ensures { IfOk result (λ texts. texts.items ≡ map text.Complex (range_with_len 0 graphs) ++ texts_from 0 outs.now rows.now) }
{
    let mut texts = complex_texts(alloc, graphs)?;
    for (output, out) in outs.iter().enumerate() {
        add_texts(&mut texts, output as u32, out, rows[output].as_slice())?;
    }
    Ok(texts)
}

fn add_graph(graphs: &mut Vec<Laid>, graph: Option<Laid>) -> Result<(), AllocError>
    ensures { OnOk result (graphs.new.items ≡ graphs.old.items ++ cons_option graph []) }
{
    match graph {
        Some(laid) => {
            graphs.push(laid)?;
            Ok(())
        }
        None => Ok(()),
    }
}

// The streams of an output; their graphs go to the others.
fn streams_of(
    alloc: Global,
    graphs: &mut Vec<Laid>,
    row: Vec<Passed>,
) -> Result<Vec<OutStream>, AllocError>
    ensures graphs { OnOk result (graphs.new.items ≡ graphs.old.items ++ flat_map graph_of row.items) }
    ensures streams { IfOk result (λ streams. streams.items ≡ map (λ (p : Through). p.what) row.items) }
{
    let mut streams = Vec::new(alloc);
    for passed in row {
        let Passed { what, graph } = passed;
        streams.push(what)?;
        add_graph(graphs, graph)?;
    }
    Ok(streams)
}

fn laid_graphs(alloc: Global, made: Vec<Made>) -> Result<Vec<Laid>, AllocError>
    ensures { IfOk result (λ graphs. graphs.items ≡ map (λ (m : Built). m.laid) made.items) }
{
    let mut graphs = Vec::new(alloc);
    for one in made {
        let Made { laid, outs: _ } = one;
        graphs.push(laid)?;
    }
    Ok(graphs)
}

fn add_streams(all: &mut Vec<Vec<OutStream>>, streams: Vec<OutStream>) -> Result<(), AllocError>
    ensures { OnOk result (all.new.items ≡ all.old.items ++ streams ∷ []) }
{
    all.push(streams)?;
    Ok(())
}

// Sources, complex graphs and the rows of outputs, laid apart.
fn laid_apart(
    alloc: Global,
    sources: Vec<ff_source::Made>,
    made: Vec<Made>,
    rows: Vec<Sequence<Passed>>,
    texts: Vec<GraphText>,
) -> Result<Laying, AllocError>
    ensures graphs { IfOk result (λ l. l.graphs.items ≡ map (λ (m : Built). m.laid) made.items ++ laid_by rows.items) }
    ensures outputs { IfOk result (λ l. rows_in l.outputs.items ≡ streams_by rows.items) }
    ensures texts { IfOk result (λ l. l.texts.items ≡ texts.items) }
    ensures made { IfOk result (λ l. l.made.items ≡ sources.items) }
{
    let mut graphs = laid_graphs(alloc, made)?;
    let mut outputs = Vec::new(alloc);
    for row in rows {
        let streams = streams_of(alloc, &mut graphs, row.into_vec())?;
        add_streams(&mut outputs, streams)?;
    }
    Ok(Laying {
        made: sources,
        graphs,
        outputs,
        texts,
    })
}

// The streams of the outputs, after these complex graphs.
fn rows_behind<F: Filtering>(
    alloc: Global,
    filtering: &F,
    heads: &[Vec<StreamHead>],
    graphs: &[Graph],
    made: &[Made],
    outs: &[OutputJob],
) -> Result<Vec<Sequence<Passed>>, PlanError>
    requires inputs { length heads.now < 2 ^ 32 }
    requires streams { AllByRecursion (λ v. vec_len v < 2 ^ 32) heads.now }
    requires graphs { length graphs.now ≤ 16 }
    requires pads { AllByRecursion HasFewPads made.now }
    requires outputs { length outs.now ≤ 16 }
    requires maps { AllByRecursion (λ out. length out.maps ≤ 16) outs.now }
    requires short { AllByRecursion HasShortGraphs outs.now }
    ensures made { IfOk result (λ rows. passed_rows (F.rules filtering.now) (lists heads.now) graphs.now made.now outs.now ≡ Ok rows.items) }
    ensures refused { IfErr result (IsRefused (passed_rows (F.rules filtering.now) (lists heads.now) graphs.now made.now outs.now)) }
    ensures few { IfOk result (λ rows. AllByRecursion (λ (row : List Through). length row ≤ 16) rows.items) }
    ensures same { IfOk result (λ rows. vec_len rows ≡ length outs.now) }
{
    let pads = unlabelled(alloc, made, graphs.len() as u32)?;
    let ready = Ready {
        heads,
        graphs,
        made,
    };
    output_rows(alloc, filtering, &ready, outs, pads.as_slice())
}

/// The graphs of a job, the streams of its outputs and the strings of all graphs, or the refusal that comes first.
/// Refusals come in this order: of names and labels of complex graphs, of loops, of source filters, of the heads of
/// graphs, and of each output in turn. Then come those of labels that nothing uses, and of too many streams, graphs or
/// sources. `NoMemory` may come in place of any answer.
pub fn lay_out<F: Filtering>(
    alloc: Global,
    filtering: &F,
    job: &Job,
    heads: &[Vec<StreamHead>],
) -> Result<Laying, PlanError>
    requires limits { IsWithinLimits job.now (lists heads.now) }
    ensures made { IfOk result (λ l. laid_out (F.rules filtering.now) job.now (lists heads.now)
        ≡ Ok (layout_in (lists heads.now) l)) }
    ensures refused { IfErr result (IsRefused (laid_out (F.rules filtering.now) job.now (lists heads.now))) }
    ensures streams { IfOk result (λ l. length (placed (layout_in (lists heads.now) l)) ≤ 16) }
    ensures graphs { IfOk result (λ l. length l.graphs.items ≤ 16) }
    ensures outputs { IfOk result (λ l. length l.outputs.items ≡ length job.now.outputs) }
    ensures ins { IfOk result (λ l. AllByRecursion HasFewIns l.graphs.items) }
{
    orders_go_upward();
    orders_are_whole();
    let graphs = job.graphs.as_slice();
    let outs = job.outputs.as_slice();
    check_graphs(alloc, filtering, heads, graphs)?;
    check_loops(alloc, filtering, graphs)?;
    check_sources(alloc, filtering, graphs)?;
    let sources = sources_of(alloc, filtering, graphs)?;
    let made = make_all(alloc, filtering, sources.as_slice(), heads, graphs)?;
    let rows = rows_behind(alloc, filtering, heads, graphs, made.as_slice(), outs)?;
    check_unused(alloc, graphs, outs)?;
    check_counts(graphs.len(), rows.as_slice())?;
    check_source_count(heads.len(), sources.as_slice().len())?;
    let texts = all_texts(alloc, graphs.len() as u32, outs, rows.as_slice())?;
    Ok(laid_apart(alloc, sources, made, rows, texts)?)
}
