//! A stream of an output, through its simple graph or past all graphs.
ghost use Rattle.std.specs.Prelude.{◌≡◌, ◌+◌, ◌^◌, ◌<◌, ◌≤◌, ◌==◌, ◌++◌, ◌∷◌, [], None, Ok, IfOk, IfErr, OnOk, not, length, vec_len, false};
ghost use Rattle.ff_graph_links.specs.labels.Labels.{filters_of};
ghost use Rattle.ff_graph_links.specs.labels.Names.{twice_in, unknown_filter};
ghost use Rattle.ff_plan_layout.specs.Labels.{refused};
ghost use Rattle.ff_plan_layout.specs.laws.Passing.{simple_fault};
ghost use Rattle.ff_plan_layout.specs.laws.Refusals.{IsRefused, IsFault};
ghost use Rattle.ff_plan_layout.specs.laws.Limits.{IsShort, HasShortGraphs};
ghost use Rattle.ff_plan_layout.specs.LaidOut.{graphs_of};
ghost use Rattle.ff_plan_layout.specs.Rules.{where_so};
ghost use Rattle.ff_plan_layout.specs.Sources.{source_pad, pads_of};
ghost use Rattle.ff_plan_layout.specs.Streams.{simply as simply_passed, through as through_graph, as_it_is as unchanged, null_graph as graph_of_nothing, simple_of};
ghost use Rattle.ff_plan_layout.specs.Streams.{null_name as name_of_null, packed_as as packed_by, passed as stream_passed};
ghost use Rattle.ff_plan_layout.specs.Asking.{is_as_asked as is_so_asked};
ghost use Rattle.ff_plan_layout.specs.Streams.{passed_by as passed_with, passed_from as passed_by_origin, all_passed as streams_passed, graph_of};

use crate::asking::is_as_asked;
use crate::error::PlanError;
use crate::filtering::Filtering;
use crate::layout::{InPad, Laid, Origin, OutStream, Passed};
use crate::naming::refusal;
use crate::open_pads::{OpenOut, SourcePad};
use crate::takes::{accepts, kind_of, packed_as};
use ff_frame::ConfigError;
use ff_graph_links::{Known, check_names, check_own_labels};
use ff_lang::{Chain, Filter, Graph, Sequence, Text};
use ff_words::OutputJob;
use ff_words::maps::Kind;
use std::alloc::{AllocError, Global};

// The filters that there are; no label of a simple graph names a stream.
#[derive(Drop)]
struct Names<'a, F> {
    filtering: &'a F,
}

impl<'a, F: Filtering> Known for Names<'a, F> {
    ghost filter = { λ names. (F.rules names.filtering.now).known };

    ghost stream = { λ names label. false };

    fn is_filter(&self, name: &str) -> bool {
        self.filtering.is_known(name)
    }

    fn is_stream(&self, _alloc: Global, _label: &str) -> Result<bool, AllocError> {
        Ok(false)
    }
}

fn check_labels(alloc: Global, graph: &Graph) -> Result<(), PlanError>
    ensures fine { IfOk result (λ _. refused (twice_in [] [] (filters_of graph.now)) ≡ None) }
    ensures fault { IfErr result (IsFault (refused (twice_in [] [] (filters_of graph.now)))) }
{
    match check_own_labels(alloc, graph) {
        Ok(()) => Ok(()),
        Err(fault) => Err(refusal(fault)),
    }
}

fn check_filters<F: Filtering>(filtering: &F, number: u32, graph: &Graph) -> Result<(), PlanError>
    requires { IsShort graph.now }
    ensures fine { IfOk result (λ _. refused (unknown_filter (F.rules filtering.now).known number 0 (filters_of graph.now)) ≡ None) }
    ensures fault { IfErr result (IsFault (refused (unknown_filter (F.rules filtering.now).known number 0 (filters_of graph.now)))) }
{
    let names = Names { filtering };
    match check_names(&names, number, graph) {
        Ok(()) => Ok(()),
        Err(fault) => Err(refusal(fault)),
    }
}

fn check_loop<F: Filtering>(
    alloc: Global,
    filtering: &F,
    number: u32,
    graph: &Graph,
) -> Result<(), PlanError>
    ensures fine { IfOk result (λ _. where_so ((F.rules filtering.now).loops graph.now) (PlanError.Loop number) ≡ None) }
    ensures fault { IfErr result (IsFault (where_so ((F.rules filtering.now).loops graph.now) (PlanError.Loop number))) }
{
    if filtering.has_loop(alloc, graph)? {
        Err(PlanError::Loop { graph: number })
    } else {
        Ok(())
    }
}

// The refusal of a graph that hasn't one pad at each end.
fn wrong_pads(number: u32) -> PlanError
    ensures { result ≡ PlanError.Config number 0 ConfigError.Pads }
{
    PlanError::Config {
        graph: number,
        filter: 0,
        kind: ConfigError::Pads,
    }
}

fn check_input<F: Filtering>(
    alloc: Global,
    filtering: &F,
    number: u32,
    graph: &Graph,
) -> Result<(), PlanError>
    ensures fine { IfOk result (λ _. where_so (not (length ((F.rules filtering.now).open_ins graph.now) == 1))
        (PlanError.Config number 0 ConfigError.Pads) ≡ None) }
    ensures fault { IfErr result (IsFault (where_so (not (length ((F.rules filtering.now).open_ins graph.now) == 1))
        (PlanError.Config number 0 ConfigError.Pads))) }
{
    let pads = filtering.open_inputs(alloc, graph)?;
    if pads.as_slice().len() == 1 {
        Ok(())
    } else {
        Err(wrong_pads(number))
    }
}

// The refusal of a source filter that begins a simple graph.
fn no_source(number: u32, source: Option<SourcePad>) -> Result<(), PlanError>
    ensures fine { IfOk result (λ _. pads_of number source ≡ None) }
    ensures fault { IfErr result (IsFault (pads_of number source)) }
{
    match source {
        Some(source) => Err(PlanError::Config {
            graph: number,
            filter: source.filter,
            kind: ConfigError::Pads,
        }),
        None => Ok(()),
    }
}

fn check_source<F: Filtering>(
    alloc: Global,
    filtering: &F,
    number: u32,
    graph: &Graph,
) -> Result<(), PlanError>
    ensures fine { IfOk result (λ _. source_pad number ((F.rules filtering.now).open_ins graph.now) ≡ None) }
    ensures fault { IfErr result (IsFault (source_pad number ((F.rules filtering.now).open_ins graph.now))) }
{
    let pads = filtering.open_inputs(alloc, graph)?;
    match pads.as_slice().first() {
        Some(pad) => no_source(number, pad.source),
        None => Ok(()),
    }
}

// Looks at a simple graph before its filters are had.
fn check_simple<F: Filtering>(
    alloc: Global,
    filtering: &F,
    number: u32,
    graph: &Graph,
) -> Result<(), PlanError>
    requires { IsShort graph.now }
    ensures fine { IfOk result (λ _. simple_fault (F.rules filtering.now) number graph.now ≡ None) }
    ensures fault { IfErr result (IsFault (simple_fault (F.rules filtering.now) number graph.now)) }
{
    check_labels(alloc, graph)?;
    check_filters(filtering, number, graph)?;
    check_loop(alloc, filtering, number, graph)?;
    check_input(alloc, filtering, number, graph)?;
    check_source(alloc, filtering, number, graph)
}

fn shown(out: &OutputJob, pad: &InPad) -> OutStream
    ensures { result ≡ record { source = pad.now.source; head = pad.now.head; packed = packed_by out.now pad.now.head } }
{
    let packed = packed_as(out, pad.head);
    OutStream {
        source: pad.source,
        head: pad.head,
        packed,
    }
}

// A stream through a graph with these open output pads.
fn through(
    alloc: Global,
    out: &OutputJob,
    number: u32,
    pad: &InPad,
    outs: &[OpenOut],
) -> Result<Passed, PlanError>
    ensures made { IfOk result (λ p. through_graph out.now number pad.now outs.now ≡ Ok p) }
    ensures refused { IfErr result (IsRefused (through_graph out.now number pad.now outs.now)) }
{
    if outs.len() != 1 {
        return Err(wrong_pads(number));
    }
    let made = InPad {
        source: Origin::Pad {
            graph: number,
            pad: 0,
        },
        head: outs[0].head,
    };
    let ins = Vec::from_slice(alloc, &[*pad])?;
    Ok(Passed {
        what: shown(out, &made),
        graph: Some(Laid {
            graph: number,
            ins: Sequence::of(ins),
        }),
    })
}

// A stream through a simple graph of this number.
fn simply<F: Filtering>(
    alloc: Global,
    filtering: &F,
    out: &OutputJob,
    number: u32,
    pad: &InPad,
    graph: &Graph,
) -> Result<Passed, PlanError>
    requires { IsShort graph.now }
    ensures made { IfOk result (λ p. simply_passed (F.rules filtering.now) out.now number pad.now graph.now ≡ Ok p) }
    ensures refused { IfErr result (IsRefused (simply_passed (F.rules filtering.now) out.now number pad.now graph.now)) }
{
    check_simple(alloc, filtering, number, graph)?;
    let heads = [Some(pad.head)];
    match filtering.configured(alloc, graph, &heads)? {
        Ok(outs) => through(alloc, out, number, pad, outs.as_slice()),
        Err(refused) => Err(PlanError::Config {
            graph: number,
            filter: refused.filter,
            kind: refused.kind,
        }),
    }
}

fn null_name(kind: Kind) -> &'static str
    ensures { result.now ≡ name_of_null kind }
{
    match kind {
        Kind::Audio => "anull",
        Kind::Video => "null",
    }
}

// The graph of one filter that changes nothing.
fn null_graph(alloc: Global, kind: Kind) -> Result<Graph, AllocError>
    ensures { IfOk result (λ g. g ≡ graph_of_nothing kind) }
{
    let name = String::from_str(alloc, null_name(kind))?;
    let mut filters = Sequence::new(alloc);
    filters.push(Filter {
        ins: Sequence::new(alloc),
        name: Text::of(name),
        args: Sequence::new(alloc),
        outs: Sequence::new(alloc),
    })?;
    let mut chains = Sequence::new(alloc);
    chains.push(Chain { filters })?;
    Ok(Graph { chains })
}

/// The simple graph of an output for streams of a kind.
pub fn simple_graph(out: &OutputJob, kind: Kind) -> &Option<Graph>
    ensures { result.now ≡ simple_of out.now kind }
{
    match kind {
        Kind::Audio => &out.af,
        Kind::Video => &out.vf,
    }
}

fn as_it_is(out: &OutputJob, pad: &InPad) -> Passed
    ensures { unchanged out.now pad.now ≡ Ok result }
{
    Passed {
        what: shown(out, pad),
        graph: None,
    }
}

// A stream of an input without a simple graph.
fn through_none<F: Filtering>(
    alloc: Global,
    filtering: &F,
    out: &OutputJob,
    number: u32,
    pad: &InPad,
) -> Result<Passed, PlanError>
    ensures made { IfOk result (λ p. passed_with (F.rules filtering.now) out.now number pad.now None ≡ Ok p) }
    ensures refused { IfErr result (IsRefused (passed_with (F.rules filtering.now) out.now number pad.now None)) }
{
    let graph = null_graph(alloc, kind_of(pad.head))?;
    simply(alloc, filtering, out, number, pad, &graph)
}

// A stream of an output, by where it comes from.
fn passed_from<F: Filtering>(
    alloc: Global,
    filtering: &F,
    out: &OutputJob,
    number: u32,
    pad: &InPad,
) -> Result<Passed, PlanError>
    requires { HasShortGraphs out.now }
    ensures made { IfOk result (λ p. passed_by_origin (F.rules filtering.now) out.now number pad.now pad.now.source ≡ Ok p) }
    ensures refused { IfErr result (IsRefused (passed_by_origin (F.rules filtering.now) out.now number pad.now pad.now.source)) }
{
    if let Origin::Pad { .. } = pad.source {
        return Ok(as_it_is(out, pad));
    }
    match simple_graph(out, kind_of(pad.head)) {
        Some(graph) => simply(alloc, filtering, out, number, pad, graph),
        None => through_none(alloc, filtering, out, number, pad),
    }
}

// Looks at the n-th stream of an output as it leaves its graph: whether it is what it is asked to be.
fn check_asked(out: &OutputJob, output: u32, n: usize, passed: &Passed) -> Result<(), PlanError>
    requires { n ≤ 16 }
    ensures fine { IfOk result (λ _. where_so (not (is_so_asked out.now.asked passed.now.what.head)) (PlanError.Takes output n) ≡ None) }
    ensures fault { IfErr result (IsFault (where_so (not (is_so_asked out.now.asked passed.now.what.head)) (PlanError.Takes output n))) }
{
    if is_as_asked(out.asked, passed.what.head) {
        Ok(())
    } else {
        Err(PlanError::Takes {
            output,
            stream: n as u32,
        })
    }
}

// The n-th stream of an output.
fn passed<F: Filtering>(
    alloc: Global,
    filtering: &F,
    out: &OutputJob,
    output: u32,
    number: u32,
    n: usize,
    pad: &InPad,
) -> Result<Passed, PlanError>
    requires short { HasShortGraphs out.now }
    requires small { n ≤ 16 }
    ensures made { IfOk result (λ p. stream_passed (F.rules filtering.now) out.now output number n pad.now ≡ Ok p) }
    ensures refused { IfErr result (IsRefused (stream_passed (F.rules filtering.now) out.now output number n pad.now)) }
    ensures few { IfOk result (λ _. n < 16) }
{
    if !accepts(out, n, *pad) {
        return Err(PlanError::Takes {
            output,
            stream: n as u32,
        });
    }
    let made = passed_from(alloc, filtering, out, number, pad)?;
    check_asked(out, output, n, &made)?;
    Ok(made)
}

// How many graphs a stream passes through.
fn graphs_through(passed: &Passed) -> u32
    ensures count { result ≡ length (graph_of passed.now) }
    ensures few { result ≤ 1 }
{
    match &passed.graph {
        Some(_) => 1,
        None => 0,
    }
}

/// How many simple graphs the streams of an output have.
pub(crate) fn graphs_in(row: &[Passed]) -> u32
    requires { length row.now ≤ 16 }
    ensures count { result ≡ graphs_of row.now }
    ensures few { result ≤ 16 }
{
    let mut count = 0;
    for passed in row {
        count += graphs_through(passed);
    }
    count
}

fn add_passed(row: &mut Vec<Passed>, passed: Passed) -> Result<(), AllocError>
    ensures items { OnOk result (row.new.items ≡ row.old.items ++ passed ∷ []) }
    ensures len { OnOk result (vec_len row.new ≡ vec_len row.old + 1) }
{
    row.push(passed)?;
    Ok(())
}

/// The streams of an output that are shown by these, of which simple graphs have numbers from this one on.
pub(crate) fn all_passed<F: Filtering>(
    alloc: Global,
    filtering: &F,
    out: &OutputJob,
    output: u32,
    first: u32,
    pads: &[InPad],
) -> Result<Sequence<Passed>, PlanError>
    requires short { HasShortGraphs out.now }
    requires small { first + 16 < 2 ^ 32 }
    ensures made { IfOk result (λ ps. streams_passed (F.rules filtering.now) out.now output first 0 pads.now ≡ Ok ps) }
    ensures refused { IfErr result (IsRefused (streams_passed (F.rules filtering.now) out.now output first 0 pads.now)) }
    ensures few { IfOk result (λ ps. length ps ≤ 16) }
{
    let mut row = Vec::new(alloc);
    let mut number = first;
    for (n, pad) in pads.iter().enumerate() {
        let one = passed(alloc, filtering, out, output, number, n, pad)?;
        number += graphs_through(&one);
        add_passed(&mut row, one)?;
    }
    Ok(Sequence::of(row))
}
