//! The first fault of the names and labels of complex graphs.
ghost use Rattle.std.specs.Prelude.{◌≡◌, ◌⊎◌, ◌+◌, ◌^◌, ◌<◌, ◌++◌, ◌||◌, true, false, [], None, IfOk, IfErr, OnOk, length};
ghost use Rattle.std.specs.List.{AllByRecursion};
ghost use Rattle.ff_graph_links.specs.labels.Labels.{is_one_of as one_of, filters_of, IsShort, ins_of, outs_of, taken_in, given_in};
ghost use Rattle.ff_graph_links.specs.labels.Names.{unknown_label, twice as stands_twice, filter_fault, filters_fault, graphs_fault};
ghost use Rattle.ff_graph_links.specs.labels.Names.{all_given, labels_fault, IsFaultOf};

use crate::labels::fault::LabelFault;
use crate::labels::known::Known;
use crate::labels::labels::is_one_of;
use ff_lang::{Chain, Filter, Graph, Text};
use std::alloc::{AllocError, Global};

fn copy_of(alloc: Global, text: &Text) -> Result<Text, AllocError>
    ensures { IfOk result (λ copy. copy ≡ text.now) }
{
    Ok(Text::of(String::from_str(alloc, text.as_str())?))
}

fn add_texts(all: &mut Vec<Text>, alloc: Global, texts: &[Text]) -> Result<(), AllocError>
    ensures { OnOk result (all.new.items ≡ all.old.items ++ texts.now) }
{
    for text in texts {
        all.push(copy_of(alloc, text)?)?;
    }
    Ok(())
}

fn unknown(alloc: Global, label: &Text) -> LabelFault
    ensures { (result ≡ LabelFault.NoMemory) ⊎ (result ≡ LabelFault.UnknownLabel label.now) }
{
    match copy_of(alloc, label) {
        Ok(label) => LabelFault::UnknownLabel { label },
        Err(_) => LabelFault::NoMemory,
    }
}

fn repeated(alloc: Global, label: &Text) -> LabelFault
    ensures { (result ≡ LabelFault.NoMemory) ⊎ (result ≡ LabelFault.LabelTwice label.now) }
{
    match copy_of(alloc, label) {
        Ok(label) => LabelFault::LabelTwice { label },
        Err(_) => LabelFault::NoMemory,
    }
}

// Whether a label is one of the given ones or a stream.
fn is_named<K: Known>(
    alloc: Global,
    known: &K,
    given: &[Text],
    label: &Text,
) -> Result<bool, AllocError>
    ensures { IfOk result (λ named. named ≡ (one_of label.now given.now || K.stream known.now label.now)) }
{
    if is_one_of(label.as_str(), given) {
        return Ok(true);
    }
    known.is_stream(alloc, label.as_str())
}

fn check_known<K: Known>(
    alloc: Global,
    known: &K,
    given: &[Text],
    labels: &[Text],
) -> Result<(), LabelFault>
    ensures fine { IfOk result (λ _. unknown_label (K.stream known.now) given.now labels.now ≡ None) }
    ensures fault { IfErr result (IsFaultOf (unknown_label (K.stream known.now) given.now labels.now)) }
{
    for label in labels {
        let named = is_named(alloc, known, given, label)?;
        if !named {
            return Err(unknown(alloc, label));
        }
    }
    Ok(())
}

// Whether a label counts that may stand only once.
fn counts(all: bool, given: &[Text], label: &Text) -> bool
    ensures { result ≡ (all || one_of label.now given.now) }
{
    all || is_one_of(label.as_str(), given)
}

/// Looks for a label that stands a second time and may stand only once.
pub(crate) fn check_twice(
    alloc: Global,
    all: bool,
    given: &[Text],
    before: &[Text],
    labels: &[Text],
) -> Result<(), LabelFault>
    ensures fine { IfOk result (λ _. stands_twice all given.now before.now labels.now ≡ None) }
    ensures fault { IfErr result (IsFaultOf (stands_twice all given.now before.now labels.now)) }
{
    for (at, label) in labels.iter().enumerate() {
        let stood = is_one_of(label.as_str(), before) || is_one_of(label.as_str(), &labels[..at]);
        if counts(all, given, label) && stood {
            return Err(repeated(alloc, label));
        }
    }
    Ok(())
}

/// The labels that stood at input and at output pads.
#[derive(Drop)]
pub(crate) struct Seen {
    /// Those at input pads.
    pub(crate) ins: Vec<Text>,
    /// Those at output pads.
    pub(crate) outs: Vec<Text>,
}

/// One more filter's labels.
pub(crate) fn add_seen(seen: &mut Seen, alloc: Global, filter: &Filter) -> Result<(), AllocError>
    ensures ins { OnOk result (seen.new.ins.items ≡ seen.old.ins.items ++ filter.now.ins) }
    ensures outs { OnOk result (seen.new.outs.items ≡ seen.old.outs.items ++ filter.now.outs) }
{
    add_texts(&mut seen.ins, alloc, filter.ins.as_slice())?;
    add_texts(&mut seen.outs, alloc, filter.outs.as_slice())
}

fn check_filter<K: Known>(
    alloc: Global,
    known: &K,
    given: &[Text],
    graph: u32,
    number: u32,
    seen: &Seen,
    filter: &Filter,
) -> Result<(), LabelFault>
    ensures fine { IfOk result (λ _. filter_fault (K.filter known.now) (K.stream known.now) given.now graph number
        seen.now.ins.items seen.now.outs.items filter.now ≡ None) }
    ensures fault { IfErr result (IsFaultOf (filter_fault (K.filter known.now) (K.stream known.now) given.now graph number
        seen.now.ins.items seen.now.outs.items filter.now)) }
{
    if !known.is_filter(filter.name.as_str()) {
        return Err(LabelFault::UnknownFilter {
            graph,
            filter: number,
        });
    }
    check_known(alloc, known, given, filter.ins.as_slice())?;
    check_twice(
        alloc,
        false,
        given,
        seen.ins.as_slice(),
        filter.ins.as_slice(),
    )?;
    check_twice(
        alloc,
        true,
        given,
        seen.outs.as_slice(),
        filter.outs.as_slice(),
    )
}

// The filters of a chain, of which the first has this number.
fn check_chain<K: Known>(
    alloc: Global,
    known: &K,
    given: &[Text],
    graph: u32,
    first: u32,
    seen: &mut Seen,
    filters: &[Filter],
) -> Result<(), LabelFault>
    requires few { first + length filters.now < 2 ^ 32 }
    ensures fine { IfOk result (λ _. filters_fault (K.filter known.now) (K.stream known.now) given.now graph first
        seen.old.ins.items seen.old.outs.items filters.now ≡ None) }
    ensures fault { IfErr result (IsFaultOf (filters_fault (K.filter known.now) (K.stream known.now) given.now graph first
        seen.old.ins.items seen.old.outs.items filters.now)) }
    ensures ins { OnOk result (seen.new.ins.items ≡ seen.old.ins.items ++ ins_of filters.now) }
    ensures outs { OnOk result (seen.new.outs.items ≡ seen.old.outs.items ++ outs_of filters.now) }
{
    for (at, filter) in filters.iter().enumerate() {
        check_filter(alloc, known, given, graph, first + at as u32, seen, filter)?;
        add_seen(seen, alloc, filter)?;
    }
    Ok(())
}

fn check_graph<K: Known>(
    alloc: Global,
    known: &K,
    given: &[Text],
    number: u32,
    seen: &mut Seen,
    graph: &Graph,
) -> Result<(), LabelFault>
    requires few { IsShort graph.now }
    ensures fine { IfOk result (λ _. filters_fault (K.filter known.now) (K.stream known.now) given.now number 0
        seen.old.ins.items seen.old.outs.items (filters_of graph.now) ≡ None) }
    ensures fault { IfErr result (IsFaultOf (filters_fault (K.filter known.now) (K.stream known.now) given.now number 0
        seen.old.ins.items seen.old.outs.items (filters_of graph.now))) }
    ensures ins { OnOk result (seen.new.ins.items ≡ seen.old.ins.items ++ taken_in graph.now) }
    ensures outs { OnOk result (seen.new.outs.items ≡ seen.old.outs.items ++ given_in graph.now) }
{
    let mut first = 0;
    for chain in graph.chains.as_slice() {
        let filters = chain.filters.as_slice();
        match check_chain(alloc, known, given, number, first, seen, filters) {
            Ok(()) => {}
            Err(fault) => return Err(fault),
        }
        first += filters.len() as u32;
    }
    Ok(())
}

fn add_chain(all: &mut Vec<Text>, alloc: Global, chain: &Chain) -> Result<(), AllocError>
    ensures { OnOk result (all.new.items ≡ all.old.items ++ outs_of chain.now.filters) }
{
    for filter in chain.filters.as_slice() {
        add_texts(all, alloc, filter.outs.as_slice())?;
    }
    Ok(())
}

fn add_given(all: &mut Vec<Text>, alloc: Global, graph: &Graph) -> Result<(), AllocError>
    ensures { OnOk result (all.new.items ≡ all.old.items ++ given_in graph.now) }
{
    for chain in graph.chains.as_slice() {
        add_chain(all, alloc, chain)?;
    }
    Ok(())
}

/// All labels that graphs give, in the order of writing.
pub fn labels_given(alloc: Global, graphs: &[Graph]) -> Result<Vec<Text>, AllocError>
    ensures { IfOk result (λ labels. labels.items ≡ all_given graphs.now) }
{
    let mut all = Vec::new(alloc);
    for graph in graphs {
        add_given(&mut all, alloc, graph)?;
    }
    Ok(all)
}

/// Looks at the names and labels of complex graphs for the first fault by graph and filter. At each filter its name
/// comes first, then labels that name nothing, then labels that stand twice.
pub fn check_labels<K: Known>(alloc: Global, known: &K, graphs: &[Graph]) -> Result<(), LabelFault>
    requires graphs { length graphs.now < 2 ^ 32 }
    requires filters { AllByRecursion IsShort graphs.now }
    ensures fine { IfOk result (λ _. labels_fault (K.filter known.now) (K.stream known.now) graphs.now ≡ None) }
    ensures fault { IfErr result (IsFaultOf (labels_fault (K.filter known.now) (K.stream known.now) graphs.now)) }
{
    let given = labels_given(alloc, graphs)?;
    let mut seen = Seen {
        ins: Vec::new(alloc),
        outs: Vec::new(alloc),
    };
    for (number, graph) in graphs.iter().enumerate() {
        check_graph(
            alloc,
            known,
            given.as_slice(),
            number as u32,
            &mut seen,
            graph,
        )?;
    }
    Ok(())
}
