//! The labels and filter names of a simple graph by itself.
ghost use Rattle.std.specs.Prelude.{◌≡◌, ◌+◌, ◌^◌, ◌<◌, ◌++◌, [], None, IfOk, IfErr, OnOk, length};
ghost use Rattle.ff_graph_links.specs.labels.Labels.{filters_of, IsShort, ins_of, outs_of};
ghost use Rattle.ff_graph_links.specs.labels.Names.{own_fault, twice_in, unknown_filter, IsFaultOf};

use crate::labels::fault::LabelFault;
use crate::labels::known::Known;
use crate::labels::names::{Seen, add_seen, check_twice};
use ff_lang::{Filter, Graph};
use std::alloc::Global;

fn check_pads(alloc: Global, seen: &Seen, filter: &Filter) -> Result<(), LabelFault>
    ensures fine { IfOk result (λ _. own_fault seen.now.ins.items seen.now.outs.items filter.now ≡ None) }
    ensures fault { IfErr result (IsFaultOf (own_fault seen.now.ins.items seen.now.outs.items filter.now)) }
{
    let none = Vec::new(alloc);
    check_twice(
        alloc,
        true,
        none.as_slice(),
        seen.ins.as_slice(),
        filter.ins.as_slice(),
    )?;
    check_twice(
        alloc,
        true,
        none.as_slice(),
        seen.outs.as_slice(),
        filter.outs.as_slice(),
    )
}

// The labels of the filters of a chain.
fn check_chain(alloc: Global, seen: &mut Seen, filters: &[Filter]) -> Result<(), LabelFault>
    ensures fine { IfOk result (λ _. twice_in seen.old.ins.items seen.old.outs.items filters.now ≡ None) }
    ensures fault { IfErr result (IsFaultOf (twice_in seen.old.ins.items seen.old.outs.items filters.now)) }
    ensures ins { OnOk result (seen.new.ins.items ≡ seen.old.ins.items ++ ins_of filters.now) }
    ensures outs { OnOk result (seen.new.outs.items ≡ seen.old.outs.items ++ outs_of filters.now) }
{
    for filter in filters {
        check_pads(alloc, seen, filter)?;
        add_seen(seen, alloc, filter)?;
    }
    Ok(())
}

fn check_chains(alloc: Global, seen: &mut Seen, graph: &Graph) -> Result<(), LabelFault>
    ensures fine { IfOk result (λ _. twice_in seen.old.ins.items seen.old.outs.items (filters_of graph.now) ≡ None) }
    ensures fault { IfErr result (IsFaultOf (twice_in seen.old.ins.items seen.old.outs.items (filters_of graph.now))) }
{
    for chain in graph.chains.as_slice() {
        let filters = chain.filters.as_slice();
        match check_chain(alloc, seen, filters) {
            Ok(()) => {}
            Err(fault) => return Err(fault),
        }
    }
    Ok(())
}

/// Looks at the labels of a simple graph: each may stand at one input pad and at one output pad.
pub fn check_own_labels(alloc: Global, graph: &Graph) -> Result<(), LabelFault>
    ensures fine { IfOk result (λ _. twice_in [] [] (filters_of graph.now) ≡ None) }
    ensures fault { IfErr result (IsFaultOf (twice_in [] [] (filters_of graph.now))) }
{
    let mut seen = Seen {
        ins: Vec::new(alloc),
        outs: Vec::new(alloc),
    };
    check_chains(alloc, &mut seen, graph)
}

// The names of the filters of a chain, of which the first has this number.
fn check_names_from<K: Known>(
    known: &K,
    graph: u32,
    first: u32,
    filters: &[Filter],
) -> Result<(), LabelFault>
    requires { first + length filters.now < 2 ^ 32 }
    ensures fine { IfOk result (λ _. unknown_filter (K.filter known.now) graph first filters.now ≡ None) }
    ensures fault { IfErr result (IsFaultOf (unknown_filter (K.filter known.now) graph first filters.now)) }
{
    for (at, filter) in filters.iter().enumerate() {
        if !known.is_filter(filter.name.as_str()) {
            return Err(LabelFault::UnknownFilter {
                graph,
                filter: first + at as u32,
            });
        }
    }
    Ok(())
}

/// Looks at the names of the filters of a simple graph, which has this number.
pub fn check_names<K: Known>(known: &K, number: u32, graph: &Graph) -> Result<(), LabelFault>
    requires { IsShort graph.now }
    ensures fine { IfOk result (λ _. unknown_filter (K.filter known.now) number 0 (filters_of graph.now) ≡ None) }
    ensures fault { IfErr result (IsFaultOf (unknown_filter (K.filter known.now) number 0 (filters_of graph.now))) }
{
    let mut first = 0;
    for chain in graph.chains.as_slice() {
        let filters = chain.filters.as_slice();
        match check_names_from(known, number, first, filters) {
            Ok(()) => {}
            Err(fault) => return Err(fault),
        }
        first += filters.len() as u32;
    }
    Ok(())
}
