//! Pads and sources by the places of their filters in an order.
ghost use Rattle.std.specs.Prelude.{◌≡◌, ◌++◌, [], map, slice_index_or, IfOk};
ghost use Rattle.ff_graph_links.specs.pads.Links.{pads_in};
ghost use Rattle.ff_graph_dag.specs.laws.wiring.Wires.{feeds_in};
ghost use Rattle.ff_graph_dag.specs.wiring.Flows.{place_in as place_of, port_at as port_of_pad, port_of_source};
ghost use Rattle.ff_graph_dag.specs.wiring.Flows.{placed as placed_as, placed_pads as pads_placed, placed_counts as counts_placed};

use crate::Port;
use ff_graph_links::Pad;
use std::alloc::{AllocError, Global};

// The place of a filter in the order; how many there are where it has none.
fn place_in(order: &[usize], filter: usize) -> usize
    ensures { result ≡ place_of order.now filter }
{
    'order: for place in 0..order.len() {
        if order[place] == filter {
            return place;
        }
    }
    order.len()
}

// A pad by the place of its filter.
fn port_at(order: &[usize], pad: Pad) -> Port
    ensures { result ≡ port_of_pad order.now pad }
{
    Port {
        filter: place_in(order, pad.filter),
        port: pad.pad,
    }
}

// So for what feeds a pad.
fn source_at(order: &[usize], source: Option<Pad>) -> Option<Port>
    ensures { result ≡ port_of_source order.now source }
{
    match source {
        None => None,
        Some(pad) => Some(port_at(order, pad)),
    }
}

// And for what feeds the pads of a filter.
fn sources_at(
    alloc: Global,
    order: &[usize],
    sources: &[Option<Pad>],
) -> Result<Vec<Option<Port>>, AllocError>
    ensures { IfOk result (λ ports. ports.items ≡ map (λ s. port_of_source order.now s) sources.now) }
{
    let mut ports = Vec::new(alloc);
    'pads: for pad in 0..sources.len() {
        ports.push(source_at(order, sources[pad]))?;
    }
    Ok(ports)
}

// What feeds the pads of the filter of this number; nothing where there is none.
fn sources_of<'a>(sources: &'a [Vec<Option<Pad>>], filter: usize) -> &'a [Option<Pad>]
    ensures { result.now ≡ slice_index_or (pads_in sources.entry.now) filter [] }
{
    if filter >= sources.len() {
        return &[];
    }
    sources[filter].as_slice()
}

// And for the filter of this number.
fn source_ports(
    alloc: Global,
    order: &[usize],
    sources: &[Vec<Option<Pad>>],
    filter: usize,
) -> Result<Vec<Option<Port>>, AllocError>
    ensures { IfOk result (λ ports. ports.items ≡ map (λ s. port_of_source order.now s) (slice_index_or (pads_in sources.now) filter [])) }
{
    sources_at(alloc, order, sources_of(sources, filter))
}

/// What feeds the inputs of each filter, filters in this order and by their places in it.
pub fn placed(
    alloc: Global,
    order: &[usize],
    sources: &[Vec<Option<Pad>>],
) -> Result<Vec<Vec<Option<Port>>>, AllocError>
    ensures { IfOk result (λ fed. feeds_in fed.items ≡ placed_as order.now (pads_in sources.now)) }
{
    let mut fed = Vec::new(alloc);
    'places: for place in 0..order.len() {
        let ports = source_ports(alloc, order, sources, order[place])?;
        fed.push(ports)?;
    }
    Ok(fed)
}

/// These pads by the places of their filters.
pub fn placed_pads(alloc: Global, order: &[usize], pads: &[Pad]) -> Result<Vec<Port>, AllocError>
    ensures { IfOk result (λ ports. ports.items ≡ pads_placed order.now pads.now) }
{
    let mut ports = Vec::new(alloc);
    'pads: for pad in 0..pads.len() {
        ports.push(port_at(order, pads[pad]))?;
    }
    Ok(ports)
}

// How many output pads the filter of this number has; none where there is no filter.
fn count_of(counts: &[usize], filter: usize) -> usize
    ensures { result ≡ slice_index_or counts.now filter 0 }
{
    if filter >= counts.len() {
        return 0;
    }
    counts[filter]
}

/// How many output pads each filter has, filters in this order.
pub fn placed_counts(
    alloc: Global,
    order: &[usize],
    counts: &[usize],
) -> Result<Vec<usize>, AllocError>
    ensures { IfOk result (λ placed. placed.items ≡ counts_placed order.now counts.now) }
{
    let mut placed = Vec::new(alloc);
    'places: for place in 0..order.len() {
        placed.push(count_of(counts, order[place]))?;
    }
    Ok(placed)
}
