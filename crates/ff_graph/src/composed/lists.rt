//! Lists that the composition of a graph needs: pads, heads, lanes and places.
ghost use Rattle.std.specs.Prelude.{◌≡◌, ℕ, IfOk, map, length};
ghost use Rattle.ff_stream.specs.declared.item.Lane.TheVariants.{Frames as FramesOf};
ghost use Rattle.ff_graph_dag.specs.laws.Graphs.{spots};
ghost use Rattle.ff_graph.specs.laws.Pads.{heads_in, output_of};
ghost use Rattle.ff_graph.specs.composed.Cuts.{all_given};
ghost use Rattle.ff_graph.specs.laws.composed.Ready.{new_spot, counts_of, pads_of as pads_in_order};

use crate::OpenOutput;
use ff_filter::Filter;
use ff_frame::StreamHead;
use ff_graph_dag::Placed;
use ff_graph_links::Pad;
use ff_stream::Lane;
use std::alloc::{AllocError, Global};

/// What is given to open input pads, each of which has a stream.
pub(crate) fn given(
    alloc: Global,
    heads: &[StreamHead],
) -> Result<Vec<Option<StreamHead>>, AllocError>
    ensures { IfOk result (λ given. given.items ≡ all_given heads.now) }
{
    let mut given = Vec::new(alloc);
    'heads: for at in 0..heads.len() {
        given.push(Some(heads[at]))?;
    }
    Ok(given)
}

/// How many heads each filter has.
pub(crate) fn counts(alloc: Global, heads: &[Vec<StreamHead>]) -> Result<Vec<usize>, AllocError>
    ensures { IfOk result (λ counts. counts.items ≡ counts_of (heads_in heads.now)) }
{
    let mut counts = Vec::new(alloc);
    'filters: for at in 0..heads.len() {
        counts.push(heads[at].len())?;
    }
    Ok(counts)
}

/// Where the open output pads are.
pub(crate) fn pads_of(alloc: Global, outs: &[OpenOutput]) -> Result<Vec<Pad>, AllocError>
    ensures { IfOk result (λ pads. pads.items ≡ pads_in_order (map output_of outs.now)) }
{
    let mut pads = Vec::new(alloc);
    'outs: for at in 0..outs.len() {
        pads.push(outs[at].pad)?;
    }
    Ok(pads)
}

/// The heads at the open output pads.
pub(crate) fn heads_of(alloc: Global, outs: &[OpenOutput]) -> Result<Vec<StreamHead>, AllocError>
    ensures { IfOk result (λ heads. heads.items ≡ map (λ o. o.head) (map output_of outs.now)) }
{
    let mut heads = Vec::new(alloc);
    'outs: for at in 0..outs.len() {
        heads.push(outs[at].head)?;
    }
    Ok(heads)
}

/// Frames of each of these heads.
pub(crate) fn in_lanes(alloc: Global, heads: &[StreamHead]) -> Result<Vec<Lane>, AllocError>
    ensures { IfOk result (λ lanes. lanes.items ≡ map FramesOf heads.now) }
{
    let mut lanes = Vec::new(alloc);
    'heads: for at in 0..heads.len() {
        lanes.push(Lane::Frames(heads[at]))?;
    }
    Ok(lanes)
}

/// Frames of the heads at the open output pads.
pub(crate) fn out_lanes(alloc: Global, outs: &[OpenOutput]) -> Result<Vec<Lane>, AllocError>
    ensures { IfOk result (λ lanes. lanes.items ≡ map (λ o. FramesOf o.head) (map output_of outs.now)) }
{
    let mut lanes = Vec::new(alloc);
    'outs: for at in 0..outs.len() {
        lanes.push(Lane::Frames(outs[at].head))?;
    }
    Ok(lanes)
}

/// Each filter in its place, where nothing waits.
pub(crate) fn places<F: Filter + Drop>(
    alloc: Global,
    filters: Vec<F>,
) -> Result<Vec<Placed<F>>, AllocError>
    ensures { IfOk result (λ places. spots F.view places.items ≡ map (λ v. new_spot v) (map F.view filters.items)) }
{
    let mut places = Vec::new(alloc);
    'filters: for filter in filters {
        places.push(Placed::new(alloc, filter)?)?;
    }
    Ok(places)
}
