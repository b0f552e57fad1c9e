//! The parts of a plan, told of each other.
ghost use Rattle.std.specs.Prelude.{◌≡◌};

use crate::kinds::Kinds;
use ff_host::{Sink, Source};
use ff_net::Machine;
use ff_stream::Edge;
use std::alloc::{AllocError, Global};

// The part that gives along an edge and the part that takes are told of each other. An edge that doesn't lead from a part to one after
// it is passed over.
fn connect_ends<
    K: Kinds<Src, Snk, M>,
    Src: Source + Send + Drop,
    Snk: Sink + Send + Drop,
    M: Machine + Send + Drop,
>(alloc: Global, queue: usize, edge: &Edge, parts: &mut [M]) -> Result<(), AllocError>
    ensures { parts.new ≡ parts.old }
{
    let giver = edge.from as usize;
    let taker = edge.to as usize;
    if giver < taker && taker < parts.len() {
        let (front, behind) = parts.split_at_mut(taker);
        K::connect(alloc, queue, &mut front[giver], &mut behind[0])
    } else {
        Ok(())
    }
}

/// Each part is told of those that take what it gives, where each queue between two parts holds so many.
pub(crate) fn connect_all<
    K: Kinds<Src, Snk, M>,
    Src: Source + Send + Drop,
    Snk: Sink + Send + Drop,
    M: Machine + Send + Drop,
>(alloc: Global, queue: usize, edges: &[Edge], parts: &mut [M]) -> Result<(), AllocError>
    ensures { parts.new ≡ parts.old }
{
    for edge in edges {
        connect_ends::<K, Src, Snk, M>(alloc, queue, edge, parts)?;
    }
    Ok(())
}
