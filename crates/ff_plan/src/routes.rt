//! The routes of output streams and graphs.
ghost use Rattle.std.specs.Prelude.{◌≡◌, ◌==◌, ◌^◌, ◌<◌, IfOk, length, map};
ghost use Rattle.std.specs.List.{find, range_with_len};
ghost use Rattle.ff_plan_layout.specs.declared.layout.InPad.{InPad};
ghost use Rattle.ff_plan_layout.specs.declared.layout.Laid.{Laid};
ghost use Rattle.ff_plan_layout.specs.declared.layout.Placed.{Placed};
ghost use Rattle.ff_plan.specs.Nodes.{way_to as way_of, ways_in};

use ff_plan_layout::{InPad, Laid, Origin, Placed};
use ff_sched::{Way, Ways};
use std::alloc::{AllocError, Global};

fn way_to(source: Origin) -> Way
    ensures { result ≡ way_of source }
{
    match source {
        Origin::Stream(at) => Way::Source(at.input),
        Origin::Pad { graph, pad: _ } => Way::Graph(graph),
    }
}

/// The ways of the outputs' streams.
pub(crate) fn ways(alloc: Global, placed: &[Placed]) -> Result<Vec<Way>, AllocError>
    ensures { IfOk result (λ ws. ws.items ≡ map (λ (p : Placed). way_of p.what.source) placed.now) }
{
    let mut ways = Vec::new(alloc);
    for one in placed {
        ways.push(way_to(one.what.source))?;
    }
    Ok(ways)
}

// The ways of the inputs of a graph.
fn pad_ways(alloc: Global, ins: &[InPad]) -> Result<Vec<Way>, AllocError>
    ensures { IfOk result (λ ws. ws.items ≡ map (λ (i : InPad). way_of i.source) ins.now) }
{
    let mut ways = Vec::new(alloc);
    for pad in ins {
        ways.push(way_to(pad.source))?;
    }
    Ok(ways)
}

// The ways of the inputs of the graph of this number.
fn ways_of(alloc: Global, graphs: &[Laid], number: u32) -> Result<Vec<Way>, AllocError>
    ensures { IfOk result (λ ws. ws.items ≡ ways_in (find (λ (x : Laid). x.graph == number) graphs.now)) }
{
    for graph in graphs {
        if graph.graph == number {
            return pad_ways(alloc, graph.ins.as_slice());
        }
    }
    Ok(Vec::new(alloc))
}

/// The ways of the inputs of each graph, by its number.
pub(crate) fn graph_ways(alloc: Global, graphs: &[Laid]) -> Result<Vec<Ways>, AllocError>
    requires { length graphs.now < 2 ^ 32 }
    ensures { IfOk result (λ ws. ws.items ≡ map (λ g. ways_in (find (λ (x : Laid). x.graph == g) graphs.now)) (range_with_len 0 (length graphs.now))) }
{
    let mut ways = Vec::new(alloc);
    for number in 0..graphs.len() {
        ways.push(Ways::new(ways_of(alloc, graphs, number as u32)?))?;
    }
    Ok(ways)
}
