//! The ports at the two ends of each edge.
ghost use Rattle.std.specs.Prelude.{◌≡◌, ◌++◌, Some, map, length, IfOk, OnOk};
ghost use Rattle.ff_graph_dag.specs.laws.wiring.Wires.{ends_of, starts_of, numbers, is_at as is_port_at, edge_of as edge_at_port};

use crate::{Port, Wire};
use std::alloc::{AllocError, Global};

/// Where each edge that leads to a filter ends.
pub fn ends(alloc: Global, wires: &[Wire]) -> Result<Vec<Option<Port>>, AllocError>
    ensures { IfOk result (λ ends. ends.items ≡ ends_of wires.now) }
{
    let mut ends = Vec::new(alloc);
    'wires: for wire in 0..wires.len() {
        ends.push(Some(wires[wire].to))?;
    }
    Ok(ends)
}

// Where each edge that leads to a filter starts.
fn froms(alloc: Global, wires: &[Wire]) -> Result<Vec<Option<Port>>, AllocError>
    ensures { IfOk result (λ froms. froms.items ≡ map (λ x. x.from) wires.now) }
{
    let mut froms = Vec::new(alloc);
    'wires: for wire in 0..wires.len() {
        froms.push(wires[wire].from)?;
    }
    Ok(froms)
}

// Adds these ports.
fn add_pads(starts: &mut Vec<Option<Port>>, pads: &[Port]) -> Result<(), AllocError>
    ensures { OnOk result (starts.new.items ≡ starts.old.items ++ map (λ f. Some f) pads.now) }
{
    'pads: for pad in 0..pads.len() {
        starts.push(Some(pads[pad]))?;
    }
    Ok(())
}

/// Where each edge starts, those of the graph's outputs after the others.
pub fn starts(alloc: Global, wires: &[Wire], pads: &[Port]) -> Result<Vec<Option<Port>>, AllocError>
    ensures { IfOk result (λ starts. starts.items ≡ starts_of wires.now pads.now) }
{
    let mut starts = froms(alloc, wires)?;
    add_pads(&mut starts, pads)?;
    Ok(starts)
}

// Whether this is the port.
fn is_at(found: Option<Port>, port: Port) -> bool
    ensures { result ≡ is_port_at found port }
{
    match found {
        None => false,
        Some(at) => at.filter == port.filter && at.port == port.port,
    }
}

/// The first edge that has this port; as many as there are where none has.
pub fn edge_of(ports: &[Option<Port>], port: Port) -> usize
    ensures { result ≡ edge_at_port ports.now port }
{
    'edges: for edge in 0..ports.len() {
        if is_at(ports[edge], port) {
            return edge;
        }
    }
    ports.len()
}
