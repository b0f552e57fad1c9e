//! The edges at the ports of each filter.
ghost use Rattle.std.specs.Prelude.{◌≡◌, length, map, IfOk};
ghost use Rattle.ff_graph_dag.specs.laws.wiring.Wires.{feeds_in, edges_up, ins_from, outs_from};

use crate::wiring::ends::edge_of;
use crate::{Node, Port};
use std::alloc::{AllocError, Global};

// The edges at so many ports of a filter.
fn edges_at(
    alloc: Global,
    ports: &[Option<Port>],
    filter: usize,
    count: usize,
) -> Result<Vec<usize>, AllocError>
    ensures { IfOk result (λ edges. edges.items ≡ edges_up ports.now filter 0 count) }
{
    let mut edges = Vec::new(alloc);
    'ports: for port in 0..count {
        edges.push(edge_of(ports, Port { filter, port }))?;
    }
    Ok(edges)
}

/// The edges at the inputs and outputs of each filter.
pub fn nodes(
    alloc: Global,
    fed: &[Vec<Option<Port>>],
    counts: &[usize],
    ends: &[Option<Port>],
    starts: &[Option<Port>],
) -> Result<Vec<Node>, AllocError>
    requires { length counts.now ≡ length fed.now }
    ensures ins { IfOk result (λ nodes. map (λ n. n.ins.items) nodes.items ≡ ins_from ends.now 0 (feeds_in fed.now)) }
    ensures outs { IfOk result (λ nodes. map (λ n. n.outs.items) nodes.items ≡ outs_from starts.now 0 counts.now) }
{
    let mut nodes = Vec::new(alloc);
    'filters: for filter in 0..fed.len() {
        let ins = edges_at(alloc, ends, filter, fed[filter].len())?;
        let outs = edges_at(alloc, starts, filter, counts[filter])?;
        nodes.push(Node { ins, outs })?;
    }
    Ok(nodes)
}
