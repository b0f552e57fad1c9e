//! The numbers of ports.
ghost use Rattle.std.specs.Prelude.{◌≡◌, ◌<◌, ◌==◌, ◌^◌, length, IfOk};
ghost use Rattle.ff_stream.specs.declared.edges.edge.Edge.{Edge};
ghost use Rattle.ff_plan.specs.Wires.{edges_of};
ghost use Rattle.ff_stream.specs.edges.Ports.{tally};

use ff_stream::{Edge, Lane};
use std::alloc::{AllocError, Global};

/// From a node to a later one. An output port is named where the node is a graph, by the number of its open output
/// pad. Else it is the node's next one. The input port is always the next one.
#[derive(Debug, Drop)]
pub struct Wire {
    /// The node that it leaves.
    pub from: u32,
    /// The output port of that node, where it is named.
    pub port: Option<u32>,
    /// The node to which it leads.
    pub to: u32,
    /// What it carries.
    pub lane: Lane,
}

fn leaving(edges: &[Edge], node: u32) -> u32
    requires { length edges.now < 2 ^ 32 }
    ensures { result ≡ tally (λ (e : Edge). e.from == node) edges.now }
{
    let mut count: u32 = 0;
    for edge in edges {
        if edge.from == node {
            count += 1;
        }
    }
    count
}

fn entering(edges: &[Edge], node: u32) -> u32
    requires { length edges.now < 2 ^ 32 }
    ensures { result ≡ tally (λ (e : Edge). e.to == node) edges.now }
{
    let mut count: u32 = 0;
    for edge in edges {
        if edge.to == node {
            count += 1;
        }
    }
    count
}

/// The edges of these wires.
pub fn number_ports(alloc: Global, wires: &[Wire]) -> Result<Vec<Edge>, AllocError>
    requires { length wires.now < 2 ^ 32 }
    ensures { IfOk result (λ edges. edges.items ≡ edges_of wires.now) }
{
    let mut edges = Vec::new(alloc);
    for wire in wires {
        let out_port = match wire.port {
            Some(port) => port,
            None => leaving(edges.as_slice(), wire.from),
        };
        let in_port = entering(edges.as_slice(), wire.to);
        let lane = wire.lane.copy();
        edges.push(Edge {
            from: wire.from,
            out_port,
            to: wire.to,
            in_port,
            lane,
        })?;
    }
    Ok(edges)
}
