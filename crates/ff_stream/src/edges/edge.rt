//! The edges of a graph of nodes.
ghost use Rattle.std.specs.Prelude.{◌≡◌};
ghost use Rattle.ff_stream.specs.edges.Ports.{leads_to, leaves};

use crate::Lane;

/// From an output of a node to an input of another. Nodes and ports have numbers from 0.
#[derive(Debug, Drop)]
pub struct Edge {
    /// The node that it leaves.
    pub from: u32,
    /// The output of that node.
    pub out_port: u32,
    /// The node to which it leads.
    pub to: u32,
    /// The input of that node.
    pub in_port: u32,
    /// Which items go along it.
    pub lane: Lane,
}

impl Edge {
    /// Whether it leads to this input of this node.
    pub fn is_at_input(&self, node: usize, port: usize) -> bool
        ensures { result ≡ leads_to node port self.now }
    {
        self.to as usize == node && self.in_port as usize == port
    }

    /// Whether it leaves this output of this node.
    pub fn is_at_output(&self, node: usize, port: usize) -> bool
        ensures { result ≡ leaves node port self.now }
    {
        self.from as usize == node && self.out_port as usize == port
    }
}
