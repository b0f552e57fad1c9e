//! The edges at the ports of a node.
ghost use Rattle.std.specs.Prelude.{◌≡◌, IfOk};
ghost use Rattle.ff_stream.specs.edges.Ports.{edge_to, edge_from, at_ports};

use crate::edges::edge::Edge;
use std::alloc::{AllocError, Global};

// The number of the edge at an input, and the number of all edges where there is none.
fn at_input(edges: &[Edge], node: usize, port: usize) -> usize
    ensures { result ≡ edge_to edges.now node port }
{
    for k in 0..edges.len() {
        if edges[k].is_at_input(node, port) {
            return k;
        }
    }
    edges.len()
}

// The number of the edge at an output, and the number of all edges where there is none.
fn at_output(edges: &[Edge], node: usize, port: usize) -> usize
    ensures { result ≡ edge_from edges.now node port }
{
    for k in 0..edges.len() {
        if edges[k].is_at_output(node, port) {
            return k;
        }
    }
    edges.len()
}

/// The numbers of the edges at the inputs of a node that has so many.
pub fn edges_into(
    alloc: Global,
    edges: &[Edge],
    node: usize,
    inputs: usize,
) -> Result<Vec<usize>, AllocError>
    ensures { IfOk result (λ numbers. numbers.items ≡ at_ports (edge_to edges.now node) inputs) }
{
    let mut numbers = Vec::new(alloc);
    for port in 0..inputs {
        numbers.push(at_input(edges, node, port))?;
    }
    Ok(numbers)
}

/// The numbers of the edges at the outputs of a node that has so many.
pub fn edges_out_of(
    alloc: Global,
    edges: &[Edge],
    node: usize,
    outputs: usize,
) -> Result<Vec<usize>, AllocError>
    ensures { IfOk result (λ numbers. numbers.items ≡ at_ports (edge_from edges.now node) outputs) }
{
    let mut numbers = Vec::new(alloc);
    for port in 0..outputs {
        numbers.push(at_output(edges, node, port))?;
    }
    Ok(numbers)
}
