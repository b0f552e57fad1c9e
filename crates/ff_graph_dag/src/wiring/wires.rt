//! The edges that lead to filters.
ghost use Rattle.std.specs.Prelude.{◌≡◌, ◌++◌, None, Some, map, IfOk, OnOk};
ghost use Rattle.ff_graph_dag.specs.laws.wiring.Wires.{feeds_in, entering, links_at, links_from, wires_of};

use crate::{Port, Wire};
use std::alloc::{AllocError, Global};

// Adds an edge for each input of the graph.
fn add_entering(wires: &mut Vec<Wire>, opens: &[Port]) -> Result<(), AllocError>
    ensures { OnOk result (wires.new.items ≡ wires.old.items ++ entering opens.now) }
{
    'inputs: for input in 0..opens.len() {
        wires.push(Wire {
            from: None,
            to: opens[input],
        })?;
    }
    Ok(())
}

// Adds an edge for each input of a filter that another feeds.
fn add_links(wires: &mut Vec<Wire>, filter: usize, fed: &[Option<Port>]) -> Result<(), AllocError>
    ensures { OnOk result (wires.new.items ≡ wires.old.items ++ links_at filter 0 fed.now) }
{
    'ports: for port in 0..fed.len() {
        if let Some(from) = fed[port] {
            wires.push(Wire {
                from: Some(from),
                to: Port { filter, port },
            })?;
        }
    }
    Ok(())
}

/// The edges that lead to filters: one for each input of the graph, and then one for each input that a filter feeds.
pub fn wires(
    alloc: Global,
    fed: &[Vec<Option<Port>>],
    opens: &[Port],
) -> Result<Vec<Wire>, AllocError>
    ensures { IfOk result (λ wires. wires.items ≡ wires_of (feeds_in fed.now) opens.now) }
{
    let mut wires = Vec::new(alloc);
    add_entering(&mut wires, opens)?;
    'filters: for filter in 0..fed.len() {
        add_links(&mut wires, filter, &fed[filter])?;
    }
    Ok(wires)
}
