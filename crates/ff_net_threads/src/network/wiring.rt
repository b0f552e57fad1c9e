//! Machines as nodes on new links, one for each edge.
ghost use Rattle.std.specs.Prelude.{◌≡◌, ◌≤◌, ◌<◌, ◌+◌, ◌^◌, [], ◌∷◌, ◌++◌, length, vec_capacity, IfOk, IfErr};
ghost use Rattle.std.specs.Vec.Iter.{into_iter_items};
ghost use Rattle.ff_sched.specs.laws.Passing.{IsFirst};
ghost use Rattle.ff_net_threads.specs.laws.network.Networks.{Fits, AreWiredUp, machines_in};
ghost use Rattle.ff_net_threads.specs.laws.network.Scheduling.{AreSeated};

use crate::links::Linked;
use crate::network::node::wire_node;
use crate::network::tables::{Tables, link_all};
use ff_link::Claims;
use ff_net::Machine;
use ff_sched::{Pass, SchedCell};
use ff_stream::Edge;
use std::alloc::Global;
use std::vec::IntoIter;

/// The machines of nodes, in a place that has room for them.
pub fn into_machines<M: Machine + Drop>(nodes: Vec<Linked<M>>, mut machines: Vec<M>) -> Vec<M>
    requires room { (machines.items ≡ []) × (length nodes.items ≤ vec_capacity machines) }
    ensures items { result.items ≡ machines_in nodes.items }
    ensures room { vec_capacity machines ≤ vec_capacity result }
{
    for node in nodes {
        machines.push_reserved(node.into_machine());
    }
    machines
}

// The machines of nodes, and after them these.
fn gathered<M: Machine + Drop>(
    machines: Vec<M>,
    nodes: Vec<Linked<M>>,
    next: M,
    left: IntoIter<M>,
) -> Vec<M>
    requires { (machines.items ≡ []) × (length nodes.items + (1 + length (into_iter_items left)) ≤ vec_capacity machines) }
    ensures { result.items ≡ machines_in nodes.items ++ next ∷ into_iter_items left }
{
    let mut machines = into_machines(nodes, machines);
    machines.push_reserved(next);
    for machine in left {
        machines.push_reserved(machine);
    }
    machines
}

// How many events a node may add to the history: more than there are items in streams that are valid.
const NODE_SHARE: u64 = 1 << 45;

/// The machines as nodes on new links of this size, one for each edge, with the claim that `C` makes. The machine of
/// each place is the node of this number, and has a pass of the cell. They come back as they were where memory is
/// refused.
pub fn wire_up<C: Claims, M: Machine + Drop>(
    alloc: Global,
    machines: Vec<M>,
    edges: &[Edge],
    size: usize,
    cell: &SchedCell,
    rest: &mut Pass,
) -> Result<Vec<Linked<M>>, Vec<M>>
    requires few { length machines.items < 2 ^ 16 }
    requires first { IsFirst cell.now rest.old }
    requires size { (1 ≤ size) × (size ≤ 1024) }
    requires fits { Fits M.view edges.now machines.items }
    ensures wired { IfOk result (λ nodes. AreWiredUp M.view C.claims size edges.now machines.items nodes.items) }
    ensures seated { IfOk result (λ nodes. AreSeated cell.now nodes.items rest.new) }
    ensures back { IfErr result (λ back. back.items ≡ machines.items) }
{
    let Ok(mut tables) = link_all::<C>(alloc, edges, size) else {
        return Err(machines);
    };
    let Ok(mut nodes) = Vec::with_capacity(alloc, machines.len()) else {
        return Err(machines);
    };
    let Ok(back) = Vec::with_capacity(alloc, machines.len()) else {
        return Err(machines);
    };
    let count = machines.len();
    let mut left = machines.into_iter();
    for number in 0..count {
        let Some(machine) = left.next() else {
            break;
        };
        let Ok(pass) = cell.split(rest, NODE_SHARE) else {
            return Err(gathered(back, nodes, machine, left));
        };
        match wire_node(alloc, machine, number, edges, &mut tables, pass) {
            Ok(node) => nodes.push_reserved(node),
            Err(machine) => return Err(gathered(back, nodes, machine, left)),
        }
    }
    Ok(nodes)
}
