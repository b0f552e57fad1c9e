//! A machine with any number of ports, on new links.
ghost use Rattle.std.specs.Prelude.{◌≡◌, ℕ, All, [], length, IfOk, IfErr};
ghost use Rattle.ff_net.specs.laws.Nodes.{pass_of};
ghost use Rattle.ff_net.specs.Pasts.{IsIn};
ghost use Rattle.ff_net.specs.laws.Worlds.{Stand, fresh, lanes_of, sizes_of};
ghost use Rattle.ff_net_threads.specs.laws.links.Nodes.{node_of};
ghost use Rattle.ff_net_threads.specs.network.Fits.{edge_lanes};
ghost use Rattle.ff_net_threads.specs.laws.network.Nodes.{FitsWires, AreNewIns, AreNewOuts, IsLinked, in_edges, out_edges};
ghost use Rattle.ff_net_threads.specs.laws.network.Tables.{NewLinks, HasNewSender, HasNewReceiver, HaveNewSenders, HaveNewReceivers};

use crate::links::{InEnd, Linked, OutEnd};
use crate::network::tables::Tables;
use crate::network::taking::{take_ins, take_outs};
use ff_net::{Machine, Node, NodeRefused, Wires};
use ff_sched::Pass;
use ff_stream::{Edge, Lane, edges_into, edges_out_of};
use std::alloc::{AllocError, Global};

// Wires of one item each, by the numbers of the edges.
fn own_wires(alloc: Global, edges: &[Edge]) -> Result<Wires, AllocError>
    ensures fresh { IfOk result (λ wires. Stand wires (λ w. fresh)) }
    ensures lanes { IfOk result (λ wires. lanes_of wires ≡ edge_lanes edges.now) }
    ensures sizes { IfOk result (λ wires. All (λ n. n ≡ 1) (sizes_of wires)) }
{
    let mut lanes = Vec::new(alloc);
    for edge in edges {
        lanes.push(edge.lane.copy())?;
    }
    Wires::new(alloc, lanes, 1)
}

// A machine with a new pass at these ends of new links, whose wires have these numbers. It comes back where memory is refused.
fn at_ends<M: Machine>(
    alloc: Global,
    machine: M,
    wires: Wires,
    in_wires: Vec<usize>,
    out_wires: Vec<usize>,
    ins: Vec<InEnd>,
    outs: Vec<OutEnd>,
    pass: Pass,
) -> Result<Linked<M>, M>
    requires log { pass.log ≡ [] }
    requires fresh { Stand wires (λ w. fresh) }
    requires sizes { All (λ n. n ≡ 1) (sizes_of wires) }
    ensures linked { IfOk result (λ l. (new : NewLinks) → new.lanes ≡ lanes_of wires → FitsWires M.view new.lanes in_wires.items out_wires.items machine → AreNewIns new in_wires.items ins.items → AreNewOuts new out_wires.items outs.items
        → IsLinked M.view new in_wires.items out_wires.items machine l) }
    ensures pass { IfOk result (λ l. pass_of (node_of l) ≡ pass) }
    ensures back { IfErr result (λ m. m ≡ machine) }
{
    match Node::new(alloc, machine, in_wires, out_wires, pass) {
        Ok(node) => Ok(Linked::new(node, wires, ins, outs)),
        Err(NodeRefused { machine, .. }) => Err(machine),
    }
}

/// A machine as the node of this number, with a new pass and with the ends of its links taken out of the tables. It comes back
/// where memory is refused.
pub fn wire_node<M: Machine>(
    alloc: Global,
    machine: M,
    number: usize,
    edges: &[Edge],
    tables: &mut Tables,
    pass: Pass,
) -> Result<Linked<M>, M>
    requires log { pass.log ≡ [] }
    requires fits { FitsWires M.view (edge_lanes edges.now) (in_edges M.view edges.now number machine) (out_edges M.view edges.now number machine) machine }
    requires there { (new : NewLinks) × HaveNewReceivers new tables.old.receivers.items (in_edges M.view edges.now number machine) × HaveNewSenders new tables.old.senders.items (out_edges M.view edges.now number machine) }
    ensures linked { IfOk result (λ l. (new : NewLinks) → new.lanes ≡ edge_lanes edges.now → HaveNewReceivers new tables.old.receivers.items (in_edges M.view edges.now number machine) → HaveNewSenders new tables.old.senders.items (out_edges M.view edges.now number machine)
        → IsLinked M.view new (in_edges M.view edges.now number machine) (out_edges M.view edges.now number machine) machine l) }
    ensures pass { IfOk result (λ l. pass_of (node_of l) ≡ pass) }
    ensures receivers { (new : NewLinks) (w : ℕ) → (IsIn w (in_edges M.view edges.now number machine) → ⊥) → HasNewReceiver new tables.old.receivers.items w → HasNewReceiver new tables.new.receivers.items w }
    ensures senders { (new : NewLinks) (w : ℕ) → (IsIn w (out_edges M.view edges.now number machine) → ⊥) → HasNewSender new tables.old.senders.items w → HasNewSender new tables.new.senders.items w }
    ensures back { IfErr result (λ m. m ≡ machine) }
{
    let Ok(wires) = own_wires(alloc, edges) else {
        return Err(machine);
    };
    let Ok(in_wires) = edges_into(alloc, edges, number, machine.inputs()) else {
        return Err(machine);
    };
    let Ok(out_wires) = edges_out_of(alloc, edges, number, machine.outputs()) else {
        return Err(machine);
    };
    let Ok(ins) = Vec::with_capacity(alloc, in_wires.len()) else {
        return Err(machine);
    };
    let Ok(outs) = Vec::with_capacity(alloc, out_wires.len()) else {
        return Err(machine);
    };
    let ins = take_ins(&mut tables.receivers, &in_wires, ins);
    let outs = take_outs(&mut tables.senders, &out_wires, outs);
    at_ends(alloc, machine, wires, in_wires, out_wires, ins, outs, pass)
}
