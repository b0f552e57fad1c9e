//! Nodes over new links. All have two wires, of which wire 0 leads from the source and wire 1 to the sink.
ghost use Rattle.std.specs.Prelude.{◌≡◌, ◌≤◌, ◌^◌, ◌∷◌, [], IfOk};
ghost use Rattle.ff_test_machines.specs.Packets.{IsWhole, byte_lane, byte_packets};
ghost use Rattle.ff_net.specs.laws.Nodes.{IsOf};
ghost use Rattle.ff_net.specs.Pasts.{Task};
ghost use Rattle.ff_sched.specs.laws.Passing.{Scheduler};
ghost use Rattle.ff_net_threads.specs.laws.links.Nodes.{node_of};
ghost use Rattle.ff_test_machines.specs.Plains.{IsBelow, plain_view};
ghost use Rattle.ff_test_net.specs.net.Seats.{IsSeat};
ghost use Rattle.ff_net_threads.specs.laws.links.Ends.{new_in, new_out};
ghost use Rattle.ff_test_machines.specs.Starts.{list_task, relay_task};
ghost use Rattle.ff_test_net.specs.net.Chains.{IsNewSender, IsNewReceiver, IsNewMachine, AreNewEnds, IsNewNode, sink_task};

use ff_link::{Receiver, Sender};
use ff_net::{Node, Wires};
use ff_net_threads::{InEnd, Linked, OutEnd};
use ff_sched::Pass;
use ff_stream::Item;
use ff_test_machines::{Plain, Relay, Source, lane_of, packet};
use ff_time::Rational;
use std::alloc::{AllocError, Global};

/// The ports of a node: its wires, and the ends of its links.
#[derive(Drop)]
pub struct Ports {
    /// The wires of its inputs.
    pub in_wires: Vec<usize>,
    /// The wires of its outputs.
    pub out_wires: Vec<usize>,
    /// The ends of links that it takes from.
    pub ins: Vec<InEnd>,
    /// The ends of links that it sends over.
    pub outs: Vec<OutEnd>,
}

fn packets(alloc: Global, count: u32) -> Result<Vec<Item>, AllocError>
    ensures { IfOk result (λ items. items.items ≡ byte_packets count) }
{
    let mut items = Vec::new(alloc);
    for place in 0..count {
        items.push(packet(alloc, place)?)?;
    }
    Ok(items)
}

// A machine on wires of its own, at these ports.
fn on_links(
    alloc: Global,
    tb: Rational,
    machine: Plain,
    ports: Ports,
    pass: Pass,
) -> Result<Linked<Plain>, AllocError>
    requires ends { AreNewEnds (byte_lane tb) ports.in_wires.items ports.out_wires.items ports.ins.items ports.outs.items }
    requires log { pass.log ≡ [] }
    requires source { IsBelow 1 machine }
    ensures of { IfOk result (λ l. (cell : Scheduler) → IsSeat cell pass → IsOf plain_view cell (node_of l)) }
    ensures new { IfOk result (λ l. (task : Task) → IsNewMachine task (byte_lane tb) ports.in_wires.items ports.out_wires.items machine
        → IsNewNode task (byte_lane tb) ports.in_wires.items ports.out_wires.items ports.ins.items ports.outs.items l) }
{
    let Ports {
        in_wires,
        out_wires,
        ins,
        outs,
    } = ports;
    let lanes = vec![in alloc; lane_of(tb), lane_of(tb)]?;
    let wires = Wires::new(alloc, lanes, 1)?;
    match Node::new(alloc, machine, in_wires, out_wires, pass) {
        Ok(node) => Ok(Linked::new(node, wires, ins, outs)),
        Err(_) => Err(AllocError),
    }
}

/// A source of so many packets.
pub fn source_node(
    alloc: Global,
    tb: Rational,
    count: u32,
    sender: Sender,
    pass: Pass,
) -> Result<Linked<Plain>, AllocError>
    requires base { IsWhole tb }
    requires few { count ≤ 2 ^ 20 }
    requires sender { IsNewSender (byte_lane tb) sender }
    requires log { pass.log ≡ [] }
    ensures of { IfOk result (λ l. (cell : Scheduler) → IsSeat cell pass → IsOf plain_view cell (node_of l)) }
    ensures new { IfOk result (λ l. IsNewNode (list_task 0 (byte_packets count)) (byte_lane tb) [] (0 ∷ []) [] (new_out 0 sender ∷ []) l) }
{
    let items = packets(alloc, count)?;
    let source = Source::new(alloc, lane_of(tb), 0, items, usize::MAX, usize::MAX);
    let ports = Ports {
        in_wires: Vec::new(alloc),
        out_wires: vec![in alloc; 0usize]?,
        ins: Vec::new(alloc),
        outs: vec![in alloc; OutEnd::new(0, sender)]?,
    };
    let node = on_links(alloc, tb, Plain::Source(source), ports, pass)?;
    Ok(node)
}

/// A relay that ends after so many items.
pub fn relay_node(
    alloc: Global,
    tb: Rational,
    limit: usize,
    receiver: Receiver,
    sender: Sender,
    pass: Pass,
) -> Result<Linked<Plain>, AllocError>
    requires receiver { IsNewReceiver (byte_lane tb) receiver }
    requires sender { IsNewSender (byte_lane tb) sender }
    requires log { pass.log ≡ [] }
    ensures of { IfOk result (λ l. (cell : Scheduler) → IsSeat cell pass → IsOf plain_view cell (node_of l)) }
    ensures new { IfOk result (λ l.
        IsNewNode (relay_task limit 1) (byte_lane tb) (0 ∷ []) (1 ∷ []) (new_in 0 receiver ∷ []) (new_out 1 sender ∷ []) l) }
{
    let relay = Relay::new(alloc, lane_of(tb), 1, limit, usize::MAX)?;
    let ports = Ports {
        in_wires: vec![in alloc; 0usize]?,
        out_wires: vec![in alloc; 1usize]?,
        ins: vec![in alloc; InEnd::new(0, receiver)]?,
        outs: vec![in alloc; OutEnd::new(1, sender)]?,
    };
    let node = on_links(alloc, tb, Plain::Relay(relay), ports, pass)?;
    Ok(node)
}

/// A sink that keeps what comes.
pub fn sink_node(
    alloc: Global,
    tb: Rational,
    receiver: Receiver,
    pass: Pass,
) -> Result<Linked<Plain>, AllocError>
    requires receiver { IsNewReceiver (byte_lane tb) receiver }
    requires log { pass.log ≡ [] }
    ensures of { IfOk result (λ l. (cell : Scheduler) → IsSeat cell pass → IsOf plain_view cell (node_of l)) }
    ensures new { IfOk result (λ l. IsNewNode sink_task (byte_lane tb) (1 ∷ []) [] (new_in 1 receiver ∷ []) [] l) }
{
    let sink = Relay::new(alloc, lane_of(tb), 0, usize::MAX, usize::MAX)?;
    let ports = Ports {
        in_wires: vec![in alloc; 1usize]?,
        out_wires: Vec::new(alloc),
        ins: vec![in alloc; InEnd::new(1, receiver)]?,
        outs: Vec::new(alloc),
    };
    let node = on_links(alloc, tb, Plain::Relay(sink), ports, pass)?;
    Ok(node)
}
