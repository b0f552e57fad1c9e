//! Tests of a network of five nodes in one thread.
ghost use Rattle.std.specs.Prelude.{◌≡◌, ◌<◌, ◌≤◌, ◌+◌, ℕ, length, replicate, IfOk, [], ◌∷◌};
ghost use Rattle.ff_net.specs.declared.wires.Wires.{Wires};
ghost use Rattle.ff_net.specs.laws.Worlds.{lanes_of};
ghost use Rattle.ff_net.specs.laws.Nodes.{IsOf, machine_of, in_wires_of, out_wires_of};
ghost use Rattle.ff_net.specs.laws.Serial.{AreOf, AreShaped};
ghost use Rattle.ff_sched.specs.laws.Passing.{Scheduler};
ghost use Rattle.ff_test_machines.specs.Networks.{Fits};
ghost use Rattle.ff_test_machines.specs.Plains.{IsBelow, plain_view};
ghost use Rattle.ff_test_machines.specs.Trials.{trial_lane};
ghost use Rattle.ff_test_net.specs.net.Seats.{IsSeat, AreSeats};

use crate::net::seats::{Seats, five_parts, new_cell};
use crate::net::trial::{lane, packet};
use ff_net::{Fault, Node, Wires, run_serial};
use ff_sched::{Pass, SchedCell};
use ff_stream::Item;
use ff_test_machines::{Join, Plain, Relay, Source};
use ff_time::Rational;
use std::alloc::{AllocError, Global};
use std::sync::Wait;

/// Where a fault is made: at the source's device, or for want of memory at a node.
#[derive(Clone, Copy, PartialEq, Eq, Debug)]
pub enum Place {
    /// There is no fault.
    Nowhere,
    /// The device of the source fails.
    Device,
    /// The source has no memory.
    Source,
    /// The machine that repeats has no memory.
    Repeater,
    /// The machine that ends early has no memory.
    Stopper,
    /// The machine that joins has no memory.
    Join,
    /// The sink has no memory.
    Sink,
}

/// A run of the network: so many packets over wires of this size, of which the stopper lets `limit` through. The
/// nodes' turns go in this order, and a fault is made in a place at an item.
#[derive(Clone, Copy)]
pub struct Plan {
    /// How many packets the source has.
    pub count: usize,
    /// How many items the stopper lets through.
    pub limit: usize,
    /// How many items a wire holds.
    pub size: usize,
    /// In each round of five turns turn t is that of node `(first + stride * t) % 5`; both are below 5.
    pub first: usize,
    /// The step from a turn's node to that of the next turn.
    pub stride: usize,
    /// Where the fault is made.
    pub place: Place,
    /// The item at which it is made.
    pub at: usize,
}

/// What came of a run.
#[derive(Clone, Copy, PartialEq, Eq, Debug)]
pub struct Outcome {
    /// The packets that the sink was fed.
    pub packets: u32,
    /// Whether they are the source's first ones, in order.
    pub in_order: bool,
    /// Whether the end came.
    pub ended: bool,
    /// Whether a break came.
    pub broken: bool,
    /// Whether all nodes are done.
    pub done: bool,
    /// The first node with a fault.
    pub faulty: Option<usize>,
    /// Its fault.
    pub fault: Option<Fault>,
}

fn room(plan: Plan, place: Place) -> usize {
    if plan.place == place {
        plan.at
    } else {
        usize::MAX
    }
}

fn packets(alloc: Global, count: usize) -> Result<Vec<Item>, AllocError>
    requires { count < 100 }
{
    let mut items = Vec::new(alloc);
    for number in 0..count {
        let packet = packet(alloc, number)?;
        items.push(packet)?;
    }
    Ok(items)
}

fn on_wires(
    alloc: Global,
    machine: Plain,
    ins: Vec<usize>,
    outs: Vec<usize>,
    pass: Pass,
) -> Result<Node<Plain>, AllocError>
    requires log { pass.log ≡ [] }
    requires source { IsBelow 1 machine }
    ensures of { IfOk result (λ node. (cell : Scheduler) → IsSeat cell pass → IsOf plain_view cell node) }
    ensures ins { IfOk result (λ node. in_wires_of node ≡ ins.items) }
    ensures outs { IfOk result (λ node. out_wires_of node ≡ outs.items) }
    ensures machine { IfOk result (λ node. machine_of node ≡ machine) }
{
    match Node::new(alloc, machine, ins, outs, pass) {
        Ok(node) => Ok(node),
        Err(_) => Err(AllocError),
    }
}

fn source_node(
    alloc: Global,
    tb: Rational,
    plan: Plan,
    pass: Pass,
) -> Result<Node<Plain>, AllocError>
    requires log { pass.log ≡ [] }
    ensures of { IfOk result (λ node. (cell : Scheduler) → IsSeat cell pass → IsOf plain_view cell node) }
    ensures fits { IfOk result (λ node. Fits (trial_lane tb) [] (0 ∷ []) node) }
{
    let items = packets(alloc, plan.count.min(99))?;
    let fails_at = room(plan, Place::Device);
    let refuses_at = room(plan, Place::Source);
    let source = Source::new(alloc, lane(tb), 0, items, fails_at, refuses_at);
    let outs = vec![in alloc; 0usize]?;
    on_wires(alloc, Plain::Source(source), Vec::new(alloc), outs, pass)
}

fn repeater_node(
    alloc: Global,
    tb: Rational,
    plan: Plan,
    pass: Pass,
) -> Result<Node<Plain>, AllocError>
    requires log { pass.log ≡ [] }
    ensures of { IfOk result (λ node. (cell : Scheduler) → IsSeat cell pass → IsOf plain_view cell node) }
    ensures fits { IfOk result (λ node. Fits (trial_lane tb) (0 ∷ []) (1 ∷ 2 ∷ []) node) }
{
    let relay = Relay::new(alloc, lane(tb), 2, usize::MAX, room(plan, Place::Repeater))?;
    let ins = vec![in alloc; 0usize]?;
    let outs = vec![in alloc; 1usize, 2]?;
    on_wires(alloc, Plain::Relay(relay), ins, outs, pass)
}

fn stopper_node(
    alloc: Global,
    tb: Rational,
    plan: Plan,
    pass: Pass,
) -> Result<Node<Plain>, AllocError>
    requires log { pass.log ≡ [] }
    ensures of { IfOk result (λ node. (cell : Scheduler) → IsSeat cell pass → IsOf plain_view cell node) }
    ensures fits { IfOk result (λ node. Fits (trial_lane tb) (1 ∷ []) (3 ∷ []) node) }
{
    let relay = Relay::new(alloc, lane(tb), 1, plan.limit, room(plan, Place::Stopper))?;
    let ins = vec![in alloc; 1usize]?;
    let outs = vec![in alloc; 3usize]?;
    on_wires(alloc, Plain::Relay(relay), ins, outs, pass)
}

fn join_node(alloc: Global, tb: Rational, plan: Plan, pass: Pass) -> Result<Node<Plain>, AllocError>
    requires log { pass.log ≡ [] }
    ensures of { IfOk result (λ node. (cell : Scheduler) → IsSeat cell pass → IsOf plain_view cell node) }
    ensures fits { IfOk result (λ node. Fits (trial_lane tb) (3 ∷ 2 ∷ []) (4 ∷ []) node) }
{
    let join = Join::new(alloc, lane(tb), room(plan, Place::Join));
    let ins = vec![in alloc; 3usize, 2]?;
    let outs = vec![in alloc; 4usize]?;
    on_wires(alloc, Plain::Join(join), ins, outs, pass)
}

fn sink_node(alloc: Global, tb: Rational, plan: Plan, pass: Pass) -> Result<Node<Plain>, AllocError>
    requires log { pass.log ≡ [] }
    ensures of { IfOk result (λ node. (cell : Scheduler) → IsSeat cell pass → IsOf plain_view cell node) }
    ensures fits { IfOk result (λ node. Fits (trial_lane tb) (4 ∷ []) [] node) }
{
    let relay = Relay::new(alloc, lane(tb), 0, usize::MAX, room(plan, Place::Sink))?;
    let ins = vec![in alloc; 4usize]?;
    on_wires(alloc, Plain::Relay(relay), ins, Vec::new(alloc), pass)
}

/// What the sink holds.
fn look(outcome: Outcome, given: &[Item]) -> Outcome {
    let mut outcome = outcome;
    for item in given {
        outcome = look_at(outcome, item);
    }
    outcome
}

fn look_at(outcome: Outcome, item: &Item) -> Outcome {
    match item {
        Item::Packet(packet) => Outcome {
            packets: outcome.packets.saturating_add(1),
            in_order: outcome.in_order & (packet.pts == i64::from(outcome.packets)),
            ..outcome
        },
        Item::Audio(_) | Item::Video(_) | Item::Trailer(_) => Outcome {
            in_order: false,
            ..outcome
        },
        Item::End => Outcome {
            ended: true,
            ..outcome
        },
        Item::Broken => Outcome {
            broken: true,
            ..outcome
        },
    }
}

/// Which node comes next.
fn next_node(plan: Plan, turn: usize) -> usize
    ensures { result < 5 }
{
    (plan.first % 5 + plan.stride % 5 * (turn % 5)) % 5
}

// A turn of the node of this number.
fn turn<R: Wait>(
    rt: &R,
    nodes: &mut [Node<Plain>],
    cell: &SchedCell,
    wires: &mut Wires,
    node: usize,
)
    requires shaped { AreShaped plain_view nodes.old wires.old }
    requires cell { AreOf plain_view cell.now nodes.old }
    requires node { node < length nodes.old }
    ensures shaped { AreShaped plain_view nodes.new wires.new }
    ensures cell { AreOf plain_view cell.now nodes.new }
    ensures count { length nodes.new ≡ length nodes.old }
{
    run_serial(rt, nodes, cell, wires, &[node]);
}

// 400 turns, in the order of the plan.
fn turns<R: Wait>(
    rt: &R,
    nodes: &mut [Node<Plain>],
    cell: &SchedCell,
    wires: &mut Wires,
    plan: Plan,
)
    requires shaped { AreShaped plain_view nodes.old wires.old }
    requires cell { AreOf plain_view cell.now nodes.old }
    requires count { length nodes.old ≡ 5 }
{
    for number in 0usize..400 {
        turn(rt, nodes, cell, wires, next_node(plan, number));
    }
}

// The five nodes, each with a pass of the cell.
fn five_nodes(
    alloc: Global,
    tb: Rational,
    plan: Plan,
    cell: &SchedCell,
    seats: Seats,
) -> Result<Vec<Node<Plain>>, AllocError>
    requires seats { AreSeats cell.now seats.first seats.second seats.third seats.fourth seats.fifth }
    ensures count { IfOk result (λ nodes. length nodes.items ≡ 5) }
    ensures shaped { IfOk result (λ nodes. (wires : Wires) → lanes_of wires ≡ replicate 5 (trial_lane tb) → AreShaped plain_view nodes.items wires) }
    ensures of { IfOk result (λ nodes. AreOf plain_view cell.now nodes.items) }
{
    let Seats {
        first,
        second,
        third,
        fourth,
        fifth,
    } = seats;
    let source = source_node(alloc, tb, plan, first)?;
    let repeater = repeater_node(alloc, tb, plan, second)?;
    let stopper = stopper_node(alloc, tb, plan, third)?;
    let join = join_node(alloc, tb, plan, fourth)?;
    let sink = sink_node(alloc, tb, plan, fifth)?;
    Ok(vec![in alloc; source, repeater, stopper, join, sink]?)
}

// Five wires of this size.
fn five_wires(alloc: Global, tb: Rational, size: usize) -> Result<Wires, AllocError>
    requires { 1 ≤ size }
    ensures { IfOk result (λ wires. lanes_of wires ≡ replicate 5 (trial_lane tb)) }
{
    let lanes = vec![in alloc; lane(tb), lane(tb), lane(tb), lane(tb), lane(tb)]?;
    let wires = Wires::new(alloc, lanes, size)?;
    Ok(wires)
}

/// The network of a source, a machine that repeats its items on two outputs, and one that ends early after the first
/// of these. One more joins what that gives with the second, and feeds a sink. No more than 99 packets are sent.
pub fn try_network<R: Wait>(
    rt: &R,
    alloc: Global,
    tb: Rational,
    plan: Plan,
) -> Result<Outcome, AllocError> {
    let mut wires = five_wires(alloc, tb, plan.size.max(1))?;
    let (cell, pass) = new_cell(rt, alloc)?;
    let seats = five_parts(&cell, pass)?;
    let mut nodes = five_nodes(alloc, tb, plan, &cell, seats)?;
    turns(rt, nodes.as_mut_slice(), &cell, &mut wires, plan);
    let outcome = summary(&nodes);
    let Some(sink) = nodes.pop() else {
        return Ok(outcome);
    };
    let (machine, _pass) = sink.into_parts();
    Ok(held(outcome, machine))
}

/// Which nodes are done, and which has a fault.
fn summary(nodes: &[Node<Plain>]) -> Outcome {
    let mut outcome = Outcome {
        packets: 0,
        in_order: true,
        ended: false,
        broken: false,
        done: true,
        faulty: None,
        fault: None,
    };
    for (number, node) in nodes.iter().enumerate() {
        outcome.done = outcome.done & node.is_done();
        if outcome.faulty.is_none() && node.fault().is_some() {
            outcome.faulty = Some(number);
            outcome.fault = node.fault();
        }
    }
    outcome
}

fn held(outcome: Outcome, sink: Plain) -> Outcome {
    match sink {
        Plain::Relay(relay) => look(outcome, relay.given()),
        Plain::Source(_) | Plain::Join(_) => outcome,
    }
}

// Whether runs over wires of this size, in four orders of turns, come to this.
fn are_all<R: Wait>(
    rt: &R,
    alloc: Global,
    tb: Rational,
    plan: Plan,
    want: Outcome,
) -> Result<bool, AllocError> {
    let mut same = true;
    for (first, stride) in [(0usize, 1usize), (4, 4), (1, 2), (2, 3)] {
        let plan = Plan {
            first,
            stride,
            ..plan
        };
        same &= try_network(rt, alloc, tb, plan)? == want;
    }
    Ok(same)
}

// The same over wires of three sizes.
fn in_sizes<R: Wait>(
    rt: &R,
    alloc: Global,
    tb: Rational,
    plan: Plan,
    want: Outcome,
) -> Result<bool, AllocError> {
    let one = are_all(rt, alloc, tb, Plan { size: 1, ..plan }, want)?;
    let two = are_all(rt, alloc, tb, Plan { size: 2, ..plan }, want)?;
    let eight = are_all(rt, alloc, tb, Plan { size: 8, ..plan }, want)?;
    Ok(one & two & eight)
}

// A run of so many packets, with a fault in a place at an item.
fn plan_of(count: usize, limit: usize, place: Place, at: usize) -> Plan {
    Plan {
        count,
        limit,
        size: 1,
        first: 0,
        stride: 1,
        place,
        at,
    }
}

// An outcome whose packets are in order, with all nodes done.
fn outcome_of(
    packets: u32,
    ended: bool,
    broken: bool,
    faulty: Option<usize>,
    fault: Option<Fault>,
) -> Outcome {
    Outcome {
        packets,
        in_order: true,
        ended,
        broken,
        done: true,
        faulty,
        fault,
    }
}

#[test]
fn networks(rt: HostRuntime) -> Result<(), AllocError> {
    let Ok(tb) = Rational::new(1, 8000) else {
        panic!(rt; "a time base");
    };
    let memory = Some(Fault::NoMemory);
    // count, limit, place, at; packets, ended, broken, faulty, fault
    let rows = [
        ((5, 100, Place::Nowhere, 0), (5, true, false, None, None)),
        ((6, 3, Place::Nowhere, 0), (3, true, false, None, None)),
        ((6, 0, Place::Nowhere, 0), (0, true, false, None, None)),
        ((0, 100, Place::Nowhere, 0), (0, true, false, None, None)),
        (
            (5, 100, Place::Device, 2),
            (2, false, true, Some(0), Some(Fault::Device)),
        ),
        (
            (5, 100, Place::Source, 2),
            (2, false, true, Some(0), memory),
        ),
        (
            (5, 100, Place::Repeater, 3),
            (3, false, true, Some(1), memory),
        ),
        (
            (5, 100, Place::Stopper, 1),
            (1, false, true, Some(2), memory),
        ),
        ((5, 100, Place::Join, 1), (0, false, true, Some(3), memory)),
        ((5, 100, Place::Sink, 2), (2, false, false, Some(4), memory)),
    ];
    for ((count, limit, place, at), (packets, ended, broken, faulty, fault)) in rows {
        let plan = plan_of(count, limit, place, at);
        let want = outcome_of(packets, ended, broken, faulty, fault);
        assert!(rt;
            in_sizes(&rt, rt.alloc(), tb, plan, want)?,
            "{place:?} {at}, count {count}"
        );
    }
    Ok(())
}
