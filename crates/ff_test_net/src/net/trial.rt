//! Tests of a relay between two wires.
ghost use Rattle.std.specs.Prelude.{◌≡◌, ◌<◌, ◌≤◌, ◌+◌, ℕ, length, IfOk, []};
ghost use Rattle.ff_net.specs.laws.Worlds.{lanes_of};
ghost use Rattle.ff_net.specs.laws.Serial.{AreOf, AreShaped};
ghost use Rattle.ff_test_machines.specs.Kinds.{relay_view};
ghost use Rattle.ff_test_machines.specs.Trials.{trial_lane};

use crate::net::seats::new_cell;
use ff_frame::{Bytes, Codec, Pkt, StreamHead};
use ff_net::{Node, Put, Take, Wires, run_serial};
use ff_sched::SchedCell;
use ff_stream::{Item, Lane};
use ff_test_machines::Relay;
use ff_time::Rational;
use std::alloc::{AllocError, Global};
use std::sync::Wait;

/// What came of a relay between two wires.
#[derive(Clone, Copy, PartialEq, Eq, Debug)]
pub struct Trial {
    /// The items that came out, without the closing one.
    pub items: usize,
    /// Whether the end came out.
    pub ended: bool,
    /// Whether a break came out.
    pub broken: bool,
    /// Whether the relay's node is done.
    pub done: bool,
    /// Whether it has a fault.
    pub faulty: bool,
}

/// The lane of all wires.
pub(crate) fn lane(tb: Rational) -> Lane
    ensures { result ≡ trial_lane tb }
{
    Lane::Packets(StreamHead::Audio {
        tb,
        rate: 8000,
        bits: 8,
        channels: 1,
        codec: Codec::PcmU8,
    })
}

/// The packet of this number, of one sample.
pub(crate) fn packet(alloc: Global, number: usize) -> Result<Item, AllocError>
    requires { number < 100 }
{
    let bytes = vec![in alloc; 128u8; 1]?;
    let time = number as i64;
    Ok(Item::Packet(Pkt {
        pts: time,
        dts: time,
        duration: 1,
        pos: 0,
        bytes: Bytes::new(bytes),
    }))
}

/// The packet of this number, or the end.
fn item(alloc: Global, number: usize, count: usize) -> Result<Item, AllocError>
    requires { number < 100 }
{
    if number >= count {
        return Ok(Item::End);
    }
    packet(alloc, number)
}

fn note(trial: Trial, item: &Item) -> Trial
    requires { trial.items < 1000 }
    ensures { result.items ≤ trial.items + 1 }
{
    match item {
        Item::Audio(_) | Item::Video(_) | Item::Packet(_) | Item::Trailer(_) => Trial {
            items: trial.items + 1,
            ..trial
        },
        Item::End => Trial {
            ended: true,
            ..trial
        },
        Item::Broken => Trial {
            broken: true,
            ..trial
        },
    }
}

/// Puts an item on the first wire, where it is wanted, and says whether it went.
fn offer(wires: &mut Wires, item: Item, wanted: bool) -> bool
    requires { length (lanes_of wires.old) ≡ 2 }
    ensures { lanes_of wires.new ≡ lanes_of wires.old }
{
    if !wanted {
        return false;
    }
    went(&wires.try_put(0, item))
}

fn went(put: &Put) -> bool {
    match put {
        Put::Done => true,
        Put::Full(_) | Put::Finished(_) => false,
    }
}

/// Takes an item from the second wire, and notes it.
fn collect(wires: &mut Wires, trial: Trial) -> Trial
    requires lanes { length (lanes_of wires.old) ≡ 2 }
    requires few { trial.items < 1000 }
    ensures lanes { lanes_of wires.new ≡ lanes_of wires.old }
    ensures items { result.items ≤ trial.items + 1 }
{
    noted(trial, &wires.try_take(1))
}

fn noted(trial: Trial, take: &Take) -> Trial
    requires { trial.items < 1000 }
    ensures { result.items ≤ trial.items + 1 }
{
    match take {
        Take::Item(item) => note(trial, item),
        Take::Empty => trial,
    }
}

// A turn of the relay between an item that is offered, where it is wanted, and one that is taken. The answer is
// whether the first went, and what has come out.
fn turn<R: Wait>(
    rt: &R,
    nodes: &mut [Node<Relay>],
    cell: &SchedCell,
    wires: &mut Wires,
    next: Item,
    wanted: bool,
    trial: Trial,
) -> (bool, Trial)
    requires shaped { AreShaped relay_view nodes.old wires.old }
    requires cell { AreOf relay_view cell.now nodes.old }
    requires lanes { length (lanes_of wires.old) ≡ 2 }
    requires count { length nodes.old ≡ 1 }
    requires few { trial.items < 1000 }
    ensures shaped { AreShaped relay_view nodes.new wires.new }
    ensures cell { AreOf relay_view cell.now nodes.new }
    ensures lanes { length (lanes_of wires.new) ≡ 2 }
    ensures count { length nodes.new ≡ 1 }
    ensures items { result.1.items ≤ trial.items + 1 }
{
    let went = offer(wires, next, wanted);
    run_serial(rt, nodes, cell, wires, &[0]);
    (went, collect(wires, trial))
}

// What came of the relay by so many turns.
fn turns<R: Wait>(
    rt: &R,
    alloc: Global,
    nodes: &mut [Node<Relay>],
    cell: &SchedCell,
    wires: &mut Wires,
    count: usize,
) -> Result<Trial, AllocError>
    requires shaped { AreShaped relay_view nodes.old wires.old }
    requires cell { AreOf relay_view cell.now nodes.old }
    requires lanes { length (lanes_of wires.old) ≡ 2 }
    requires count { length nodes.old ≡ 1 }
{
    let mut trial = Trial {
        items: 0,
        ended: false,
        broken: false,
        done: false,
        faulty: false,
    };
    let mut sent = 0usize;
    for _turn in 0usize..40 {
        let next = item(alloc, sent, count)?;
        let (went, after) = turn(rt, nodes, cell, wires, next, sent <= count, trial);
        sent += usize::from(went);
        trial = after;
    }
    let node = &nodes[0];
    trial.done = node.is_done();
    trial.faulty = node.fault().is_some();
    Ok(trial)
}

/// A relay of one output between two wires of this size, by so many turns. It is sent `count` packets and the end,
/// ends itself after `limit` items, and refuses what comes after `room`.
pub fn try_relay<R: Wait>(
    rt: &R,
    alloc: Global,
    tb: Rational,
    size: usize,
    limit: usize,
    room: usize,
    count: usize,
) -> Result<Trial, AllocError> {
    let lanes = vec![in alloc; lane(tb), lane(tb)]?;
    let mut wires = Wires::new(alloc, lanes, size.max(1))?;
    let machine = Relay::new(alloc, lane(tb), 1, limit, room)?;
    let ins = vec![in alloc; 0usize]?;
    let outs = vec![in alloc; 1usize]?;
    let (cell, pass) = new_cell(rt, alloc)?;
    let Ok(node) = Node::new(alloc, machine, ins, outs, pass) else {
        return Err(AllocError);
    };
    let mut nodes = [node];
    turns(rt, alloc, &mut nodes, &cell, &mut wires, count)
}

// What comes of a relay that isn't faulty, or is.
fn outcome(items: usize, ended: bool, broken: bool, done: bool, faulty: bool) -> Trial {
    Trial {
        items,
        ended,
        broken,
        done,
        faulty,
    }
}

#[test]
fn relays(rt: HostRuntime) -> Result<(), AllocError> {
    let Ok(tb) = Rational::new(1, 8000) else {
        panic!(rt; "a time base");
    };
    // size, limit, room, count; items, ended, broken, done, faulty
    for ((size, limit, room, count), want) in [
        ((1, 100, 100, 3), outcome(3, true, false, true, false)),
        ((2, 100, 100, 3), outcome(3, true, false, true, false)),
        ((8, 100, 100, 3), outcome(3, true, false, true, false)),
        ((8, 100, 100, 0), outcome(0, true, false, true, false)),
        ((1, 2, 100, 3), outcome(2, true, false, true, false)),
        ((8, 0, 100, 3), outcome(0, true, false, true, false)),
        ((1, 100, 2, 3), outcome(2, false, true, true, true)),
        ((8, 100, 2, 3), outcome(2, false, true, true, true)),
    ] {
        let got = try_relay(&rt, rt.alloc(), tb, size, limit, room, count)?;
        assert_eq!(rt;
            got,
            want,
            "size {size}, limit {limit}, room {room}, count {count}"
        );
    }
    Ok(())
}
