//! A run of the chain in threads.
ghost use Rattle.std.specs.Prelude.{◌≡◌, ◌≤◌, ◌^◌, true, slice_index_or, IfSome};
ghost use Rattle.ff_test_machines.specs.Packets.{IsWhole};
ghost use Rattle.ff_test_net.specs.net.Chains.{AllSound, WasFed};

use crate::net::chain::chain;
use crate::net::seats::new_cell;
use ff_net_threads::{Linked, Room, run_threads, settle_all};
use ff_stream::Item;
use ff_test_machines::{Plain, is_packet};
use ff_time::Rational;
use std::alloc::{AllocError, Global};
use std::sync::Wait;
use std::thread::Threads;

/// What came of a run.
#[derive(Clone, Copy, PartialEq, Eq, Debug)]
pub struct Outcome {
    /// The packets that the source gave.
    pub sent: usize,
    /// The packets that the sink was fed.
    pub taken: u32,
    /// Whether these are the first ones, in order.
    pub in_order: bool,
    /// Whether the end came after them, and nothing else.
    pub ended: bool,
    /// Whether no node has a fault.
    pub sound: bool,
}

// What the sink was fed.
fn look(given: &[Item], sent: usize, sound: bool) -> Outcome {
    let mut outcome = Outcome {
        sent,
        taken: 0,
        in_order: true,
        ended: false,
        sound,
    };
    for item in given {
        outcome = look_at(outcome, item);
    }
    outcome
}

fn look_at(outcome: Outcome, item: &Item) -> Outcome {
    match item {
        Item::End => Outcome {
            ended: !outcome.ended,
            ..outcome
        },
        _ => Outcome {
            taken: outcome.taken.saturating_add(1),
            in_order: outcome.in_order && !outcome.ended && is_packet(item, outcome.taken),
            ..outcome
        },
    }
}

// What came of a run that left these machines.
fn outcome_of(sound: bool, machines: &[Plain]) -> Option<Outcome> {
    match machines {
        [Plain::Source(source), _, Plain::Relay(sink)] => {
            Some(look(sink.given(), source.given(), sound))
        }
        _ => None,
    }
}

// Whether no node has a fault.
fn all_sound(nodes: &Vec<Linked<Plain>>) -> bool
    ensures { result ≡ true → AllSound nodes.now.items }
{
    for node in nodes {
        if node.fault().is_some() {
            return false;
        }
    }
    true
}

// The machines of a chain that ran in threads, and whether no node has a fault. None where memory is refused.
fn machines_of<R: Threads + Wait + Sync>(
    rt: &R,
    alloc: Global,
    tb: Rational,
    size: usize,
    count: u32,
    limit: usize,
) -> Option<(bool, Vec<Plain>)>
    requires base { IsWhole tb }
    requires size { (1 ≤ size) × (size ≤ 1024) }
    requires few { count ≤ 2 ^ 20 }
    ensures fed { IfSome result (λ ran. ran.0 ≡ true → (d : _) → WasFed count limit (slice_index_or ran.1.items 2 d)) }
{
    let Ok((cell, pass)) = new_cell(rt, alloc) else {
        return None;
    };
    let Ok(nodes) = chain(alloc, tb, size, count, limit, &cell, pass) else {
        return None;
    };
    let Ok(room) = Room::new(alloc, nodes.len(), 2) else {
        return None;
    };
    let Ok(done) = run_threads(rt, alloc, nodes, &cell) else {
        return None;
    };
    let sound = all_sound(&done);
    Some((sound, settle_all(done, room).machines))
}

/// A chain, run in threads. None where memory is refused.
pub fn run_chain<R: Threads + Wait + Sync>(
    rt: &R,
    alloc: Global,
    tb: Rational,
    size: usize,
    count: u32,
    limit: usize,
) -> Option<Outcome>
    requires base { IsWhole tb }
    requires size { (1 ≤ size) × (size ≤ 1024) }
    requires few { count ≤ 2 ^ 20 }
{
    let (sound, machines) = machines_of(rt, alloc, tb, size, count, limit)?;
    outcome_of(sound, &machines)
}
