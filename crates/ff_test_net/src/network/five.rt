//! Tests of a network of five machines in threads: a source, a repeater, one that ends early, a join and a sink.
ghost use Rattle.std.specs.Prelude.{◌≡◌, ◌≤◌, IfOk};
ghost use Rattle.ff_test_machines.specs.Packets.{byte_lane};
ghost use Rattle.ff_test_machines.specs.Plains.{IsBelow};
ghost use Rattle.ff_test_net.specs.network.Five.{HasPorts, IsOneSource, AreFive, five_edges};

use ff_frame::Event;
use ff_net_threads::network::{Ran, run_network};
use ff_sched::{Graphs, History, Routes, SchedState, Ways};
use ff_stream::{Edge, Item};
use ff_test_machines::{Join, Plain, Relay, Source, is_packet, lane_of, one_over, packet};
use ff_time::Rational;
use std::alloc::{AllocError, Global};
use std::marker::Brand;
use std::sync::Wait;
use std::thread::Threads;

fn edge(tb: Rational, from: u32, out_port: u32, to: u32, in_port: u32) -> Edge
    ensures { result ≡ record { from = from; out_port = out_port; to = to; in_port = in_port; lane = byte_lane tb } }
{
    Edge {
        from,
        out_port,
        to,
        in_port,
        lane: lane_of(tb),
    }
}

fn edges(alloc: Global, tb: Rational) -> Result<Vec<Edge>, AllocError>
    ensures { IfOk result (λ list. list.items ≡ five_edges (byte_lane tb)) }
{
    let first = edge(tb, 0, 0, 1, 0);
    let second = edge(tb, 1, 0, 2, 0);
    let third = edge(tb, 1, 1, 3, 1);
    let fourth = edge(tb, 2, 0, 3, 0);
    let fifth = edge(tb, 3, 0, 4, 0);
    Ok(vec![in alloc; first, second, third, fourth, fifth]?)
}

fn packets(alloc: Global, count: u32) -> Result<Vec<Item>, AllocError> {
    let mut items = Vec::new(alloc);
    for place in 0..count {
        items.push(packet(alloc, place)?)?;
    }
    Ok(items)
}

fn source(alloc: Global, tb: Rational, count: u32) -> Result<Plain, AllocError>
    ensures ports { IfOk result (λ m. HasPorts (byte_lane tb) 0 1 m) }
    ensures below { IfOk result (λ m. IsBelow 1 m) }
{
    let items = packets(alloc, count)?;
    let source = Source::new(alloc, lane_of(tb), 0, items, usize::MAX, usize::MAX);
    Ok(Plain::Source(source))
}

fn relay(alloc: Global, tb: Rational, outs: usize, limit: usize) -> Result<Plain, AllocError>
    ensures ports { IfOk result (λ m. HasPorts (byte_lane tb) 1 outs m) }
    ensures below { IfOk result (λ m. IsBelow 1 m) }
{
    let relay = Relay::new(alloc, lane_of(tb), outs, limit, usize::MAX)?;
    Ok(Plain::Relay(relay))
}

fn join(alloc: Global, tb: Rational) -> Plain
    ensures ports { HasPorts (byte_lane tb) 2 1 result }
    ensures below { IsBelow 1 result }
{
    Plain::Join(Join::new(alloc, lane_of(tb), usize::MAX))
}

fn machines(alloc: Global, tb: Rational, count: u32, limit: usize) -> Result<Vec<Plain>, AllocError>
    ensures { IfOk result (λ list. AreFive (byte_lane tb) list.items) }
{
    let source = source(alloc, tb, count)?;
    let repeater = relay(alloc, tb, 2, usize::MAX)?;
    let stopper = relay(alloc, tb, 1, limit)?;
    let join = join(alloc, tb);
    let sink = relay(alloc, tb, 0, usize::MAX)?;
    Ok(vec![in alloc; source, repeater, stopper, join, sink]?)
}

// One source, and no output stream that hangs on it.
fn routes(alloc: Global) -> Routes
    ensures { IsOneSource result }
{
    Routes {
        sources: 1,
        streams: Ways::new(Vec::new(alloc)),
        graphs: Graphs::new(Vec::new(alloc)),
    }
}

// The five, run in threads over links of this size. None where memory is refused.
fn run_five<R: Threads + Wait + Sync>(
    rt: &R,
    alloc: Global,
    size: usize,
    count: u32,
    limit: usize,
) -> Option<Ran<Plain>>
    requires { (1 ≤ size) × (size ≤ 1024) }
{
    let tb = one_over(8000)?;
    let Ok(machines) = machines(alloc, tb, count, limit) else {
        return None;
    };
    let Ok(edges) = edges(alloc, tb) else {
        return None;
    };
    let routes = routes(alloc);
    let state = SchedState::opening(&routes, 0);
    run_network::<Brand, R, Plain>(rt, alloc, machines, &edges, size, state, routes).ok()
}

// Whether these are the first packets, so many, and the end.
fn are_packets(given: &[Item], count: u32) -> bool {
    let mut place: u32 = 0;
    let mut right = given.len() as u64 == u64::from(count) + 1;
    for item in given {
        right &= if place < count {
            is_packet(item, place)
        } else {
            matches!(item, Item::End)
        };
        place = place.saturating_add(1);
    }
    right
}

// Whether the source was granted each of so many packets and its end, or with fewer grants was stopped, and has exited then.
fn is_told(history: &History, count: u32) -> bool {
    let mut left: u64 = u64::from(count) + 1;
    let mut right = true;
    let mut exited = false;
    for event in history.events() {
        match event {
            Event::Grant(0) => {
                right = right && left > 0 && !exited;
                left = left.saturating_sub(1);
            }
            Event::Exited(0) => {
                right = right && !exited;
                exited = true;
            }
            _ => {
                right = false;
            }
        }
    }
    right && exited
}

// Whether no node has a fault, and the sink was fed the first packets, so many, and the end.
fn comes_to(ran: Option<Ran<Plain>>, sent: u32, count: u32) -> bool {
    let Some(ran) = ran else {
        return false;
    };
    let told = match &ran.history {
        Some(history) => is_told(history, sent),
        None => false,
    };
    if !told {
        return false;
    }
    match ran.machines.last() {
        Some(Plain::Relay(sink)) => ran.fault.is_none() && are_packets(sink.given(), count),
        _ => false,
    }
}

#[test]
fn sizes(rt: HostRuntime) {
    for size in [1usize, 2, 8] {
        let all = run_five(&rt, rt.alloc(), size, 300, usize::MAX);
        assert!(rt; comes_to(all, 300, 300), "size {size}");
        let first = run_five(&rt, rt.alloc(), size, 300, 7);
        assert!(rt; comes_to(first, 300, 7), "size {size}, the first 7");
    }
}
