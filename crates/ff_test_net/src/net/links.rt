//! Tests of links, in one thread and in two.
ghost use Rattle.std.specs.Prelude.{◌≡◌, ◌+◌, ◌<◌, ◌^◌, IfSome};
ghost use Rattle.ff_test_machines.specs.Packets.{byte_packet, Sent};

use ff_link::{Put, Receiver, Sender, Settled, Take, settle};
use ff_stream::Item;
use ff_test_machines::{is_packet, new_link, one_over, packet, pass_packets};
use std::alloc::{AllocError, Global};
use std::sync::Wait;
use std::thread::Threads;

// Puts the next packet, once.
fn put_packet<R: Wait>(rt: &R, sender: &mut Sender, place: u32, item: Item) -> Put
    requires sent { Sent place sender.old }
    requires few { place < 2 ^ 20 }
    requires item { item ≡ byte_packet place }
    ensures link { sender.new.link ≡ sender.old.link }
    ensures done { result ≡ Put.Done → Sent (place + 1) sender.new }
    ensures full { (back : _) → result ≡ Put.Full back → Sent place sender.new × (back ≡ item) }
{
    sender.try_put(rt, item)
}

// Fills a link of one item: the second item comes back.
fn fill<R: Wait>(rt: &R, sender: &mut Sender, first: Item, second: Item) -> Option<Item>
    requires sent { Sent 0 sender.old }
    requires first { first ≡ byte_packet 0 }
    requires second { second ≡ byte_packet 1 }
    ensures link { sender.new.link ≡ sender.old.link }
    ensures sent { IfSome result (λ back. Sent 1 sender.new) }
    ensures back { IfSome result (λ back. back ≡ byte_packet 1) }
{
    let Put::Done = put_packet(rt, sender, 0, first) else {
        return None;
    };
    match put_packet(rt, sender, 1, second) {
        Put::Full(back) => Some(back),
        _ => None,
    }
}

// Whether the receiver takes the first packet, and then finds nothing.
fn takes_one<R: Wait>(rt: &R, receiver: &mut Receiver) -> bool
    ensures { receiver.new.link ≡ receiver.old.link }
{
    let first = receiver.try_take(rt);
    let second = receiver.try_take(rt);
    is_first(&first) & is_empty(&second)
}

fn is_first(take: &Take) -> bool {
    match take {
        Take::Item(item) => is_packet(item, 0),
        Take::Empty => false,
    }
}

fn is_empty(take: &Take) -> bool {
    match take {
        Take::Item(_) => false,
        Take::Empty => true,
    }
}

// Whether the second packet comes back from a receiver that took one.
fn is_back(put: &Put) -> bool {
    match put {
        Put::Finished(back, count) => is_packet(back, 1) & (*count == 1),
        _ => false,
    }
}

#[test]
fn size_one(rt: HostRuntime) -> Result<(), AllocError> {
    let Some(tb) = one_over(8000) else {
        panic!(rt; "no time base")
    };
    let first = packet(rt.alloc(), 0)?;
    let second = packet(rt.alloc(), 1)?;
    let (mut sender, mut receiver) = new_link(rt.alloc(), 1, tb)?;
    let Some(second) = fill(&rt, &mut sender, first, second) else {
        panic!(rt; "the link isn't full")
    };
    let taken = takes_one(&rt, &mut receiver);
    let sent = (sender.puts(), sender.full_looks(), sender.up_looks());
    let looks = (receiver.taken(), receiver.empty_looks());
    let finished = receiver.finish(&rt);
    let put = put_packet(&rt, &mut sender, 1, second);
    let settled = settle(sender, finished);
    assert_eq!(rt; (taken, sent, looks), (true, (1, 1, 2), (1, 1)));
    assert!(rt; is_back(&put));
    assert_eq!(rt; settled, Settled { sent: 1, taken: 1 });
    Ok(())
}

// Whether over a link of this size the numbers sent (least and most) and taken are these. So many packets are sent
// before an end, and so many items taken at most.
fn passes<R: Threads + Wait + Sync>(
    rt: &R,
    alloc: Global,
    size: usize,
    tried: (u32, u32),
    sent: (u64, u64),
    taken: u64,
) -> bool {
    let Some(tb) = one_over(8000) else {
        return false;
    };
    let size = size.clamp(1, 1024);
    match pass_packets(rt, alloc, size, tb, tried.0.min(1 << 20), tried.1) {
        Ok(passed) => {
            let got = passed.settled;
            passed.in_order & (got.taken == taken) & (sent.0 <= got.sent) & (got.sent <= sent.1)
        }
        Err(_) => false,
    }
}

// Size, packets sent before an end and items taken at most; the numbers sent (least and most) and taken.
#[test]
fn two_threads(rt: HostRuntime) {
    for (size, tried, sent, taken) in [
        (1, (10_000, 5_000), (5_000, 5_001), 5_000),
        (8, (10_000, 0), (0, 8), 0),
        (1_024, (199_999, 200_001), (200_000, 200_000), 200_000),
    ] {
        let passed = passes(&rt, rt.alloc(), size, tried, sent, taken);
        assert!(rt; passed, "size {size}");
    }
}
