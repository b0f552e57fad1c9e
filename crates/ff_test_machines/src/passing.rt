//! Packets sent over a link from one thread to another.
ghost use Rattle.std.specs.Prelude.{◌≡◌, ◌≤◌, ◌^◌, [], ◌∷◌, ◌++◌, length, IfOk, IfSome, IsTrue};
ghost use Rattle.ff_stream.specs.Items.{Closes};
ghost use Rattle.ff_link.specs.laws.Sendings.{Carries};
ghost use Rattle.ff_test_machines.specs.Packets.{byte_lane, IsWhole, Sent, IsGoing};

use crate::packets::{is_packet, lane_of, packet};
use ff_link::{Finished, Put, Receiver, Sender, Settled, Take, link, settle};
use ff_stream::Item;
use ff_time::Rational;
use std::alloc::{AllocError, Global};
use std::sync::Wait;
use std::thread;
use std::thread::{Threads, join};

/// What became of packets that were sent over a link.
#[derive(Clone, Copy)]
pub struct Passed {
    /// How many items were sent and taken.
    pub settled: Settled,
    /// Whether each packet that was taken was the next one.
    pub in_order: bool,
}

/// The ends of a new link for packets of one byte.
pub fn new_link(alloc: Global, size: usize, tb: Rational) -> Result<(Sender, Receiver), AllocError>
    requires size { (1 ≤ size) × (size ≤ 1024) }
    requires base { IsWhole tb }
    ensures one_link { IfOk result (λ ends. ends.0.link ≡ ends.1.link) }
    ensures sent { IfOk result (λ ends. Sent 0 ends.0) }
{
    link(alloc, size, &lane_of(tb))
}

// Puts an item, again where the link is full. Whether it was put before the receiver finished.
fn put<R: Wait>(rt: &R, sender: &mut Sender, item: Item) -> bool
    requires { Carries sender.old.link.claims sender.old.lane (sender.old.sent ++ item ∷ []) }
    ensures link { sender.new.link ≡ sender.old.link }
    ensures lane { sender.new.lane ≡ sender.old.lane }
    ensures sent { IsTrue result → sender.new.sent ≡ sender.old.sent ++ item ∷ [] }
{
    let mut next = item;
    for _ in rt.forever() {
        match sender.try_put(rt, next) {
            Put::Done => return true,
            Put::Full(back) => {
                next = back;
                thread::yield_now();
            }
            Put::Finished(..) => return false,
        }
    }
    unreachable!()
}

// Puts so many packets. The item that closes them, or none where the receiver has finished.
fn put_packets<R: Wait>(rt: &R, alloc: Global, sender: &mut Sender, count: u32) -> Option<Item>
    requires sent { Sent 0 sender.old }
    requires few { count ≤ 2 ^ 20 }
    ensures link { sender.new.link ≡ sender.old.link }
    ensures going { IfSome result (λ last. Closes last × IsGoing sender.new) }
{
    for place in 0..count {
        let Ok(item) = packet(alloc, place) else {
            return Some(Item::Broken);
        };
        if !put(rt, sender, item) {
            return None;
        }
    }
    Some(Item::End)
}

fn send<R: Wait>(rt: &R, alloc: Global, mut sender: Sender, count: u32) -> Sender
    requires sent { Sent 0 sender }
    requires few { count ≤ 2 ^ 20 }
    ensures { result.link ≡ sender.link }
{
    if let Some(last) = put_packets(rt, alloc, &mut sender, count) {
        put(rt, &mut sender, last);
    }
    sender
}

// Takes so many items, or up to one that closes, and finishes. Whether each packet was the next one.
fn receive<R: Wait>(rt: &R, mut receiver: Receiver, count: u32) -> (Finished, bool)
    ensures { result.0.link ≡ receiver.link }
{
    let mut place = 0;
    let mut in_order = true;
    for _ in rt.forever() {
        if place >= count {
            break;
        }
        match receiver.try_take(rt) {
            Take::Item(item) => {
                if item.closes() {
                    break;
                }
                in_order &= is_packet(&item, place);
                place += 1;
            }
            Take::Empty => thread::yield_now(),
        }
    }
    (receiver.finish(rt), in_order)
}

/// One thread sends so many packets and an end over a link of this size, and another takes so many items and finishes.
pub fn pass_packets<R: Threads + Wait + Sync>(
    rt: &R,
    alloc: Global,
    size: usize,
    tb: Rational,
    sent: u32,
    taken: u32,
) -> Result<Passed, AllocError>
    requires size { (1 ≤ size) × (size ≤ 1024) }
    requires base { IsWhole tb }
    requires few { sent ≤ 2 ^ 20 }
    ensures { IfOk result (λ passed. passed.settled.taken ≤ passed.settled.sent) }
{
    let (sender, receiver) = new_link(alloc, size, tb)?;
    let (sender, (finished, in_order)) = join(
        rt,
        move || -> Sender
            requires { Sent 0 sender × (sent ≤ 2 ^ 20) }
            ensures { result.link ≡ sender.link }
        { send(rt, alloc, sender, sent) },
        move || -> (Finished, bool)
            ensures { result.0.link ≡ receiver.link }
        { receive(rt, receiver, taken) },
    );
    Ok(Passed {
        settled: settle(sender, finished),
        in_order,
    })
}
