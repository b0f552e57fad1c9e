//! The packets of one stream that wait to be merged.
ghost use Rattle.std.specs.Prelude.{◌≡◌, ◌<◌, [], OnOk, OnErr, IfErr, ◌&&◌, not, true, false};
ghost use Rattle.std.specs.VecDeque.{deque_len, deque_capacity};
ghost use Rattle.ff_filter.specs.Joins.{Flow, before};
ghost use Rattle.ff_filter.specs.Made.{is_over, mark_after};
ghost use Rattle.ff_filter.specs.Views.{closes};
ghost use Rattle.ff_node_mux.specs.merge.Merges.{is_some};
ghost use Rattle.ff_node_mux.specs.laws.merge.Fronts.{TellsSooner};
ghost use Rattle.ff_node_mux.specs.merge.Queues.{came, waiting_of};
ghost use Rattle.ff_stream.specs.Stream.{is_whole};

use ff_filter::After;
use ff_frame::Pkt;
use ff_stream::{Item, Refused, discard};
use ff_time::{Rational, compare};
use std::alloc::{AllocError, Global};
use std::collections::VecDeque;

/// The packets of a stream that wait to be given.
#[derive(Drop)]
pub struct PacketQueue {
    /// The time base of the stream.
    pub tb: Rational,
    /// The packets, the next one first.
    pub queue: VecDeque<Pkt>,
    /// How the stream stands after them.
    pub after: After,
}

impl PacketQueue {
    /// Nothing came yet of a stream of this time base.
    pub fn new(alloc: Global, tb: Rational) -> PacketQueue
        ensures tb { result.tb ≡ tb }
        ensures queue { result.queue.items ≡ [] }
        ensures after { result.after ≡ After.More }
    {
        PacketQueue {
            tb,
            queue: VecDeque::new(alloc),
            after: After::More,
        }
    }

    /// Whether the closing item came.
    pub fn is_shut(&self) -> bool
        ensures { result ≡ is_over self.now.after }
    {
        self.after.is_over()
    }

    /// Whether its next packet isn't known, and may still come or was lost.
    pub fn is_bare(&self) -> bool
        ensures { result ≡ (not (is_some self.now.queue.items) && not (is_whole (mark_after self.now.after))) }
    {
        self.queue.is_empty() && self.after != After::Whole
    }

    /// Whether no packet waits.
    pub fn is_empty(&self) -> bool
        ensures { result ≡ not (is_some self.now.queue.items) }
    {
        self.queue.is_empty()
    }

    /// Whether its next packet is decoded before that of another, as exact times.
    pub fn is_sooner(&self, other: &PacketQueue) -> bool
        requires some { is_some self.now.queue.items ≡ true }
        requires other_some { is_some other.now.queue.items ≡ true }
        ensures { TellsSooner self.now other.now result }
    {
        compare(self.queue[0].dts, self.tb, other.queue[0].dts, other.tb).is_lt()
    }

    // Makes room for one packet more.
    fn reserve(&mut self) -> Result<(), AllocError>
        ensures queue { self.new.queue.items ≡ self.old.queue.items }
        ensures after { self.new.after ≡ self.old.after }
        ensures tb { self.new.tb ≡ self.old.tb }
        ensures room { OnOk result (deque_len self.new.queue < deque_capacity self.new.queue) }
    {
        self.queue.reserve(1)
    }

    // Takes an item in. What isn't a packet is let go.
    fn take_in(&mut self, item: Item)
        requires room { deque_len self.old.queue < deque_capacity self.old.queue }
        requires going { is_over self.old.after ≡ false }
        ensures taken { (t : Flow) → came (waiting_of self.new) t ≡ came (waiting_of self.old) (before item t) }
        ensures shut { is_over self.new.after ≡ closes item }
        ensures tb { self.new.tb ≡ self.old.tb }
    {
        match item {
            Item::Packet(packet) => self.queue.push_back_reserved(packet),
            Item::End => self.after = After::Whole,
            Item::Broken => self.after = After::Broke,
            Item::Audio(frame) => discard(Item::Audio(frame)),
            Item::Video(frame) => discard(Item::Video(frame)),
            Item::Trailer(totals) => discard(Item::Trailer(totals)),
        }
    }

    /// Takes an item in; what isn't a packet is let go. For want of memory it comes back, and nothing has changed.
    pub fn feed(&mut self, item: Item) -> Result<(), Refused>
        requires going { is_over self.old.after ≡ false }
        ensures taken { OnOk result ((t : Flow) → came (waiting_of self.new) t ≡ came (waiting_of self.old) (before item t)) }
        ensures shut { OnOk result (is_over self.new.after ≡ closes item) }
        ensures refused { IfErr result (λ r. r.item ≡ item) }
        ensures queue { OnErr result (self.new.queue.items ≡ self.old.queue.items) }
        ensures after { OnErr result (self.new.after ≡ self.old.after) }
        ensures tb { self.new.tb ≡ self.old.tb }
    {
        if self.reserve().is_err() {
            return Err(Refused { item });
        }
        self.take_in(item);
        Ok(())
    }
}
