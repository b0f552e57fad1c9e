//! The merge of several streams of packets.
ghost use Rattle.std.specs.Prelude.{◌≡◌, ◌<◌, ◌^◌, ◌+◌, length, false, true, IfOk, OnOk, OnErr, IfErr, Ok, Some, None};
ghost use Rattle.ff_node_mux.specs.merge.Merges.{Placed};
ghost use Rattle.ff_node_mux.specs.laws.merge.Fronts.{IsFirst, known_to};
ghost use Rattle.ff_node_mux.specs.merge.Queues.{merging, IsNew, Same, Fed, Gave, Waits};

use crate::merge::queue::PacketQueue;
use ff_frame::Pkt;
use ff_stream::{Item, Refused};
use ff_time::Rational;
use std::alloc::{AllocError, Global};

/// The merge of several streams of packets by the exact time at which each is decoded, then by stream, then by position.
///
/// It keeps only what isn't decided: a packet waits while another stream that isn't whole has none after it.
#[derive(Drop)]
pub struct Interleave {
    /// What waits of each stream.
    pub queues: Vec<PacketQueue>,
    pub ghost few: { length queues.items < 2 ^ 32 },
}

impl Interleave {
    /// The merge of streams of these time bases, of which nothing came yet.
    pub fn new(alloc: Global, tbs: Vec<Rational>) -> Result<Interleave, AllocError>
        requires few { length tbs.items < 2 ^ 32 }
        ensures new { IfOk result (λ m. IsNew tbs.items (merging m.queues.items)) }
    {
        let mut queues = Vec::with_capacity(alloc, tbs.len())?;
        'streams: for p in 0..tbs.len() {
            queues.push(PacketQueue::new(alloc, tbs[p]))?;
        }
        Ok(Interleave { queues })
    }

    /// The number of its streams.
    pub fn streams(&self) -> usize
        ensures { result ≡ length (merging self.now.queues.items).bases }
    {
        self.queues.len()
    }

    /// Whether this stream was closed.
    pub fn is_shut(&self, stream: usize) -> bool
        requires there { stream < length (merging self.now.queues.items).bases }
        ensures { result ≡ (merging self.now.queues.items).shut stream }
    {
        self.queues[stream].is_shut()
    }

    /// Takes in an item of a stream that hasn't closed: a packet, or the closing item; another is let go. For want of memory it
    /// comes back, and nothing has changed.
    pub fn feed(&mut self, stream: usize, item: Item) -> Result<(), Refused>
        requires there { stream < length (merging self.old.queues.items).bases }
        requires open_before { (merging self.old.queues.items).shut stream ≡ false }
        ensures fed { OnOk result (Fed (merging self.old.queues.items) (merging self.new.queues.items) stream item) }
        ensures refused { IfErr result (λ r. r.item ≡ item) }
        ensures unchanged { OnErr result (Same (merging self.old.queues.items) (merging self.new.queues.items)) }
    {
        match self.queues[stream].feed(item) {
            Ok(()) => Ok(()),
            Err(refused) => Err(refused),
        }
    }

    // Of the stream that goes first among those before stream p, and stream p, the one that goes first.
    fn first_of(&self, first: Option<usize>, p: usize) -> Option<usize>
        requires there { p < length self.now.queues.items }
        requires first { IsFirst self.now.queues.items p first }
        ensures { IsFirst self.now.queues.items (p + 1) result }
    {
        let next = &self.queues[p];
        if next.is_empty() {
            return first;
        }
        match first {
            None => Some(p),
            Some(i) => if next.is_sooner(&self.queues[i]) {
                Some(p)
            } else {
                Some(i)
            },
        }
    }

    // The stream whose next packet goes first; None where no packet waits.
    fn first(&self) -> Option<usize>
        ensures { IsFirst self.now.queues.items (length self.now.queues.items) result }
    {
        let mut first: Option<usize> = None;
        'streams: for p in 0..self.queues.len() {
            first = self.first_of(first, p);
        }
        first
    }

    // Whether the next packet of each stream is known, or it is whole.
    fn is_known(&self) -> bool
        ensures { result ≡ known_to self.now.queues.items (length self.now.queues.items) }
    {
        'streams: for p in 0..self.queues.len() {
            if self.queues[p].is_bare() {
                return false;
            }
        }
        true
    }

    /// The next packet, and the number of its stream. None where nothing more is decided of what came.
    pub fn pull(&mut self) -> Option<(u32, Pkt)>
        ensures gives { (x : Placed) → result ≡ Some x → Gave (merging self.old.queues.items) (merging self.new.queues.items) x }
        ensures waits { result ≡ None → Waits (merging self.old.queues.items) (merging self.new.queues.items) }
    {
        if !self.is_known() {
            return None;
        }
        let Some(stream) = self.first() else {
            return None;
        };
        match self.queues[stream].queue.pop_front() {
            None => None,
            Some(packet) => Some((stream as u32, packet)),
        }
    }
}
