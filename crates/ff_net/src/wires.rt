//! Wires between the nodes of one thread.
ghost use Rattle.std.specs.Prelude.{◌≡◌, ◌<◌, ◌≤◌};
ghost use Rattle.std.specs.VecDeque.{deque_len, deque_capacity};

use ff_stream::{Item, Lane};
use std::alloc::{AllocError, Global};
use std::collections::VecDeque;

/// The answer of a wire to an item.
#[derive(Debug, Drop)]
pub enum Put {
    /// The wire has it.
    Done,
    /// The wire has no room now.
    Full(Item),
    /// The receiver takes nothing more.
    Finished(Item),
}

/// The answer of a wire that is asked for an item.
#[derive(Debug, Drop)]
pub enum Take {
    /// The next item.
    Item(Item),
    /// There is none now.
    Empty,
}

/// What lies on one wire.
#[derive(Drop)]
pub struct Queue {
    lane: Lane,
    content: VecDeque<Item>,
    size: usize,
    finished: bool,
    ghost some: { 1 ≤ size },
    ghost fits: { deque_len content ≤ size },
    ghost room: { size ≤ deque_capacity content },
}

/// Wires of one thread, by number: each carries the items of its lane from one node to another, in order.
#[derive(Drop)]
pub struct Wires {
    queues: Vec<Queue>,
}

impl Wires {
    ghost use Rattle.std.specs.Prelude.{◌≡◌, ◌<◌, ℕ, length, false, true, IfOk, All};
    ghost use Rattle.ff_stream.specs.Stream.{still_open};
    ghost use Rattle.ff_stream.specs.Items.{with_item};
    ghost use Rattle.ff_net.specs.Ways.{lane_at, IsValidOn};
    ghost use Rattle.ff_net.specs.laws.Worlds.{Wire, Stand, fresh, put_on, take_on, finish_on, lanes_of, sizes_of, IsFull, HasRoom, IsEmpty, IsFinished};

    /// One wire for each lane, with room for so many items. Nothing was put, taken or finished.
    pub fn new(alloc: Global, lanes: Vec<Lane>, size: usize) -> Result<Wires, AllocError>
        requires { 1 ≤ size }
        ensures fresh { IfOk result (λ wires. Stand wires (λ w. fresh)) }
        ensures lanes { IfOk result (λ wires. lanes_of wires ≡ lanes.items) }
        ensures sizes { IfOk result (λ wires. All (λ n. n ≡ size) (sizes_of wires)) }
    {
        let mut queues = Vec::new(alloc);
        for lane in lanes {
            let queue = Queue {
                lane,
                content: VecDeque::with_capacity(alloc, size)?,
                size,
                finished: false,
            };
            queues.push(queue)?;
        }
        Ok(Wires { queues })
    }

    /// Whether nothing lies on a wire.
    pub fn is_empty(&self, wire: usize) -> bool
        requires { wire < length (lanes_of self.now) }
        ensures empty { result ≡ true → IsEmpty self.now wire }
        ensures exact { IsEmpty self.now wire → result ≡ true }
    {
        self.queues[wire].content.is_empty()
    }

    /// Whether the receiver of a wire takes nothing more.
    pub fn is_finished(&self, wire: usize) -> bool
        requires { wire < length (lanes_of self.now) }
        ensures finished { result ≡ true → IsFinished self.now wire }
        ensures goes_on { result ≡ false → (world : ℕ → Wire) → Stand self.now world → (world wire).finished ≡ false }
    {
        self.queues[wire].finished
    }

    /// Puts an item on a wire on which no closing item was put, and whose sent stream it keeps valid for the lane.
    pub fn try_put(&mut self, wire: usize, item: Item) -> Put
        requires { wire < length (lanes_of self.old) }
        ensures lanes { lanes_of self.new ≡ lanes_of self.old }
        ensures sizes { sizes_of self.new ≡ sizes_of self.old }
        ensures done { result ≡ Put.Done → (world : ℕ → Wire) → Stand self.old world → (world wire).sent.mark ≡ still_open → IsValidOn (lane_at (lanes_of self.old) wire) (with_item (world wire).sent item)
            → ((world wire).finished ≡ false) × Stand self.new (put_on world wire item) }
        ensures room { result ≡ Put.Done → HasRoom self.old wire }
        ensures full { (x : _) → result ≡ Put.Full x → (x ≡ item) × (self.new ≡ self.old) × IsFull self.old wire }
        ensures finished { (x : _) → result ≡ Put.Finished x → (x ≡ item) × (self.new ≡ self.old) × IsFinished self.old wire }
    {
        let queue = &self.queues[wire];
        if queue.finished {
            return Put::Finished(item);
        }
        if queue.content.len() >= queue.size {
            return Put::Full(item);
        }
        let queue = &mut self.queues[wire];
        queue.content.push_back_reserved(item);
        Put::Done
    }

    /// Takes the next item of a wire that isn't finished.
    pub fn try_take(&mut self, wire: usize) -> Take
        requires { wire < length (lanes_of self.old) }
        ensures lanes { lanes_of self.new ≡ lanes_of self.old }
        ensures sizes { sizes_of self.new ≡ sizes_of self.old }
        ensures item { (x : _) → result ≡ Take.Item x → (world : ℕ → Wire) → Stand self.old world → ((world wire).taken.mark ≡ still_open) × Stand self.new (take_on world wire x) }
        ensures empty { result ≡ Take.Empty → (self.new ≡ self.old) × IsEmpty self.old wire }
    {
        let queue = &self.queues[wire];
        if queue.content.is_empty() {
            return Take::Empty;
        }
        let queue = &mut self.queues[wire];
        match queue.content.pop_front() {
            Some(item) => Take::Item(item),
            None => Take::Empty,
        }
    }

    /// Says to the sender of a wire that its receiver takes nothing more.
    pub fn finish(&mut self, wire: usize)
        requires { wire < length (lanes_of self.old) }
        ensures lanes { lanes_of self.new ≡ lanes_of self.old }
        ensures sizes { sizes_of self.new ≡ sizes_of self.old }
        ensures finished { (world : ℕ → Wire) → Stand self.old world → Stand self.new (finish_on world wire) }
    {
        self.queues[wire].finished = true;
    }
}
