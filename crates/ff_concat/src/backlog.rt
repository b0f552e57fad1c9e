//! The items of a segment that wait to be given.
ghost use Rattle.std.specs.Prelude.{◌≡◌, ◌≤◌, ◌^◌, ◌++◌, ◌∷◌, [], min, length, true, false, OnOk, OnErr, IfErr, IfSome, IsNone};
ghost use Rattle.ff_concat.specs.laws.Late.{first_late};
ghost use Rattle.ff_filter.specs.Views.{closes, none_closes};

use crate::shifts::least_shift;
use ff_frame::StreamHead;
use ff_stream::{Item, Refused};
use std::alloc::Global;
use std::collections::VecDeque;

/// What came of a segment on one stream and wasn't given yet.
#[derive(Drop)]
pub struct Backlog {
    /// The items, the next one first.
    pub queue: VecDeque<Item>,
    /// By how many ticks the items that were put in are to be later, at the least, so that one of them ends too late.
    pub least: u128,
    pub ghost unclosed: { none_closes queue.items ≡ true },
}

impl Backlog {
    /// Nothing waits.
    pub fn new(alloc: Global) -> Backlog
        ensures none { result.queue.items ≡ [] }
        ensures least { 2 ^ 127 ≤ result.least }
    {
        Backlog {
            queue: VecDeque::new(alloc),
            least: u128::MAX,
        }
    }

    /// Puts an item behind the others, which ends too late from so many ticks later on. For want of memory it comes
    /// back, and nothing has changed.
    pub fn push(&mut self, item: Item, least: u128) -> Result<(), Refused>
        requires goes_on { closes item ≡ false }
        ensures pushed { OnOk result (self.new.queue.items ≡ self.old.queue.items ++ item ∷ []) }
        ensures least { OnOk result (self.new.least ≡ min self.old.least least) }
        ensures refused { IfErr result (λ r. r.item ≡ item) }
        ensures unchanged { OnErr result ((self.new.queue.items ≡ self.old.queue.items) × (self.new.least ≡ self.old.least)) }
    {
        if self.queue.reserve(1).is_err() {
            return Err(Refused { item });
        }
        self.queue.push_back_reserved(item);
        self.least = self.least.min(least);
        Ok(())
    }

    /// Takes the next item out. What was told of those that were put in stays.
    pub fn pop(&mut self) -> Option<Item>
        ensures some { IfSome result (λ x. (closes x ≡ false) × (self.old.queue.items ≡ x ∷ self.new.queue.items)) }
        ensures none { IsNone result → (self.old.queue.items ≡ []) × (self.new.queue.items ≡ []) }
        ensures least { self.new.least ≡ self.old.least }
    {
        self.queue.pop_front()
    }

    /// Whether the next item of a stream of this head ends too late, so many ticks later.
    pub fn is_first_late(&self, head: &StreamHead, by: u128) -> bool
        requires { by ≤ 9223372036854775807 }
        ensures { result ≡ first_late head.now by self.now.queue.items }
    {
        match self.queue.front() {
            None => false,
            Some(item) => least_shift(head, item) <= by,
        }
    }

    /// How many wait.
    pub fn len(&self) -> usize
        ensures { result ≡ length self.now.queue.items }
    {
        self.queue.len()
    }

    /// Whether nothing waits.
    pub fn is_empty(&self) -> bool
        ensures empty { result ≡ true → self.now.queue.items ≡ [] }
        ensures some { self.now.queue.items ≡ [] → result ≡ true }
    {
        self.queue.is_empty()
    }

    /// Lets all go.
    pub fn clear(&mut self) {
        self.queue.clear();
    }
}
