//! An output, and the items that wait on it.
ghost use Rattle.std.specs.Prelude.{◌≡◌, ◌<◌, ◌++◌, ◌∷◌, ◌||◌, [], OnOk, IfSome, Some, None, true, false};
ghost use Rattle.std.specs.VecDeque.{deque_len, deque_capacity};
ghost use Rattle.ff_stream.specs.declared.item.Item.{Item};
ghost use Rattle.ff_stream.specs.Ports.{nothing};
ghost use Rattle.ff_filter.specs.Joins.{Flow, before};
ghost use Rattle.ff_filter.specs.Views.{closes, none_closes};
ghost use Rattle.ff_filter.specs.Made.{left, listed_option};

use crate::after::After;
use ff_stream::{Item, discard};
use std::alloc::{AllocError, Global};
use std::collections::VecDeque;

/// An output, and the items that wait there.
#[derive(Drop)]
pub struct Outlet {
    /// The items, the next one first.
    pub queue: VecDeque<Item>,
    /// Whether the closing item was given.
    pub ended: bool,
    /// Whether it isn't wanted any more.
    pub stopped: bool,
    pub ghost unclosed: { none_closes queue.items ≡ true },
}

impl Outlet {
    /// Nothing waits.
    pub fn new(alloc: Global) -> Outlet
        ensures queue { result.queue.items ≡ [] }
        ensures ended { result.ended ≡ false }
        ensures stopped { result.stopped ≡ false }
    {
        Outlet {
            queue: VecDeque::new(alloc),
            ended: false,
            stopped: false,
        }
    }

    /// Makes room for one item more.
    pub fn reserve(&mut self) -> Result<(), AllocError>
        ensures queue { self.new.queue.items ≡ self.old.queue.items }
        ensures ended { self.new.ended ≡ self.old.ended }
        ensures stopped { self.new.stopped ≡ self.old.stopped }
        ensures room { OnOk result (deque_len self.new.queue < deque_capacity self.new.queue) }
    {
        self.queue.reserve(1)
    }

    /// Puts an item that closes nothing after the others, where it is wanted.
    pub fn put(&mut self, item: Item)
        requires room { deque_len self.old.queue < deque_capacity self.old.queue }
        requires goes_on { closes item ≡ false }
        ensures put { self.old.stopped ≡ false → self.new.queue.items ≡ self.old.queue.items ++ item ∷ [] }
        ensures ended { self.new.ended ≡ self.old.ended }
        ensures stopped { self.new.stopped ≡ self.old.stopped }
    {
        if self.stopped {
            discard(item);
            return;
        }
        self.queue.push_back_reserved(item);
    }

    /// Puts an item, where there is one.
    pub fn put_any(&mut self, item: Option<Item>)
        requires room { deque_len self.old.queue < deque_capacity self.old.queue }
        requires goes_on { IfSome item (λ y. closes y ≡ false) }
        ensures put { self.old.stopped ≡ false → self.new.queue.items ≡ self.old.queue.items ++ listed_option item }
        ensures ended { self.new.ended ≡ self.old.ended }
        ensures stopped { self.new.stopped ≡ self.old.stopped }
    {
        match item {
            Some(item) => self.put(item),
            None => {}
        }
    }

    /// The next item, or the closing one where nothing waits and the stream stands so.
    pub fn take(&mut self, after: After) -> Option<Item>
        ensures gives { (x : Item) → result ≡ Some x
            → (self.old.ended ≡ false) × ((t : Flow) → left self.old.queue.items self.old.ended after t ≡ before x (left self.new.queue.items self.new.ended after t))
            × (self.new.ended ≡ closes x) }
        ensures waits { result ≡ None → ((t : Flow) → left self.new.queue.items self.new.ended after t ≡ left self.old.queue.items self.old.ended after t)
            × (left self.old.queue.items self.old.ended after nothing ≡ nothing) × (self.new.ended ≡ self.old.ended) }
        ensures stopped { self.new.stopped ≡ self.old.stopped }
    {
        if self.ended {
            return None;
        }
        if let Some(item) = self.queue.pop_front() {
            return Some(item);
        }
        match after {
            After::More => None,
            After::Whole => {
                self.ended = true;
                Some(Item::End)
            }
            After::Broke => {
                self.ended = true;
                Some(Item::Broken)
            }
        }
    }

    /// It isn't wanted any more.
    pub fn stop(&mut self)
        ensures stopped { self.new.stopped ≡ true }
        ensures cleared { self.new.queue.items ≡ [] }
        ensures ended { self.new.ended ≡ self.old.ended }
    {
        self.stopped = true;
        self.queue.clear();
    }

    /// Whether nothing more is to be put there.
    pub fn is_done(&self) -> bool
        ensures { result ≡ (self.now.stopped || self.now.ended) }
    {
        self.stopped | self.ended
    }
}
