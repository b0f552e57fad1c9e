//! An input that keeps items until they can be used.
ghost use Rattle.std.specs.Prelude.{◌≡◌, ◌<◌, ◌≤◌, [], length, false, true, OnOk};
ghost use Rattle.std.specs.VecDeque.{deque_len, deque_capacity};
ghost use Rattle.ff_stream.specs.declared.item.Item.{Item};
ghost use Rattle.ff_filter.specs.Joins.{Flow, before};
ghost use Rattle.ff_filter.specs.Views.{closes, none_closes};
ghost use Rattle.ff_filter.specs.Made.{waiting, is_over};
ghost use Rattle.ff_filter.specs.laws.Inlets.{IsNext};

use crate::after::{After, closing_of};
use ff_stream::{Item, discard};
use std::alloc::{AllocError, Global};
use std::collections::VecDeque;

/// What comes next on an input.
#[derive(Drop)]
pub enum Next {
    /// This item, which closes nothing.
    Data(Item),
    /// Nothing more: all has come.
    Whole,
    /// Nothing more: the rest was lost.
    Lost,
    /// Nothing yet.
    Unknown,
}

/// An input that keeps items until they can be used.
#[derive(Drop)]
pub struct Inlet {
    /// The items, the next one first.
    pub queue: VecDeque<Item>,
    /// How the input stands after them.
    pub after: After,
    pub ghost unclosed: { none_closes queue.items ≡ true },
}

impl Inlet {
    /// Nothing came yet.
    pub fn new(alloc: Global) -> Inlet
        ensures queue { result.queue.items ≡ [] }
        ensures after { result.after ≡ After.More }
    {
        Inlet {
            queue: VecDeque::new(alloc),
            after: After::More,
        }
    }

    /// Whether the closing item came.
    pub fn is_shut(&self) -> bool
        ensures { result ≡ is_over self.now.after }
    {
        self.after.is_over()
    }

    /// Makes room for one item more.
    pub fn reserve(&mut self) -> Result<(), AllocError>
        ensures queue { self.new.queue.items ≡ self.old.queue.items }
        ensures after { self.new.after ≡ self.old.after }
        ensures room { OnOk result (deque_len self.new.queue < deque_capacity self.new.queue) }
    {
        self.queue.reserve(1)
    }

    /// Takes an item in.
    pub fn take_in(&mut self, item: Item)
        requires room { deque_len self.old.queue < deque_capacity self.old.queue }
        requires open { is_over self.old.after ≡ false }
        ensures taken { (t : Flow) → waiting self.new.queue.items self.new.after t ≡ waiting self.old.queue.items self.old.after (before item t) }
        ensures shut { is_over self.new.after ≡ closes item }
    {
        match closing_of(&item) {
            Some(after) => {
                discard(item);
                self.after = after;
            }
            None => self.queue.push_back_reserved(item),
        }
    }

    /// Takes out what comes next.
    pub fn next(&mut self) -> Next
        ensures next { IsNext result (λ t. waiting self.old.queue.items self.old.after t) (λ t. waiting self.new.queue.items self.new.after t) }
        ensures after { self.new.after ≡ self.old.after }
        ensures no_longer { length self.new.queue.items ≤ length self.old.queue.items }
        ensures shorter { (x : Item) → result ≡ Next.Data x → length self.new.queue.items < length self.old.queue.items }
    {
        match self.queue.pop_front() {
            Some(item) => Next::Data(item),
            None => match self.after {
                After::More => Next::Unknown,
                After::Whole => Next::Whole,
                After::Broke => Next::Lost,
            },
        }
    }
}
