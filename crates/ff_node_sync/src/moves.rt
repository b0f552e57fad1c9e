//! The steps of one stream that others may shorten.
ghost use Rattle.std.specs.Prelude.{◌≡◌, ◌<◌, [], ◌||◌, OnOk, OnErr, IfErr, IfSome, IsNone, Some, true, false};
ghost use Rattle.std.specs.VecDeque.{deque_len, deque_capacity};
ghost use Rattle.ff_stream.specs.declared.item.Item.{Item as AnItem};
ghost use Rattle.ff_frame.specs.Heads.{base_of_head};
ghost use Rattle.ff_filter.specs.Made.{is_over, closing};
ghost use Rattle.ff_filter.specs.Views.{closes};
ghost use Rattle.ff_node_sync.specs.laws.Moves.{Takes, IsStart, IsTaken, IsEnded, IsStopped};
ghost use Rattle.ff_node_sync.specs.Lines.{line_of, new_line};
ghost use Rattle.ff_node_sync.specs.laws.Straights.{IsGiven, IsHeld};

use crate::end::later;
use crate::side::Side;
use ff_filter::{After, closing_of, start_of_item};
use ff_frame::StreamHead;
use ff_stream::{Item, Refused, discard, end_ticks};
use std::alloc::{AllocError, Global};
use std::collections::VecDeque;

impl Side {
    /// Nothing came yet.
    pub fn new(alloc: Global, head: StreamHead) -> Side
        ensures line { line_of result ≡ new_line (base_of_head head) }
        ensures head { result.head ≡ head }
    {
        Side {
            head,
            queue: VecDeque::new(alloc),
            after: After::More,
            reach: 0,
            ended: false,
            stopped: false,
        }
    }

    /// Whether the closing item came.
    pub fn is_shut(&self) -> bool
        ensures { result ≡ is_over self.now.after }
    {
        self.after.is_over()
    }

    // Takes in what closes the stream.
    fn close(&mut self, item: Item, after: After)
        requires open { self.old.after ≡ After.More }
        requires says { closing item ≡ Some after }
        ensures takes { Takes (line_of self.old) (line_of self.new) item }
        ensures head { self.new.head ≡ self.old.head }
    {
        discard(item);
        self.after = after;
    }

    // Lets an item go that is not to be given; only its end counts.
    fn pass_over(&mut self, item: Item)
        requires open { self.old.after ≡ After.More }
        requires goes_on { closes item ≡ false }
        requires unwanted { (self.old.ended || self.old.stopped) ≡ true }
        ensures queue { self.new.queue.items ≡ self.old.queue.items }
        ensures takes { Takes (line_of self.old) (line_of self.new) item }
        ensures head { self.new.head ≡ self.old.head }
    {
        self.reach = later(self.reach, end_ticks(&item));
        discard(item);
    }

    // Keeps an item until it is decided.
    fn keep(&mut self, item: Item)
        requires open { self.old.after ≡ After.More }
        requires goes_on { closes item ≡ false }
        requires room { deque_len self.old.queue < deque_capacity self.old.queue }
        ensures takes { Takes (line_of self.old) (line_of self.new) item }
        ensures head { self.new.head ≡ self.old.head }
    {
        self.reach = later(self.reach, end_ticks(&item));
        self.queue.push_back_reserved(item);
    }

    // Makes room for one item more.
    fn reserve(&mut self) -> Result<(), AllocError>
        ensures line { line_of self.new ≡ line_of self.old }
        ensures head { self.new.head ≡ self.old.head }
        ensures room { OnOk result (deque_len self.new.queue < deque_capacity self.new.queue) }
    {
        self.queue.reserve(1)
    }

    /// Takes an item in. For want of memory it comes back, and nothing has changed.
    pub fn feed(&mut self, item: Item) -> Result<(), Refused>
        requires open { is_over self.old.after ≡ false }
        ensures let_go { self.old.stopped ≡ true → closes item ≡ false → self.new.queue.items ≡ self.old.queue.items }
        ensures takes { OnOk result (Takes (line_of self.old) (line_of self.new) item) }
        ensures refused { IfErr result (λ r. r.item ≡ item) }
        ensures unchanged { OnErr result (line_of self.new ≡ line_of self.old) }
        ensures head { self.new.head ≡ self.old.head }
    {
        if let Some(after) = closing_of(&item) {
            self.close(item, after);
            return Ok(());
        }
        if self.ended | self.stopped {
            self.pass_over(item);
            return Ok(());
        }
        if self.reserve().is_err() {
            return Err(Refused { item });
        }
        self.keep(item);
        Ok(())
    }

    /// When its next item starts, in ticks; None where none waits.
    pub fn start(&self) -> Option<u64>
        ensures none { IsNone result → self.now.queue.items ≡ [] }
        ensures some { IfSome result (λ t. IsStart self.now.queue.items t) }
    {
        match self.queue.front() {
            None => None,
            Some(item) => Some(start_of_item(item)),
        }
    }

    /// Gives the next item.
    pub fn give(&mut self) -> Option<Item>
        ensures none { IsNone result → self.old.queue.items ≡ [] }
        ensures some { (x : AnItem) → result ≡ Some x → IsTaken (line_of self.old) (line_of self.new) x }
        ensures head { self.new.head ≡ self.old.head }
    {
        self.queue.pop_front()
    }

    /// Gives the next item whatever other streams do; where none waits, the closing item, if it came.
    pub fn pull(&mut self) -> Option<Item>
        ensures gives { (x : AnItem) → result ≡ Some x → IsGiven (line_of self.old) (line_of self.new) x }
        ensures waits { IsNone result → IsHeld (line_of self.old) (line_of self.new) }
        ensures head { self.new.head ≡ self.old.head }
    {
        if self.ended {
            return None;
        }
        if let Some(item) = self.queue.pop_front() {
            return Some(item);
        }
        match self.after {
            After::More => None,
            After::Whole => {
                self.ended = true;
                Some(Item::End)
            }
            After::Broke => {
                self.ended = true;
                Some(Item::Broken)
            }
        }
    }

    /// Its output is closed: nothing more is to be given.
    pub fn end(&mut self)
        ensures ended { IsEnded (line_of self.old) (line_of self.new) }
        ensures head { self.new.head ≡ self.old.head }
    {
        self.ended = true;
        self.queue.clear();
    }

    /// Its output isn't wanted any more.
    pub fn stop(&mut self)
        ensures stopped { IsStopped (line_of self.old) (line_of self.new) }
        ensures head { self.new.head ≡ self.old.head }
    {
        self.stopped = true;
        self.queue.clear();
    }
}
