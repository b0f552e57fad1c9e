//! One output of a machine, with the items that are ready on it.
ghost use Rattle.std.specs.Prelude.{◌≡◌, ◌<◌, ◌∷◌, ◌++◌, false, Some, None, IfOk, OnOk};
ghost use Rattle.std.specs.VecDeque.{deque_len, deque_capacity};
ghost use Rattle.ff_stream.specs.declared.item.Item.{Item};
ghost use Rattle.ff_node_codec.specs.laws.Lines.{line_of, HasRoom, first_items, closing_items};

use ff_filter::After;
use ff_stream::{Item, discard};
use std::alloc::{AllocError, Global};
use std::collections::VecDeque;

/// The items that were made for an output and not yet given.
#[derive(Drop)]
pub struct Ready {
    /// The items, the next one first.
    pub queue: VecDeque<Item>,
    /// An item that is to be put after them.
    pub next: Option<Item>,
    /// Whether the receiver of the output has finished.
    pub stopped: bool,
}

impl Ready {
    /// Nothing was made yet. Where all is over then, what closes the output waits.
    pub fn new(alloc: Global, over: bool) -> Result<Ready, AllocError>
        ensures { IfOk result (λ ready. line_of ready ≡ record { queue = first_items over; stopped = false }) }
    {
        let mut queue = VecDeque::new(alloc);
        if over {
            queue.push_back(Item::End)?;
        }
        Ok(Ready {
            queue,
            next: None,
            stopped: false,
        })
    }

    /// Makes room for an item more, and for one that closes the output.
    pub fn reserve(&mut self) -> Result<(), AllocError>
        ensures same { line_of self.new ≡ line_of self.old }
        ensures room { OnOk result (HasRoom self.new) }
    {
        self.queue.reserve(2)
    }

    /// An equal item is to be put next, where one is wanted.
    pub fn copy_next(&mut self, alloc: Global, made: &Item) -> Result<(), AllocError>
        ensures same { line_of self.new ≡ line_of self.old }
        ensures room { HasRoom self.old → HasRoom self.new }
        ensures next { OnOk result (self.old.stopped ≡ false → self.new.next ≡ Some made.now) }
    {
        if self.stopped {
            return Ok(());
        }
        let copy = made.try_copy(alloc)?;
        self.next = Some(copy);
        Ok(())
    }

    /// This item is to be put next.
    pub fn set_next(&mut self, made: Item)
        ensures same { line_of self.new ≡ line_of self.old }
        ensures room { HasRoom self.old → HasRoom self.new }
        ensures next { self.new.next ≡ Some made }
    {
        self.next = Some(made);
    }

    // Puts what closes the output, where it is over.
    fn close(&mut self, after: After)
        requires { deque_len self.old.queue < deque_capacity self.old.queue }
        ensures stopped { self.new.stopped ≡ self.old.stopped }
        ensures puts { self.new.queue.items ≡ self.old.queue.items ++ closing_items after }
    {
        match after {
            After::More => {}
            After::Whole => self.queue.push_back_reserved(Item::End),
            After::Broke => self.queue.push_back_reserved(Item::Broken),
        }
    }

    /// Puts the item that is to be put after the others, and what closes the output after it. Once the output was
    /// stopped, it is let go.
    pub fn put_next(&mut self, after: After)
        requires { HasRoom self.old }
        ensures stopped { self.new.stopped ≡ self.old.stopped }
        ensures puts { (x : Item) → self.old.next ≡ Some x → self.old.stopped ≡ false
            → self.new.queue.items ≡ self.old.queue.items ++ x ∷ closing_items after }
    {
        match self.next.take() {
            None => {}
            Some(item) => if self.stopped {
                discard(item);
            } else {
                self.queue.push_back_reserved(item);
                self.close(after);
            },
        }
    }
}
