//! A machine that joins two inputs.
ghost use Rattle.std.specs.Prelude.{◌≡◌, ◌<◌, ◌≤◌, ◌⊎◌, ◌↔◌, ℕ, length, true, false, None, Some, Ok, Err, ◌∷◌, [], ◌++◌, OnOk, OnErr, IfErr, IsTrue};
ghost use Rattle.ff_stream.specs.declared.item.Item.{Item};
ghost use Rattle.ff_stream.specs.Stream.{still_open};
ghost use Rattle.ff_stream.specs.Items.{with_item};
ghost use Rattle.ff_stream.specs.Ports.{nothing};
ghost use Rattle.ff_test_machines.specs.Joins.{Joins, joined, mark_of, kept_of, is_spent_join};

use ff_frame::{Event, Ticket};
use ff_net::{Fault, Machine};
use ff_stream::{Item, Lane, Refused};
use std::alloc::{AllocError, Global};

/// How an input has ended, if it has.
#[derive(Clone, Copy, Debug, PartialEq, Eq)]
pub enum Ending {
    /// It goes on.
    Open,
    /// All has come.
    Whole,
    /// The rest was lost.
    Broken,
}

/// What came on an input.
#[derive(Drop)]
pub struct Kept {
    /// The items that came.
    pub items: Vec<Item>,
    /// How the input has ended.
    pub ending: Ending,
}

impl Kept {
    /// Keeps an item more, or the end. Refused for want of memory, with the item and as it was.
    pub fn keep(&mut self, item: Item) -> Result<(), Refused>
        ensures kept { OnOk result (kept_of self.new ≡ with_item (kept_of self.old) item) }
        ensures refused { IfErr result (λ r. r.item ≡ item) }
        ensures unchanged { OnErr result (kept_of self.new ≡ kept_of self.old) }
    {
        match item {
            Item::End => {
                self.ending = Ending::Whole;
                Ok(())
            }
            Item::Broken => {
                self.ending = Ending::Broken;
                Ok(())
            }
            Item::Audio(frame) => self.push(Item::Audio(frame)),
            Item::Video(frame) => self.push(Item::Video(frame)),
            Item::Packet(packet) => self.push(Item::Packet(packet)),
            Item::Trailer(totals) => self.push(Item::Trailer(totals)),
        }
    }

    fn push(&mut self, item: Item) -> Result<(), Refused>
        ensures items { OnOk result (self.new.items.items ≡ self.old.items.items ++ item ∷ []) }
        ensures ending { self.new.ending ≡ self.old.ending }
        ensures refused { IfErr result (λ r. r.item ≡ item) }
        ensures unchanged { OnErr result (self.new.items.items ≡ self.old.items.items) }
    {
        match self.items.push(item) {
            Ok(()) => Ok(()),
            Err(refused) => Err(Refused {
                item: refused.value,
            }),
        }
    }
}

/// Joins two inputs: pairs their items by number, and gives the first of each pair. It ends as its first input does
/// once all items of that are paired. It ends as its second where that has no partner for an item of the first.
#[derive(Drop)]
pub struct Join {
    alloc: Global,
    lane: Lane,
    first: Kept,
    second: Kept,
    next: usize,
    ended: bool,
    stopped: bool,
    room: usize,
}

impl Join {
    ghost use Rattle.ff_net.specs.Pasts.{start};
    ghost use Rattle.ff_test_machines.specs.Starts.{join_task, join_stands};
    ghost use Rattle.ff_test_machines.specs.Trials.{join_ins, join_outs};

    /// A machine that joins two inputs of this lane, and refuses what comes after `room` items.
    pub fn new(alloc: Global, lane: Lane, room: usize) -> Join
        ensures ins { join_ins result ≡ lane ∷ lane ∷ [] }
        ensures outs { join_outs result ≡ lane ∷ [] }
        ensures fresh { join_stands result (start join_task) }
    {
        let first = Kept {
            items: Vec::new(alloc),
            ending: Ending::Open,
        };
        let second = Kept {
            items: Vec::new(alloc),
            ending: Ending::Open,
        };
        Join {
            alloc,
            lane,
            first,
            second,
            next: 0,
            ended: false,
            stopped: false,
            room,
        }
    }
}

/// Whether the item of this number of the first input is there, and has a partner.
fn is_paired(first: &Kept, second: &Kept, number: usize) -> bool
    ensures yes { result ≡ true → (number < length first.now.items.items) × (number < length second.now.items.items) }
    ensures no { result ≡ false → (length first.now.items.items ≤ number) ⊎ (length second.now.items.items ≤ number) }
{
    if number < first.items.len() {
        number < second.items.len()
    } else {
        false
    }
}

/// How the output of two inputs ends.
fn closing(first: &Kept, second: &Kept) -> Ending
    ensures { mark_of result ≡ (joined (kept_of first.now) (kept_of second.now)).mark }
{
    if first.items.len() <= second.items.len() {
        first.ending
    } else {
        second.ending
    }
}

fn has_ended(ending: Ending) -> bool
    ensures ended { result ≡ true → mark_of ending ≡ still_open → ⊥ }
    ensures goes_on { result ≡ false → mark_of ending ≡ still_open }
{
    match ending {
        Ending::Open => false,
        Ending::Whole | Ending::Broken => true,
    }
}

/// The item that says so.
fn closing_item(ending: Ending) -> Option<Item>
    ensures none { result ≡ None → mark_of ending ≡ still_open }
    ensures some { (x : Item) → result ≡ Some x → with_item nothing x ≡ record { items = []; mark = mark_of ending } }
    ensures closes { (x : Item) → result ≡ Some x → mark_of ending ≡ still_open → ⊥ }
{
    match ending {
        Ending::Open => None,
        Ending::Whole => Some(Item::End),
        Ending::Broken => Some(Item::Broken),
    }
}

impl Machine for Join {
    ghost use Rattle.ff_test_machines.specs.Kinds.{join_view, join_laws};

    ghost view = { join_view };

    fn inputs(&self) -> usize {
        2
    }

    fn outputs(&self) -> usize {
        1
    }

    fn source(&self) -> Option<u32> {
        None
    }

    fn fault(&self) -> Option<Fault> {
        None
    }

    fn allow(&mut self, ticket: Ticket) -> Option<Ticket> {
        Some(ticket)
    }

    fn feed(&mut self, port: usize, item: Item) -> Result<(), Refused> {
        if self.room == 0 {
            return Err(Refused { item });
        }
        if port == 0 {
            self.first.keep(item)?;
            self.room -= 1;
            return Ok(());
        }
        self.second.keep(item)?;
        self.room -= 1;
        Ok(())
    }

    fn pull(&mut self, _port: usize) -> Result<Option<Item>, AllocError> {
        if self.ended {
            return Ok(None);
        }
        if is_paired(&self.first, &self.second, self.next) {
            let firsts = self.first.items.as_slice();
            let item = firsts[self.next].try_copy(self.alloc)?;
            self.next += 1;
            return Ok(Some(item));
        }
        let Some(item) = closing_item(closing(&self.first, &self.second)) else {
            return Ok(None);
        };
        self.ended = true;
        Ok(Some(item))
    }

    fn stop(&mut self, _port: usize) {
        self.stopped = true;
    }

    fn spent(&self, port: usize) -> bool {
        if self.stopped {
            return true;
        }
        if has_ended(closing(&self.first, &self.second)) {
            return true;
        }
        if port == 0 {
            has_ended(self.first.ending)
        } else {
            has_ended(self.second.ending)
        }
    }

    fn next_event(&mut self) -> Option<Event> {
        None
    }

    ghost laws = { join_laws };
}
