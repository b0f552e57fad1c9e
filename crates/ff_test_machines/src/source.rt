//! A source that gives the packets of a list.
ghost use Rattle.std.specs.Prelude.{◌≡◌, ◌<◌, ◌⊎◌, ℕ, length, true, false, None, Some, Ok, Err, ◌∷◌, []};
ghost use Rattle.ff_test_machines.specs.Lists.{Lists, fault_if, as_count};

use ff_frame::{Event, Ticket};
use ff_net::{Fault, Machine};
use ff_stream::{Item, Lane, Refused};
use std::alloc::{AllocError, Global};

/// Gives the packets of a list, one for each ticket, and then the end. Once it has ended, was stopped or has a fault, it
/// has an event to tell: that it has exited. Its device can be made to fail at a packet, and memory to be refused for one.
#[derive(Drop)]
pub struct Source {
    alloc: Global,
    lane: Lane,
    number: u32,
    items: Vec<Item>,
    next: usize,
    ended: bool,
    ticket: bool,
    failed: bool,
    stopped: bool,
    told: bool,
    fails_at: usize,
    refuses_at: usize,
}

impl Source {
    ghost use Rattle.ff_stream.specs.Lanes.{IsValid};
    ghost use Rattle.ff_stream.specs.Stream.{whole_stream};
    ghost use Rattle.ff_net.specs.Pasts.{start};
    ghost use Rattle.ff_test_machines.specs.Starts.{list_task, source_stands};
    ghost use Rattle.ff_test_machines.specs.Trials.{source_outs, source_number, count_given};

    /// The source of this number, of packets that are valid for this lane. Its device fails at the packet `fails_at`, and
    /// memory is refused for the packet `refuses_at`.
    pub fn new(
        alloc: Global,
        lane: Lane,
        number: u32,
        items: Vec<Item>,
        fails_at: usize,
        refuses_at: usize,
    ) -> Source
        ensures outs { source_outs result ≡ lane ∷ [] }
        ensures number { source_number result ≡ number }
        ensures fresh { IsValid lane (whole_stream items.items) → source_stands result (start (list_task number items.items)) }
    {
        Source {
            alloc,
            lane,
            number,
            items,
            next: 0,
            ended: false,
            ticket: false,
            failed: false,
            stopped: false,
            told: false,
            fails_at,
            refuses_at,
        }
    }

    /// How many of its packets it gave.
    pub fn given(&self) -> usize
        ensures { result ≡ count_given self.now }
    {
        self.next
    }
}

// Whether nothing more will be read.
fn is_over(ended: bool, stopped: bool, failed: bool) -> bool
    ensures yes { result ≡ true → (ended ≡ true) ⊎ (stopped ≡ true) ⊎ (failed ≡ true) }
    ensures no { result ≡ false → (ended ≡ false) × (stopped ≡ false) × (failed ≡ false) }
{
    ended | stopped | failed
}

impl Machine for Source {
    ghost use Rattle.ff_test_machines.specs.Kinds.{source_view, source_laws};

    ghost view = { source_view };

    fn inputs(&self) -> usize {
        0
    }

    fn outputs(&self) -> usize {
        1
    }

    fn source(&self) -> Option<u32> {
        Some(self.number)
    }

    fn fault(&self) -> Option<Fault> {
        if self.failed {
            Some(Fault::Device)
        } else {
            None
        }
    }

    fn allow(&mut self, ticket: Ticket) -> Option<Ticket> {
        if self.ticket {
            return Some(ticket);
        }
        self.ticket = true;
        None
    }

    fn feed(&mut self, _port: usize, item: Item) -> Result<(), Refused>
        ensures same { self.new ≡ self.old }
        ensures err { result ≡ Err (record { item = item }) }
    {
        Err(Refused { item })
    }

    fn pull(&mut self, _port: usize) -> Result<Option<Item>, AllocError> {
        if self.ended {
            return Ok(None);
        }
        if self.failed {
            return Ok(None);
        }
        if !self.ticket {
            return Ok(None);
        }
        if self.next == self.fails_at {
            self.failed = true;
            return Ok(None);
        }
        if self.next == self.refuses_at {
            return Err(AllocError);
        }
        let items = self.items.as_slice();
        if self.next < items.len() {
            let item = items[self.next].try_copy(self.alloc)?;
            self.ticket = false;
            self.next += 1;
            return Ok(Some(item));
        }
        self.ticket = false;
        self.ended = true;
        Ok(Some(Item::End))
    }

    fn stop(&mut self, _port: usize) {
        self.stopped = true;
    }

    fn spent(&self, _port: usize) -> bool
        ensures { result ≡ false }
    {
        false
    }

    fn next_event(&mut self) -> Option<Event> {
        if self.told {
            return None;
        }
        if !is_over(self.ended, self.stopped, self.failed) {
            return None;
        }
        self.told = true;
        Some(Event::Exited(self.number))
    }

    ghost laws = { source_laws };
}
