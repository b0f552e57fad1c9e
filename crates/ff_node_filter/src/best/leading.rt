//! A machine that tells the scheduler its best input.
ghost use Rattle.std.specs.Prelude.{◌≡◌, ◌≤◌, ◌^◌, map, length, None, IfOk, IfErr};
ghost use Rattle.ff_stream.specs.declared.item.Lane.TheVariants.{Frames};
ghost use Rattle.ff_net.specs.Pasts.{Task, Past, start, no_events};
ghost use Rattle.ff_net.specs.laws.Views.{IsSameShape};
ghost use Rattle.ff_node_filter.specs.best.Bests.{best_events};
ghost use Rattle.ff_node_filter.specs.best.Inputs.{bases_of_heads};
ghost use Rattle.ff_node_filter.specs.laws.best.Laws.{last_named};

use crate::best::input::end_of_item;
use crate::best::lead::Lead;
use ff_frame::{Event, StreamHead, Ticket};
use ff_net::{Fault, Machine};
use ff_stream::{Item, Refused};
use std::alloc::{AllocError, Global};

/// A machine that besides tells which of its inputs is the best one, each time that it has become another. What the machine
/// within tells itself would be lost: its task has to tell nothing.
#[derive(Drop)]
pub struct Leading<M: Machine> {
    /// The machine.
    pub machine: M,
    lead: Lead,
    /// The best input as it was told last.
    told: u32,
    ghost lanes: { length (M.view machine).in_lanes ≡ length lead.inputs.items },
}

// The best input that was told last, after this event.
fn told_after(told: u32, event: Option<Event>) -> u32 {
    match event {
        Some(Event::Best(_, best)) => best,
        _ => told,
    }
}

impl<M: Machine + Drop> Leading<M> {
    ghost use Rattle.ff_node_filter.specs.laws.best.Leaders.{leading_shown};

    /// A machine that is no source and to which nothing was done, as that of the graph of this number. Its inputs
    /// carry frames of these heads. For want of memory it comes back.
    pub fn new(alloc: Global, graph: u32, heads: &[StreamHead], machine: M) -> Result<Leading<M>, M>
        requires few { length heads.now ≤ 2 ^ 32 }
        requires lanes { (M.view machine).in_lanes ≡ map Frames heads.now }
        requires no_source { (M.view machine).source ≡ None }
        ensures stands { IfOk result (λ m. (t : Task) → t.tells ≡ no_events → (M.view machine).stands (start t)
            → (leading_shown m).stands (start (record t { tells = best_events graph (bases_of_heads heads.now) }))) }
        ensures machine { IfOk result (λ m. m.machine ≡ machine) }
        ensures shape { IfOk result (λ m. IsSameShape (M.view machine) (leading_shown m)) }
        ensures fault { IfOk result (λ m. (leading_shown m).fault ≡ (M.view machine).fault) }
        ensures device { IfOk result (λ m. (leading_shown m).device ≡ (M.view machine).device) }
        ensures back { IfErr result (λ back. back ≡ machine) }
    {
        match Lead::new(alloc, graph, heads) {
            Ok(lead) => Ok(Leading {
                machine,
                lead,
                told: 0,
            }),
            Err(_) => Err(machine),
        }
    }

    /// The best input, by what it was fed: the one that the last event names which is due by now.
    pub fn best(&self) -> u32
        ensures { (past : Past) → (leading_shown self.now).stands past → result ≡ last_named 0 (past.task.tells past.feeds) }
    {
        self.lead.best()
    }

    // Whether the machine makes its next items of no input but this one, which goes on.
    fn lacks_no_other(&self, port: usize) -> bool {
        for p in 0..self.machine.inputs() {
            if p != port && self.lead.goes_on(p) && self.machine.lacks(p) {
                return false;
            }
        }
        self.lead.goes_on(port)
    }
}

impl<M: Machine + Drop> Machine for Leading<M> {
    ghost use Rattle.ff_node_filter.specs.laws.best.Leaders.{leading_shown};
    ghost use Rattle.ff_node_filter.specs.laws.best.LeadLaws.{leading_laws};

    ghost view = { leading_shown };

    fn inputs(&self) -> usize {
        self.machine.inputs()
    }

    fn outputs(&self) -> usize {
        self.machine.outputs()
    }

    fn source(&self) -> Option<u32> {
        self.machine.source()
    }

    fn fault(&self) -> Option<Fault> {
        self.machine.fault()
    }

    fn allow(&mut self, ticket: Ticket) -> Option<Ticket> {
        self.machine.allow(ticket)
    }

    fn feed(&mut self, port: usize, item: Item) -> Result<(), Refused> {
        if self.lead.reserve().is_err() {
            return Err(Refused { item });
        }
        let end = end_of_item(&item);
        match self.machine.feed(port, item) {
            Ok(()) => {
                self.lead.note(port, end);
                Ok(())
            }
            Err(refused) => Err(refused),
        }
    }

    fn pull(&mut self, port: usize) -> Result<Option<Item>, AllocError> {
        self.machine.pull(port)
    }

    fn stop(&mut self, port: usize) {
        self.machine.stop(port);
    }

    fn spent(&self, port: usize) -> bool {
        self.machine.spent(port)
    }

    fn next_event(&mut self) -> Option<Event> {
        let event = self.lead.next();
        self.told = told_after(self.told, event);
        event
    }

    fn lacks(&self, port: usize) -> bool {
        self.machine.lacks(port)
    }

    // As long as the next items are made of no input but the one that was told as the best, its source goes on.
    fn defers(&self) -> bool {
        self.lead.waits() && self.lacks_no_other(self.told as usize)
    }

    ghost laws = { λ m. leading_laws (M.view m.machine) m.lead (M.laws m.machine) };
}
