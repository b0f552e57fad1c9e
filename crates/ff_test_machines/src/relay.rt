//! A machine that repeats its input on its outputs.
ghost use Rattle.std.specs.Prelude.{◌≡◌, ◌<◌, ◌⊎◌, ℕ, length, replicate, true, false, None, Some, Ok, Err, ◌∷◌, []};
ghost use Rattle.ff_test_machines.specs.Relays.{Relays, is_spent_relay, outs_stopped};

use ff_frame::{Event, Ticket};
use ff_net::{Fault, Machine};
use ff_stream::{Item, Lane, Refused, discard};
use std::alloc::{AllocError, Global};

/// An output: how many items went there, and whether its receiver has finished.
#[derive(Drop)]
pub struct Out {
    /// How many items went there.
    pub next: usize,
    /// Whether its receiver has finished.
    pub stopped: bool,
}

/// Repeats its input on each output, and ends after so many items. It keeps what it was fed, up to there.
#[derive(Drop)]
pub struct Relay {
    alloc: Global,
    lane: Lane,
    limit: usize,
    left: usize,
    closed: bool,
    given: Vec<Item>,
    outs: Vec<Out>,
    room: usize,
}

impl Relay {
    ghost use Rattle.std.specs.Prelude.{IfOk};
    ghost use Rattle.ff_net.specs.Pasts.{start};
    ghost use Rattle.ff_test_machines.specs.Starts.{relay_task, relay_stands};
    ghost use Rattle.ff_test_machines.specs.Trials.{relay_ins, relay_outs, given_by};

    /// A relay of this lane with so many outputs, which ends after `limit` items and refuses what comes after `room`.
    pub fn new(
        alloc: Global,
        lane: Lane,
        count: usize,
        limit: usize,
        room: usize,
    ) -> Result<Relay, AllocError>
        ensures ins { IfOk result (λ relay. relay_ins relay ≡ lane ∷ []) }
        ensures outs { IfOk result (λ relay. relay_outs relay ≡ replicate count lane) }
        ensures fresh { IfOk result (λ relay. relay_stands relay (start (relay_task limit count))) }
    {
        let mut outs = Vec::new(alloc);
        for _i in 0..count {
            outs.push(Out {
                next: 0,
                stopped: false,
            })?;
        }
        Ok(Relay {
            alloc,
            lane,
            limit,
            left: limit,
            closed: false,
            given: Vec::new(alloc),
            outs,
            room,
        })
    }

    /// What it was fed, up to where it ends.
    pub fn given(&self) -> &[Item]
        ensures { result.now ≡ given_by self.now }
    {
        &self.given
    }
}

fn all_stopped(outs: &Vec<Out>) -> bool
    ensures { result ≡ outs_stopped outs.now.items }
{
    for out in outs {
        if !out.stopped {
            return false;
        }
    }
    true
}

impl Machine for Relay {
    ghost use Rattle.ff_test_machines.specs.Kinds.{relay_view, relay_laws};

    ghost view = { relay_view };

    fn inputs(&self) -> usize {
        1
    }

    fn outputs(&self) -> usize {
        self.outs.len()
    }

    fn source(&self) -> Option<u32> {
        None
    }

    fn fault(&self) -> Option<Fault> {
        None
    }

    fn allow(&mut self, ticket: Ticket) -> Option<Ticket> {
        Some(ticket)
    }

    fn feed(&mut self, _port: usize, item: Item) -> Result<(), Refused> {
        if self.room == 0 {
            return Err(Refused { item });
        }
        let closes = item.closes();
        if self.left == 0 {
            discard(item);
            self.closed = self.closed | closes;
            return Ok(());
        }
        match self.given.push(item) {
            Ok(()) => {
                self.room -= 1;
                self.closed = self.closed | closes;
                if closes {
                    return Ok(());
                }
                self.left -= 1;
                Ok(())
            }
            Err(refused) => Err(Refused {
                item: refused.value,
            }),
        }
    }

    fn pull(&mut self, port: usize) -> Result<Option<Item>, AllocError> {
        let at = self.outs[port].next;
        let given = self.given.as_slice();
        let count = given.len();
        if at < count {
            let item = given[at].try_copy(self.alloc)?;
            let out = &mut self.outs[port];
            out.next = at + 1;
            return Ok(Some(item));
        }
        if self.left > 0 {
            return Ok(None);
        }
        if at > count {
            return Ok(None);
        }
        let out = &mut self.outs[port];
        out.next = at + 1;
        Ok(Some(Item::End))
    }

    fn stop(&mut self, port: usize) {
        let out = &mut self.outs[port];
        out.stopped = true;
    }

    fn spent(&self, _port: usize) -> bool {
        if self.closed {
            return true;
        }
        if self.outs.len() == 0 {
            return false;
        }
        if self.left == 0 {
            return true;
        }
        all_stopped(&self.outs)
    }

    fn next_event(&mut self) -> Option<Event> {
        None
    }

    ghost laws = { relay_laws };
}
