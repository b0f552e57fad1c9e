//! Passes, each a right to add events to a cell.
ghost use Rattle.std.specs.Prelude.{◌≡◌, ◌≤◌, IsOk, OnOk, OnErr, length};

use crate::logged::Logged;
use crate::rule::Seat;
use std::alloc::AllocError;
use std::marker::Model;

/// The right to add so many events to the history of a cell, and the log of those that it added.
#[derive(Drop)]
pub struct Pass {
    /// The pass of the cell itself.
    pub(crate) seat: Seat,
    /// How many events it may add in all.
    pub(crate) share: u64,
    /// The events that it added, with their places.
    pub(crate) log: Vec<Logged>,
}

impl Model for Pass {
    ghost use Rattle.ff_sched.specs.laws.Passing.{Passing};

    ghost Value = { Passing };

    ghost use Rattle.ff_sched.specs.laws.Passes.{IsPass, passing};

    ghost view = { passing };

    ghost invariant = { IsPass };
}

impl Pass {
    /// Makes room for so many events more.
    pub fn reserve(&mut self, events: usize) -> Result<(), AllocError>
        ensures ok { OnOk result (events ≤ self.new.spare) }
        ensures same { self.new ≡ record self.old { spare = self.new.spare } }
        ensures room { self.old.spare ≤ self.new.spare }
        ensures succeeds { events ≤ self.old.spare → IsOk result }
        ensures err { OnErr result (self.new.spare ≡ self.old.spare) }
    {
        self.log.reserve(events)
    }

    /// For how many events more there is room.
    pub fn spare(&self) -> usize
        ensures { result ≡ self.now.spare }
    {
        self.log.capacity() - self.log.len()
    }

    /// How many events it has added.
    pub fn logged(&self) -> u64
        ensures count { result ≡ length self.now.log }
        ensures within { result ≤ self.now.share }
    {
        self.log.len() as u64
    }

    /// How many events it may add in all.
    pub fn share(&self) -> u64
        ensures { result ≡ self.now.share }
    {
        self.share
    }
}
