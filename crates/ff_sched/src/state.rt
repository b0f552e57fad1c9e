//! The scheduler's state, and one step of it.
ghost use Rattle.std.specs.Prelude.{◌≡◌, ◌+◌, ◌<◌, ◌^◌};
ghost use Rattle.ff_sched.specs.Events.{step_of, IsSmall};
ghost use Rattle.ff_sched.specs.State.{last_at, finished_at, exited_at, best_at, opening_of};

use crate::routes::Routes;
use crate::words::{BEST, COUNT, MARKS, stepped};
use ff_frame::Event;
use std::marker::Model;

/// The state of the scheduler. Contracts see it as lists.
#[derive(Drop)]
pub struct SchedState {
    /// The machine words of the cell.
    pub(crate) words: [u64; 20],
}

impl Model for SchedState {
    ghost use Rattle.ff_sched.specs.State.{State};

    ghost Value = { State };

    ghost use Rattle.ff_sched.specs.laws.Words.{state_of};

    ghost view = { λ s. state_of s.words };
}

// Nothing was sent.
const NONE: u64 = u64::MAX;

impl SchedState {
    /// Nothing has happened. The sources with a bit here have exited.
    pub fn opening(_routes: &Routes, unused: u16) -> SchedState
        ensures { result ≡ opening_of unused }
    {
        let marks = (unused as u64) << 16;
        SchedState {
            words: [
                NONE, NONE, NONE, NONE, NONE, NONE, NONE, NONE, NONE, NONE, NONE, NONE, NONE, NONE,
                NONE, NONE, marks, 0, 0, 0,
            ],
        }
    }

    /// The last time of a stream in microseconds, where something of it was sent.
    pub fn last(&self, stream: u32) -> Option<u64>
        requires { stream < 16 }
        ensures { result ≡ last_at self.now stream }
    {
        let time = self.words[stream as usize];
        if time == NONE { None } else { Some(time) }
    }

    /// Whether a stream has finished.
    pub fn finished(&self, stream: u32) -> bool
        requires { stream < 16 }
        ensures { result ≡ finished_at self.now stream }
    {
        (self.words[MARKS] >> stream) % 2 == 1
    }

    /// Whether a source has exited.
    pub fn exited(&self, source: u32) -> bool
        requires { source < 16 }
        ensures { result ≡ exited_at self.now source }
    {
        (self.words[MARKS] >> (16 + source)) % 2 == 1
    }

    /// The best input of a graph.
    pub fn best(&self, graph: u32) -> u32
        requires { graph < 16 }
        ensures { result ≡ best_at self.now graph }
    {
        ((self.words[BEST] >> (4 * graph)) % 16) as u32
    }

    /// An equal state.
    pub(crate) fn again(&self) -> SchedState
        ensures { result ≡ self.now }
    {
        SchedState { words: self.words }
    }

    /// How many events there were.
    pub fn count(&self) -> u64
        ensures { result ≡ self.now.count }
    {
        self.words[COUNT]
    }
}

/// An event happens.
pub fn step(state: &mut SchedState, event: Event)
    requires small { IsSmall event }
    requires count { state.old.count < 2 ^ 63 }
    ensures { state.new ≡ step_of state.old event }
{
    state.words = stepped(state.words, event);
}
