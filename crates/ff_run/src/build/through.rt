//! Machines in the middle of a plan.
ghost use Rattle.std.specs.Prelude.{◌≡◌, ◌⊎◌, [], IfSome, IsNone};

use ff_frame::{Event, Ticket};
use ff_net::{Fault, Machine};
use ff_stream::{Item, Refused};
use std::alloc::AllocError;

/// A machine with an input and an output, so that it is neither a source of a plan nor a sink.
#[derive(Drop)]
pub struct Through<M: Machine> {
    /// The machine.
    pub machine: M,
    ghost ins: { (M.view machine).in_lanes ≡ [] → ⊥ },
    ghost outs: { (M.view machine).out_lanes ≡ [] → ⊥ },
}

impl<M: Machine + Drop> Through<M> {
    /// The machine, where it has both; none where it has no input or no output.
    pub fn new(machine: M) -> Option<Through<M>>
        ensures same { IfSome result (λ t. t.machine ≡ machine) }
        ensures none { IsNone result → ((M.view machine).in_lanes ≡ []) ⊎ ((M.view machine).out_lanes ≡ []) }
    {
        if machine.inputs() == 0 || machine.outputs() == 0 {
            return None;
        }
        Some(Through { machine })
    }
}

impl<M: Machine + Drop> Machine for Through<M> {
    ghost use Rattle.ff_run.specs.laws.build.Throughs.{through_shown};

    ghost view = { through_shown };

    fn inputs(&self) -> usize {
        self.machine.inputs()
    }

    fn outputs(&self) -> usize {
        self.machine.outputs()
    }

    fn source(&self) -> Option<u32> {
        self.machine.source()
    }

    fn fault(&self) -> Option<Fault> {
        self.machine.fault()
    }

    fn allow(&mut self, ticket: Ticket) -> Option<Ticket> {
        self.machine.allow(ticket)
    }

    fn feed(&mut self, port: usize, item: Item) -> Result<(), Refused> {
        self.machine.feed(port, item)
    }

    fn pull(&mut self, port: usize) -> Result<Option<Item>, AllocError> {
        self.machine.pull(port)
    }

    fn stop(&mut self, port: usize) {
        self.machine.stop(port);
    }

    fn spent(&self, port: usize) -> bool {
        self.machine.spent(port)
    }

    fn next_event(&mut self) -> Option<Event> {
        self.machine.next_event()
    }

    fn lacks(&self, port: usize) -> bool {
        self.machine.lacks(port)
    }

    fn defers(&self) -> bool {
        self.machine.defers()
    }

    ghost laws = { λ m. M.laws m.machine };
}
