//! A machine of any of the kinds here.
use crate::join::Join;
use crate::relay::Relay;
use crate::source::Source;
use ff_frame::{Event, Ticket};
use ff_net::{Fault, Machine};
use ff_stream::{Item, Refused};
use std::alloc::AllocError;

/// A machine of one of the kinds.
#[derive(Drop)]
pub enum Plain {
    /// Gives a list.
    Source(Source),
    /// Repeats its input on its outputs, or keeps it where it has none.
    Relay(Relay),
    /// Pairs two inputs.
    Join(Join),
}

impl Machine for Plain {
    ghost use Rattle.ff_test_machines.specs.Plains.{plain_view};
    ghost use Rattle.ff_test_machines.specs.PlainLaws.{plain_laws};

    ghost view = { plain_view };

    fn inputs(&self) -> usize {
        match self {
            Plain::Source(m) => m.inputs(),
            Plain::Relay(m) => m.inputs(),
            Plain::Join(m) => m.inputs(),
        }
    }

    fn outputs(&self) -> usize {
        match self {
            Plain::Source(m) => m.outputs(),
            Plain::Relay(m) => m.outputs(),
            Plain::Join(m) => m.outputs(),
        }
    }

    fn source(&self) -> Option<u32> {
        match self {
            Plain::Source(m) => m.source(),
            Plain::Relay(m) => m.source(),
            Plain::Join(m) => m.source(),
        }
    }

    fn fault(&self) -> Option<Fault> {
        match self {
            Plain::Source(m) => m.fault(),
            Plain::Relay(m) => m.fault(),
            Plain::Join(m) => m.fault(),
        }
    }

    fn allow(&mut self, ticket: Ticket) -> Option<Ticket> {
        match self {
            Plain::Source(m) => m.allow(ticket),
            Plain::Relay(m) => m.allow(ticket),
            Plain::Join(m) => m.allow(ticket),
        }
    }

    fn feed(&mut self, port: usize, item: Item) -> Result<(), Refused> {
        match self {
            Plain::Source(m) => m.feed(port, item),
            Plain::Relay(m) => m.feed(port, item),
            Plain::Join(m) => m.feed(port, item),
        }
    }

    fn pull(&mut self, port: usize) -> Result<Option<Item>, AllocError> {
        match self {
            Plain::Source(m) => m.pull(port),
            Plain::Relay(m) => m.pull(port),
            Plain::Join(m) => m.pull(port),
        }
    }

    fn stop(&mut self, port: usize) {
        match self {
            Plain::Source(m) => m.stop(port),
            Plain::Relay(m) => m.stop(port),
            Plain::Join(m) => m.stop(port),
        }
    }

    fn spent(&self, port: usize) -> bool {
        match self {
            Plain::Source(m) => m.spent(port),
            Plain::Relay(m) => m.spent(port),
            Plain::Join(m) => m.spent(port),
        }
    }

    fn next_event(&mut self) -> Option<Event> {
        match self {
            Plain::Source(m) => m.next_event(),
            Plain::Relay(m) => m.next_event(),
            Plain::Join(m) => m.next_event(),
        }
    }

    ghost laws = { plain_laws };
}
