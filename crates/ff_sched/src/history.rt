//! The history of a run, in one order.
ghost use Rattle.std.specs.Prelude.{◌≡◌};

use ff_frame::Event;
use std::marker::Model;

/// All that happened, in one order. Contracts see it as a list.
#[derive(Debug, Drop)]
pub struct History {
    /// The events, the first one first.
    pub(crate) events: Vec<Event>,
}

impl Model for History {
    ghost use Rattle.std.specs.Prelude.{List};
    ghost use Rattle.ff_frame.specs.declared.event.Event.{Event};

    ghost Value = { List Event };

    ghost view = { λ h. h.events.items };
}

impl History {
    /// The events, the first one first.
    pub fn events(&self) -> &[Event]
        ensures { result.now ≡ self.now }
    {
        &self.events
    }
}
