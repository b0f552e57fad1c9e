//! The scheduler's history, as a report has it.
ghost use Rattle.std.specs.Prelude.{◌≡◌};
ghost use Rattle.ff_command.specs.Histories.{events_in};

use ff_frame::Event;
use ff_sched::History as Scheduled;
use std::marker::Model;

/// All that the scheduler of a run granted and was told, in one order.
#[derive(Drop)]
pub struct History {
    scheduled: Option<Scheduled>,
}

impl Model for History {
    ghost use Rattle.std.specs.Prelude.{List};
    ghost use Rattle.ff_frame.specs.declared.event.Event.{Event};
    ghost use Rattle.ff_command.specs.Histories.{events_in};

    ghost Value = { List Event };

    ghost view = { λ h. events_in h.scheduled };
}

impl History {
    /// The events of what was scheduled; none where nothing was.
    pub(crate) fn new(scheduled: Option<Scheduled>) -> Self
        ensures { result ≡ events_in scheduled }
    {
        History { scheduled }
    }

    /// The events, the first one first.
    pub fn events(&self) -> &[Event]
        ensures { result.now ≡ self.now }
    {
        match &self.scheduled {
            Some(history) => history.events(),
            None => &[],
        }
    }
}
