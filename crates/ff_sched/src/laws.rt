//! A law of histories. It is a function that does nothing: its clause holds of all values.
ghost use Rattle.std.specs.Prelude.{◌≡◌, Bool, List, filter};
ghost use Rattle.ff_frame.specs.declared.event.Event.{Event};
ghost use Rattle.ff_sched.specs.laws.Passing.{Scheduler, Passing, IsHistory};
ghost use Rattle.ff_sched.specs.laws.Laws.{IsPassOf, HasAllOf, events_in};

/// Where one pass alone has the events of a kind, they stand in the history as they stand in its log. Such are those
/// of one stream or of one source.
pub fn one_log_keeps_its_order()
    ensures { (kind : Event → Bool) (cell : Scheduler) (passes : List Passing) (events : List Event) (pass : Passing)
        → IsHistory cell passes events → IsPassOf pass passes → HasAllOf kind passes pass.log
        → filter kind events ≡ filter kind (events_in pass.log) }
{}
