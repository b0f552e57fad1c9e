//! The trait of a machine, which takes streams and gives streams, one item at a time.
ghost use Rattle.std.specs.Prelude.{◌≡◌, ◌<◌, ◌⊎◌, ◌↔◌, length, IsSome, IsNone, IfSome, OnOk, OnErr, IfErr, IsTrue, None, Some, Ok};
ghost use Rattle.ff_stream.specs.Stream.{still_open, LiesBelow};
ghost use Rattle.ff_stream.specs.Items.{with_item};
ghost use Rattle.ff_stream.specs.Ports.{stream_at};
ghost use Rattle.ff_frame.specs.declared.event.Event.{Event};
ghost use Rattle.ff_net.specs.declared.fault.Fault.{Fault};
ghost use Rattle.ff_net.specs.declared.fault.Fault.TheVariants.{Device};
ghost use Rattle.ff_net.specs.Ways.{AreValid};
ghost use Rattle.ff_net.specs.Pasts.{Past, IsIn, fed, gave_item, was_asked, was_allowed, was_stopped, was_told, due};
ghost use Rattle.ff_net.specs.laws.Laws.{FaultStep, GoesOn, IsReading, Laws};
ghost use Rattle.ff_net.specs.laws.Views.{View, IsSameShape};

use crate::fault::Fault;
use ff_frame::{Event, Ticket};
use ff_stream::{Item, Refused};
use std::alloc::AllocError;

/// A part that takes streams and gives streams, an item at a time.
///
/// It need not keep what it was fed and gave: `stands` of its view ties its state to each past that can lie before it, and
/// every clause is owed for all of these.
pub trait Machine {
    /// What it shows to contracts.
    ghost view: { Self → View };

    /// The number of its inputs.
    fn inputs(&self) -> usize
        ensures { result ≡ length (view self.now).in_lanes };

    /// The number of its outputs.
    fn outputs(&self) -> usize
        ensures { result ≡ length (view self.now).out_lanes };

    /// The number of its source, where it is one.
    fn source(&self) -> Option<u32>
        ensures { result ≡ (view self.now).source };

    /// What went wrong; the first fault stays.
    fn fault(&self) -> Option<Fault>
        ensures { result ≡ (view self.now).fault };

    /// Allows a source one unit more. The ticket comes back where the machine is no source, or holds one already.
    fn allow(&mut self, ticket: Ticket) -> Option<Ticket>
        ensures shape { IsSameShape (view self.old) (view self.new) }
        ensures fares { FaultStep (view self.old) (view self.new) }
        ensures taken { IsNone result → (past : Past) → (view self.old).stands past → (view self.new).stands (was_allowed past ticket) }
        ensures held { IsNone result → IsSome (view self.old).source × ((view self.old).holds → ⊥) × (view self.new).holds }
        ensures back { IfSome result (λ t. (t ≡ ticket) × ((past : Past) → (view self.old).stands past → (view self.new).stands past)) }
        ensures back_only { IsSome result → ((view self.old).source ≡ None) ⊎ (view self.old).holds };

    /// Feeds an input that hasn't closed. A refused item comes back, and nothing has changed.
    fn feed(&mut self, port: usize, item: Item) -> Result<(), Refused>
        requires { port < length (view self.old).in_lanes }
        ensures shape { IsSameShape (view self.old) (view self.new) }
        ensures fares { FaultStep (view self.old) (view self.new) }
        ensures accepted { OnOk result ((past : Past) → (view self.old).stands past → (stream_at past.got port).mark ≡ still_open → AreValid (view self.old).in_lanes (fed past port item).got → (view self.new).stands (fed past port item)) }
        ensures refused { IfErr result (λ r. r.item ≡ item) }
        ensures unchanged { OnErr result ((past : Past) → (view self.old).stands past → (view self.new).stands past) };

    /// The next item of an output that wasn't stopped, or its closing item. None where nothing is due there, or where
    /// the machine's own source or sink failed in this call.
    fn pull(&mut self, port: usize) -> Result<Option<Item>, AllocError>
        requires { port < length (view self.old).out_lanes }
        ensures shape { IsSameShape (view self.old) (view self.new) }
        ensures fares { FaultStep (view self.old) (view self.new) }
        ensures gives { (x : Item) → result ≡ Ok (Some x) → (past : Past) → (view self.old).stands past → (IsIn port past.stopped → ⊥)
            → (view self.new).stands (gave_item past port x) × ((stream_at past.gave port).mark ≡ still_open) × LiesBelow (with_item (stream_at past.gave port) x) (stream_at (due past) port) }
        ensures waits { result ≡ Ok None → (past : Past) → (view self.old).stands past → (IsIn port past.stopped → ⊥) → (view self.new).stands (was_asked past port) }
        ensures none_due { result ≡ Ok None → GoesOn (view self.old).fault → (past : Past) → (view self.old).stands past → (IsIn port past.stopped → ⊥)
            → (stream_at past.gave port ≡ stream_at (due past) port) ⊎ ((view self.new).fault ≡ Some Device) }
        ensures unchanged { OnErr result ((past : Past) → (view self.old).stands past → (view self.new).stands past) };

    /// The receiver of an output has finished.
    fn stop(&mut self, port: usize)
        requires { port < length (view self.old).out_lanes }
        ensures shape { IsSameShape (view self.old) (view self.new) }
        ensures fares { FaultStep (view self.old) (view self.new) }
        ensures stopped { (past : Past) → (view self.old).stands past → (view self.new).stands (was_stopped past port) };

    /// Whether nothing more of an input can matter.
    fn spent(&self, port: usize) -> bool
        requires { port < length (view self.now).in_lanes }
        ensures { IsTrue result ↔ (view self.now).spent port };

    /// The next event to tell. None where each was told that is due by what was fed. A source's events are due once
    /// it has a fault or each output was stopped or has closed.
    fn next_event(&mut self) -> Option<Event>
        ensures shape { IsSameShape (view self.old) (view self.new) }
        ensures fares { FaultStep (view self.old) (view self.new) }
        ensures gives { (e : Event) → result ≡ Some e → (past : Past) → (view self.old).stands past → (view self.new).stands (was_told past e) × (IsReading (view self.old) past → ⊥) }
        ensures waits { IsNone result → (past : Past) → (view self.old).stands past → (view self.new).stands past }
        ensures none_due { IsNone result → (past : Past) → (view self.old).stands past → (past.told ≡ past.task.tells past.feeds) ⊎ IsReading (view self.old) past };

    /// Whether it makes its next items of this input. A hint, of which no clause speaks.
    fn lacks(&self, _port: usize) -> bool {
        true
    }

    /// Whether its next event may wait, as long as an input goes on. A hint, of which no clause speaks.
    fn defers(&self) -> bool {
        false
    }

    /// What it owes, for each past that can lie before it.
    ghost laws: { (m : Self) → Laws (view m) };
}
