//! The machine of a source of frames.
ghost use Rattle.std.specs.Prelude.{◌≡◌, ◌≢◌, ◌+◌, ◌^◌, ◌≤◌, ◌<◌, ◌⊎◌, ◌∷◌, ℕ, [], Some, None, Ok, Err, true, false, length, OnErr, IfSome, IsSome, IsNone};
ghost use Rattle.ff_stream.specs.declared.item.Lane.TheVariants.{Frames};
ghost use Rattle.ff_net.specs.declared.fault.Fault.TheVariants.{Device, TooLarge};

use crate::gens::frames::FrameSource;
use ff_frame::{Event, StreamHead, Ticket};
use ff_net::{Fault, Machine};
use ff_stream::{Item, Refused, is_long};
use std::alloc::AllocError;

/// Gives frames that are made, one for each ticket, and makes none before its ticket.
#[derive(Drop)]
pub struct Gen<G> {
    /// Its number among the sources.
    number: u32,
    head: StreamHead,
    frames: G,
    /// How many frames were given.
    given: u64,
    ticket: bool,
    /// Its output has closed.
    ended: bool,
    /// A frame passed a limit.
    long: bool,
    /// Its output was stopped.
    stopped: bool,
    /// It told that it has exited.
    told: bool,
    ghost few: { given ≤ 2 ^ 40 },
    ghost last: { long ≡ true → ended ≡ true },
}

impl<G: FrameSource + Drop> Gen<G> {
    ghost use Rattle.ff_stream.specs.Lanes.{AreInShape};
    ghost use Rattle.ff_stream.specs.Ports.{stream_at};
    ghost use Rattle.ff_net.specs.Pasts.{Past, start};
    ghost use Rattle.ff_node_demux.specs.gens.Generating.{frames_task};
    ghost use Rattle.ff_node_demux.specs.laws.gens.Generators.{gen_out_lanes, gen_source, gen_fault, gen_tried, gen_stands};

    /// Over what gives frames in shape for this head, the source of this number.
    pub fn new(number: u32, head: StreamHead, frames: G) -> Gen<G>
        requires { AreInShape (Frames head) (G.left frames) }
        ensures fault { gen_fault result ≡ None }
        ensures source { gen_source result ≡ Some number }
        ensures lanes { gen_out_lanes result ≡ Frames head ∷ [] }
        ensures stands { gen_stands G.left result (start (frames_task number head (G.left frames))) }
    {
        Gen {
            number,
            head,
            frames,
            given: 0,
            ticket: false,
            ended: false,
            long: false,
            stopped: false,
            told: false,
        }
    }

    /// Under how many of its tickets, from the first on, it has tried a frame or the end. That is as many as it
    /// gave, and so at most one more than its stream has frames.
    pub fn tried(&self) -> u64
        ensures tries { result ≡ gen_tried self.now }
        ensures few { (past : Past) → gen_stands G.left self.now past → result ≤ length (stream_at (past.task.means past.got) 0).items + 1 }
    {
        if self.ended {
            return self.given + 1;
        }
        self.given
    }

    // It gives nothing more.
    fn is_over(&self) -> bool
        ensures over { result ≡ true → (self.now.ended ≡ true) ⊎ (self.now.stopped ≡ true) }
        ensures goes_on { result ≡ false → (self.now.ended ≡ false) × (self.now.stopped ≡ false) }
    {
        self.ended || self.stopped
    }
}

impl<G: FrameSource + Drop> Machine for Gen<G> {
    ghost use Rattle.ff_stream.specs.Stream.{still_open, LiesBelow};
    ghost use Rattle.ff_stream.specs.Items.{with_item};
    ghost use Rattle.ff_stream.specs.Ports.{stream_at};
    ghost use Rattle.ff_net.specs.laws.Laws.{FaultStep, GoesOn, IsReading};
    ghost use Rattle.ff_net.specs.Pasts.{Past, IsIn, gave_item, was_allowed, was_asked, was_stopped, was_told, due};
    ghost use Rattle.ff_net.specs.laws.Views.{IsSameShape};
    ghost use Rattle.ff_node_demux.specs.laws.gens.Generators.{gen_source, gen_fault, gen_holds, gen_stands};
    ghost use Rattle.ff_node_demux.specs.laws.gens.GenViews.{gen_view, gen_laws};

    ghost view = { gen_view G.left };

    fn inputs(&self) -> usize {
        0
    }

    fn outputs(&self) -> usize {
        1
    }

    fn source(&self) -> Option<u32> {
        Some(self.number)
    }

    fn fault(&self) -> Option<Fault>
        ensures value { result ≡ gen_fault self.now }
        ensures fits { gen_fault self.now ≢ Some TooLarge }
    {
        if self.long {
            return Some(Fault::TooLong);
        }
        None
    }

    fn allow(&mut self, ticket: Ticket) -> Option<Ticket>
        ensures shape { IsSameShape (gen_view G.left self.old) (gen_view G.left self.new) }
        ensures fares { FaultStep (gen_view G.left self.old) (gen_view G.left self.new) }
        ensures taken { IsNone result → (past : Past) → gen_stands G.left self.old past → gen_stands G.left self.new (was_allowed past ticket) }
        ensures held { IsNone result → IsSome (gen_source self.old) × (gen_holds self.old → ⊥) × gen_holds self.new }
        ensures back { IfSome result (λ t. (t ≡ ticket) × ((past : Past) → gen_stands G.left self.old past → gen_stands G.left self.new past)) }
        ensures back_only { IsSome result → (gen_source self.old ≡ None) ⊎ gen_holds self.old }
    {
        if self.ticket {
            return Some(ticket);
        }
        self.ticket = true;
        None
    }

    fn feed(&mut self, _port: usize, item: Item) -> Result<(), Refused>
        ensures same { self.new ≡ self.old }
        ensures err { result ≡ Err (record { item = item }) }
    {
        Err(Refused { item })
    }

    fn pull(&mut self, _port: usize) -> Result<Option<Item>, AllocError>
        requires { _port < 1 }
        ensures shape { IsSameShape (gen_view G.left self.old) (gen_view G.left self.new) }
        ensures fares { FaultStep (gen_view G.left self.old) (gen_view G.left self.new) }
        ensures gives { (x : Item) → result ≡ Ok (Some x) → (past : Past) → gen_stands G.left self.old past → (IsIn _port past.stopped → ⊥)
            → gen_stands G.left self.new (gave_item past _port x) × ((stream_at past.gave _port).mark ≡ still_open)
            × LiesBelow (with_item (stream_at past.gave _port) x) (stream_at (due past) _port) }
        ensures waits { result ≡ Ok None → (past : Past) → gen_stands G.left self.old past → (IsIn _port past.stopped → ⊥)
            → gen_stands G.left self.new (was_asked past _port) }
        ensures none_due { result ≡ Ok None → GoesOn (gen_fault self.old) → (past : Past) → gen_stands G.left self.old past → (IsIn _port past.stopped → ⊥)
            → (stream_at past.gave _port ≡ stream_at (due past) _port) ⊎ (gen_fault self.new ≡ Some Device) }
        ensures unchanged { OnErr result ((past : Past) → gen_stands G.left self.old past → gen_stands G.left self.new past) }
    {
        if self.ended {
            return Ok(None);
        }
        if !self.ticket {
            return Ok(None);
        }
        let Some(frame) = self.frames.next_frame()? else {
            self.ticket = false;
            self.ended = true;
            return Ok(Some(Item::End));
        };
        self.ticket = false;
        if is_long(&self.head, self.given, &frame) {
            self.ended = true;
            self.long = true;
            return Ok(Some(Item::Broken));
        }
        self.given += 1;
        Ok(Some(frame))
    }

    fn stop(&mut self, _port: usize)
        requires { _port < 1 }
        ensures shape { IsSameShape (gen_view G.left self.old) (gen_view G.left self.new) }
        ensures fares { FaultStep (gen_view G.left self.old) (gen_view G.left self.new) }
        ensures stopped { (past : Past) → gen_stands G.left self.old past → gen_stands G.left self.new (was_stopped past _port) }
    {
        self.stopped = true;
    }

    fn spent(&self, _port: usize) -> bool
        ensures { result ≡ false }
    {
        false
    }

    fn next_event(&mut self) -> Option<Event>
        ensures shape { IsSameShape (gen_view G.left self.old) (gen_view G.left self.new) }
        ensures fares { FaultStep (gen_view G.left self.old) (gen_view G.left self.new) }
        ensures gives { (e : Event) → result ≡ Some e → (past : Past) → gen_stands G.left self.old past
            → gen_stands G.left self.new (was_told past e) × (IsReading (gen_view G.left self.old) past → ⊥) }
        ensures waits { IsNone result → (past : Past) → gen_stands G.left self.old past → gen_stands G.left self.new past }
        ensures none_due { IsNone result → (past : Past) → gen_stands G.left self.old past
            → (past.told ≡ past.task.tells past.feeds) ⊎ IsReading (gen_view G.left self.old) past }
    {
        if self.told {
            return None;
        }
        if !self.is_over() {
            return None;
        }
        self.told = true;
        Some(Event::Exited(self.number))
    }

    ghost laws = { gen_laws G.left };
}
