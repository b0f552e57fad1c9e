//! The demuxer: a machine that gives the packets of an AVI at one or two ports.
ghost use Rattle.std.specs.Prelude.{◌≡◌, ◌≢◌, ◌+◌, ◌^◌, ◌≤◌, ◌<◌, ◌⊎◌, ℕ, List, [], Some, None, Ok, Err, true, false, length};
ghost use Rattle.std.specs.Prelude.{OnOk, OnErr, IfOk, IfErr, IfSome, IsSome, IsNone};
ghost use Rattle.ff_net.specs.declared.fault.Fault.TheVariants.{TooLarge, Device};
ghost use Rattle.ff_net.specs.declared.fault.Fault.{Fault};
ghost use Rattle.ff_net.specs.Pasts.{Past};
ghost use Rattle.ff_frame.specs.declared.packet.Pkt.{Pkt};
ghost use Rattle.ff_stream.specs.declared.item.Item.{Item};
ghost use Rattle.ff_node_avi.specs.Demuxing.{number_of, passes_at};
ghost use Rattle.ff_node_avi.specs.Ported.{waits_at};
ghost use Rattle.ff_node_avi.specs.laws.AviPorts.{port_at, is_over};

use crate::ports::AviPorts;
use crate::reader::{AviReader, ReadEnd, Told};
use ff_avi::AviHead;
use ff_frame::{Event, Pkt, Ticket};
use ff_host::Source;
use ff_net::{Fault, Machine};
use ff_node_demux::is_long;
use ff_stream::{Item, MOST_ITEMS, Refused};
use std::alloc::{AllocError, Global};

/// Where a port stands.
#[derive(Clone, Copy)]
pub struct Port {
    /// It is there, and wasn't stopped.
    pub going: bool,
    /// It has closed.
    pub closed: bool,
}

/// Gives the packets of an AVI's streams in use, each at its port, one for each ticket.
#[derive(Drop)]
pub struct AviDemux<S> {
    input: u32,
    ports: AviPorts,
    reader: AviReader<S>,
    first: Port,
    second: Port,
    /// How many units were used.
    given: u64,
    ticket: bool,
    /// The unit that waits, and its port.
    waiting: Option<(usize, Pkt)>,
    /// The end was found.
    ended: bool,
    /// It told that it has exited.
    told: bool,
    fault: Option<Fault>,
    ghost few: { given ≤ 2 ^ 40 },
    ghost fits: { fault ≢ Some TooLarge },
    ghost over: { told ≡ true → is_over first second fault ≡ true },
}

// Whether a packet passes a limit of the port at which it would be given.
fn passes(ports: &AviPorts, port: usize, before: u64, packet: &Pkt) -> bool
    requires place { packet.now.pos + length packet.now.bytes < 2 ^ 64 }
    requires few { before ≤ 2 ^ 40 }
    ensures value { result ≡ passes_at ports.now before (port, Item.Packet packet.now) }
    ensures few { result ≡ false → before + 1 ≤ 2 ^ 40 }
{
    match ports.head(port) {
        None => MOST_ITEMS < before + 1,
        Some(head) => is_long(&head, before, packet),
    }
}

// What waits, but for the packet of a port that was stopped.
fn kept_past(waiting: Option<(usize, Pkt)>, port: usize) -> Option<(usize, Pkt)>
    ensures kept { (w : ℕ × Pkt) → result ≡ Some w → (waiting ≡ Some w) × (w.0 ≢ port) }
    ensures same { (q : ℕ) → q ≢ port → waits_at result q ≡ waits_at waiting q }
{
    match waiting {
        None => None,
        Some((at, packet)) => {
            if at == port {
                return None;
            }
            Some((at, packet))
        }
    }
}

impl<S: Source + Drop> AviDemux<S> {
    ghost use Rattle.ff_avi.specs.Sound.{IsHead};
    ghost use Rattle.ff_net.specs.Pasts.{start};
    ghost use Rattle.std.specs.Prelude.{map};
    ghost use Rattle.ff_stream.specs.declared.item.Lane.TheVariants.{Packets};
    ghost use Rattle.ff_node_avi.specs.Demuxing.{AreUsed, avi_task, heads_of, ports_of};
    ghost use Rattle.ff_net.specs.laws.Laws.{FaultStep};
    ghost use Rattle.ff_node_avi.specs.laws.AviDemuxers.{avi_out_lanes, avi_source, avi_fault, avi_failures, avi_device, avi_stands, KeepsShape, GivesItem, WaitsAt};
    ghost use Rattle.ff_node_avi.specs.laws.AviDemuxers.{avi_has_read, avi_reads_on, avi_reads_nothing};
    ghost use Rattle.ff_node_avi.specs.laws.AviViews.{avi_view};

    /// Over a source that gives the input from its first byte on, whose head this is, of which the streams of these numbers
    /// are used. The source comes back where there was no memory.
    pub fn new(
        alloc: Global,
        input: u32,
        src: S,
        head: &AviHead,
        used: &[u32],
    ) -> Result<AviDemux<S>, S>
        requires head { IsHead head.now }
        requires used { AreUsed head.now used.now }
        ensures fault { IfOk result (λ m. avi_fault m ≡ None) }
        ensures source { IfOk result (λ m. avi_source m ≡ Some input) }
        ensures lanes { IfOk result (λ m. avi_out_lanes m ≡ map Packets (heads_of (ports_of head.now used.now))) }
        ensures device { IfOk result (λ m. avi_device S.name m ≡ S.name src) }
        ensures failures { IfOk result (λ m. avi_failures S.faults m ≡ S.faults src) }
        ensures stands { IfOk result (λ m. (file : List ℕ) → S.left src ≡ Some file → avi_stands S.left m (start (avi_task input head.now used.now file))) }
        ensures unread { IfOk result (λ m. avi_has_read m head.now used.now []) }
        ensures refused { IfErr result (λ s. s ≡ src) }
    {
        let ports = AviPorts::new(head, used);
        let reader = match AviReader::new(alloc, src, head, used) {
            Ok(reader) => reader,
            Err(src) => return Err(src),
        };
        Ok(AviDemux {
            input,
            ports,
            reader,
            first: Port {
                going: true,
                closed: false,
            },
            second: Port {
                going: ports.second.is_some(),
                closed: false,
            },
            given: 0,
            ticket: false,
            waiting: None,
            ended: false,
            told: false,
            fault: None,
        })
    }

    // A port, by its number.
    fn port(&self, port: usize) -> Port
        requires { port < 2 }
        ensures { result ≡ port_at self.now.first self.now.second port }
    {
        if port == 0 { self.first } else { self.second }
    }

    // It gives nothing more.
    fn is_over(&self) -> bool
        ensures { result ≡ is_over self.now.first self.now.second self.now.fault }
    {
        self.fault.is_some()
            || (self.first.closed || !self.first.going)
                && (self.second.closed || !self.second.going)
    }

    // Uses the next unit where there is a ticket, and neither the end was found nor a fault. It waits then, or is dropped where its
    // port was stopped.
    fn take(&mut self) -> Result<(), AllocError>
        ensures stands { (past : Past) → avi_stands S.left self.old past → avi_stands S.left self.new past }
        ensures used { OnOk result (self.new.fault ≡ None → self.new.ended ≡ false → self.new.ticket ≡ false) }
        ensures same { KeepsShape self.old self.new }
        ensures fares { FaultStep (avi_view S.left S.name S.faults self.old) (avi_view S.left S.name S.faults self.new) }
        ensures reads { avi_reads_on S.left self.old self.new }
    {
        if !self.ticket {
            return Ok(());
        }
        if self.ended {
            return Ok(());
        }
        if self.fault.is_some() {
            return Ok(());
        }
        match self.reader.next() {
            Ok(Told::Packet(stream, packet)) => {
                self.ticket = false;
                let port = self.ports.port(stream);
                if passes(&self.ports, port, self.given, &packet) {
                    self.ended = true;
                    self.fault = Some(Fault::TooLong);
                    return Ok(());
                }
                self.given += 1;
                if !self.port(port).going {
                    return Ok(());
                }
                self.waiting = Some((port, packet));
                Ok(())
            }
            Ok(Told::End) => {
                self.ticket = false;
                self.ended = true;
                Ok(())
            }
            Ok(Told::Broken(offset)) => {
                self.ticket = false;
                self.ended = true;
                self.fault = Some(Fault::Damaged { offset });
                Ok(())
            }
            Err(ReadEnd::Failed) => {
                self.fault = Some(Fault::Device);
                Ok(())
            }
            Err(ReadEnd::NoMemory) => Err(AllocError),
        }
    }

    // What closes a port.
    fn closing(&self) -> Item
        ensures end { self.now.fault ≡ None → result ≡ Item.End }
        ensures broken { (f : Fault) → self.now.fault ≡ Some f → result ≡ Item.Broken }
    {
        match self.fault {
            None => Item::End,
            Some(_) => Item::Broken,
        }
    }

    // Closes a port once the end was found.
    fn close(&mut self, port: usize) -> Option<Item>
        requires there { port < number_of self.old.ports }
        requires none { self.old.waiting ≡ None }
        ensures gives { (x : Item) → result ≡ Some x → GivesItem S.left self.old self.new port x }
        ensures waits { IsNone result → WaitsAt S.left self.old self.new port }
        ensures same { KeepsShape self.old self.new }
        ensures reads_nothing { avi_reads_nothing self.old self.new }
        ensures fault { self.new.fault ≡ self.old.fault }
    {
        if !self.ended {
            return None;
        }
        if self.port(port).closed {
            return None;
        }
        if port == 0 {
            self.first.closed = true;
            return Some(self.closing());
        }
        self.second.closed = true;
        Some(self.closing())
    }

    // Gives what is there for a port.
    fn give(&mut self, port: usize) -> Option<Item>
        requires there { port < number_of self.old.ports }
        ensures gives { (x : Item) → result ≡ Some x → GivesItem S.left self.old self.new port x }
        ensures waits { IsNone result → WaitsAt S.left self.old self.new port }
        ensures same { KeepsShape self.old self.new }
        ensures reads_nothing { avi_reads_nothing self.old self.new }
        ensures fault { self.new.fault ≡ self.old.fault }
    {
        match self.waiting.take() {
            None => self.close(port),
            Some((at, packet)) => {
                if at == port {
                    return Some(Item::Packet(packet));
                }
                self.waiting = Some((at, packet));
                None
            }
        }
    }
}

impl<S: Source + Drop> AviDemux<S> {
    ghost use Rattle.std.specs.Prelude.{◌∷◌};
    ghost use Rattle.ff_frame.specs.declared.event.Event.TheVariants.{Exited};
    ghost use Rattle.ff_net.specs.Pasts.{count_of};
    ghost use Rattle.ff_node_avi.specs.laws.AviDemuxers.{avi_source, avi_fault, avi_failures, avi_device, avi_reads, avi_stands};
    ghost use Rattle.ff_node_avi.specs.laws.AviOver.{IsOver};

    /// Under how many of its tickets, from the first on, it has tried a unit or the end. That is at most one more than it has units.
    pub fn tried(&self) -> u64
        ensures reads { result ≡ avi_reads self.now }
        ensures few { (past : Past) → avi_stands S.left self.now past → result ≤ count_of past.task.source + 1 }
    {
        if self.ended {
            return self.given + 1;
        }
        self.given
    }

    /// The source, as it is now. All that there is to tell of it is that it has exited, once nothing more is given.
    /// That is where there is a fault, or each output was stopped or has closed.
    pub fn into_source(self) -> S
        ensures name { S.name result ≡ avi_device S.name self }
        ensures faults { S.faults result ≡ avi_failures S.faults self }
        ensures exits { (past : Past) (input : ℕ) → avi_stands S.left self past → avi_source self ≡ Some input
            → past.task.tells past.feeds ≡ Exited input ∷ [] }
        ensures over { (past : Past) → avi_stands S.left self past → past.told ≢ [] → IsOver self.ports (avi_fault self) past }
        ensures few { (past : Past) → avi_stands S.left self past → avi_reads self ≤ count_of past.task.source + 1 }
    {
        self.reader.src
    }
}

impl<S: Source + Drop> Machine for AviDemux<S> {
    ghost use Rattle.std.specs.Prelude.{◌≡◌};
    ghost use Rattle.ff_stream.specs.Stream.{still_open, LiesBelow};
    ghost use Rattle.ff_stream.specs.Items.{with_item};
    ghost use Rattle.ff_stream.specs.Ports.{stream_at};
    ghost use Rattle.ff_frame.specs.declared.event.Event.{Event};
    ghost use Rattle.ff_net.specs.laws.Laws.{FaultStep, GoesOn, IsReading};
    ghost use Rattle.ff_net.specs.Pasts.{IsIn, gave_item, was_allowed, was_asked, was_stopped, was_told, due};
    ghost use Rattle.ff_net.specs.laws.Views.{IsSameShape};
    ghost use Rattle.ff_node_avi.specs.laws.AviDemuxers.{avi_source, avi_fault, avi_holds, avi_stands, avi_reads_on, avi_reads_nothing};
    ghost use Rattle.ff_node_avi.specs.laws.AviViews.{avi_view, avi_laws};

    ghost view = { avi_view S.left S.name S.faults };

    fn inputs(&self) -> usize {
        0
    }

    fn outputs(&self) -> usize {
        self.ports.count()
    }

    fn source(&self) -> Option<u32> {
        Some(self.input)
    }

    fn fault(&self) -> Option<Fault>
        ensures value { result ≡ avi_fault self.now }
        ensures fits { avi_fault self.now ≢ Some TooLarge }
    {
        self.fault
    }

    /// A ticket comes back also while a unit waits at a port, so that no second one waits there.
    fn allow(&mut self, ticket: Ticket) -> Option<Ticket>
        ensures shape { IsSameShape (avi_view S.left S.name S.faults self.old) (avi_view S.left S.name S.faults self.new) }
        ensures fares { FaultStep (avi_view S.left S.name S.faults self.old) (avi_view S.left S.name S.faults self.new) }
        ensures reads_nothing { avi_reads_nothing self.old self.new }
        ensures taken { IsNone result → (past : Past) → avi_stands S.left self.old past → avi_stands S.left self.new (was_allowed past ticket) }
        ensures held { IsNone result → IsSome (avi_source self.old) × (avi_holds self.old → ⊥) × avi_holds self.new }
        ensures back { IfSome result (λ t. (t ≡ ticket) × ((past : Past) → avi_stands S.left self.old past → avi_stands S.left self.new past)) }
        ensures back_only { IsSome result → (avi_source self.old ≡ None) ⊎ avi_holds self.old }
    {
        if self.ticket || self.waiting.is_some() {
            return Some(ticket);
        }
        self.ticket = true;
        None
    }

    fn feed(&mut self, _port: usize, item: Item) -> Result<(), Refused>
        ensures same { self.new ≡ self.old }
        ensures err { result ≡ Err (record { item = item }) }
    {
        Err(Refused { item })
    }

    /// It reads only where what it has read holds no packet but those that it used, and then a piece at a time. So after a packet that
    /// it gave it has read fewer bytes than the last piece, which is no longer than 65,536.
    fn pull(&mut self, port: usize) -> Result<Option<Item>, AllocError>
        requires { port < number_of self.old.ports }
        ensures shape { IsSameShape (avi_view S.left S.name S.faults self.old) (avi_view S.left S.name S.faults self.new) }
        ensures fares { FaultStep (avi_view S.left S.name S.faults self.old) (avi_view S.left S.name S.faults self.new) }
        ensures reads { avi_reads_on S.left self.old self.new }
        ensures gives { (x : Item) → result ≡ Ok (Some x) → (past : Past) → avi_stands S.left self.old past → (IsIn port past.stopped → ⊥)
            → avi_stands S.left self.new (gave_item past port x) × ((stream_at past.gave port).mark ≡ still_open)
            × LiesBelow (with_item (stream_at past.gave port) x) (stream_at (due past) port) }
        ensures waits { result ≡ Ok None → (past : Past) → avi_stands S.left self.old past → (IsIn port past.stopped → ⊥)
            → avi_stands S.left self.new (was_asked past port) }
        ensures none_due { result ≡ Ok None → GoesOn (avi_fault self.old) → (past : Past) → avi_stands S.left self.old past → (IsIn port past.stopped → ⊥)
            → (stream_at past.gave port ≡ stream_at (due past) port) ⊎ (avi_fault self.new ≡ Some Device) }
        ensures unchanged { OnErr result ((past : Past) → avi_stands S.left self.old past → avi_stands S.left self.new past) }
    {
        self.take()?;
        Ok(self.give(port))
    }

    /// What waits at the port is dropped.
    fn stop(&mut self, port: usize)
        requires { port < number_of self.old.ports }
        ensures shape { IsSameShape (avi_view S.left S.name S.faults self.old) (avi_view S.left S.name S.faults self.new) }
        ensures fares { FaultStep (avi_view S.left S.name S.faults self.old) (avi_view S.left S.name S.faults self.new) }
        ensures reads_nothing { avi_reads_nothing self.old self.new }
        ensures stopped { (past : Past) → avi_stands S.left self.old past → avi_stands S.left self.new (was_stopped past port) }
    {
        self.waiting = kept_past(self.waiting.take(), port);
        if port == 0 {
            self.first.going = false;
        } else {
            self.second.going = false;
        }
    }

    fn spent(&self, _port: usize) -> bool
        ensures { result ≡ false }
    {
        false
    }

    fn next_event(&mut self) -> Option<Event>
        ensures shape { IsSameShape (avi_view S.left S.name S.faults self.old) (avi_view S.left S.name S.faults self.new) }
        ensures fares { FaultStep (avi_view S.left S.name S.faults self.old) (avi_view S.left S.name S.faults self.new) }
        ensures reads_nothing { avi_reads_nothing self.old self.new }
        ensures gives { (e : Event) → result ≡ Some e → (past : Past) → avi_stands S.left self.old past
            → avi_stands S.left self.new (was_told past e) × (IsReading (avi_view S.left S.name S.faults self.old) past → ⊥) }
        ensures waits { IsNone result → (past : Past) → avi_stands S.left self.old past → avi_stands S.left self.new past }
        ensures none_due { IsNone result → (past : Past) → avi_stands S.left self.old past
            → (past.told ≡ past.task.tells past.feeds) ⊎ IsReading (avi_view S.left S.name S.faults self.old) past }
    {
        if self.told {
            return None;
        }
        if !self.is_over() {
            return None;
        }
        self.told = true;
        Some(Event::Exited(self.input))
    }

    ghost laws = { λ m. avi_laws S.left S.name S.faults m };
}
