//! The demuxer: a machine that gives the packets of an input.
ghost use Rattle.std.specs.Prelude.{◌≡◌, ◌≢◌, ◌+◌, ◌^◌, ◌≤◌, ◌<◌, ◌⊎◌, ℕ, List, [], Some, None, Ok, Err, true, false, length, OnErr, IfOk, IfErr, IfSome, IsSome, IsNone};
ghost use Rattle.ff_stream.specs.declared.item.Lane.TheVariants.{Packets};
ghost use Rattle.ff_net.specs.declared.fault.Fault.TheVariants.{TooLarge};

use crate::reading::{ReadEnd, read_more};
use crate::unit::{Unit, next_unit};
use ff_flac_dec::FrameSender;
use ff_frame::{Event, StreamHead, Ticket};
use ff_host::Source;
use ff_input::{Demuxable, PIECE};
use ff_net::{Fault, Machine};
use ff_reader::PacketCut;
use ff_stream::{Item, Refused};
use std::alloc::{AllocError, Global};

/// Gives the packets of an input of any format, one for each ticket, and reads no further than the next packet wants.
#[derive(Drop)]
pub struct Demux<S, C: PacketCut> {
    input: u32,
    head: StreamHead,
    src: S,
    cut: C,
    /// A piece of the input, as it is read.
    piece: Vec<u8>,
    /// How many bytes of the head are still to come.
    skip: u64,
    /// How many packets were given.
    given: u64,
    ticket: bool,
    /// Its output has closed.
    ended: bool,
    /// Its output was stopped.
    stopped: bool,
    /// It told that it has exited.
    told: bool,
    fault: Option<Fault>,
    ghost some_piece: { 0 < length piece.items },
    ghost same_head: { C.is.stream_head (C.is.head_of cut) ≡ head },
    ghost near: { ended ≡ false → C.is.place cut ≤ 2 ^ 50 },
    ghost few: { given ≤ 2 ^ 40 },
    ghost fits: { fault ≢ Some TooLarge },
    ghost over: { told ≡ true → ended ≡ false → stopped ≡ false → fault ≢ None },
}

fn piece_of(alloc: Global, size: usize) -> Result<Vec<u8>, AllocError>
    requires { 0 < size }
    ensures { IfOk result (λ v. 0 < length v.items) }
{
    vec![in alloc; 0u8; size]
}

// Room for so many bytes at once, where there is memory for it.
fn lengthen(piece: &mut Vec<u8>, wanted: usize)
    requires { 0 < length piece.old.items }
    ensures { 0 < length piece.new.items }
{
    if piece.len() < wanted {
        let _ = piece.resize(wanted, 0);
    }
}

impl<S: Source + Drop, C: Demuxable + Drop> Demux<S, C> {
    ghost use Rattle.std.specs.Prelude.{◌∷◌};
    ghost use Rattle.ff_frame.specs.declared.event.Event.TheVariants.{Exited};
    ghost use Rattle.ff_stream.specs.Ports.{stream_at};
    ghost use Rattle.ff_net.specs.Pasts.{Past, count_of, start};
    ghost use Rattle.ff_node_demux.specs.Demuxing.{demux_task};
    ghost use Rattle.ff_node_demux.specs.Exiting.{IsOver};
    ghost use Rattle.ff_node_demux.specs.laws.Demuxers.{demux_out_lanes, demux_source, demux_fault, demux_failures, demux_device, demux_reads, demux_stands, demux_has_read};

    /// Over a source that gives the input from its first byte on, whose head this is. The source comes back where there
    /// was no memory.
    pub fn new(alloc: Global, input: u32, src: S, head: &C::Head) -> Result<Demux<S, C>, S>
        requires { C.is.IsHead head.now }
        ensures fault { IfOk result (λ m. demux_fault m ≡ None) }
        ensures source { IfOk result (λ m. demux_source m ≡ Some input) }
        ensures lanes { IfOk result (λ m. demux_out_lanes m ≡ Packets (C.is.stream_head head.now) ∷ []) }
        ensures device { IfOk result (λ m. demux_device S.name m ≡ S.name src) }
        ensures failures { IfOk result (λ m. demux_failures S.faults m ≡ S.faults src) }
        ensures stands { IfOk result (λ m. (file : List ℕ) → S.left src ≡ Some file → demux_stands S.left m (start (demux_task C.is input head.now file))) }
        ensures unread { IfOk result (λ m. demux_has_read C.asks m head.now []) }
        ensures refused { IfErr result (λ s. s ≡ src) }
    {
        let Ok(piece) = piece_of(alloc, PIECE) else {
            return Err(src);
        };
        Ok(Demux {
            input,
            head: C::stream_head(head),
            src,
            cut: C::new(alloc, head),
            piece,
            skip: C::start(head),
            given: 0,
            ticket: false,
            ended: false,
            stopped: false,
            told: false,
            fault: None,
        })
    }

    /// Under how many of its tickets, from the first on, it has tried a packet or the end. That is as many as it
    /// gave, and so at most one more than its stream has packets.
    pub fn tried(&self) -> u64
        ensures reads { result ≡ demux_reads self.now }
        ensures few { (past : Past) → demux_stands S.left self.now past → result ≤ length (stream_at (past.task.means past.got) 0).items + 1 }
    {
        if self.ended {
            return self.given + 1;
        }
        self.given
    }

    // It gives nothing more.
    fn is_over(&self) -> bool
        ensures over { result ≡ true → (self.now.ended ≡ true) ⊎ (self.now.stopped ≡ true) ⊎ IsSome self.now.fault }
        ensures goes_on { result ≡ false → (self.now.ended ≡ false) × (self.now.stopped ≡ false) × (self.now.fault ≡ None) }
    {
        self.ended || self.stopped || self.fault.is_some()
    }

    /// The source, as it is now. All that there is to tell of it is that it has exited, once nothing more is given.
    /// That is where there is a fault, or the output was stopped or has closed.
    pub fn into_source(self) -> S
        ensures name { S.name result ≡ demux_device S.name self }
        ensures faults { S.faults result ≡ demux_failures S.faults self }
        ensures exits { (past : Past) (input : ℕ) → demux_stands S.left self past → demux_source self ≡ Some input
            → past.task.tells past.feeds ≡ Exited input ∷ [] }
        ensures over { (past : Past) → demux_stands S.left self past → past.told ≢ [] → IsOver (demux_fault self) past }
        ensures few { (past : Past) → demux_stands S.left self past → demux_reads self ≤ count_of past.task.source + 1 }
    {
        self.src
    }
}

impl<S: Source + Drop, C: Demuxable + Drop> Demux<S, C> {
    ghost use Rattle.std.specs.Prelude.{◌≡◌};

    /// Whether it can send frames to a decoder.
    pub fn sends_frames(&self) -> bool {
        self.cut.sends_frames()
    }

    /// Has it send the frames that it reads from now on to a decoder, if it can. It gives what it gave.
    pub fn send_frames_to(&mut self, sender: FrameSender)
        ensures { self.new ≡ self.old }
    {
        self.cut.send_frames_to(sender);
    }
}

impl<S: Source + Drop, C: Demuxable + Drop> Machine for Demux<S, C> {
    ghost use Rattle.ff_stream.specs.Stream.{still_open, LiesBelow};
    ghost use Rattle.ff_stream.specs.Items.{with_item};
    ghost use Rattle.ff_stream.specs.Ports.{stream_at};
    ghost use Rattle.ff_net.specs.declared.fault.Fault.TheVariants.{Device};
    ghost use Rattle.ff_net.specs.laws.Laws.{FaultStep, GoesOn, IsReading};
    ghost use Rattle.ff_net.specs.Pasts.{Past, IsIn, gave_item, was_allowed, was_asked, was_stopped, was_told, due};
    ghost use Rattle.ff_net.specs.laws.Views.{IsSameShape};
    ghost use Rattle.ff_node_demux.specs.laws.Demuxers.{demux_source, demux_fault, demux_holds, demux_stands, demux_reads_nothing, demux_reads_on};
    ghost use Rattle.ff_node_demux.specs.laws.DemuxViews.{demux_view, demux_laws};

    ghost view = { demux_view S.left S.name S.faults };

    fn inputs(&self) -> usize {
        0
    }

    fn outputs(&self) -> usize {
        1
    }

    fn source(&self) -> Option<u32> {
        Some(self.input)
    }

    fn fault(&self) -> Option<Fault>
        ensures value { result ≡ demux_fault self.now }
        ensures fits { demux_fault self.now ≢ Some TooLarge }
    {
        self.fault
    }

    fn allow(&mut self, ticket: Ticket) -> Option<Ticket>
        ensures shape { IsSameShape (demux_view S.left S.name S.faults self.old) (demux_view S.left S.name S.faults self.new) }
        ensures fares { FaultStep (demux_view S.left S.name S.faults self.old) (demux_view S.left S.name S.faults self.new) }
        ensures reads_nothing { demux_reads_nothing self.old self.new }
        ensures taken { IsNone result → (past : Past) → demux_stands S.left self.old past → demux_stands S.left self.new (was_allowed past ticket) }
        ensures held { IsNone result → IsSome (demux_source self.old) × (demux_holds self.old → ⊥) × demux_holds self.new }
        ensures back { IfSome result (λ t. (t ≡ ticket) × ((past : Past) → demux_stands S.left self.old past → demux_stands S.left self.new past)) }
        ensures back_only { IsSome result → (demux_source self.old ≡ None) ⊎ demux_holds self.old }
    {
        if self.ticket {
            return Some(ticket);
        }
        self.ticket = true;
        None
    }

    fn feed(&mut self, _port: usize, item: Item) -> Result<(), Refused>
        ensures same { self.new ≡ self.old }
        ensures err { result ≡ Err (record { item = item }) }
    {
        Err(Refused { item })
    }

    /// It reads only where what was read leaves the next packet undecided, or how the packets end, and there a piece at a time. So
    /// after a packet that it gave it has read fewer bytes than the last piece: of any format but FLAC fewer than 65,536. Of FLAC a
    /// piece has as many bytes as waited before it, where these are more.
    fn pull(&mut self, _port: usize) -> Result<Option<Item>, AllocError>
        requires { _port < 1 }
        ensures shape { IsSameShape (demux_view S.left S.name S.faults self.old) (demux_view S.left S.name S.faults self.new) }
        ensures fares { FaultStep (demux_view S.left S.name S.faults self.old) (demux_view S.left S.name S.faults self.new) }
        ensures reads { demux_reads_on S.left C.asks self.old self.new }
        ensures gives { (x : Item) → result ≡ Ok (Some x) → (past : Past) → demux_stands S.left self.old past → (IsIn _port past.stopped → ⊥)
            → demux_stands S.left self.new (gave_item past _port x) × ((stream_at past.gave _port).mark ≡ still_open)
            × LiesBelow (with_item (stream_at past.gave _port) x) (stream_at (due past) _port) }
        ensures waits { result ≡ Ok None → (past : Past) → demux_stands S.left self.old past → (IsIn _port past.stopped → ⊥) → demux_stands S.left self.new (was_asked past _port) }
        ensures none_due { result ≡ Ok None → GoesOn (demux_fault self.old) → (past : Past) → demux_stands S.left self.old past → (IsIn _port past.stopped → ⊥)
            → (stream_at past.gave _port ≡ stream_at (due past) _port) ⊎ (demux_fault self.new ≡ Some Device) }
        ensures unchanged { OnErr result ((past : Past) → demux_stands S.left self.old past → demux_stands S.left self.new past) }
    {
        if self.ended {
            return Ok(None);
        }
        if self.fault.is_some() {
            return Ok(None);
        }
        if !self.ticket {
            return Ok(None);
        }
        'units: loop {
            match next_unit(&mut self.cut, &self.head, self.given)? {
                Unit::Packet(packet) => {
                    self.ticket = false;
                    self.given += 1;
                    return Ok(Some(Item::Packet(packet)));
                }
                Unit::Long => {
                    self.ticket = false;
                    self.ended = true;
                    self.fault = Some(Fault::TooLong);
                    return Ok(Some(Item::Broken));
                }
                Unit::End => {
                    self.ticket = false;
                    self.ended = true;
                    return Ok(Some(Item::End));
                }
                Unit::Broken(offset) => {
                    self.ticket = false;
                    self.ended = true;
                    self.fault = Some(Fault::Damaged { offset });
                    return Ok(Some(Item::Broken));
                }
                Unit::Wait => {
                    let wanted = self.cut.piece();
                    lengthen(&mut self.piece, wanted);
                    match read_more(
                        &mut self.src,
                        &mut self.cut,
                        &mut self.skip,
                        self.piece.as_mut_slice(),
                        wanted,
                    ) {
                        Ok(()) => {}
                        Err(ReadEnd::Failed) => {
                            self.fault = Some(Fault::Device);
                            return Ok(None);
                        }
                        Err(ReadEnd::NoMemory) => return Err(AllocError),
                    }
                }
            }
        }
    }

    fn stop(&mut self, _port: usize)
        requires { _port < 1 }
        ensures shape { IsSameShape (demux_view S.left S.name S.faults self.old) (demux_view S.left S.name S.faults self.new) }
        ensures fares { FaultStep (demux_view S.left S.name S.faults self.old) (demux_view S.left S.name S.faults self.new) }
        ensures reads_nothing { demux_reads_nothing self.old self.new }
        ensures stopped { (past : Past) → demux_stands S.left self.old past → demux_stands S.left self.new (was_stopped past _port) }
    {
        self.stopped = true;
    }

    fn spent(&self, _port: usize) -> bool
        ensures { result ≡ false }
    {
        false
    }

    fn next_event(&mut self) -> Option<Event>
        ensures shape { IsSameShape (demux_view S.left S.name S.faults self.old) (demux_view S.left S.name S.faults self.new) }
        ensures fares { FaultStep (demux_view S.left S.name S.faults self.old) (demux_view S.left S.name S.faults self.new) }
        ensures reads_nothing { demux_reads_nothing self.old self.new }
        ensures gives { (e : Event) → result ≡ Some e → (past : Past) → demux_stands S.left self.old past
            → demux_stands S.left self.new (was_told past e) × (IsReading (demux_view S.left S.name S.faults self.old) past → ⊥) }
        ensures waits { IsNone result → (past : Past) → demux_stands S.left self.old past → demux_stands S.left self.new past }
        ensures none_due { IsNone result → (past : Past) → demux_stands S.left self.old past → (past.told ≡ past.task.tells past.feeds) ⊎ IsReading (demux_view S.left S.name S.faults self.old) past }
    {
        if self.told {
            return None;
        }
        if !self.is_over() {
            return None;
        }
        self.told = true;
        Some(Event::Exited(self.input))
    }

    ghost laws = { λ m. demux_laws S.left S.name S.faults C.owes.shaped m m.same_head };
}
