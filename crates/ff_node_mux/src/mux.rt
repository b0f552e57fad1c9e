//! The muxer: a machine that writes streams of packets in any format.
ghost use Rattle.std.specs.Prelude.{◌≡◌, ◌≢◌, ◌≤◌, ◌<◌, ◌+◌, ◌^◌, ◌⊎◌, ℕ, [], ◌∷◌, true, List, length, None, Some, Ok, IsSome, IfOk, IfErr};
ghost use Rattle.ff_time.specs.Fraction.{Fraction};
ghost use Rattle.ff_stream.specs.Stream.{LiesBelow};
ghost use Rattle.ff_stream.specs.Ports.{stream_at, IsClosed, IsWhole};
ghost use Rattle.ff_node_mux.specs.merge.Merges.{Placed};
ghost use Rattle.ff_node_mux.specs.merge.Queues.{merging, base_at, IsNew};
ghost use Rattle.ff_net.specs.Pasts.{Past, start};
ghost use Rattle.ff_net.specs.Ways.{Flow};
ghost use Rattle.ff_format.specs.Layouts.{Layout};
ghost use Rattle.ff_node_mux.specs.Muxing.{head_bases, head_lanes, mux_cause, mux_task, unpatched, file, NothingCame};
ghost use Rattle.ff_node_mux.specs.laws.Held.{HoldsPart};
ghost use Rattle.ff_node_mux.specs.StreamEvents.{events_of, stream_events};

use crate::merge::Interleave;
use crate::telling::{put, told_by};
use crate::totals::{left_with, totals_on};
use crate::writing::{take_in, write_on};
use ff_format::Writer;
use ff_frame::{Event, StreamHead, Ticket, Totals};
use ff_host::Sink;
use ff_net::{Fault, Machine};
use ff_stream::{Item, Refused, discard, time_base};
use ff_time::Rational;
use std::alloc::{AllocError, Global};
use std::collections::VecDeque;

/// Writes streams of packets in a writer's format on its sink. Before its first item it writes what stands before the
/// packets, in one append. Then it writes each packet in one append, in the order of their merge and as soon as it is
/// decided there. Once each stream has ended whole, it writes what follows them in one append, and what takes the
/// place of bytes in one patch.
///
/// A packet that makes the packets more bytes than the format holds is the fault TooLarge, and nothing of it is written. Want of memory
/// in an append, or for what is written of a packet that waited, is a fault, and the item counts as fed. After a fault it takes what comes and
/// writes nothing. Of a trailer nothing is written: the totals that it tells are kept for the end, of the first stream alone.
///
/// Of each packet that it is fed it tells the time. Of what closes a stream it tells that its output stream has
/// finished, after a fault too.
#[derive(Drop)]
pub struct Mux<K: Sink, W: Writer> {
    alloc: Global,
    /// The number of its first output stream.
    first: u32,
    snk: K,
    writer: W,
    heads: Vec<StreamHead>,
    /// The packets that wait: of each it isn't decided what goes before it.
    merge: Interleave,
    /// How many of the streams haven't ended whole.
    unended: usize,
    begun: bool,
    /// What a trailer told.
    totals: Option<Totals>,
    fault: Option<Fault>,
    /// What it is to tell, the oldest first.
    events: VecDeque<Event>,
    // there is a stream, and each has a number
    ghost some: { 1 ≤ length heads.items },
    ghost numbers: { first + length heads.items ≤ 2 ^ 32 },
    // the merge is of these streams
    ghost bases: { (merging merge.queues.items).bases ≡ head_bases heads.items },
    // some packets were counted, and the sink has room for what takes their place
    ghost counted: { ((ps : List Placed) → W.counts writer ps → ⊥) → ⊥ },
    ghost room: { begun ≡ true → fault ≡ None → length (W.layout writer).header ≤ K.written snk },
}

// The bases of the times of streams of these heads.
fn bases_of(alloc: Global, heads: &[StreamHead]) -> Result<Vec<Rational>, AllocError>
    ensures { IfOk result (λ bases. bases.items ≡ head_bases heads.now) }
{
    let mut bases = Vec::with_capacity(alloc, heads.len())?;
    'heads: for p in 0..heads.len() {
        bases.push(time_base(&heads[p]))?;
    }
    Ok(bases)
}

// The merge of streams of these heads.
fn merge_of(alloc: Global, heads: &[StreamHead]) -> Result<Interleave, AllocError>
    requires { length heads.now < 2 ^ 32 }
    ensures { IfOk result (λ m. IsNew (head_bases heads.now) (merging m.queues.items)) }
{
    let bases = bases_of(alloc, heads)?;
    Interleave::new(alloc, bases)
}

impl<K: Sink + Drop, W: Writer + Drop> Mux<K, W> {
    ghost use Rattle.ff_node_mux.specs.laws.Muxers.{mux_sink, mux_stands, mux_in_lanes, mux_fault};

    /// Over a sink that holds nothing and a writer that counted nothing, for the packets of output streams of these
    /// heads. Their numbers go from this one on. The sink comes back where memory is refused.
    pub fn new(
        alloc: Global,
        first: u32,
        snk: K,
        writer: W,
        heads: &[StreamHead],
    ) -> Result<Mux<K, W>, K>
        requires some { 1 ≤ length heads.now }
        requires few { length heads.now < 2 ^ 32 }
        requires numbers { first + length heads.now ≤ 2 ^ 32 }
        requires fresh { W.counts writer [] }
        ensures sink { IfOk result (λ m. mux_sink m ≡ snk) }
        ensures lanes { IfOk result (λ m. mux_in_lanes m ≡ head_lanes heads.now) }
        ensures fault { IfOk result (λ m. mux_fault m ≡ None) }
        ensures fresh { IfOk result (λ m. K.holds snk ≡ Some [] → mux_stands m (start (mux_task (W.layout writer) first (head_bases heads.now)))) }
        ensures back { IfErr result (λ back. back ≡ snk) }
    {
        let Ok(merge) = merge_of(alloc, heads) else {
            return Err(snk);
        };
        let Ok(kept) = Vec::from_slice(alloc, heads) else {
            return Err(snk);
        };
        let unended = kept.len();
        Ok(Mux {
            alloc,
            first,
            snk,
            writer,
            heads: kept,
            merge,
            unended,
            begun: false,
            totals: None,
            fault: None,
            events: VecDeque::new(alloc),
        })
    }

    /// Gives the sink back. It holds nothing before the first item, afterwards what is written of the streams, and
    /// once each is whole their file. Where there is a fault it holds a prefix of what is written, or the file. Of
    /// one stream it then holds none of the packets from the first on that makes them too many bytes. What there was
    /// to tell of a stream that has closed are the events of its output stream. The layout and the bases are
    /// whichever the muxer's task is of.
    pub fn into_sink(self) -> K
        ensures sink { result ≡ mux_sink self }
        ensures fresh { (past : Past) → mux_stands self past → NothingCame past.got → K.holds result ≡ Some [] }
        ensures exact { (past : Past) (first : ℕ) (bases : List Fraction) (layout : Layout)
            → mux_stands self past → past.task ≡ mux_task layout first bases → mux_fault self ≡ None
            → (NothingCame past.got → ⊥) → (((p : ℕ) → p < length bases → IsWhole (stream_at past.got p)) → ⊥)
            → K.holds result ≡ Some (unpatched layout bases past.got) }
        ensures whole { (past : Past) (first : ℕ) (bases : List Fraction) (layout : Layout)
            → mux_stands self past → past.task ≡ mux_task layout first bases → mux_fault self ≡ None
            → ((p : ℕ) → p < length bases → IsWhole (stream_at past.got p))
            → IsSome (file layout bases past.got) × (K.holds result ≡ file layout bases past.got) }
        ensures front { (past : Past) (first : ℕ) (bases : List Fraction) (layout : Layout)
            → mux_stands self past → past.task ≡ mux_task layout first bases
            → HoldsPart (K.holds result) (unpatched layout bases past.got) (file layout bases past.got) }
        ensures told { (past : Past) (first : ℕ) (bases : List Fraction) (layout : Layout) (p : ℕ)
            → mux_stands self past → past.task ≡ mux_task layout first bases → p < length bases → IsClosed (stream_at past.got p)
            → events_of (first + p) (past.task.tells past.feeds) ≡ stream_events (first + p) (base_at bases p) (stream_at past.got p) }
        ensures small { (past : Past) (first : ℕ) (base : Fraction) (layout : Layout)
            → mux_stands self past → past.task ≡ mux_task layout first (base ∷ [])
            → (r : Flow) × LiesBelow r (stream_at past.got 0) × (mux_cause layout (base ∷ []) (r ∷ []) ≡ None)
            × HoldsPart (K.holds result) (unpatched layout (base ∷ []) (r ∷ [])) (file layout (base ∷ []) (r ∷ [])) }
    {
        self.snk
    }
}

impl<K: Sink + Drop, W: Writer + Drop> Machine for Mux<K, W> {
    ghost use Rattle.ff_node_mux.specs.laws.Kinds.{mux_view, mux_laws};

    ghost view = { mux_view };

    fn inputs(&self) -> usize {
        self.heads.len()
    }

    fn outputs(&self) -> usize {
        0
    }

    fn source(&self) -> Option<u32> {
        None
    }

    fn fault(&self) -> Option<Fault> {
        self.fault
    }

    fn allow(&mut self, ticket: Ticket) -> Option<Ticket> {
        Some(ticket)
    }

    fn feed(&mut self, port: usize, item: Item) -> Result<(), Refused> {
        if self.merge.is_shut(port) {
            discard(item);
            return Ok(());
        }
        let Ok(()) = self.events.reserve(1) else {
            return Err(Refused { item });
        };
        let event = told_by(self.first + port as u32, &self.heads[port], &item);
        let totals = totals_on(port, self.totals, &item);
        let unended = left_with(self.unended, &item);
        take_in(&mut self.merge, self.fault.is_some(), port, item)?;
        put(&mut self.events, event);
        self.totals = totals;
        self.unended = unended;
        if self.fault.is_some() {
            self.begun = true;
            return Ok(());
        }
        self.fault = write_on(
            self.alloc,
            &mut self.snk,
            &mut self.writer,
            &mut self.merge,
            self.begun,
            unended == 0,
            totals,
        );
        self.begun = true;
        Ok(())
    }

    fn pull(&mut self, _port: usize) -> Result<Option<Item>, AllocError>
        ensures same { self.new ≡ self.old }
        ensures none { result ≡ Ok None }
    {
        Ok(None)
    }

    fn stop(&mut self, _port: usize)
        ensures { self.new ≡ self.old }
    {}

    fn spent(&self, port: usize) -> bool {
        self.merge.is_shut(port)
    }

    fn next_event(&mut self) -> Option<Event> {
        self.events.pop_front()
    }

    ghost laws = { mux_laws };
}
