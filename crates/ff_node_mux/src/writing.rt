//! The packets written as the merge decides them.
ghost use Rattle.std.specs.Prelude.{◌≡◌, ◌≢◌, ◌+◌, ◌<◌, ◌≤◌, Bool, List, [], ◌∷◌, true, false, length, None, Some, Ok, IfErr, OnOk, OnErr, IsNone, IsSome, IfSome};
ghost use Rattle.ff_filter.specs.Joins.{silence};
ghost use Rattle.ff_node_mux.specs.merge.Merges.{Placed};
ghost use Rattle.ff_node_mux.specs.merge.Queues.{merging, Same};
ghost use Rattle.ff_net.specs.declared.fault.Fault.TheVariants.{TooLarge};
ghost use Rattle.ff_net.specs.laws.Laws.{Rose, IsOfInputs};
ghost use Rattle.ff_node_mux.specs.laws.Writing.{Alike, Took, Wrote, WroteAll, Stuck, WroteOn, StuckOn};

use crate::merge::Interleave;
use crate::write::{text_before, write, write_end, write_packet};
use ff_format::Writer;
use ff_frame::Totals;
use ff_host::Sink;
use ff_net::Fault;
use ff_stream::{Item, Refused, discard};
use std::alloc::Global;

/// Hands an item to the merge; after a failure only what closes its stream.
pub(crate) fn take_in(
    merge: &mut Interleave,
    failed: bool,
    stream: usize,
    item: Item,
) -> Result<(), Refused>
    requires there { stream < length (merging merge.old.queues.items).bases }
    requires open_before { (merging merge.old.queues.items).shut stream ≡ false }
    ensures taken { OnOk result (Took (merging merge.old.queues.items) (merging merge.new.queues.items) failed stream item) }
    ensures refused { IfErr result (λ r. r.item ≡ item) }
    ensures unchanged { OnErr result (Same (merging merge.old.queues.items) (merging merge.new.queues.items)) }
{
    if failed && !item.closes() {
        discard(item);
        return Ok(());
    }
    merge.feed(stream, item)
}

// Writes the next packet that is decided. False where nothing more is decided.
fn write_next<K: Sink, W: Writer>(
    snk: &mut K,
    writer: &mut W,
    merge: &mut Interleave,
) -> Result<bool, Fault>
    ensures wrote { result ≡ Ok true → (y : Placed) × Wrote (W.layout writer.old) (merging merge.old.queues.items) (merging merge.new.queues.items)
        (K.holds snk.old) (K.holds snk.new) (W.counts writer.old) (W.counts writer.new) (y ∷ []) }
    ensures waits { result ≡ Ok false → Wrote (W.layout writer.old) (merging merge.old.queues.items) (merging merge.new.queues.items)
        (K.holds snk.old) (K.holds snk.new) (W.counts writer.old) (W.counts writer.new) [] × ((merging merge.new.queues.items).rest silence ≡ []) }
    ensures stuck { IfErr result (λ c. Stuck (W.layout writer.old) (merging merge.old.queues.items) (K.holds snk.old) (K.holds snk.new) (W.counts writer.old) c) }
    ensures alike { Alike (merging merge.old.queues.items) (merging merge.new.queues.items) }
    ensures written { (go : Bool) → result ≡ Ok go → K.written snk.old ≤ K.written snk.new }
    ensures kinds { IfErr result (λ c. IsOfInputs c → c ≡ TooLarge) }
    ensures later { K.faults snk.old ≤ K.faults snk.new }
    ensures failed { IfErr result (λ c. c ≡ Fault.Device → Rose (K.faults snk.old) (K.faults snk.new)) }
    ensures sound { (go : Bool) → result ≡ Ok go → K.faults snk.new ≡ K.faults snk.old }
    ensures unfailed { IfErr result (λ c. c ≢ Fault.Device → K.faults snk.new ≡ K.faults snk.old) }
    ensures name { K.name snk.new ≡ K.name snk.old }
    ensures layout { W.layout writer.new ≡ W.layout writer.old }
    ensures still_counts { (ps : List Placed) → W.counts writer.old ps → (qs : List Placed) × W.counts writer.new qs }
{
    let Some((stream, packet)) = merge.pull() else {
        return Ok(false);
    };
    match write_packet(snk, writer, stream, packet) {
        None => Ok(true),
        Some(fault) => Err(fault),
    }
}

// Writes the packets that are decided.
fn write_decided<K: Sink, W: Writer>(
    snk: &mut K,
    writer: &mut W,
    merge: &mut Interleave,
) -> Result<(), Fault>
    ensures ok { OnOk result (WroteAll (W.layout writer.old) (merging merge.old.queues.items) (merging merge.new.queues.items)
        (K.holds snk.old) (K.holds snk.new) (W.counts writer.old) (W.counts writer.new)) }
    ensures stuck { IfErr result (λ c. Stuck (W.layout writer.old) (merging merge.old.queues.items) (K.holds snk.old) (K.holds snk.new) (W.counts writer.old) c) }
    ensures alike { Alike (merging merge.old.queues.items) (merging merge.new.queues.items) }
    ensures written { OnOk result (K.written snk.old ≤ K.written snk.new) }
    ensures kinds { IfErr result (λ c. IsOfInputs c → c ≡ TooLarge) }
    ensures later { K.faults snk.old ≤ K.faults snk.new }
    ensures failed { IfErr result (λ c. c ≡ Fault.Device → Rose (K.faults snk.old) (K.faults snk.new)) }
    ensures sound { OnOk result (K.faults snk.new ≡ K.faults snk.old) }
    ensures unfailed { IfErr result (λ c. c ≢ Fault.Device → K.faults snk.new ≡ K.faults snk.old) }
    ensures name { K.name snk.new ≡ K.name snk.old }
    ensures layout { W.layout writer.new ≡ W.layout writer.old }
    ensures still_counts { (ps : List Placed) → W.counts writer.old ps → (qs : List Placed) × W.counts writer.new qs }
{
    'packets: loop {
        let go = write_next(snk, writer, merge)?;
        if !go {
            return Ok(());
        }
    }
}

/// Writes what stands before the packets, where nothing was written yet, and then the packets that are decided. Where
/// each stream is whole, it writes what follows them and what takes the place of bytes, by the totals that were told.
pub(crate) fn write_on<K: Sink, W: Writer>(
    alloc: Global,
    snk: &mut K,
    writer: &mut W,
    merge: &mut Interleave,
    begun: bool,
    whole: bool,
    totals: Option<Totals>,
) -> Option<Fault>
    requires counted { ((ps : List Placed) → W.counts writer.old ps → ⊥) → ⊥ }
    requires room { begun ≡ true → length (W.layout writer.old).header ≤ K.written snk.old }
    ensures ok { IsNone result → WroteOn (W.layout writer.old) (merging merge.old.queues.items) (merging merge.new.queues.items)
        (K.holds snk.old) (K.holds snk.new) (W.counts writer.old) (W.counts writer.new) begun whole totals }
    ensures stuck { IfSome result (λ c. StuckOn (W.layout writer.old) (merging merge.old.queues.items) (K.holds snk.old) (K.holds snk.new)
        (W.counts writer.old) begun whole c) }
    ensures alike { Alike (merging merge.old.queues.items) (merging merge.new.queues.items) }
    ensures room { IsNone result → length (W.layout writer.old).header ≤ K.written snk.new }
    ensures kinds { IfSome result (λ c. IsOfInputs c → c ≡ TooLarge) }
    ensures later { K.faults snk.old ≤ K.faults snk.new }
    ensures failed { result ≡ Some Fault.Device → Rose (K.faults snk.old) (K.faults snk.new) }
    ensures unfailed { result ≢ Some Fault.Device → K.faults snk.new ≡ K.faults snk.old }
    ensures name { K.name snk.new ≡ K.name snk.old }
    ensures layout { W.layout writer.new ≡ W.layout writer.old }
    ensures still_counts { (ps : List Placed) → W.counts writer.old ps → (qs : List Placed) × W.counts writer.new qs }
{
    let Ok(before) = text_before(alloc, writer, begun) else {
        return Some(Fault::NoMemory);
    };
    let fault = write(snk, &before);
    if fault.is_some() {
        return fault;
    }
    match write_decided(snk, writer, merge) {
        Ok(()) => {}
        Err(fault) => return Some(fault),
    }
    if !whole {
        return None;
    }
    let Ok(patch) = writer.last(totals) else {
        return Some(Fault::NoMemory);
    };
    let Ok(tail) = writer.tail(alloc) else {
        return Some(Fault::NoMemory);
    };
    write_end(snk, &tail, patch)
}
