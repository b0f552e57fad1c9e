//! The bytes written to a sink at each item.
ghost use Rattle.std.specs.Prelude.{◌≡◌, ◌≢◌, ◌+◌, ◌≤◌, ◌⊎◌, List, [], ◌∷◌, ◌++◌, length, None, Some, IfOk, IsNone, IsSome, IfSome};
ghost use Rattle.std.specs.Io.KnownBytes.{Appends, Keeps};
ghost use Rattle.ff_lists.specs.Appends.{AppendsPrefix};
ghost use Rattle.ff_net.specs.declared.fault.Fault.TheVariants.{TooLarge};
ghost use Rattle.ff_net.specs.laws.Laws.{Rose, IsOfInputs};
ghost use Rattle.ff_format.specs.Layouts.{IsBeyond, body};
ghost use Rattle.ff_format.specs.laws.Patches.{replacing, StandsIn};
ghost use Rattle.ff_node_mux.specs.laws.Writing.{text_before, Replaces, EndsAs};
ghost use Rattle.ff_node_mux.specs.merge.Merges.{Placed};

use ff_format::{Patch, Writer};
use ff_frame::Pkt;
use ff_host::{Sink, SinkError};
use ff_net::Fault;
use std::alloc::{AllocError, Global};

/// What stands before the packets, where nothing was written yet.
pub(crate) fn text_before<W: Writer>(
    alloc: Global,
    writer: &W,
    begun: bool,
) -> Result<Vec<u8>, AllocError>
    ensures { IfOk result (λ text. text.items ≡ text_before begun (W.layout writer.now)) }
{
    if begun {
        return Ok(Vec::new(alloc));
    }
    writer.first()
}

/// Adds some bytes at the end, or a prefix of them; of no bytes the sink isn't told.
pub(crate) fn write<K: Sink>(snk: &mut K, bytes: &[u8]) -> Option<Fault>
    ensures ok { IsNone result → Appends (K.holds snk.old) (K.holds snk.new) bytes.now }
    ensures written { IsNone result → K.written snk.new ≡ K.written snk.old + length bytes.now }
    ensures front { AppendsPrefix (K.holds snk.old) (K.holds snk.new) bytes.now }
    ensures kinds { IfSome result (λ c. IsOfInputs c → ⊥) }
    ensures later { K.faults snk.old ≤ K.faults snk.new }
    ensures failed { result ≡ Some Fault.Device → Rose (K.faults snk.old) (K.faults snk.new) }
    ensures unfailed { result ≢ Some Fault.Device → K.faults snk.new ≡ K.faults snk.old }
    ensures name { K.name snk.new ≡ K.name snk.old }
{
    if bytes.is_empty() {
        return None;
    }
    match snk.append(bytes) {
        Ok(()) => None,
        Err(SinkError::Failed) => Some(Fault::Device),
        Err(SinkError::NoMemory) => Some(Fault::NoMemory),
    }
}

/// Counts a packet of a stream, and adds what is written of it: where the packets are too many bytes, nothing of it is added.
pub(crate) fn write_packet<K: Sink, W: Writer>(
    snk: &mut K,
    writer: &mut W,
    stream: u32,
    packet: Pkt,
) -> Option<Fault>
    ensures ok { IsNone result → Appends (K.holds snk.old) (K.holds snk.new) ((W.layout writer.old).text stream packet) }
    ensures written { IsNone result → K.written snk.old ≤ K.written snk.new }
    ensures front { AppendsPrefix (K.holds snk.old) (K.holds snk.new) []
        ⊎ (((ps : List Placed) → W.counts writer.old ps → IsBeyond (W.layout writer.old).longest (length (body (W.layout writer.old) (ps ++ (stream, packet) ∷ []))) → ⊥)
        × AppendsPrefix (K.holds snk.old) (K.holds snk.new) ((W.layout writer.old).text stream packet)) }
    ensures kinds { IfSome result (λ c. IsOfInputs c → c ≡ TooLarge) }
    ensures later { K.faults snk.old ≤ K.faults snk.new }
    ensures failed { result ≡ Some Fault.Device → Rose (K.faults snk.old) (K.faults snk.new) }
    ensures unfailed { result ≢ Some Fault.Device → K.faults snk.new ≡ K.faults snk.old }
    ensures name { K.name snk.new ≡ K.name snk.old }
    ensures layout { W.layout writer.new ≡ W.layout writer.old }
    ensures counts { IsNone result → (ps : List Placed) → W.counts writer.old ps → W.counts writer.new (ps ++ (stream, packet) ∷ []) }
    ensures within { IsNone result → (ps : List Placed) → W.counts writer.old ps
        → IsBeyond (W.layout writer.old).longest (length (body (W.layout writer.old) (ps ++ (stream, packet) ∷ []))) → ⊥ }
    ensures too_large { result ≡ Some TooLarge → (ps : List Placed) → W.counts writer.old ps
        → IsBeyond (W.layout writer.old).longest (length (body (W.layout writer.old) (ps ++ (stream, packet) ∷ []))) }
    ensures still_counts { (ps : List Placed) → W.counts writer.old ps → (qs : List Placed) × W.counts writer.new qs }
{
    if writer.add(stream, &packet).is_err() {
        return Some(Fault::TooLarge);
    }
    let Ok(text) = writer.text(stream, packet) else {
        return Some(Fault::NoMemory);
    };
    write(snk, &text)
}

/// Puts bytes in the place of as many that were written.
pub(crate) fn replace<K: Sink>(snk: &mut K, patch: Option<Patch>) -> Option<Fault>
    requires { StandsIn (replacing patch) (K.written snk.old) }
    ensures ok { IsNone result → Replaces (K.holds snk.old) (K.holds snk.new) (replacing patch) }
    ensures same { IsSome result → Keeps (K.holds snk.old) (K.holds snk.new) }
    ensures written { K.written snk.new ≡ K.written snk.old }
    ensures kinds { IfSome result (λ c. IsOfInputs c → ⊥) }
    ensures later { K.faults snk.old ≤ K.faults snk.new }
    ensures failed { result ≡ Some Fault.Device → Rose (K.faults snk.old) (K.faults snk.new) }
    ensures unfailed { result ≢ Some Fault.Device → K.faults snk.new ≡ K.faults snk.old }
    ensures name { K.name snk.new ≡ K.name snk.old }
{
    match patch {
        None => None,
        Some(patch) => match snk.patch(patch.at, &patch.bytes) {
            Ok(()) => None,
            Err(_) => Some(Fault::Device),
        },
    }
}

/// Ends a file: adds what follows the packets, and puts bytes in the place of as many.
pub(crate) fn write_end<K: Sink>(snk: &mut K, tail: &[u8], patch: Option<Patch>) -> Option<Fault>
    requires { StandsIn (replacing patch) (K.written snk.old) }
    ensures ok { IsNone result → EndsAs (K.holds snk.old) (K.holds snk.new) tail.now (replacing patch) }
    ensures written { IsNone result → K.written snk.old ≤ K.written snk.new }
    ensures front { IsSome result → AppendsPrefix (K.holds snk.old) (K.holds snk.new) tail.now }
    ensures kinds { IfSome result (λ c. IsOfInputs c → ⊥) }
    ensures later { K.faults snk.old ≤ K.faults snk.new }
    ensures failed { result ≡ Some Fault.Device → Rose (K.faults snk.old) (K.faults snk.new) }
    ensures unfailed { result ≢ Some Fault.Device → K.faults snk.new ≡ K.faults snk.old }
    ensures name { K.name snk.new ≡ K.name snk.old }
{
    let fault = write(snk, tail);
    if fault.is_some() {
        return fault;
    }
    replace(snk, patch)
}
