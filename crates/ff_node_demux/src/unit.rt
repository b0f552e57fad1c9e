//! The next packet or end of what was read.
ghost use Rattle.std.specs.Prelude.{◌≡◌, ◌+◌, ◌^◌, ◌≤◌, ◌<◌, ℕ, Some, None, Ok, true, false, length, OnErr};
ghost use Rattle.ff_stream.specs.declared.item.Item.{Item};
ghost use Rattle.ff_stream.specs.declared.item.Lane.TheVariants.{Packets};
ghost use Rattle.ff_frame.specs.declared.packet.Pkt.{Pkt};
ghost use Rattle.ff_reader.specs.Cutters.{GivesPacket, GaveAll};
ghost use Rattle.ff_node_demux.specs.Demuxing.{passes_in_demux};
ghost use Rattle.ff_input.specs.laws.Reading.{LeavesOpen};

use crate::limits::is_long;
use ff_frame::{Cut, Pkt, StreamHead};
use ff_input::Demuxable;
use std::alloc::AllocError;

/// What the cut says next.
#[derive(Debug, Drop)]
pub(crate) enum Unit {
    /// A packet.
    Packet(Pkt),
    /// A packet that passes a limit.
    Long,
    /// The input has ended.
    End,
    /// No further packet begins at this offset, or one that isn't whole.
    Broken(u64),
    /// More of the input is wanted.
    Wait,
}

/// The next packet of what was read, where so many were given.
pub(crate) fn next_unit<C: Demuxable>(
    cut: &mut C,
    head: &StreamHead,
    given: u64,
) -> Result<Unit, AllocError>
    requires near { C.is.place cut.old ≤ 2 ^ 50 }
    requires few { given ≤ 2 ^ 40 }
    ensures packet { (p : Pkt) → result ≡ Ok (Unit.Packet p)
        → GivesPacket C.is cut.old cut.new p × (passes_in_demux (Packets head.now) given (Item.Packet p) ≡ false) }
    ensures within { (p : Pkt) → result ≡ Ok (Unit.Packet p) → (C.is.place cut.new ≤ 2 ^ 50) × (given + 1 ≤ 2 ^ 40) }
    ensures long { result ≡ Ok Unit.Long
        → (p : Pkt) × GivesPacket C.is cut.old cut.new p × (passes_in_demux (Packets head.now) given (Item.Packet p) ≡ true) }
    ensures all { result ≡ Ok Unit.End → (cut.new ≡ cut.old) × GaveAll C.is cut.old None }
    ensures broken { (offset : ℕ) → result ≡ Ok (Unit.Broken offset) → (cut.new ≡ cut.old) × GaveAll C.is cut.old (Some offset) }
    ensures wait { result ≡ Ok Unit.Wait → (cut.new ≡ cut.old) × (C.is.has_ended cut.old ≡ false) × (length (C.is.waiting cut.old) < C.is.longest) }
    ensures undecided { result ≡ Ok Unit.Wait → LeavesOpen C.is cut.old }
    ensures err { OnErr result (cut.new ≡ cut.old) }
    ensures head { C.is.head_of cut.new ≡ C.is.head_of cut.old }
    ensures ended { C.is.has_ended cut.new ≡ C.is.has_ended cut.old }
{
    match cut.next_cut()? {
        Cut::NotYet => Ok(Unit::Wait),
        Cut::End => Ok(Unit::End),
        Cut::Broken { offset } => Ok(Unit::Broken(offset)),
        Cut::Pkt(packet) => {
            if is_long(head, given, &packet) {
                return Ok(Unit::Long);
            }
            Ok(Unit::Packet(packet))
        }
    }
}
