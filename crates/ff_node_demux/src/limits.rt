//! The limits that no packet passes.
ghost use Rattle.std.specs.Prelude.{◌≡◌, ◌+◌, ◌*◌, ◌^◌, ◌≤◌, ◌<◌, length, nat_lt};
ghost use Rattle.ff_stream.specs.declared.item.Item.{Item};
ghost use Rattle.ff_stream.specs.declared.item.Lane.TheVariants.{Packets};
ghost use Rattle.ff_stream.specs.Times.{end_of, ticks};
ghost use Rattle.ff_frame.specs.Heads.{base_of_head};
ghost use Rattle.ff_node_demux.specs.Demuxing.{ends_beyond, passes_in_demux};

use ff_frame::{Pkt, StreamHead};
use ff_stream::{MOST_ITEMS, ends_past, ticks_from};

/// The last byte at which a packet may end.
const LAST_BYTE: u64 = 1 << 40;

// Whether a packet ends past the last second.
fn ends_late(head: &StreamHead, packet: &Pkt) -> bool
    ensures { result ≡ nat_lt (1000000000 * (base_of_head head.now).den) (ticks (end_of (Item.Packet packet.now)) * (base_of_head head.now).num) }
{
    ends_past(
        head,
        ticks_from(packet.pts as i128 + packet.duration as i128),
    )
}

// Whether a packet ends past the last byte.
fn ends_far(packet: &Pkt) -> bool
    requires { packet.now.pos + length packet.now.bytes < 2 ^ 64 }
    ensures { result ≡ ends_beyond (Item.Packet packet.now) }
{
    LAST_BYTE < packet.pos + packet.bytes.as_slice().len() as u64
}

/// Whether a packet passes a limit, where so many came before it: it makes its stream too long.
pub fn is_long(head: &StreamHead, before: u64, packet: &Pkt) -> bool
    requires place { packet.now.pos + length packet.now.bytes < 2 ^ 64 }
    requires few { before ≤ 2 ^ 40 }
    ensures { result ≡ passes_in_demux (Packets head.now) before (Item.Packet packet.now) }
{
    (MOST_ITEMS < before + 1) | ends_late(head, packet) | ends_far(packet)
}
