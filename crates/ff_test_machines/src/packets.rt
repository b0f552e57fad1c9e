//! A stream of packets that are told apart by their times and bytes. The one at place n starts at tick n, lasts one
//! tick and has one byte, the last eight bits of n.
ghost use Rattle.std.specs.Prelude.{◌≡◌, ◌≤◌, IfOk, IfSome};
ghost use Rattle.ff_test_machines.specs.Packets.{byte_lane, byte_packet, IsWhole};

use ff_frame::{Bytes, Codec, Pkt, StreamHead};
use ff_stream::{Item, Lane};
use ff_time::Rational;
use std::alloc::{AllocError, Global};

/// A time base of one second over `den`, where that is one.
pub fn one_over(den: i64) -> Option<Rational>
    ensures { IfSome result IsWhole }
{
    let tb = Rational::new(1, den).ok()?;
    if tb.num() == 1 && tb.den() >= 1 {
        Some(tb)
    } else {
        None
    }
}

/// The lane of the packets: one channel of 8 bits.
pub fn lane_of(tb: Rational) -> Lane
    ensures { result ≡ byte_lane tb }
{
    Lane::Packets(StreamHead::Audio {
        tb,
        rate: 8000,
        bits: 8,
        channels: 1,
        codec: Codec::PcmU8,
    })
}

/// The packet at this place.
pub fn packet(alloc: Global, place: u32) -> Result<Item, AllocError>
    ensures { IfOk result (λ item. item ≡ byte_packet place) }
{
    let bytes = vec![in alloc; (place % 256) as u8]?;
    Ok(Item::Packet(Pkt {
        pts: i64::from(place),
        dts: i64::from(place),
        duration: 1,
        pos: 0,
        bytes: Bytes::new(bytes),
    }))
}

/// Whether it is the packet at this place.
pub fn is_packet(item: &Item, place: u32) -> bool {
    match item {
        Item::Packet(packet) => {
            packet.pts == i64::from(place)
                && packet.bytes.as_slice() == [(place % 256) as u8].as_slice()
        }
        _ => false,
    }
}
