//! The events that a muxer tells of an item.
ghost use Rattle.std.specs.Prelude.{◌≡◌, ◌<◌, ◌++◌, option_to_list};
ghost use Rattle.std.specs.VecDeque.{deque_len, deque_capacity};
ghost use Rattle.ff_frame.specs.Heads.{base_of_head};
ghost use Rattle.ff_node_mux.specs.Telling.{micros_of, told_by};

use ff_frame::{Event, StreamHead};
use ff_stream::{Item, time_base};
use ff_time::{Rational, rescale};
use std::collections::VecDeque;

/// The greatest time that is told.
const LAST_MICROSECOND: u64 = (1 << 63) - 1;

// A time of this base in microseconds.
fn micros(time: i64, base: Rational) -> u64
    ensures { result ≡ micros_of base time }
{
    if time <= 0 {
        return 0;
    }
    let Ok(microsecond) = Rational::new(1, 1_000_000) else {
        unreachable!();
    };
    match rescale(time, base, microsecond) {
        Ok(time) => time.unsigned_abs(),
        Err(_) => LAST_MICROSECOND,
    }
}

/// What the output stream of this number and head tells of an item. Of a packet it is the time at which it is
/// decoded, in microseconds, and of what closes the stream that it has finished.
pub(crate) fn told_by(stream: u32, head: &StreamHead, item: &Item) -> Option<Event>
    ensures { option_to_list result ≡ told_by stream (base_of_head head.now) item.now }
{
    match item {
        Item::Packet(packet) => Some(Event::Sent(stream, micros(packet.dts, time_base(head)))),
        Item::End | Item::Broken => Some(Event::Finished(stream)),
        Item::Audio(_) | Item::Video(_) | Item::Trailer(_) => None,
    }
}

/// Puts an event after the others, where there is one.
pub(crate) fn put(events: &mut VecDeque<Event>, event: Option<Event>)
    requires { deque_len events.old < deque_capacity events.old }
    ensures { events.new.items ≡ events.old.items ++ option_to_list event }
{
    if let Some(event) = event {
        events.push_back_reserved(event);
    }
}
