//! A plain reader of histories of two streams on two sources, of which each stream's packets lie 1,000 microseconds
//! apart.
ghost use Rattle.std.specs.Prelude.{};

use ff_frame::Event;

/// The microseconds between two packets of a stream.
pub const STEP: u64 = 1_000;

/// What was read of a stream and its source.
#[derive(Clone, Copy, PartialEq, Eq, Debug)]
pub struct Lane {
    /// How many packets of the stream were taken.
    pub packets: u64,
    /// How often its source was granted.
    pub grants: u64,
    last: Option<u64>,
}

const NOTHING: Lane = Lane {
    packets: 0,
    grants: 0,
    last: None,
};

// Whether the source of a stream may be read: nothing of it was sent, or each has a last dts and its own is near.
fn may_read(own: Option<u64>, other: Option<u64>) -> bool {
    match (own, other) {
        (None, _) => true,
        (Some(_), None) => false,
        (Some(own), Some(other)) => own < other.saturating_add(100_000),
    }
}

// Reads an event of this stream or source. None where it may not stand here.
fn next(own: Lane, other: Lane, event: Event) -> Option<Lane> {
    match event {
        Event::Grant(_) if may_read(own.last, other.last) => Some(Lane {
            grants: own.grants.saturating_add(1),
            ..own
        }),
        Event::Sent(_, time) if time == own.packets.saturating_mul(STEP) => Some(Lane {
            packets: own.packets.saturating_add(1),
            last: Some(time),
            ..own
        }),
        _ => None,
    }
}

/// What a history says of the two streams. None where it isn't legal, or a stream's packets aren't in order.
pub fn read(events: &[Event]) -> Option<(Lane, Lane)> {
    let mut first = NOTHING;
    let mut second = NOTHING;
    for event in events {
        match event {
            Event::Grant(0) | Event::Sent(0, _) => first = next(first, second, *event)?,
            Event::Grant(1) | Event::Sent(1, _) => second = next(second, first, *event)?,
            _ => return None,
        }
    }
    Some((first, second))
}
