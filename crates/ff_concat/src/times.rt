//! Times of items, moved, and times in whole ticks.
ghost use Rattle.std.specs.Prelude.{◌≡◌, ◌<◌, ◌^◌};
ghost use Rattle.ff_concat.specs.Concats.{time_later, moved as moved_by, later as later_by, begin_in};

use ff_filter::ticks_of;
use ff_stream::Item;

// A time so many ticks later, at most the last one.
fn raised(time: i64, by: u128) -> i64
    ensures { result ≡ time_later by time }
{
    let start = ticks_of(time) as u128;
    let sum = start.saturating_add(by);
    if sum < 9_223_372_036_854_775_807 {
        sum as i64
    } else {
        9_223_372_036_854_775_807
    }
}

// The item so many ticks later.
fn moved(item: Item, by: u128) -> Item
    ensures { result ≡ moved_by by item }
{
    match item {
        Item::Audio(mut frame) => {
            frame.pts = raised(frame.pts, by);
            Item::Audio(frame)
        }
        Item::Video(mut frame) => {
            frame.pts = raised(frame.pts, by);
            Item::Video(frame)
        }
        Item::Packet(packet) => Item::Packet(packet),
        Item::Trailer(totals) => Item::Trailer(totals),
        Item::End => Item::End,
        Item::Broken => Item::Broken,
    }
}

/// The item so many ticks later; where there are none, as it is.
pub fn later(item: Item, by: u128) -> Item
    ensures { result ≡ later_by by item }
{
    if by == 0 { item } else { moved(item, by) }
}

/// The least number of ticks at or after a time, told in a unit of which a tick has so many; at most the last time.
pub fn begin_of(tick: u128, time: u128) -> u128
    requires { 0 < tick }
    ensures is { result ≡ begin_in tick time }
    ensures near { result < 2 ^ 63 }
{
    time.div_ceil(tick).min(9_223_372_036_854_775_807)
}
