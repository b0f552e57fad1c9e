//! The function that takes the start of the first item from each time.
ghost use Rattle.std.specs.Prelude.{◌≡◌, ◌-◌, ◌<◌, ◌^◌, pos, refl, false, Some};
ghost use Rattle.ff_stream.specs.declared.item.Lane.TheVariants.{Frames};
ghost use Rattle.ff_stream.specs.Stream.{opened, still_open, whole, broken};
ghost use Rattle.ff_stream.specs.laws.Order.{below_self};
ghost use Rattle.ff_stream.specs.Times.{ticks};
ghost use Rattle.ff_filter.specs.Views.{closes};
ghost use Rattle.ff_filter.specs.Shifts.{shifted, start_ticks, earlier as earlier_by, shifted-below, shifted-bare};

use crate::after::After;
use crate::step::{Given, Step};
use ff_frame::StreamHead;
use ff_stream::{Item, Refused};

/// Takes the start of the first item from the time of each.
#[derive(Drop)]
pub struct Rebase {
    /// The head of its input and of its output.
    pub head: StreamHead,
    /// The start of the first item, once it came.
    pub first: Option<u64>,
}

/// A time as ticks from 0; what lies before 0 counts as 0.
pub fn ticks_of(time: i64) -> u64
    ensures is { result ≡ ticks time }
    ensures near { result < 2 ^ 63 }
{
    if time < 0 { 0 } else { time as u64 }
}

/// When an item starts, in ticks from 0; what lies before 0 counts as 0.
pub fn start_of_item(item: &Item) -> u64
    ensures { result ≡ start_ticks item.now }
{
    match item {
        Item::Audio(frame) => ticks_of(frame.pts),
        Item::Video(frame) => ticks_of(frame.pts),
        Item::Packet(packet) => ticks_of(packet.pts),
        Item::Trailer(_) | Item::End | Item::Broken => 0,
    }
}

// A time so many ticks earlier.
fn lowered(time: i64, by: u64) -> i64
    ensures { result ≡ pos (ticks time - by) }
{
    ticks_of(time).saturating_sub(by) as i64
}

/// The item so many ticks earlier; what comes to lie before 0 starts at 0.
pub fn earlier(item: Item, by: u64) -> Item
    requires goes_on { closes item ≡ false }
    ensures is { result ≡ earlier_by by item }
    ensures goes_on { closes result ≡ false }
{
    match item {
        Item::Audio(mut frame) => {
            frame.pts = lowered(frame.pts, by);
            Item::Audio(frame)
        }
        Item::Video(mut frame) => {
            frame.pts = lowered(frame.pts, by);
            Item::Video(frame)
        }
        Item::Packet(packet) => Item::Packet(packet),
        Item::Trailer(totals) => Item::Trailer(totals),
        Item::End => Item::End,
        Item::Broken => Item::Broken,
    }
}

impl Step for Rebase {
    ghost lane_in = { λ m. Frames m.head };

    ghost lane_out = { λ m. Frames m.head };

    ghost runs = { λ m s. shifted m.first s };

    fn step(&mut self, item: Item) -> Result<Given, Refused> {
        let first = match self.first {
            Some(first) => first,
            None => start_of_item(&item),
        };
        self.first = Some(first);
        Ok(Given {
            item: Some(earlier(item, first)),
            after: After::More,
        })
    }

    ghost waits = { λ m. shifted-bare m.first still_open };

    ghost below = { λ m r s h. shifted-below m.first r s h };

    ghost calm = { λ m r. below_self (opened (shifted m.first r)) };

    ghost settles = { λ m r c. c };

    ghost ends = { λ m. shifted-bare m.first whole };

    ghost breaks = { λ m. shifted-bare m.first broken };
}
