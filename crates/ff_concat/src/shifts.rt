//! By how many ticks an item is to be later, at the least, so that it ends past the last second.
ghost use Rattle.std.specs.Prelude.{◌≡◌, ◌≤◌, ◌<◌, ◌+◌, ◌-◌, ◌*◌, ◌^◌, ◌+ℤ◌, ◌<ℤ◌, ◌≤ℤ◌, min, nat_lt, nat_le, ℕ, pos, negsuc};
ghost use Rattle.ff_frame.specs.Heads.{base_of_head};
ghost use Rattle.ff_stream.specs.Times.{ticks};
ghost use Rattle.ff_concat.specs.laws.Late.{shifted, IsLateFrom};

use crate::starting::{denominator, numerator};
use ff_filter::ticks_of;
use ff_frame::StreamHead;
use ff_stream::{Item, end_ticks, ends_past, shared, ticks_from};

// The last tick that isn't past the last second.
fn last_tick(head: &StreamHead) -> u128
    ensures last { (e : ℕ) → nat_lt (1000000000 * (base_of_head head.now).den) (e * (base_of_head head.now).num) ≡ nat_lt result e }
    ensures near { result < 2 ^ 62 }
{
    1_000_000_000 * denominator(head) / numerator(head)
}

// By how many ticks, one at least, what starts then and is so long is to be later, so that it ends past a tick.
fn forth(last: u128, start: u128, long: u128) -> u128
    requires last { last < 2 ^ 62 }
    requires start { start < 2 ^ 63 }
    requires long { long ≤ 2 ^ 65 }
    ensures is { (by : ℕ) → 1 ≤ by → by ≤ 9223372036854775807
        → nat_le result by ≡ nat_lt last (min (start + by) 9223372036854775807 + long) }
    ensures some { 1 ≤ result }
{
    (last + 1).saturating_sub(start + long).max(1)
}

// The same of what ends so many ticks before it starts.
fn back(last: u128, start: u128, less: u128) -> u128
    requires last { last < 2 ^ 62 }
    requires start { start < 2 ^ 63 }
    requires less { less ≤ 2 ^ 65 }
    ensures is { (by : ℕ) → 1 ≤ by → by ≤ 9223372036854775807
        → nat_le result by ≡ nat_lt last (min (start + by) 9223372036854775807 - less) }
    ensures some { 1 ≤ result }
{
    if 9_223_372_036_854_775_807 <= last + less {
        return u128::MAX;
    }
    (last + 1 + less).saturating_sub(start).max(1)
}

// When what starts then and is so long ends, in ticks.
fn end_after(time: i64, long: i128) -> u128
    requires most { long ≤ℤ pos (2 ^ 65) }
    requires least { negsuc (2 ^ 64) ≤ℤ long }
    ensures { result ≡ ticks (time +ℤ long) }
{
    ticks_from(time as i128 + long)
}

// A length below 0, turned round.
fn turned(long: i128) -> u128
    requires below { long <ℤ pos 0 }
    requires least { negsuc (2 ^ 64) ≤ℤ long }
    ensures is { pos result +ℤ long ≡ pos 0 }
    ensures near { result ≤ 2 ^ 65 }
{
    (-long) as u128
}

// By how many ticks what starts at a time and is so long is to be later, at the least, so that it ends past a tick.
fn shift_of(last: u128, time: i64, long: i128) -> u128
    requires last { last < 2 ^ 62 }
    requires most { long ≤ℤ pos (2 ^ 65) }
    requires least { negsuc (2 ^ 64) ≤ℤ long }
    ensures { (by : ℕ) → by ≤ 9223372036854775807 → nat_le result by ≡ nat_lt last (ticks (shifted by time +ℤ long)) }
{
    if last < end_after(time, long) {
        return 0;
    }
    let start = ticks_of(time) as u128;
    if long < 0 {
        back(last, start, turned(long))
    } else {
        forth(last, start, long as u128)
    }
}

/// By how many ticks an item is to be later, at the least, so that it ends past the last second.
pub fn least_shift(head: &StreamHead, item: &Item) -> u128
    ensures { IsLateFrom head.now item.now result }
{
    match item {
        Item::Audio(frame) => {
            let count = shared(frame.samples.as_slice().len(), frame.channels as usize);
            shift_of(last_tick(head), frame.pts, count as i128)
        }
        Item::Video(frame) => shift_of(last_tick(head), frame.pts, frame.duration as i128),
        Item::Packet(_) | Item::Trailer(_) | Item::End | Item::Broken => {
            if ends_past(head, end_ticks(item)) {
                0
            } else {
                u128::MAX
            }
        }
    }
}
