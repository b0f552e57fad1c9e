//! The limits of every stream.
ghost use Rattle.std.specs.Prelude.{◌≡◌, ◌≤◌, ◌<◌, ◌*◌, ◌^◌, nat_lt, false};
ghost use Rattle.ff_frame.specs.Heads.{base_of_head};
ghost use Rattle.ff_stream.specs.declared.item.Lane.TheVariants.{Frames};
ghost use Rattle.ff_stream.specs.Times.{ticks, end_ticks as end_of_ticks};
ghost use Rattle.ff_stream.specs.Within.{passes_limits};

use crate::item::Item;
use crate::times::{end_ticks, time_base};
use ff_frame::StreamHead;

/// The most items of a stream.
pub const MOST_ITEMS: u64 = 1 << 40;

// The seconds after which no item may end.
const LAST_SECOND: u128 = 1_000_000_000;

/// Whether so many ticks are past the last second.
pub fn ends_past(head: &StreamHead, end: u128) -> bool
    requires { end ≤ 2 ^ 90 }
    ensures { result ≡ nat_lt (1000000000 * (base_of_head head.now).den) (end * (base_of_head head.now).num) }
{
    let tb = time_base(head);
    LAST_SECOND * (tb.den() as u128) < end * (tb.num() as u128)
}

// Whether an item ends past the last second.
fn ends_late(head: &StreamHead, item: &Item) -> bool
    ensures { result ≡ nat_lt (1000000000 * (base_of_head head.now).den) (end_of_ticks item.now * (base_of_head head.now).num) }
{
    ends_past(head, end_ticks(item))
}

/// Whether an item passes a limit of every stream, where so many came before it.
pub fn is_long(head: &StreamHead, before: u64, item: &Item) -> bool
    ensures is { result ≡ passes_limits (Frames head.now) before item.now }
    ensures few { result ≡ false → before < 2 ^ 40 }
{
    (MOST_ITEMS <= before) | ends_late(head, item)
}
