//! The limits of every stream, for stacks.
ghost use Rattle.std.specs.Prelude.{◌≡◌, ◌≤◌, ◌+◌, ◌^◌, ◌≤ℤ◌, false};
ghost use Rattle.ff_fsync.specs.laws.stacks.Limits.{long_at};

use ff_frame::StreamHead;
use ff_stream::{MOST_ITEMS, ends_past};

/// Whether an item that ends then passes a limit, where so many came before it.
pub(crate) fn is_long(head: &StreamHead, before: u64, end: u128) -> bool
    requires few { before ≤ 2 ^ 40 }
    requires near { end ≤ 2 ^ 65 }
    ensures is { result ≡ long_at head.now before end }
    ensures few { result ≡ false → before + 1 ≤ 2 ^ 40 }
{
    (MOST_ITEMS < before + 1) | ends_past(head, end)
}
