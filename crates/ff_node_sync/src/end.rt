//! The ends of items as exact times.
ghost use Rattle.std.specs.Prelude.{◌≡◌, ◌≤◌, ◌^◌, max};
ghost use Rattle.ff_node_sync.specs.Shortened.{is_before as is_before_by};

use ff_time::Rational;

/// The later of two times.
pub fn later(a: u128, b: u128) -> u128
    ensures { result ≡ max a b }
{
    if a < b { b } else { a }
}

/// Whether a time of one time base lies before one of another, as exact times.
pub fn is_before(a: u64, ta: Rational, b: u128, tb: Rational) -> bool
    requires near { b ≤ 2 ^ 65 }
    ensures { result ≡ is_before_by a ta b tb }
{
    (a as u128) * ((ta.num() as u128) * (tb.den() as u128))
        < b * ((tb.num() as u128) * (ta.den() as u128))
}
