//! The exact order of times in two time bases.
ghost use Rattle.std.specs.Prelude.{◌≡◌, pos, ◌*ℤ◌, ◌<◌, ◌^◌};
ghost use Rattle.ff_time.specs.Rescale.{order_of};

use super::Rational;
use std::cmp::Ordering;

// a * scale, which 126 bits hold.
fn scaled(a: i64, scale: u128) -> i128
    requires { scale < 2 ^ 62 }
    ensures { result ≡ a *ℤ pos scale }
{
    i128::from(a) * scale as i128
}

/// The order of `a` units of `ta` and `b` units of `tb`, as exact fractions.
pub fn compare(a: i64, ta: Rational, b: i64, tb: Rational) -> Ordering
    ensures { result ≡ order_of a ta b tb }
{
    let (num_a, den_a) = ta.parts();
    let (num_b, den_b) = tb.parts();
    scaled(a, num_a * den_b).cmp(&scaled(b, num_b * den_a))
}
