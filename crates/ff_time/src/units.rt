//! Microseconds in units of a time base, rounded up.
ghost use Rattle.std.specs.Prelude.{ℤ, ◌≤◌, ◌^◌, ◌≤ℤ◌};
ghost use Rattle.ff_time.specs.Rescale.{Reaches};

use super::Rational;

/// The least number of units of `tb` that is at least `us` microseconds.
pub fn ceil_units(us: u64, tb: Rational) -> i64
    requires { us ≤ 10 ^ 15 }
    ensures reaches { Reaches us tb result }
    ensures least { (n : ℤ) → Reaches us tb n → result ≤ℤ n }
{
    let (num, den) = tb.parts();
    (u128::from(us) * den).div_ceil(num * 1_000_000) as i64
}
