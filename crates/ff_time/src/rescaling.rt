//! Times in another time base, rounded to the nearest unit.
ghost use Rattle.std.specs.Prelude.{◌≡◌, ℤ, pos, ◌*ℤ◌, ◌<◌, ◌^◌, ◌↔◌, IfOk, IfErr, IsErrOf};
ghost use Rattle.std.specs.Int.{w64};
ghost use Rattle.std.specs.Int.RustNames.{FitsSigned};
ghost use Rattle.ff_time.specs.Rescale.{IsNearest, IsRescaled, IsRounded};

use super::{Rational, TimeError};

// p / q to the nearest whole number, halves upwards.
fn rounded(p: u128, q: u128) -> u128
    requires some { 0 < q }
    requires num { p < 2 ^ 125 }
    requires den { q < 2 ^ 62 }
    ensures near { IsRounded p q result }
    ensures small { result < 2 ^ 126 }
{
    (2 * p + q) / (2 * q)
}

// a * scale / unit to the nearest whole number, halves away from zero.
fn nearest(a: i64, scale: u128, unit: u128) -> i128
    requires some { 0 < unit }
    requires scale { scale < 2 ^ 62 }
    requires unit { unit < 2 ^ 62 }
    ensures { IsNearest (a *ℤ pos scale) unit result }
{
    let size = rounded(u128::from(a.unsigned_abs()) * scale, unit) as i128;
    if a < 0 { -size } else { size }
}

/// `a` units of `from` in units of `to`: `a * from / to`, rounded to the nearest whole number,
/// halves away from zero. `Overflow` where that is no `i64`.
pub fn rescale(a: i64, from: Rational, to: Rational) -> Result<i64, TimeError>
    ensures ok { IfOk result (IsRescaled a from to) }
    ensures overflow { IsErrOf result TimeError.Overflow
        ↔ ((r : ℤ) × IsRescaled a from to r × ¬ FitsSigned w64 r) }
    ensures err { IfErr result (λ e. e ≡ TimeError.Overflow) }
{
    let (from_num, from_den) = from.parts();
    let (to_num, to_den) = to.parts();
    let value = nearest(a, from_num * to_den, from_den * to_num);
    if value < i128::from(i64::MIN) || value > i128::from(i64::MAX) {
        return Err(TimeError::Overflow);
    }
    Ok(value as i64)
}
