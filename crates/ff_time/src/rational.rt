//! Time bases: positive fractions in lowest terms.
ghost use Rattle.std.specs.Prelude.{◌≡◌, ◌<◌, ◌≤◌, ◌^◌, ◌⊎◌, ◌↔◌, IfOk, IfErr, IfSome, None, IsErrOf, pos, [], ◌∷◌};
ghost use Rattle.std.specs.Int.{IsGcd};
ghost use Rattle.ff_time.specs.Common.{IsLcmOf, MultiplesExceed, IsCommonBase};
ghost use Rattle.ff_time.specs.Fraction.{Fraction, IsBase, IsReduced, IsLowestOf, IsBelowOne, IsTooBig};

use super::TimeError;
use std::marker::Model;

/// A positive fraction in lowest terms, each number at most 2^31 - 1.
#[derive(Clone, Copy, Debug, PartialEq, Eq)]
pub struct Rational {
    num: u32,
    den: u32,
}

impl Model for Rational {
    ghost use Rattle.ff_time.specs.Fraction.{Fraction, IsBase};

    ghost Value = { Fraction };

    ghost view = { λ r. record { num = r.num; den = r.den } };

    ghost invariant = { λ r. IsBase (record { num = r.num; den = r.den }) };

    ghost inverse = { λ f. record { num = f.num; den = f.den } };
}

// The greatest common divisor.
fn common(n: u64, d: u64) -> u64
    ensures { IsGcd n d result }
{
    let mut x = n;
    let mut y = d;
    'euclid: while y != 0 {
        let rest = x % y;
        x = y;
        y = rest;
    }
    x
}

// The least common multiple.
fn multiple(n: u64, d: u64) -> u64
    requires n { (0 < n) × (n < 2 ^ 31) }
    requires d { (0 < d) × (d < 2 ^ 31) }
    ensures least { IsLcmOf (n ∷ d ∷ []) result }
    ensures positive { 0 < result }
{
    n / common(n, d) * d
}

// The fraction n / d in lowest terms.
fn reduced(n: u64, d: u64) -> (u64, u64)
    requires num { 0 < n }
    requires den { 0 < d }
    ensures { IsReduced n d (record { num = result.0; den = result.1 }) }
{
    let greatest = common(n, d);
    (n / greatest, d / greatest)
}

impl Rational {
    /// The fraction `num / den` in lowest terms. `NotPositive` where a number is below 1;
    /// otherwise `TooBig` where a reduced number exceeds 2^31 - 1.
    pub fn new(num: i64, den: i64) -> Result<Rational, TimeError>
        ensures ok { IfOk result (IsLowestOf num den) }
        ensures base { IfOk result IsBase }
        ensures not_positive { IsErrOf result TimeError.NotPositive ↔ IsBelowOne num den }
        ensures too_big { IsErrOf result TimeError.TooBig
            ↔ ((f : Fraction) × IsLowestOf num den f × IsTooBig f) }
        ensures err { IfErr result (λ e. (e ≡ TimeError.NotPositive) ⊎ (e ≡ TimeError.TooBig)) }

        // What is a time base already is answered as it stands.
        ensures kept { (f : Fraction) → IsBase f → num ≡ pos f.num → den ≡ pos f.den → result ≡ Ok f }
    {
        if num < 1 || den < 1 {
            return Err(TimeError::NotPositive);
        }
        let lowest = reduced(num as u64, den as u64);
        if lowest.0 >= 1 << 31 || lowest.1 >= 1 << 31 {
            return Err(TimeError::TooBig);
        }
        Ok(Rational {
            num: lowest.0 as u32,
            den: lowest.1 as u32,
        })
    }

    /// The time base of so many ticks a second.
    pub fn one_over(rate: u32) -> Rational
        requires some { 0 < rate }
        requires few { rate < 2 ^ 31 }
        ensures { result ≡ record { num = 1; den = rate } }
    {
        Rational { num: 1, den: rate }
    }

    /// The numerator.
    pub fn num(&self) -> i64
        ensures value { result ≡ pos self.now.num }
        ensures base { IsBase self.now }
    {
        i64::from(self.num)
    }

    /// The denominator.
    pub fn den(&self) -> i64
        ensures value { result ≡ pos self.now.den }
        ensures base { IsBase self.now }
    {
        i64::from(self.den)
    }

    /// The common base of two, unless its denominator exceeds 1,000,000.
    pub(super) fn joined(self, other: Rational) -> Option<Rational>
        ensures some { IfSome result (IsCommonBase (self ∷ other ∷ [])) }
        ensures small { IfSome result (λ f. (0 < f.den) × (f.den ≤ 1000000)) }
        ensures none { (result ≡ None) ↔ MultiplesExceed (self.den ∷ other.den ∷ []) }
    {
        let (num, den) = self.parts();
        let (other_num, other_den) = other.parts();
        let num = common(num as u64, other_num as u64);
        let den = multiple(den as u64, other_den as u64);
        if den > 1_000_000 {
            return None;
        }
        Some(Rational {
            num: num as u32,
            den: den as u32,
        })
    }

    /// Both numbers, with room for products.
    pub(super) fn parts(self) -> (u128, u128)
        ensures num { result.0 ≡ self.num }
        ensures den { result.1 ≡ self.den }
        ensures base { IsBase self }
    {
        (u128::from(self.num), u128::from(self.den))
    }
}
