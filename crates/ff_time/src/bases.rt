//! What several time bases have in common.
ghost use Rattle.std.specs.Prelude.{◌≡◌, ◌<◌, ◌↔◌, IfSome, None, IsTrue, length};
ghost use Rattle.std.specs.List.{All};
ghost use Rattle.ff_time.specs.Common.{MultiplesExceed, dens, IsCommonBase, IsCommonOf, units_of};

use super::Rational;

// Whether each of these is that base.
fn are_one(bases: &[Rational], one: Rational) -> bool
    ensures { IsTrue result ↔ All (λ b. b ≡ one) bases.now }
{
    bases
        .iter()
        .all(|base| base.num() == one.num() && base.den() == one.den())
}

// The greatest common divisor of the numerators over the least common multiple of the denominators,
// unless that exceeds 1,000,000.
fn lowest_common(bases: &[Rational]) -> Option<Rational>
    requires some { 0 < length bases.now }
    ensures some { IfSome result (IsCommonBase bases.now) }
    ensures none { (result ≡ None) ↔ MultiplesExceed (dens bases.now) }
{
    let mut common = bases[0];
    'bases: for i in 0..bases.len() {
        common = common.joined(bases[i])?;
    }
    Some(common)
}

/// The common base of several time bases: that of all where they are equal. Otherwise the greatest common divisor
/// of their numerators over the least common multiple of their denominators. `None` exactly where they differ and
/// that multiple exceeds 1,000,000. There is at least one base.
pub fn common_base(bases: &[Rational]) -> Option<Rational>
    requires some { 0 < length bases.now }
    ensures { IsCommonOf bases.now result }
{
    if are_one(bases, bases[0]) {
        return Some(bases[0]);
    }
    lowest_common(bases)
}

/// How many units of another base are in one unit of a base, rounded down.
pub fn units_in(base: Rational, other: Rational) -> u64
    ensures { result ≡ units_of base other }
{
    let (num, den) = base.parts();
    let (other_num, other_den) = other.parts();
    (num * other_den / (other_num * den)) as u64
}
