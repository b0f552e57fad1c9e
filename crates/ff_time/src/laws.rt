//! Laws of the calls' definitions. Each is a function that does nothing: its clauses hold of all
//! values.
ghost use Rattle.std.specs.Prelude.{◌≡◌, ℕ, ℤ, ◌<◌, ◌≤ℤ◌, ◌↔◌, List, length, Option, Some};
ghost use Rattle.std.specs.Cmp.{IsTotalOrder};
ghost use Rattle.ff_time.specs.Fraction.{Fraction, IsBase};
ghost use Rattle.std.specs.List.{All};
ghost use Rattle.ff_time.specs.Common.{IsCommonBase, IsCommonOf, units_of, IsUnits};
ghost use Rattle.ff_time.specs.Rescale.{IsRescaled};
ghost use Rattle.ff_time.specs.Duration.{IsDuration};
ghost use Rattle.ff_time.specs.laws.Laws.{Moment, moment_cmp, IsSameMoment, IsNearAgain, IsShortest};

use std::cmp::Ordering;

/// The order that `compare` answers is total, and ties exactly equal fractions.
pub fn compare_is_an_order()
    ensures total { IsTotalOrder moment_cmp }
    ensures equal { (x y : Moment) → (moment_cmp x y ≡ Ordering.Equal) ↔ IsSameMoment x y }
{}

/// To the same base `rescale` changes nothing.
pub fn rescale_to_the_same_base()
    ensures { (a r : ℤ) (base : Fraction) → IsBase base → IsRescaled a base base r → r ≡ a }
{}

/// `rescale` keeps the order.
pub fn rescale_in_order()
    ensures { (a b r s : ℤ) (from to : Fraction) → IsBase from → IsBase to → a ≤ℤ b
        → IsRescaled a from to r → IsRescaled b from to s → r ≤ℤ s }
{}

/// There and back, `rescale` is off by at most half a unit of each of the two bases together.
pub fn rescale_there_and_back()
    ensures { (a r b : ℤ) (from to : Fraction) → IsBase from → IsBase to
        → IsRescaled a from to r → IsRescaled r to from b → IsNearAgain a from to b }
{}

/// A string is a duration of one value.
pub fn durations_have_one_value()
    ensures { (text : List ℕ) (value other : ℕ) → IsDuration text value → IsDuration text other
        → value ≡ other }
{}

/// Each duration's value has a shortest spelling, and of that it is read again.
pub fn durations_have_shortest_spellings()
    ensures shortest { (text : List ℕ) (value : ℕ) → IsDuration text value
        → (short : List ℕ) × IsShortest short value }
    ensures again { (value other : ℕ) (short : List ℕ) → IsShortest short value
        → IsDuration short other → other ≡ value }
{}

/// Several bases have one answer. A time in one of them is a whole number of units of their common base.
pub fn common_bases_tell_each_time()
    ensures one { (bases : List Fraction) (r s : Option Fraction) → IsCommonOf bases r → IsCommonOf bases s → r ≡ s }
    ensures whole { (bases : List Fraction) (f : Fraction) → All IsBase bases → IsBase f → IsCommonBase bases f
        → All (λ b. IsUnits (units_of b f) b f) bases }
{}

/// Bases that are equal are their own common base, in whose units their times stay as they are.
pub fn equal_bases_are_common()
    ensures same { (b : Fraction) (bases : List Fraction) → 0 < length bases → All (λ x. x ≡ b) bases
        → IsCommonOf bases (Some b) }
    ensures unit { (b : Fraction) → IsBase b → units_of b b ≡ 1 }
{}
