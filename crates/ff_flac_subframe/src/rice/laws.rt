//! Laws of the codings of residuals. Each function does nothing, and its contract is the law.

ghost use Rattle.std.specs.Prelude.{◌≡◌, ℕ, ℤ, ◌+◌, List, length, map, Some};
ghost use Rattle.std.specs.List.{AllByRecursion};
ghost use Rattle.ff_flac_frame.specs.Frame.{residual};
ghost use Rattle.ff_flac_frame.specs.laws.Facts.{IsResidual};
ghost use Rattle.ff_flac_subframe.specs.rice.Least.{least, IsFirstLeast};
ghost use Rattle.ff_flac_subframe.specs.rice.Rice.{zigzagged, residual_bits, codings, Coding};
ghost use Rattle.ff_flac_subframe.specs.laws.rice.Spells.{Reads};

/// Whichever coding of the list writes residuals, a reader of the grammar takes its bits, whatever follows them, and gives
/// the residuals back.
pub fn codings_are_read_back()
    ensures { (order : ℕ) (xs : List ℤ) → AllByRecursion IsResidual xs
        → AllByRecursion (λ c. Reads (residual (length xs + order) order) (residual_bits order c (map zigzagged xs)) xs) (codings (length xs + order) order) }
{}

/// The least of some codings is the first of the lowest: those before it cost more, and those after it no less.
pub fn least_is_the_first_of_the_lowest()
    ensures { (cost : Coding → ℕ) (xs : List Coding) (a : Coding) → least cost xs ≡ Some a → IsFirstLeast cost xs a }
{}
