//! Laws of the definitions of this crate. Each function does nothing, and its contract is the law.

ghost use Rattle.std.specs.Prelude.{◌≡◌, ℕ, ℤ, ◌<◌, ◌≤◌, List, length, Some};
ghost use Rattle.std.specs.List.{AllByRecursion};
ghost use Rattle.ff_frame.specs.Audio.{FitsBits};
ghost use Rattle.ff_flac_frame.specs.Frame.{subframe};
ghost use Rattle.ff_flac_dec.specs.Values.{channel_samples};
ghost use Rattle.ff_flac_subframe.specs.rice.Least.{least, IsFirstLeast};
ghost use Rattle.ff_flac_subframe.specs.laws.rice.Spells.{Reads};
ghost use Rattle.ff_flac_subframe.specs.Subframe.{Spelling, subframe_bits, candidates};
ghost use Rattle.ff_flac_subframe.specs.laws.Part.{part_for};
ghost use Rattle.ff_flac_subframe.specs.laws.Plan.{size};

/// Whichever candidate writes samples of this depth, a reader of the grammar takes its bits, whatever follows them, and gives
/// the subframe that was written.
pub fn subframes_are_read_back()
    ensures { (depth : ℕ) (xs : List ℤ) → 0 < depth → depth ≤ 25 → 0 < length xs → AllByRecursion (FitsBits depth) xs
        → AllByRecursion (λ s. Reads (subframe (length xs) depth) (subframe_bits depth xs s) (part_for xs s)) (candidates xs) }
{}

/// The subframe of each candidate stands for the samples.
pub fn subframes_stand_for_their_samples()
    ensures { (xs : List ℤ) → AllByRecursion (λ s. channel_samples (length xs) (part_for xs s) ≡ xs) (candidates xs) }
{}

/// The least of the candidates is the first of the shortest: those before it are longer, and those after it no shorter.
pub fn least_is_the_first_of_the_shortest()
    ensures { (depth : ℕ) (xs : List ℤ) (s : Spelling) → least (size depth xs) (candidates xs) ≡ Some s → IsFirstLeast (size depth xs) (candidates xs) s }
{}
