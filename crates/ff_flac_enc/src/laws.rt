//! Laws of the definitions of this crate. Each function does nothing, and its contract is the law.

ghost use Rattle.std.specs.Prelude.{◌≡◌, ◌^◌, ◌<◌, ℕ, List, length, Some};
ghost use Rattle.ff_frame.specs.declared.audio.AFrame.{AFrame};
ghost use Rattle.ff_flac_subframe.specs.rice.Least.{least, IsFirstLeast};
ghost use Rattle.ff_flac_enc.specs.Layout.{Layout};
ghost use Rattle.ff_flac_enc.specs.Frame.{IsBlock, IsLeast, candidates, subframe_bits_of};

/// The least of the candidates is the first of the shortest: those before it have more subframe bits, and those after it
/// no fewer.
pub fn least_is_the_first_of_the_shortest()
    ensures { (a : AFrame) (y : Layout) → least (subframe_bits_of a) (candidates a) ≡ Some y → IsFirstLeast (subframe_bits_of a) (candidates a) y }
{}

/// The frame of a block has fewer than 2^24 bytes, so that the stream's header can tell its size.
pub fn frames_of_blocks_are_short()
    ensures { (a : AFrame) (number : ℕ) (bytes : List ℕ) → IsBlock a → number < 2 ^ 31 → IsLeast a number bytes → length bytes < 2 ^ 24 }
{}
