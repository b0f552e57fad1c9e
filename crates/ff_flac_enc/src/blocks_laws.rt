//! Laws of the definitions of blocks. Each function does nothing, and its contract is the law.

ghost use Rattle.std.specs.Prelude.{◌≡◌, ◌≤◌, ℕ, List, [], ◌∷◌, ◌++◌, true, false, Bool, map, ℤ};
ghost use mathlib.Core.List.{IsPrefix};
ghost use Rattle.ff_time.specs.Fraction.{IsBase};
ghost use Rattle.ff_frame.specs.declared.audio.AFrame.{AFrame};
ghost use Rattle.ff_frame.specs.declared.head.StreamHead.{StreamHead};
ghost use Rattle.ff_stream.specs.declared.item.Item.TheVariants.{Audio};
ghost use Rattle.ff_stream.specs.declared.item.Lane.TheVariants.{Frames};
ghost use Rattle.ff_frame.specs.Audio.{IsAudio};
ghost use Rattle.ff_frame.specs.Heads.{base_of_head};
ghost use Rattle.ff_stream.specs.Lanes.{IsValid};
ghost use Rattle.ff_stream.specs.Stream.{Mark};
ghost use Rattle.ff_flac_enc.specs.declared.blocks.Blocks.{Blocks};
ghost use Rattle.ff_flac_enc.specs.Gathered.{EndInTime, all_samples, blocks_due, changed};
ghost use Rattle.ff_flac_enc.specs.laws.Cuts.{Cuts, IsLike, format_in};

/// Whatever keeps the stream of the frames fed valid for a lane of frames can be fed, and their samples end in time.
pub fn frames_of_a_valid_stream_can_be_fed()
    ensures { (blocks : Blocks) (fed : List AFrame) (n : ℕ) (frame : AFrame) (head : StreamHead) (mark : Mark) → Cuts blocks fed n → IsBase (base_of_head head)
        → IsValid (Frames head) (record { items = map Audio (fed ++ frame ∷ []); mark = mark })
        → IsAudio frame.bits frame.channels frame.samples × IsLike (format_in blocks) frame × EndInTime (fed ++ frame ∷ []) }
{}

/// The blocks of all frames have the samples of the frames, in order.
pub fn blocks_have_all_samples()
    ensures { (f : AFrame) (fs : List AFrame) → 1 ≤ f.channels → all_samples (blocks_due true (f ∷ fs)) ≡ all_samples (f ∷ fs) }
{}

/// The blocks that are due stay the first, whatever comes.
pub fn blocks_stay()
    ensures { (f : AFrame) (fs more : List AFrame) (ended : Bool) → 1 ≤ f.channels → IsPrefix (blocks_due false (f ∷ fs)) (blocks_due ended ((f ∷ fs) ++ more)) }
{}

/// Frames whose samples were changed one by one, as to another depth, have the blocks changed so.
pub fn blocks_of_changed_samples()
    ensures { (bits : ℕ) (h : ℤ → ℤ) (ended : Bool) (fed : List AFrame) → blocks_due ended (map (changed bits h) fed) ≡ map (changed bits h) (blocks_due ended fed) }
{}
