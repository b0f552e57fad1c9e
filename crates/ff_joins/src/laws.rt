//! Laws of the filters' functions: functions that do nothing, whose clauses hold of all values.
ghost use Rattle.std.specs.Prelude.{◌≡◌, ◌<◌, ◌≤◌, ℕ, suc, ℤ, List, [], ◌∷◌, get_or, length, Ok, true};
ghost use Rattle.ff_time.specs.Fraction.{Fraction};
ghost use Rattle.ff_frame.specs.declared.head.Codec.{Codec};
ghost use Rattle.ff_frame.specs.declared.head.StreamHead.{StreamHead};
ghost use Rattle.ff_frame.specs.declared.head.StreamHead.TheVariants.{Audio as AudioHead};
ghost use Rattle.ff_stream.specs.declared.item.Lane.TheVariants.{Frames};
ghost use Rattle.ff_stream.specs.laws.Breaks.{KeepsBrokenRule};
ghost use Rattle.ff_stream.specs.Lanes.{AreInShape, IsValid};
ghost use Rattle.ff_stream.specs.Within.{within, passes_limits};
ghost use Rattle.ff_filter.specs.Options.{is_sound};
ghost use Rattle.ff_joins.specs.Arguments.{each_head};
ghost use Rattle.ff_joins.specs.JoinOptions.{rate_of, bits_of, channels_of, AreAlike};
ghost use Rattle.ff_joins.specs.laws.JoinShapes.{channels_to};
ghost use Rattle.ff_joins.specs.JoinView.{channels_at};
ghost use Rattle.ff_joins.specs.laws.JoinExamples.{sound_at, two_whole, one_channel, all_sound};
ghost use Rattle.ff_joins.specs.Joined.{side_to_side};
ghost use Rattle.ff_joins.specs.laws.JoinRule.{AreMany, joined_list};
ghost use Rattle.ff_stream.specs.Ports.{IsUnbroken};
ghost use Rattle.ff_stream.specs.Stream.{LiesBelow};
ghost use Rattle.ff_filter.specs.Joins.{Ports};

/// Where no input breaks off, neither do audio streams side by side.
pub fn unbroken_inputs_make_no_break()
    ensures { (n : ℕ) (channels : ℕ → ℕ) (rate bits all : ℕ) (ss : Ports) → ((p : ℕ) → IsUnbroken (ss p))
        → IsUnbroken (side_to_side n channels rate bits all ss) }
{}

/// Take valid audio streams of one rate and one size of samples, with at most 8 channels in all. Their frames side by
/// side are in shape for a head of these. So within its limits the output of `join` is valid for the head that it is
/// given.
pub fn valid_streams_make_valid_ones()
    ensures shape { (n : ℕ) (channels : ℕ → ℕ) (tbs : ℕ → Fraction) (codecs : ℕ → Codec) (rate bits all : ℕ) (tb : Fraction) (codec : Codec) (ss : Ports)
        → ((p : ℕ) → p < suc n → IsValid (Frames (AudioHead (tbs p) rate bits (channels p) (codecs p))) (ss p))
        → channels_to channels (suc n) ≡ all → all ≤ 8
        → AreInShape (Frames (AudioHead tb rate bits all codec)) (side_to_side n channels rate bits all ss).items }
    ensures sound { (h : StreamHead) (hs : List StreamHead) (head : StreamHead) (ss : Ports)
        → each_head is_sound (h ∷ hs) ≡ true → AreAlike (h ∷ hs) (Ok head)
        → ((p : ℕ) → p < length (h ∷ hs) → IsValid (Frames (get_or (h ∷ hs) p h)) (ss p))
        → IsValid (Frames head) (within (passes_limits (Frames head))
        (side_to_side (length hs) (channels_at (h ∷ hs)) (rate_of head) (bits_of head) (channels_of head) ss)) }
{}

/// Audio streams side by side: streams further on give streams further on.
pub fn sound_further_on_is_joined_further_on()
    ensures { (n : ℕ) (channels : ℕ → ℕ) (rate bits all : ℕ) (ss ts : Ports) → ((p : ℕ) → LiesBelow (ss p) (ts p))
        → LiesBelow (side_to_side n channels rate bits all ss) (side_to_side n channels rate bits all ts) }
{}

/// Audio streams side by side keep the broken rule.
pub fn joined_sound_keeps_the_broken_rule()
    ensures { (n : ℕ) (channels : ℕ → ℕ) (rate bits all : ℕ)
        → KeepsBrokenRule (AreMany n channels rate bits all) (joined_list n channels rate bits all) }
{}

/// Two streams of one channel, of 2 and of 3 samples, both whole, stand side by side. The result is one frame of 2
/// sample frames of two channels, from the start of the first.
pub fn two_channels_stand_side_by_side()
    ensures { (a b x y z : ℤ) → side_to_side 1 one_channel 48000 16 2 (two_whole (sound_at 5 1 (a ∷ b ∷ [])) (sound_at 0 1 (x ∷ y ∷ z ∷ [])))
        ≡ all_sound (sound_at 5 2 (a ∷ x ∷ b ∷ y ∷ [])) }
{}
