//! Laws of segments one after another: functions that do nothing, whose clauses hold of all values.
ghost use Rattle.std.specs.Prelude.{◌≡◌, ◌<◌, ◌≤◌, ◌+◌, ◌*◌, ◌∷◌, [], min, length, map, take, slice_index, slice_index_or, ℕ, ℤ, List, pos};
ghost use Rattle.std.specs.Prelude.{Result, true, false};
ghost use Rattle.std.specs.List.{AllByRecursion};
ghost use Rattle.ff_time.specs.Fraction.{Fraction, IsBase};
ghost use Rattle.ff_frame.specs.Heads.{base_of_head};
ghost use Rattle.ff_frame.specs.declared.config.ConfigError.{ConfigError};
ghost use Rattle.ff_frame.specs.declared.head.StreamHead.{StreamHead};
ghost use Rattle.ff_stream.specs.declared.item.Lane.TheVariants.{Frames};
ghost use Rattle.ff_stream.specs.Lanes.{IsValid};
ghost use Rattle.ff_stream.specs.Ports.{IsUnbroken};
ghost use Rattle.ff_stream.specs.Within.{within, passes_limits};
ghost use Rattle.ff_lang.specs.declared.graph.Arg.{Arg};
ghost use Rattle.ff_filter.specs.Joins.{Ports, Grows, HidesBreaks};
ghost use Rattle.ff_filter.specs.Options.{AreRead, is_sound, is_video};
ghost use Rattle.ff_concat.specs.Concats.{begin_in, product, ticks_by, concatenated};
ghost use Rattle.ff_concat.specs.Arguments.{concat_manual, concat_start, asked, streams_of};
ghost use Rattle.ff_concat.specs.ConcatOptions.{AreAlike, IsConcat, are_of_kinds, start_view};
ghost use Rattle.ff_concat.specs.Configured.{concat_by};
ghost use Rattle.ff_concat.specs.Heads.{all_alike};
ghost use Rattle.ff_concat.specs.Pads.{inputs_of, takes_audio};
ghost use Rattle.ff_concat.specs.declared.settings.ConcatSettings.{ConcatSettings};
ghost use Rattle.ff_stream.specs.laws.Breaks.{KeepsBrokenRule};
ghost use Rattle.ff_concat.specs.laws.Breaks.{AreSo, output_at, HasRoom, KeepsBrokenRuleIn};
ghost use Rattle.ff_concat.specs.laws.Fed.{CanFollow, AreFed};
ghost use Rattle.ff_concat.specs.laws.OneKind.{one_by_one};
ghost use Rattle.ff_concat.specs.laws.StartLaws.{start_free};
ghost use Rattle.ff_concat.specs.Tails.{Tail, latest};
ghost use Rattle.ff_frame.specs.declared.video.VFrame.{VFrame};
ghost use Rattle.ff_concat.specs.laws.Examples.{video_of, audio_of, all_of, picture_at, sound_at};

/// Two segments of two pictures each, with 400 sample frames beside them. The pictures follow one another. The sound
/// is filled up to the second segment with 240 zeros.
pub fn short_sound_is_filled()
    ensures video { (f g : VFrame) (sample : ℤ) → video_of f g sample 400
        ≡ all_of (picture_at f 0 ∷ picture_at g 1 ∷ picture_at f 2 ∷ picture_at g 3 ∷ []) }
    ensures audio { (f g : VFrame) (sample : ℤ) → audio_of f g sample 400
        ≡ all_of (sound_at sample 0 400 ∷ sound_at (pos 0) 400 240 ∷ sound_at sample 640 400 ∷ []) }
{}

/// The same with 800 sample frames. The second segment begins two and a half pictures after the first, so its pictures
/// begin at the third tick. The sound goes on without a gap.
pub fn long_sound_delays_pictures()
    ensures video { (f g : VFrame) (sample : ℤ) → video_of f g sample 800
        ≡ all_of (picture_at f 0 ∷ picture_at g 1 ∷ picture_at f 3 ∷ picture_at g 4 ∷ []) }
    ensures audio { (f g : VFrame) (sample : ℤ) → audio_of f g sample 800
        ≡ all_of (sound_at sample 0 800 ∷ sound_at sample 800 800 ∷ []) }
{}

/// With one stream a segment, each segment follows the end of the last item before it. That is so for valid segments
/// within the limits.
pub fn one_kind_follows_the_last_end()
    ensures { (h : StreamHead) (n : ℕ) (ss : Ports) → IsBase (base_of_head h) → ((p : ℕ) → p < n → IsValid (Frames h) (ss p))
        → within (passes_limits (Frames h)) (concatenated (h ∷ []) h 0 n ss) ≡ within (passes_limits (Frames h)) (one_by_one n 0 0 ss) }
{}

/// Where no input breaks off, neither does an output.
pub fn unbroken_inputs_make_no_break()
    ensures { (heads : List StreamHead) (head : StreamHead) (q n : ℕ) (ss : Ports) → ((p : ℕ) → IsUnbroken (ss p)) → IsUnbroken (concatenated heads head q n ss) }
{}

/// What `concat` gives only grows with what comes. Whoever isn't told of the breaks of its inputs gets no less.
pub fn outputs_only_grow()
    ensures grows { (m : List StreamHead × ℕ) → Grows (start_view m).rest }
    ensures hides { (m : List StreamHead × ℕ) → HidesBreaks (start_view m).rest }
{}

/// Each output is its segments one after another, up to the limits of its stream. Free of limits, none breaks off where
/// no input does.
pub fn only_limits_cut()
    ensures cut { (heads : List StreamHead) (n q : ℕ) (d : StreamHead) (ss : Ports) → q < length heads → (start_view (heads, n)).rest ss q
        ≡ within (passes_limits (Frames (slice_index_or heads q d))) (start_free (heads, n) ss q) }
    ensures unbroken { (m : List StreamHead × ℕ) (ss : Ports) → ((p : ℕ) → IsUnbroken (ss p)) → (q : ℕ) → IsUnbroken (start_free m ss q) }
    ensures free { (heads : List StreamHead) (n q : ℕ) (d : StreamHead) (ss : Ports) → q < length heads
        → start_free (heads, n) ss q ≡ concatenated heads (slice_index_or heads q d) q n ss }
{}

/// The lanes of the inputs are those of all heads, where the heads of each segment are the same.
pub fn inputs_are_all_heads()
    ensures { (n w : ℕ) (heads : List StreamHead) → AreAlike w heads → length heads ≡ n * w
        → (start_view (take w heads, n)).ins ≡ map Frames heads }
{}

/// What the arguments ask for has 2 to 16 segments, at most 16 inputs, and one stream or two a segment.
pub fn few_inputs_are_asked_for()
    ensures segments { (args : List Arg) → (2 ≤ (asked args).segments) × ((asked args).segments ≤ 16) }
    ensures inputs { (args : List Arg) → inputs_of (asked args) ≤ 16 }
    ensures streams { (args : List Arg) → (1 ≤ streams_of (asked args)) × (streams_of (asked args) ≤ 2) }
    ensures kinds { (args : List Arg) (heads : List StreamHead) (p : ℕ) (d : StreamHead) → are_of_kinds (asked args) heads ≡ true → p < length heads
        → is_sound (slice_index_or heads p d) ≡ takes_audio (asked args) p }
{}

/// What `concat` is by its arguments and heads, is what a function says. `read` is how the arguments are read.
pub fn answers_are_a_function()
    ensures is { (args : List Arg) (heads : List StreamHead) (read : Result ConcatSettings ConfigError) (r : Result (List StreamHead × ℕ) ConfigError)
        → ((q : Result ConcatSettings ConfigError) → AreRead concat_manual false 0 (concat_start args) args q → read ≡ q) → IsConcat args heads r
        → concat_by read args heads ≡ r }
    ensures alike { (w : ℕ) (heads : List StreamHead) → all_alike w heads ≡ true → AreAlike w heads }
    ensures unlike { (w : ℕ) (heads : List StreamHead) → all_alike w heads ≡ false → AreAlike w heads → ⊥ }
{}

/// Of valid inputs each output is valid. The time bases have to be some, and audio has to be such that it may be zeros.
pub fn valid_inputs_make_valid_outputs()
    ensures { (heads : List StreamHead) (n q : ℕ) (d : StreamHead) (ss : Ports) → AllByRecursion CanFollow heads → AreFed heads n ss → q < length heads
        → IsValid (Frames (slice_index_or heads q d)) ((start_view (heads, n)).rest ss q) }
{}

/// Segments keep the broken rule. A broken input counts as open without a further item. An output is broken exactly
/// where an input is, it isn't whole, and no continuation of the inputs adds an item or makes it whole. Of audio that is
/// said where each segment ends before the last time of 64 bits, since no zeros can come behind that.
pub fn segments_keep_the_broken_rule()
    ensures video { (heads : List StreamHead) (head : StreamHead) (q n : ℕ) → AllByRecursion (λ h. IsBase (base_of_head h)) heads
        → q < length heads → is_video head ≡ true → KeepsBrokenRule (AreSo (n * length heads)) (output_at heads head q n) }
    ensures audio { (heads : List StreamHead) (head : StreamHead) (q n : ℕ) → AllByRecursion (λ h. IsBase (base_of_head h)) heads
        → q < length heads → is_video head ≡ false
        → KeepsBrokenRuleIn (HasRoom heads head q n) (AreSo (n * length heads)) (output_at heads head q n) }
{}

/// No stream of a segment ends later than the segment. So on its output it ends no later than the next segment begins,
/// up to the last time of 64 bits.
pub fn segments_meet_without_overlap()
    ensures inside { (tick_list : List ℕ) (w p : ℕ) (tails : ℕ → Tail) (q : ℕ) → q < w → (tails (p + q)).end * slice_index tick_list q ≤ latest tick_list w p tails }
    ensures apart { (tick time long end : ℕ) → 0 < tick → end * tick ≤ long
        → min (begin_in tick time + end) 9223372036854775807 ≤ begin_in tick (time + long) }
{}

/// A tick of each stream is its time base: so many units, where the product of all denominators is a second.
pub fn units_are_exact()
    ensures { (bases : List Fraction) (q : ℕ) (d : Fraction) → q < length bases
        → slice_index (ticks_by 1 bases) q * (slice_index_or bases q d).den ≡ (slice_index_or bases q d).num * (1 * product bases) }
{}
