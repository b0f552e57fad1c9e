//! Laws of the filters' functions: functions that do nothing, whose clauses hold of all values.
ghost use Rattle.std.specs.Prelude.{◌≡◌, ℕ, ◌<◌, List, [], ◌∷◌, ◌++◌, Some, None};
ghost use Rattle.std.specs.List.{AllByRecursion};
ghost use Rattle.ff_time.specs.Fraction.{Fraction};
ghost use Rattle.ff_frame.specs.declared.head.Codec.{Codec};
ghost use Rattle.ff_frame.specs.declared.head.StreamHead.TheVariants.{Audio as AudioHead};
ghost use Rattle.ff_stream.specs.declared.item.Item.{Item};
ghost use Rattle.ff_stream.specs.declared.item.Lane.{Lane};
ghost use Rattle.ff_stream.specs.declared.item.Lane.TheVariants.{Frames};
ghost use Rattle.ff_stream.specs.laws.Breaks.{KeepsBrokenRule};
ghost use Rattle.ff_stream.specs.Lanes.{IsValid};
ghost use Rattle.ff_stream.specs.Ports.{stream_at};
ghost use Rattle.ff_stream.specs.Stream.{Mark, map_stream, whole_stream};
ghost use Rattle.ff_filter.specs.declared.range.Range.{Range};
ghost use Rattle.ff_filter.specs.Joins.{Flow};
ghost use Rattle.ff_filter.specs.Shifts.{shifted};
ghost use Rattle.ff_filter.specs.laws.Sound.{IsSound};
ghost use Rattle.ff_filter.specs.laws.spread.Valid.{GivesValid};
ghost use Rattle.ff_afilter.specs.Channels.{channel_item};
ghost use Rattle.ff_afilter.specs.laws.Ends.{EndsBefore, EndsFrom, kept_of_each};
ghost use Rattle.ff_afilter.specs.Trims.{sound_trimmed, sound_lasting};

/// Of a valid audio stream what lies within a range is in shape for the same way, with a duration and without one; an
/// unbroken one doesn't break off.
pub fn sound_kept_is_sound()
    ensures range { (tb : Fraction) (rate bits channels : ℕ) (codec : Codec) (range : Range)
        → IsSound (Frames (AudioHead tb rate bits channels codec)) (Frames (AudioHead tb rate bits channels codec)) (λ s. sound_trimmed range s) }
    ensures lasting { (tb : Fraction) (rate bits channels : ℕ) (codec : Codec) (range : Range) (ticks : ℕ)
        → IsSound (Frames (AudioHead tb rate bits channels codec)) (Frames (AudioHead tb rate bits channels codec)) (λ s. sound_lasting range ticks s) }
{}

/// What lies within a range closes whole with the first frame that ends at the stop or later, and nothing after that
/// frame counts. Where no frame does, and without a stop, it stands as the stream stands. A frame ends as many ticks
/// after its start as it has sample frames.
pub fn trimmed_audio_ends_at_the_stop()
    ensures closes { (range : Range) (stop : ℕ) (before after : List Item) (frame : Item) (m : Mark)
        → range.stop ≡ Some stop → AllByRecursion (EndsBefore stop) before → EndsFrom stop frame
        → sound_trimmed range (record { items = before ++ frame ∷ after; mark = m })
        ≡ whole_stream (kept_of_each range (before ++ frame ∷ [])) }
    ensures goes_on { (range : Range) (stop : ℕ) (s : Flow) → range.stop ≡ Some stop → AllByRecursion (EndsBefore stop) s.items
        → sound_trimmed range s ≡ record { items = kept_of_each range s.items; mark = s.mark } }
    ensures unstopped { (range : Range) (s : Flow) → range.stop ≡ None
        → sound_trimmed range s ≡ record { items = kept_of_each range s.items; mark = s.mark } }
{}

/// Each channel of a valid audio stream is a valid stream, so that no limit cuts it; that of an unbroken one doesn't break
/// off.
pub fn channels_are_valid()
    ensures { (tb : Fraction) (rate bits channels : ℕ) (codec : Codec) (q : ℕ) → q < channels
        → GivesValid (Frames (AudioHead tb rate bits channels codec)) (Frames (AudioHead tb rate bits 1 codec)) (λ s. map_stream (channel_item q) s) }
{}

/// The audio filters keep the broken rule. A broken input counts as open without a further item. The output is broken
/// exactly where it is broken off.
pub fn sound_keeps_the_broken_rule()
    ensures same { (lane : Lane)
        → KeepsBrokenRule (λ (ss : List Flow). IsValid lane (stream_at ss 0)) (λ (ss : List Flow). stream_at ss 0) }
    ensures shifted { (lane : Lane)
        → KeepsBrokenRule (λ (ss : List Flow). IsValid lane (stream_at ss 0)) (λ (ss : List Flow). shifted None (stream_at ss 0)) }
    ensures trimmed { (lane : Lane) (range : Range)
        → KeepsBrokenRule (λ (ss : List Flow). IsValid lane (stream_at ss 0)) (λ (ss : List Flow). sound_trimmed range (stream_at ss 0)) }
    ensures lasting { (lane : Lane) (range : Range) (ticks : ℕ)
        → KeepsBrokenRule (λ (ss : List Flow). IsValid lane (stream_at ss 0)) (λ (ss : List Flow). sound_lasting range ticks (stream_at ss 0)) }
    ensures channel { (lane : Lane) (q : ℕ)
        → KeepsBrokenRule (λ (ss : List Flow). IsValid lane (stream_at ss 0)) (λ (ss : List Flow). map_stream (channel_item q) (stream_at ss 0)) }
{}
