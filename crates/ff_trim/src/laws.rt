//! Laws of cuts: functions that do nothing, whose clauses hold of all values.
ghost use Rattle.std.specs.Prelude.{◌≡◌, ◌≤◌, ◌+◌, ◌++◌, ◌∷◌, ◌<◌, [], ℕ, Bool, false, List, Some, None, length, map};
ghost use Rattle.std.specs.List.{AllByRecursion};
ghost use Rattle.ff_time.specs.Fraction.{Fraction, IsBase};
ghost use Rattle.ff_frame.specs.Heads.{base_of_head};
ghost use Rattle.ff_stream.specs.Lanes.{IsValid};
ghost use Rattle.ff_time.specs.declared.cut.TimeCut.{TimeCut};
ghost use Rattle.ff_frame.specs.declared.head.Codec.{Codec};
ghost use Rattle.ff_frame.specs.declared.head.StreamHead.{StreamHead};
ghost use Rattle.ff_frame.specs.declared.head.StreamHead.TheVariants.{Audio as AudioHead};
ghost use Rattle.ff_stream.specs.declared.item.Item.{Item};
ghost use Rattle.ff_stream.specs.laws.Breaks.{KeepsBrokenRule};
ghost use Rattle.ff_stream.specs.declared.item.Lane.{Lane};
ghost use Rattle.ff_stream.specs.declared.item.Lane.TheVariants.{Frames};
ghost use Rattle.ff_stream.specs.Stream.{Mark, broken, LiesBelow, opened, whole_stream};
ghost use Rattle.ff_stream.specs.Ports.{IsClosed, stream_at};
ghost use Rattle.ff_filter.specs.Joins.{Flow, Ports};
ghost use Rattle.ff_node_filter.specs.Limiting.{IsLimited};
ghost use Rattle.ff_filter.specs.laws.spread.Valid.{GivesValid};
ghost use Rattle.ff_afilter.specs.laws.Ends.{EndsBefore, EndsFrom, kept_of_each};
ghost use Rattle.ff_filter.specs.Shifts.{earlier};
ghost use Rattle.ff_trim.specs.Cuts.{counted, cut, cut_each, from_range, is_empty, output_cut, range_in, start_in, ticks_at};
ghost use Rattle.ff_trim.specs.declared.counted.OutputCut.{OutputCut};
ghost use Rattle.ff_trim.specs.laws.Frames.{cut_step};
ghost use Rattle.ff_trim.specs.laws.Taps.{IsCutting};
ghost use Rattle.ff_filter.specs.laws.Runs.{run, no_more};
ghost use Rattle.ff_filter.specs.Views.{View};
ghost use Rattle.ff_filter.specs.declared.range.Range.{Range};
ghost use Rattle.ff_trim.specs.laws.Rules.{by_rule};

/// A stream further on is cut further on, and whoever isn't told of a break gets no less. Where a stream closes so
/// does its cut, and a cut is broken only where its stream is.
pub fn streams_further_on_are_cut_further_on()
    ensures below { (head : StreamHead) (c : TimeCut) (r s : Flow) → LiesBelow r s → LiesBelow (cut head c r) (cut head c s) }
    ensures calm { (head : StreamHead) (c : TimeCut) (r : Flow) → LiesBelow (opened (cut head c r)) (cut head c (opened r)) }
    ensures settles { (head : StreamHead) (c : TimeCut) (r : Flow) → IsClosed r → IsClosed (cut head c r) }
    ensures breaks { (head : StreamHead) (c : TimeCut) (r : Flow) → (cut head c r).mark ≡ broken → r.mark ≡ broken }
{}

/// A valid stream is cut to a valid one, which no limit shortens; an unbroken one doesn't break.
pub fn valid_streams_are_cut_to_valid_ones()
    ensures { (head : StreamHead) (c : TimeCut) → GivesValid (Frames head) (Frames head) (λ s. cut head c s) }
{}

/// A cut by number leaves so many frames and is whole with the last of them, however the stream goes on. Where the
/// stream has fewer, or no number is given, it stands as it came.
pub fn cuts_by_number_end_with_the_last_frame()
    ensures first { (n : ℕ) (before after : List Item) (m : Mark) → length before ≡ n
        → counted (Some n) (record { items = before ++ after; mark = m }) ≡ whole_stream before }
    ensures fewer { (n : ℕ) (s : Flow) → length s.items < n → counted (Some n) s ≡ s }
    ensures all { (s : Flow) → counted None s ≡ s }
{}

/// A stream of an output is cut in time and by number: further on where it is further on, closed where it closes,
/// broken only where it is, and valid where it is.
pub fn outputs_are_cut_as_their_streams_are()
    ensures below { (head : StreamHead) (c : OutputCut) (r s : Flow) → LiesBelow r s → LiesBelow (output_cut head c r) (output_cut head c s) }
    ensures calm { (head : StreamHead) (c : OutputCut) (r : Flow) → LiesBelow (opened (output_cut head c r)) (output_cut head c (opened r)) }
    ensures settles { (head : StreamHead) (c : OutputCut) (r : Flow) → IsClosed r → IsClosed (output_cut head c r) }
    ensures breaks { (head : StreamHead) (c : OutputCut) (r : Flow) → (output_cut head c r).mark ≡ broken → r.mark ≡ broken }
    ensures valid { (head : StreamHead) (c : OutputCut) → GivesValid (Frames head) (Frames head) (λ s. output_cut head c s) }
{}

/// A function within limits with a cut after each output is one within the same limits. Where an output breaks, so
/// does the function's, before the end of the cut.
pub fn cuts_keep_limits()
    ensures { (ins : List Lane) (heads : List StreamHead) (cs : List OutputCut) (f : Ports → Ports) (cuts : List Flow → Bool)
        → length cs ≡ length heads → IsLimited ins (map Frames heads) f cuts → IsLimited ins (map Frames heads) (cut_each heads cs f) cuts }
{}

/// Of a valid stream a cut whose length isn't 0 is what its rule says step by step. What lies from the start on is
/// kept, and the start is taken from all times. Then what lies below the length is kept, as a trim does it. A start
/// that isn't given is 0.
pub fn cuts_are_as_their_rule_says()
    ensures { (head : StreamHead) (c : TimeCut) (s : Flow) → IsBase (base_of_head head) → is_empty c.length ≡ false
        → IsValid (Frames head) s → cut head c s ≡ by_rule head c s }
{}

/// A filter within limits, to which nothing was done, is with cuts after its outputs within the same limits. So a
/// node of it has the fault `TooLong` only where one of its own outputs breaks.
pub fn filters_with_cuts_are_limited()
    ensures { (heads : List StreamHead) (cs : List OutputCut) (v w : View) (cuts : List Flow → Bool)
        → length cs ≡ length heads → v.outs ≡ map Frames heads → IsCutting heads cs v w
        → IsLimited v.ins v.outs v.rest cuts → IsLimited w.ins w.outs w.rest cuts }
{}

/// A cut goes through a stream frame by frame, and looks at no other frame. Of each at most one is left, and the
/// stream is whole with the first that ends it.
pub fn cuts_go_frame_by_frame()
    ensures { (head : StreamHead) (range : Range) (s : Flow) → from_range head range s ≡ run (cut_step head) no_more range s }
{}

/// A cut of audio with a length closes whole with the first frame that ends at the cut's end or later, and nothing
/// after that frame counts. Where no frame does, it stands as its stream stands. A frame ends as many ticks after its
/// start as it has sample frames.
pub fn cut_audio_ends_at_its_length()
    ensures closes { (tb : Fraction) (rate bits channels : ℕ) (codec : Codec) (c : TimeCut) (us : ℕ) (before after : List Item) (frame : Item) (m : Mark)
        → c.length ≡ Some us → 1 ≤ us → AllByRecursion (EndsBefore (start_in tb c + ticks_at tb us)) before → EndsFrom (start_in tb c + ticks_at tb us) frame
        → cut (AudioHead tb rate bits channels codec) c (record { items = before ++ frame ∷ after; mark = m })
        ≡ whole_stream (map (earlier (start_in tb c)) (kept_of_each (range_in tb c) (before ++ frame ∷ []))) }
    ensures goes_on { (tb : Fraction) (rate bits channels : ℕ) (codec : Codec) (c : TimeCut) (us : ℕ) (s : Flow)
        → c.length ≡ Some us → 1 ≤ us → AllByRecursion (EndsBefore (start_in tb c + ticks_at tb us)) s.items
        → cut (AudioHead tb rate bits channels codec) c s
        ≡ record { items = map (earlier (start_in tb c)) (kept_of_each (range_in tb c) s.items); mark = s.mark } }
{}

/// A cut keeps the broken rule. A broken input counts as open without a further item. The output is broken exactly
/// where it is broken off: it isn't whole, and however the input goes on, it gets no further item and isn't made whole.
pub fn cuts_keep_the_broken_rule()
    ensures in_time { (head : StreamHead) (c : TimeCut)
        → KeepsBrokenRule (λ (ss : List Flow). Unit {0}) (λ (ss : List Flow). cut head c (stream_at ss 0)) }
    ensures of_output { (head : StreamHead) (c : OutputCut)
        → KeepsBrokenRule (λ (ss : List Flow). Unit {0}) (λ (ss : List Flow). output_cut head c (stream_at ss 0)) }
{}
