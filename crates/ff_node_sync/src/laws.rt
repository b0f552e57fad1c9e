//! Laws of the streams of one output, as those of a node: functions that do nothing, whose clauses hold of all
//! values.
ghost use Rattle.std.specs.Prelude.{◌≡◌, ◌≢◌, ◌<◌, ℕ, List, ◌∷◌, ◌++◌, None};
ghost use Rattle.ff_time.specs.Fraction.{Fraction};
ghost use Rattle.ff_frame.specs.declared.head.StreamHead.{StreamHead};
ghost use Rattle.ff_stream.specs.laws.Breaks.{KeepsBrokenRule};
ghost use Rattle.ff_stream.specs.declared.item.Item.{Item};
ghost use Rattle.ff_stream.specs.Ports.{stream_at};
ghost use Rattle.ff_stream.specs.Stream.{whole, whole_stream};
ghost use Rattle.ff_filter.specs.Joins.{Flow, Ports};
ghost use Rattle.ff_filter.specs.Views.{View};
ghost use Rattle.ff_node_filter.specs.Tasks.{IsLawful};
ghost use Rattle.ff_node_sync.specs.Lines.{IsShortest};
ghost use Rattle.ff_node_sync.specs.laws.Outlasting.{AreOutlasted, EndsBy};
ghost use Rattle.ff_node_sync.specs.Shortened.{shortened};
ghost use Rattle.ff_node_sync.specs.laws.Straights.{IsStraight};

/// Streams further on are shortened to streams further on, and whoever isn't told of breaks gets no less. Valid
/// streams are shortened to valid ones, and of unbroken streams none breaks. So a node of it has no fault.
pub fn shortened_streams_are_lawful()
    ensures { (heads : List StreamHead) (v : View) → IsShortest heads v → IsLawful v.ins v.outs v.rest (λ ss. None) }
{}

/// A stream closes whole before its first item that starts at or after the end of a whole stream, where each other
/// stream outlasts the starts of the items before that. So it closes whole whatever the others do: one of them may be
/// open or broken.
pub fn shortened_streams_end_with_the_shortest()
    ensures { (n : ℕ) (base : ℕ → Fraction) (ss : Ports) (p q : ℕ) (before after : List Item) (item : Item)
        → (ss p).items ≡ before ++ item ∷ after → AreOutlasted base ss n p before
        → q < n → q ≢ p → (ss q).mark ≡ whole → EndsBy base ss p item q → shortened n base ss p ≡ whole_stream before }
{}

/// Each stream keeps the broken rule. A broken input counts as open without a further item. The output is broken
/// exactly where it is broken off: it isn't whole, and however the inputs go on, it gets no further item and isn't made
/// whole.
pub fn shortened_streams_keep_the_broken_rule()
    ensures { (n : ℕ) (base : ℕ → Fraction) (p : ℕ)
        → KeepsBrokenRule (λ (ss : List Flow). Unit {0}) (λ (ss : List Flow). shortened n base (stream_at ss) p) }
{}

/// Streams that are given as they are go on, break off and are valid as they come: so a node of them has no fault.
pub fn straight_streams_are_lawful()
    ensures { (heads : List StreamHead) (v : View) → IsStraight heads v → IsLawful v.ins v.outs v.rest (λ ss. None) }
{}
