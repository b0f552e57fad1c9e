//! Laws of the functions that filters have: a function that does nothing, whose clauses hold of all values.
ghost use Rattle.std.specs.Prelude.{ℕ, ◌<◌, List, [], ◌∷◌, replicate, false};
ghost use Rattle.ff_frame.specs.declared.head.StreamHead.{StreamHead};
ghost use Rattle.ff_stream.specs.declared.item.Item.{Item};
ghost use Rattle.ff_stream.specs.declared.item.Lane.{Lane};
ghost use Rattle.ff_stream.specs.declared.item.Lane.TheVariants.{Frames};
ghost use Rattle.ff_stream.specs.Ports.{stream_at};
ghost use Rattle.ff_stream.specs.Stream.{LiesBelow, opened, map_stream};
ghost use Rattle.ff_stream.specs.Within.{some_pass, passes_limits};
ghost use Rattle.ff_filter.specs.declared.after.After.TheVariants.{More, Whole};
ghost use Rattle.ff_filter.specs.Joins.{Flow};
ghost use Rattle.ff_filter.specs.Singles.{single_view};
ghost use Rattle.ff_filter.specs.laws.Sound.{IsSound};
ghost use Rattle.ff_filter.specs.spread.Spreads.{spread_start};
ghost use Rattle.ff_filter.specs.laws.spread.Valid.{GivesValid};
ghost use Rattle.ff_node_filter.specs.Limiting.{IsLimited};

/// A filter of one input and one output whose function is monotone and calm is a function within limits. Of valid
/// streams it has to give items in shape. A limit cuts it where an item passes one. A filter whose output ends at
/// once is such a function too. A filter of several outputs that gives valid streams of valid ones is one that no
/// limit cuts.
pub fn filters_are_limited()
    ensures single { (lane_in : Lane) (head : StreamHead) (f : Flow → Flow)
        → ((r s : Flow) → LiesBelow r s → LiesBelow (f r) (f s))
        → ((r : Flow) → LiesBelow (opened (f r)) (f (opened r)))
        → IsSound lane_in (Frames head) f
        → IsLimited (lane_in ∷ []) (Frames head ∷ []) (single_view lane_in head f More).rest
        (λ (ss : List Flow). some_pass (passes_limits (Frames head)) 0 (f (stream_at ss 0)).items) }
    ensures at_once { (lane_in : Lane) (head : StreamHead) (f : Flow → Flow)
        → IsLimited (lane_in ∷ []) (Frames head ∷ []) (single_view lane_in head f Whole).rest (λ (ss : List Flow). false) }
    ensures several { (lane_in lane_out : Lane) (n : ℕ) (shared : ℕ → Item → Item)
        → ((q : ℕ) → q < n → GivesValid lane_in lane_out (λ s. map_stream (shared q) s))
        → IsLimited (lane_in ∷ []) (replicate n lane_out) (spread_start lane_in (replicate n lane_out) shared).rest
        (λ (ss : List Flow). false) }
{}
