//! Laws of the best input, and worked examples.
ghost use Rattle.std.specs.Prelude.{◌≡◌, ◌≤◌, ℕ, List, [], ◌∷◌, All, length};
ghost use mathlib.Core.List.{IsPrefix};
ghost use Rattle.ff_time.specs.Fraction.{Fraction, IsBase};
ghost use Rattle.ff_frame.specs.declared.event.Event.TheVariants.{Best};
ghost use Rattle.ff_net.specs.Ways.{Flow};
ghost use Rattle.ff_net.specs.Pasts.{Feed};
ghost use Rattle.ff_node_filter.specs.best.Bests.{best_of, best_after, best_events};
ghost use Rattle.ff_node_filter.specs.laws.best.Examples.{parts_of_a_second, two_bases, three_bases, up_to_a_tie, up_to_the_end, one_each, ends, shows};
ghost use Rattle.ff_node_filter.specs.laws.best.Laws.{IsOpen, IsFirst, IsBestOf, AreTurns, last_named};

/// Where an input hasn't closed, the best one is the first of those that haven't. None of them ends before it, and
/// each of a lower number ends after it. There is one such input. Where all have closed the best one stays.
pub fn the_best_input_is_the_first()
    ensures first { (bases : List Fraction) (ss : List Flow) (was p : ℕ) → All IsBase bases → IsOpen bases ss p → IsFirst bases ss (best_of bases ss was) }
    ensures one { (bases : List Fraction) (ss : List Flow) (i j : ℕ) → IsFirst bases ss i → IsFirst bases ss j → i ≡ j }
    ensures stays { (bases : List Fraction) (ss : List Flow) (was : ℕ) → ((p : ℕ) → IsOpen bases ss p → ⊥) → best_of bases ss was ≡ was }
{}

/// The events of a longer list of feeds begin with those of a shorter one. Each event names one of the graph's inputs
/// as its best one, and another than the one before it. The first names another than input 0. The last one names what
/// is the best input then. There are no more events than feeds.
pub fn events_of_the_best_input()
    ensures front { (graph : ℕ) (bases : List Fraction) (fs gs : List Feed) → IsPrefix fs gs → IsPrefix (best_events graph bases fs) (best_events graph bases gs) }
    ensures named { (graph : ℕ) (bases : List Fraction) (fs : List Feed) → All (IsBestOf graph (length bases)) (best_events graph bases fs) }
    ensures turns { (graph : ℕ) (bases : List Fraction) (fs : List Feed) → AreTurns 0 (best_events graph bases fs) }
    ensures few { (graph : ℕ) (bases : List Fraction) (fs : List Feed) → length (best_events graph bases fs) ≤ length fs }
    ensures last { (graph : ℕ) (bases : List Fraction) (fs : List Feed) → last_named 0 (best_events graph bases fs) ≡ best_after bases fs }
{}

/// Two inputs over two time bases, to a tie and to the end of both. Then three inputs of which each is fed once, and
/// one input alone.
pub fn best_inputs_worked_out()
    ensures tie { best_events 3 two_bases up_to_a_tie ≡ Best 3 1 ∷ Best 3 0 ∷ [] }
    ensures end { best_events 3 two_bases up_to_the_end ≡ Best 3 1 ∷ Best 3 0 ∷ Best 3 1 ∷ [] }
    ensures three { best_events 0 three_bases one_each ≡ Best 0 1 ∷ Best 0 2 ∷ [] }
    ensures alone { best_events 0 (parts_of_a_second 25 ∷ []) (shows 0 0 1 ∷ ends 0 ∷ []) ≡ [] }
{}
