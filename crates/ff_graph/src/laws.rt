//! Laws of what a graph is: functions that do nothing, whose clauses hold of all values.
ghost use Rattle.std.specs.Prelude.{◌≡◌, ◌≢◌, ◌<◌, List, Option, None, Some, Ok, Err, [], ◌∷◌, length, replicate};
ghost use Rattle.ff_frame.specs.declared.config.ConfigError.TheVariants as fault;
ghost use Rattle.ff_frame.specs.declared.head.StreamHead.{StreamHead};
ghost use Rattle.ff_lang.specs.declared.graph.Graph.{Graph as Text};
ghost use Rattle.ff_graph.specs.Configured.{Refused, configured};
ghost use Rattle.ff_graph.specs.Drawings.{seen_graph};
ghost use Rattle.ff_graph.specs.laws.Examples.{picture, out, two_beside, apart, surplus, crowded};

/// The filter that is refused is one of the graph, and it isn't refused for want of memory.
pub fn refusals_are_of_filters()
    ensures there { (g : Text) (given : List (Option StreamHead)) (r : Refused) → configured g given ≡ Err r → r.filter < length (seen_graph g) }
    ensures memory { (g : Text) (given : List (Option StreamHead)) (r : Refused) → configured g given ≡ Err r → r.kind ≢ fault.NoMemory }
{}

/// Four graphs: two videos beside one another, and one video that goes two ways, each of which is open at its end.
/// Then one label too many, and a filter that has the graph's 17th open input pad.
pub fn graphs_by_example()
    ensures stacked { configured two_beside (Some (picture 2) ∷ Some (picture 4) ∷ []) ≡ Ok (out 0 0 None (picture 6) ∷ []) }
    ensures unlike { configured two_beside (Some (picture 2) ∷ None ∷ []) ≡ Err (record { filter = 0; kind = fault.Pads }) }
    ensures parted { configured apart (Some (picture 2) ∷ []) ≡ Ok (out 1 0 None (picture 2) ∷ out 2 0 None (picture 2) ∷ []) }
    ensures surplus { configured surplus (Some (picture 2) ∷ []) ≡ Err (record { filter = 0; kind = fault.Pads }) }
    ensures crowded { configured crowded (replicate 17 (Some (picture 2))) ≡ Err (record { filter = 1; kind = fault.Pads }) }
{}
