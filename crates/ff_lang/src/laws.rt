//! A law of the calls' definitions: a function that does nothing, whose clauses hold of all values.
ghost use Rattle.std.specs.Prelude.{◌≡◌, ℕ, List};
ghost use Rattle.ff_lang.specs.Grammar.{IsGraph, IsBadAt};
ghost use Rattle.ff_lang.specs.declared.graph.Graph.{Graph};

/// A string is at most one filtergraph, and is refused at most at one place.
pub fn graphs_have_one_meaning()
    ensures graph { (text : List ℕ) (graph other : Graph) → IsGraph text graph → IsGraph text other
        → graph ≡ other }
    ensures place { (text : List ℕ) (at other : ℕ) → IsBadAt text at → IsBadAt text other
        → at ≡ other }
{}
