//! Laws of the calls' definitions. Each is a function that does nothing: its clauses hold of all values.
ghost use Rattle.std.specs.Prelude.{◌≡◌, ℕ, List};
ghost use Rattle.ff_words.specs.maps.Grammar.{IsMap, IsBadAt};
ghost use Rattle.ff_words.specs.declared.maps.map.MapSpec.{MapSpec};

/// A string is at most one map, and is refused at most at one place.
pub fn maps_have_one_meaning()
    ensures map { (text : List ℕ) (map other : MapSpec) → IsMap text map → IsMap text other → map ≡ other }
    ensures place { (text : List ℕ) (at other : ℕ) → IsBadAt text at → IsBadAt text other → at ≡ other }
{}
