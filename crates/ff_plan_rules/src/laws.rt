//! Laws of the rules: functions that do nothing, whose clauses hold of all values.
ghost use Rattle.std.specs.Prelude.{◌≡◌, ◌↔◌, ℕ, ◌^◌, ◌<◌, ◌≤◌, List, Option, Some, Ok, Err, length, map};
ghost use Rattle.ff_frame.specs.declared.head.StreamHead.{StreamHead};
ghost use Rattle.ff_lang.specs.declared.graph.Graph.{Graph as Text};
ghost use Rattle.ff_graph_links.specs.labels.Labels.{filters_of};
ghost use Rattle.ff_words.specs.maps.Grammar.{IsMap};
ghost use Rattle.ff_words.specs.declared.maps.map.MapSpec.{MapSpec};
ghost use Rattle.ff_plan_layout.specs.laws.Graphs.{AreRules};
ghost use Rattle.ff_plan_layout.specs.declared.open_pads.OpenOut.{OpenOut};
ghost use Rattle.ff_plan_layout.specs.declared.open_pads.Refused.{Refused};
ghost use Rattle.ff_plan_rules.specs.Kept.{AreFitHeads, KeepHeads};
ghost use Rattle.ff_plan_rules.specs.Maps.{map_of};
ghost use Rattle.ff_plan_rules.specs.Rules.{graph_rules, open_ins, configured};

/// The function that reads maps reads all of them, and nothing else.
pub fn maps_are_read()
    ensures { (text : List ℕ) (map : MapSpec) → (map_of text ≡ Some map) ↔ IsMap text map }
{}

/// The rules are such as the laws of plans need. Where a graph can be had, each of its open input pads has a stream.
/// The labels that it takes and gives stand at its open pads.
pub fn rules_are_rules()
    ensures { AreRules graph_rules }
{}

/// A graph that can be had has few open input pads, and what streams need to be coded and written its filters keep.
pub fn heads_are_kept()
    ensures { KeepHeads graph_rules }
{}

/// Take a graph of as many filters as an argument of a command can write. Where its heads are fit, it has no more
/// open pads than the code can give. A filter that is refused has a number of few bits.
pub fn words_have_few_pads()
    ensures inputs { (g : Text) → length (filters_of g) ≤ 65536 → length (open_ins g) ≤ 2 ^ 20 }
    ensures outputs { (g : Text) (heads : List StreamHead) (outs : List OpenOut) → length (filters_of g) ≤ 65536 → AreFitHeads heads
        → configured g (map (λ (h : StreamHead). Some h) heads) ≡ Ok outs → length outs ≤ 2 ^ 20 }
    ensures number { (g : Text) (heads : List (Option StreamHead)) (r : Refused) → length (filters_of g) ≤ 65536
        → configured g heads ≡ Err r → r.filter < 65536 }
{}
