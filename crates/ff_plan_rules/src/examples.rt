//! Maps and a graph by example, by computation.
ghost use Rattle.std.specs.Prelude.{◌≡◌, true, false, [], ◌∷◌, codes, Some, None, Ok, Err};
ghost use Rattle.ff_frame.specs.declared.config.ConfigError.TheVariants.{BadOption, Pads};
ghost use Rattle.ff_words.specs.declared.maps.map.Kind.TheVariants as kind;
ghost use Rattle.ff_words.specs.declared.maps.map.Pick.TheVariants as pick;
ghost use Rattle.ff_plan_rules.specs.laws.Examples.{of_input, of_label, pictures, alone};
ghost use Rattle.ff_plan_rules.specs.Rules.{graph_rules};

/// Strings and the maps that they are.
pub fn some_maps()
    ensures second { graph_rules.map_of (codes "0:v:1?") ≡ Some (of_input 0 (pick.Nth kind.Video 1) true) }
    ensures label { graph_rules.map_of (codes "[x]") ≡ Some (of_label (codes "x")) }
    ensures other { graph_rules.map_of (codes "0:x") ≡ None }
{}

/// Video side by side, and video of which one has no stream.
pub fn two_pictures()
    ensures inputs { graph_rules.open_ins (alone (codes "hstack"))
        ≡ record { label = None; kind = kind.Video; source = None } ∷ record { label = None; kind = kind.Video; source = None } ∷ [] }
    ensures stacked { graph_rules.configured (alone (codes "hstack")) (Some (pictures 2) ∷ Some (pictures 4) ∷ [])
        ≡ Ok (record { label = None; head = pictures 6 } ∷ []) }
    ensures missing { graph_rules.configured (alone (codes "hstack")) (Some (pictures 2) ∷ None ∷ []) ≡ Err (record { filter = 0; kind = Pads }) }
{}

/// `color` without a duration: what stands at its input pad, and why it is refused.
pub fn color_without_duration()
    ensures input { graph_rules.open_ins (alone (codes "color"))
        ≡ record { label = None; kind = kind.Video; source = Some (record { filter = 0; made = None }) } ∷ [] }
    ensures fault { graph_rules.source_fault (alone (codes "color")) ≡ Some (record { filter = 0; kind = BadOption }) }
{}
