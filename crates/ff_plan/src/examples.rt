//! Plans of some commands, by computation.
ghost use Rattle.std.specs.Prelude.{◌≡◌, true, false, [], ◌∷◌, codes, Some, None, Ok, Err};
ghost use Rattle.ff_time.specs.Fraction.{Fraction};
ghost use Rattle.ff_format.specs.declared.format.FileFormat.TheVariants as format;
ghost use Rattle.ff_words.specs.declared.maps.map.Kind.TheVariants as kind;
ghost use Rattle.ff_plan_layout.specs.declared.error.PlanError.TheVariants as fault;
ghost use Rattle.ff_plan.specs.laws.Examples.{example_rules, example_job, sound, pictures, map_in, map_nth, map_label, pictures_plan, two_plan};
ghost use Rattle.ff_plan.specs.laws.Examples.{trim_graph, trimmed_plan, turned_graph, turned_plan, null_between, labelled_rules, turned_graphs, turned_graphs_plan};
ghost use Rattle.ff_plan.specs.laws.Examples.{unlabelled_plan, automatic_plan, twice_plan, color_made, color_rules, color_graph, color_plan, sounded_plan};
ghost use Rattle.ff_plan.specs.Planned.{planned};
ghost use Rattle.ff_time.specs.declared.cut.TimeCut.{TimeCut};

/// A stream that isn't there is refused, and isn't missed where the map ends in `?`.
pub fn missing_stream()
    ensures refused { (c : TimeCut) (t : Fraction)
        → planned (example_rules None None kind.Video (pictures t)) (example_job c [] format.Y4m (map_nth 1 false ∷ [])) ((pictures t ∷ []) ∷ [])
        ≡ Err (fault.NoStream 0 0) }
    ensures optional { (c : TimeCut) (t : Fraction)
        → planned (example_rules None None kind.Video (pictures t)) (example_job c [] format.Y4m (map_nth 1 true ∷ map_in 0 kind.Video ∷ []))
        ((pictures t ∷ []) ∷ []) ≡ Ok (pictures_plan (pictures t)) }
    ensures second_is_taken { (c : TimeCut) (t : Fraction)
        → planned (example_rules None None kind.Video (pictures t)) (example_job c [] format.Y4m (map_in 0 kind.Video ∷ map_in 0 kind.Video ∷ []))
        ((pictures t ∷ []) ∷ []) ≡ Err (fault.Takes 0 1) }
{}

/// Audio and video of two inputs into one output.
pub fn two_streams()
    ensures { (c : TimeCut) (t u : Fraction)
        → planned (example_rules None None kind.Video (pictures u)) (example_job c [] format.FrameHash (map_in 0 kind.Audio ∷ map_in 1 kind.Video ∷ []))
        ((sound t 1 ∷ []) ∷ (pictures u ∷ []) ∷ []) ≡ Ok (two_plan (sound t 1) (pictures u)) }
{}

/// A complex graph for the video, none for the audio.
pub fn trimmed_pictures()
    ensures made { (c : TimeCut) (t u : Fraction)
        → planned (example_rules (Some (codes "1:v")) (Some (codes "v")) kind.Video (pictures u)) (example_job c (trim_graph ∷ []) format.FrameHash
        (map_in 0 kind.Audio ∷ map_label (codes "v") ∷ [])) ((sound t 1 ∷ []) ∷ (pictures u ∷ []) ∷ []) ≡ Ok (trimmed_plan (sound t 1) (pictures u)) }
    ensures unused { (c : TimeCut) (t u : Fraction)
        → planned (example_rules (Some (codes "1:v")) (Some (codes "v")) kind.Video (pictures u)) (example_job c (trim_graph ∷ []) format.FrameHash
        (map_in 0 kind.Audio ∷ [])) ((sound t 1 ∷ []) ∷ (pictures u ∷ []) ∷ []) ≡ Err (fault.UnusedLabel (codes "v")) }
    ensures unknown { (c : TimeCut) (t u : Fraction)
        → planned (example_rules (Some (codes "1:v")) (Some (codes "v")) kind.Video (pictures u)) (example_job c (trim_graph ∷ []) format.FrameHash [])
        ((sound t 1 ∷ []) ∷ []) ≡ Err (fault.UnknownLabel (codes "1:v")) }
{}

/// A graph whose filters join labels in another order.
pub fn turned_channels()
    ensures made { (c : TimeCut) (t : Fraction)
        → planned (example_rules (Some (codes "0:a")) (Some (codes "o")) kind.Audio (sound t 2)) (example_job c (turned_graph ∷ []) format.Wav
        (map_label (codes "o") ∷ [])) ((sound t 2 ∷ []) ∷ []) ≡ Ok (turned_plan (sound t 2)) }
    ensures twice { (c : TimeCut) (t : Fraction)
        → planned (example_rules (Some (codes "0:a")) (Some (codes "o")) kind.Audio (sound t 2)) (example_job c (turned_graph ∷ []) format.Wav
        (map_label (codes "o") ∷ map_label (codes "o") ∷ [])) ((sound t 2 ∷ []) ∷ []) ≡ Err (fault.LabelTwice (codes "o")) }
{}

/// Complex graphs that feed each other, and what they leave to the outputs.
pub fn several_graphs()
    ensures turned { (c : TimeCut) (t : Fraction)
        → planned (labelled_rules (sound t 1)) (example_job c turned_graphs format.Wav (map_label (codes "o") ∷ [])) ((sound t 1 ∷ []) ∷ [])
        ≡ Ok (turned_graphs_plan (sound t 1)) }
    ensures on_loop { (c : TimeCut) (t : Fraction)
        → planned (labelled_rules (sound t 1)) (example_job c (null_between (codes "b" ∷ []) (codes "o" ∷ []) ∷ null_between (codes "o" ∷ [])
        (codes "b" ∷ []) ∷ []) format.Wav []) ((sound t 1 ∷ []) ∷ []) ≡ Err (fault.Loop 0) }
    ensures unlabelled { (c : TimeCut) (t u : Fraction)
        → planned (labelled_rules (sound t 1)) (example_job c (null_between [] [] ∷ []) format.FrameHash []) ((sound t 1 ∷ []) ∷ (pictures u ∷ []) ∷ [])
        ≡ Ok (unlabelled_plan (sound t 1) (pictures u)) }
{}

/// The automatic choice, and a stream that is used twice.
pub fn one_sound()
    ensures automatic { (c : TimeCut) (t : Fraction)
        → planned (labelled_rules (sound t 1)) (example_job c [] format.Wav []) ((sound t 1 ∷ []) ∷ (sound t 2 ∷ []) ∷ []) ≡ Ok (automatic_plan (sound t 2)) }
    ensures twice { (c : TimeCut) (t : Fraction)
        → planned (labelled_rules (sound t 1)) (example_job c [] format.FrameHash (map_in 0 kind.Audio ∷ map_in 0 kind.Audio ∷ [])) ((sound t 1 ∷ []) ∷ [])
        ≡ Ok (twice_plan (sound t 1)) }
    ensures none { (c : TimeCut) (t : Fraction)
        → planned (labelled_rules (sound t 1)) (example_job c [] format.Y4m []) ((sound t 1 ∷ []) ∷ []) ≡ Err (fault.NoStreams 0) }
{}

/// A source filter, without an input and with one.
pub fn one_source()
    ensures alone { (c : TimeCut) (t : Fraction)
        → planned (color_rules (color_made t)) (example_job c (color_graph ∷ []) format.Y4m []) [] ≡ Ok (color_plan (color_made t)) }
    ensures behind { (c : TimeCut) (t u : Fraction)
        → planned (color_rules (color_made t)) (example_job c (color_graph ∷ []) format.FrameHash (map_in 0 kind.Audio ∷ [])) ((sound u 1 ∷ []) ∷ [])
        ≡ Ok (sounded_plan (sound u 1) (color_made t)) }
{}
