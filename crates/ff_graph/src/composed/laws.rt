//! Laws of graphs as filters: functions that do nothing, whose clauses hold of all values.
ghost use Rattle.std.specs.Prelude.{◌≡◌, ◌≤◌, ℕ, List, Option, Ok, false, length, map};
ghost use Rattle.ff_frame.specs.declared.head.StreamHead.{StreamHead};
ghost use Rattle.ff_stream.specs.declared.item.Lane.TheVariants.{Frames as FramesOf};
ghost use Rattle.ff_lang.specs.declared.graph.Arg.{Arg};
ghost use Rattle.ff_lang.specs.declared.graph.Graph.{Graph as Text};
ghost use Rattle.ff_lang.specs.Grammar.{IsGraph};
ghost use Rattle.ff_node_filter.specs.Limiting.{IsLimited};
ghost use Rattle.ff_filters.specs.declared.name.FilterName.{FilterName};
ghost use Rattle.ff_filters.specs.Configured.{Filtered};
ghost use Rattle.ff_filters.specs.Makes.{configured_as};
ghost use Rattle.ff_filters.specs.limited.Cuts.{AreStreamHeads};
ghost use Rattle.ff_graph.specs.Configured.{Made, OpenOut, configured, make_all, open_outs};
ghost use Rattle.ff_graph.specs.Drawings.{seen_graph};
ghost use Rattle.ff_graph.specs.Meaning.{graph_means};
ghost use Rattle.ff_graph.specs.Opens.{filter_order, open_ins, open_pads, sources_in, loops};
ghost use Rattle.ff_graph_dag.specs.wiring.Flows.{IsDrawing};
ghost use Rattle.ff_graph_links.specs.labels.Clear.{IsClear};
ghost use Rattle.ff_graph.specs.composed.Cuts.{all_given, graph_cuts};
ghost use Rattle.ff_graph.specs.composed.Pads.{HasFilter, HaveChannels};
ghost use Rattle.ff_graph.specs.laws.composed.Ready.{counts_of, pads_of};

/// Where the heads of what comes to a filter have time bases, and audio may be zeros, that is so of what it gives.
pub fn configured_heads_are_of_streams()
    ensures { (name : FilterName) (args : List Arg) (heads : List StreamHead) (f : Filtered) → AreStreamHeads heads
        → configured_as name args heads ≡ Ok f → AreStreamHeads f.outs }
{}

/// A graph without a loop, whose labels tell its pads apart and whose filters were made, is a drawing of them.
pub fn graphs_are_drawings()
    ensures { (g : Text) (given : List (Option StreamHead)) (made : Made) → IsClear g → loops g ≡ false → make_all (seen_graph g) given ≡ Ok made
        → IsDrawing (sources_in (seen_graph g)) (filter_order (seen_graph g)) (counts_of made.heads) (open_pads (seen_graph g))
        (pads_of (open_outs (seen_graph g) made.heads)) }
{}

/// Its function is one within limits: it is cut where a limit of one of its filters cuts what that filter gives.
pub fn texts_are_limited()
    ensures { (g : Text) (heads : List StreamHead) (outs : List OpenOut) → IsClear g → loops g ≡ false → configured g (all_given heads) ≡ Ok outs → AreStreamHeads heads
        → IsLimited (map FramesOf heads) (map (λ o. FramesOf o.head) outs) (graph_means g (all_given heads)) (graph_cuts g (all_given heads)) }
{}

/// A graph without a loop that has a filter has an open input pad. Where all audio that comes to it has a channel, it
/// has an open output pad.
pub fn graphs_have_open_pads()
    ensures inputs { (g : Text) (heads : List StreamHead) (outs : List OpenOut) → IsClear g → loops g ≡ false → configured g (all_given heads) ≡ Ok outs
        → HasFilter g → 1 ≤ length (open_ins g) }
    ensures outputs { (g : Text) (heads : List StreamHead) (outs : List OpenOut) → IsClear g → loops g ≡ false → configured g (all_given heads) ≡ Ok outs
        → HasFilter g → HaveChannels heads → 1 ≤ length outs }
{}

/// A graph that is written has a filter.
pub fn written_graphs_have_filters()
    ensures { (text : List ℕ) (g : Text) → IsGraph text g → HasFilter g }
{}
