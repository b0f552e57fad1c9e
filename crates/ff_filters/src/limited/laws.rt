//! Laws of what filters are: functions that do nothing, whose clauses hold of all values.
ghost use Rattle.std.specs.Prelude.{◌≡◌, ◌↔◌, true, List, Ok};
ghost use Rattle.ff_frame.specs.declared.head.StreamHead.{StreamHead};
ghost use Rattle.ff_lang.specs.declared.graph.Arg.{Arg};
ghost use Rattle.ff_stream.specs.Ports.{stream_at};
ghost use Rattle.ff_net.specs.Ways.{AreValid};
ghost use Rattle.ff_filter.specs.Joins.{Flow, Ports, all_opened};
ghost use Rattle.ff_node_filter.specs.Limiting.{IsLimited};
ghost use Rattle.ff_filters.specs.declared.name.FilterName.{FilterName};
ghost use Rattle.ff_filters.specs.Configured.{Filtered};
ghost use Rattle.ff_filters.specs.Makes.{configured_as};
ghost use Rattle.ff_filters.specs.limited.Cuts.{cuts_in, IsWithin, PassesLimit, AreStreamHeads};

/// The function of each filter, by its name, its arguments and the heads of its inputs, is one within limits.
pub fn configured_filters_are_limited()
    ensures { (name : FilterName) (args : List Arg) (heads : List StreamHead) (f : Filtered) → AreStreamHeads heads
        → configured_as name args heads ≡ Ok f → IsLimited f.view.ins f.view.outs f.view.rest (cuts_in f.view) }
{}

/// What a filter gives of valid streams is what it would give without limits, each output up to the limits. That breaks
/// off of itself only where an input does. A limit cuts, where no break is told, exactly where an item of it passes one.
pub fn limits_cut_what_passes_them()
    ensures { (name : FilterName) (args : List Arg) (heads : List StreamHead) (f : Filtered) → AreStreamHeads heads
        → configured_as name args heads ≡ Ok f → (free : Ports → Ports) × IsWithin f.view.ins f.view.outs f.view.rest free
        × ((ss : List Flow) → AreValid f.view.ins ss → (cuts_in f.view ss ≡ true) ↔ PassesLimit f.view.outs (free (all_opened (stream_at ss)))) }
{}
