//! Laws of the edges of every plan. Each is a function that does nothing: its clauses hold of all values.
ghost use Rattle.std.specs.Prelude.{◌≡◌, ℕ, ◌<◌, ◌≤◌, Bool, List, length, slice_get, Some, Ok};
ghost use Rattle.std.specs.List.{AllByRecursion};
ghost use Rattle.ff_words.specs.maps.Choice.{AreBest};
ghost use Rattle.ff_words.specs.declared.maps.streams.StreamRef.{StreamRef};
ghost use Rattle.ff_plan_layout.specs.Choice.{best};
ghost use Rattle.ff_plan.specs.Wires.{Wire, edges_of};
ghost use Rattle.ff_stream.specs.edges.Ports.{shape_of, HasIns, HasOuts, IsFed};
ghost use Rattle.ff_frame.specs.declared.head.StreamHead.{StreamHead};
ghost use Rattle.ff_words.specs.declared.job.Job.{Job};
ghost use Rattle.ff_plan.specs.declared.planned.PlanNode.TheVariants as node;
ghost use Rattle.ff_plan_layout.specs.Layout.{Layout, placed};
ghost use Rattle.ff_plan_layout.specs.Rules.{Rules};
ghost use Rattle.ff_plan_layout.specs.LaidOut.{laid_out};
ghost use Rattle.ff_plan.specs.Nodes.{mux_at, node_count, nodes_of, wires_of};
ghost use Rattle.ff_plan_layout.specs.Layout.{IsLaid, EachOnce};
ghost use Rattle.ff_plan.specs.laws.Laws.{GoUpward, IsNextOf, IsUp, IsNamedOf, named_at, IsNoGraph, GraphsHaveOuts};

/// Every input of every node has one edge.
pub fn wires_have_ins()
    ensures { (wires : List Wire) (k : ℕ) → HasIns (edges_of wires) k }
{}

/// Every output of a node whose wires take the next port has one edge.
pub fn wires_have_outs()
    ensures { (wires : List Wire) (k : ℕ) → AllByRecursion (IsNextOf k) wires → HasOuts (edges_of wires) k }
{}

/// Wires that go upward give edges that do.
pub fn wires_go_upward()
    ensures { (count : ℕ) (wires : List Wire) → AllByRecursion (IsUp count) wires → GoUpward count (edges_of wires) }
{}

/// With all these, each input is fed by an earlier node.
pub fn plans_are_fed()
    ensures { (count : ℕ) (wires : List Wire) → ((k : ℕ) → HasOuts (edges_of wires) k) → AllByRecursion (IsUp count) wires
        → IsFed (shape_of (edges_of wires)) count (edges_of wires) }
{}

/// The wires of a layout go upward.
pub fn layouts_go_upward()
    ensures { (l : Layout) → IsLaid l → AllByRecursion (IsUp (node_count l)) (wires_of l) }
{}

/// Every output of a node that is no graph has one edge.
pub fn layouts_have_outs()
    ensures { (l : Layout) (k : ℕ) → IsLaid l → IsNoGraph l k → HasOuts (edges_of (wires_of l)) k }
{}

/// Where each output of a graph has one edge too, each input is fed by an earlier node.
pub fn layouts_are_fed()
    ensures { (l : Layout) → IsLaid l → GraphsHaveOuts l → IsFed (shape_of (edges_of (wires_of l))) (node_count l) (edges_of (wires_of l)) }
{}

/// There are as many nodes as numbers.
pub fn nodes_are_counted()
    ensures { (l : Layout) → length (nodes_of l) ≡ node_count l }
{}

/// Every output of a node whose wires name each of its ports once has one edge.
pub fn wires_name_outs()
    ensures { (wires : List Wire) (k : ℕ) → AllByRecursion (IsNamedOf k) wires → EachOnce (named_at k wires) → HasOuts (edges_of wires) k }
{}

/// No plan has more than 16 streams.
pub fn plans_have_few_streams()
    ensures { (rules : Rules) (job : Job) (heads : List (List StreamHead)) (l : Layout) → laid_out rules job heads ≡ Ok l → length (placed l) ≤ 16 }
{}

/// The Mux of an output stands at its number.
pub fn muxes_are_last()
    ensures { (l : Layout) (o : ℕ) → o < length l.outputs → slice_get (nodes_of l) (mux_at l o) ≡ Some (node.Mux o) }
{}

/// The automatic choice is the best choice of the streams, and no other is.
pub fn best_choices_are_one()
    ensures { (video audio : Bool) (heads : List (List StreamHead)) (refs : List StreamRef) → AreBest video audio heads refs → best heads video audio ≡ refs }
{}
