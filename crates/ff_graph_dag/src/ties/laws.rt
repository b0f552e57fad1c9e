//! Laws of the ways to an output. Each is a function that does nothing: its clauses hold of all values.
ghost use Rattle.std.specs.Prelude.{◌≡◌, ◌<◌, ℕ, List, length, slice_index_or};
ghost use Rattle.ff_graph_dag.specs.declared.graph.Node.{Node};
ghost use Rattle.ff_graph_dag.specs.declared.graph.Plan.{Plan};
ghost use Rattle.ff_graph_dag.specs.laws.Dags.{Spot};
ghost use Rattle.ff_graph_dag.specs.laws.Graphs.{spot_at, Fits, Sound};
ghost use Rattle.ff_graph_dag.specs.laws.Parts.{AreNew};
ghost use Rattle.ff_graph_dag.specs.laws.ties.Tied.{IsTied};

/// A plan whose edges fit together is sound for filters to which nothing was done. Each filter has as many inputs and
/// outputs as it has edges there.
pub fn tied_plans_are_sound()
    ensures { (p : Plan) (ss : List Spot) → IsTied p → length ss ≡ length p.nodes.items
        → ((k : ℕ) (m : Node) → k < length ss → Fits (spot_at ss k) (slice_index_or p.nodes.items k m)) → AreNew ss → Sound p ss }
{}
