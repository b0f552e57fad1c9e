//! Laws of plans with graphs. Each is a function that does nothing: its clauses hold of all values.
ghost use Rattle.std.specs.Prelude.{◌≡◌, ◌≤◌, List, length, Ok};
ghost use Rattle.ff_stream.specs.edges.Ports.{shape_of, IsFed};
ghost use Rattle.ff_plan.specs.laws.EndFits.{EndsFit};
ghost use Rattle.ff_plan.specs.laws.GraphFits.{GraphsFit};
ghost use Rattle.ff_plan_layout.specs.laws.Graphs.{AreRules};
ghost use Rattle.ff_plan_layout.specs.Layout.{IsLaid};
ghost use Rattle.ff_plan.specs.laws.Laws.{GraphsHaveOuts};
ghost use Rattle.ff_plan_layout.specs.Layout.{Layout};
ghost use Rattle.ff_plan.specs.laws.NodeRows.{HasRows};
ghost use Rattle.ff_plan_layout.specs.laws.Limits.{IsWithinLimits};
ghost use Rattle.ff_plan_layout.specs.LaidOut.{laid_out};
ghost use Rattle.ff_plan.specs.Planned.{planned};
ghost use Rattle.ff_plan_layout.specs.Rules.{Rules};
ghost use Rattle.ff_plan.specs.laws.StartFits.{StartsFit};
ghost use Rattle.ff_plan.specs.declared.planned.Plan.{Plan};
ghost use Rattle.ff_frame.specs.declared.head.StreamHead.{StreamHead};
ghost use Rattle.ff_words.specs.declared.job.Job.{Job};

use ff_graph_links::{orders_are_whole, orders_go_upward};

/// What is laid out has all its origins, with graphs too: each graph stands after those that feed it.
pub fn graph_plans_are_laid()
    ensures { (rules : Rules) (job : Job) (heads : List (List StreamHead)) (l : Layout) → laid_out rules job heads ≡ Ok l → IsLaid l }
{
    orders_go_upward();
}

/// Each open output pad of each graph, complex or simple, is used once, where labels stand at the open pads as they are written.
pub fn graphs_have_outs()
    ensures { (rules : Rules) (job : Job) (heads : List (List StreamHead)) (l : Layout) → AreRules rules → 1 ≤ length job.outputs
        → laid_out rules job heads ≡ Ok l → GraphsHaveOuts l }
{
    orders_go_upward();
    orders_are_whole();
}

/// So every plan is fed, with graphs and Shortest nodes: each input of each node is an output of an earlier one.
pub fn graph_plans_are_fed()
    ensures { (rules : Rules) (job : Job) (heads : List (List StreamHead)) (p : Plan) → AreRules rules → 1 ≤ length job.outputs
        → planned rules job heads ≡ Ok p → IsFed (shape_of p.edges) (length p.nodes) p.edges }
{
    orders_go_upward();
    orders_are_whole();
}

/// The rules make each graph of its string with the heads that enter its node, and frames of what they make leave it.
pub fn graphs_fit()
    ensures { (rules : Rules) (job : Job) (heads : List (List StreamHead)) (p : Plan) → AreRules rules → 1 ≤ length job.outputs
        → planned rules job heads ≡ Ok p → GraphsFit rules job p }
{
    orders_go_upward();
    orders_are_whole();
}

/// What stands at the ports of Shortest, Enc and Mux nodes: the frames and packets of the streams of their output.
pub fn ends_fit()
    ensures { (rules : Rules) (job : Job) (heads : List (List StreamHead)) (p : Plan) → planned rules job heads ≡ Ok p → EndsFit job.outputs p }
{
    orders_go_upward();
}

/// The nodes of every plan within the limits stand row by row: Demux, Gen, Dec, graphs, Shortest, Enc, Mux.
pub fn nodes_have_rows()
    ensures { (rules : Rules) (job : Job) (heads : List (List StreamHead)) (p : Plan) → IsWithinLimits job heads
        → planned rules job heads ≡ Ok p → HasRows (length heads) (length job.outputs) p.nodes }
{
    orders_go_upward();
    orders_are_whole();
}

/// What stands at the ports of Demux, Gen and Dec nodes: the packets of streams of their input, the frames of their source, and the frames of
/// each stream for each use.
pub fn starts_fit()
    ensures { (rules : Rules) (job : Job) (heads : List (List StreamHead)) (p : Plan) → AreRules rules → 1 ≤ length job.outputs
        → planned rules job heads ≡ Ok p → StartsFit heads p }
{
    orders_go_upward();
    orders_are_whole();
}
