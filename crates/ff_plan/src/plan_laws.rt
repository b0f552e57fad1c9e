//! Laws of every plan. Each is a function that does nothing: its clauses hold of all values.
ghost use Rattle.std.specs.Prelude.{◌≡◌, ◌≤◌, ℕ, List, length, Ok, Err};
ghost use Rattle.std.specs.List.{AllByRecursion};
ghost use Rattle.ff_plan_layout.specs.laws.Graphs.{AreRules};
ghost use Rattle.ff_plan_layout.specs.laws.Limits.{IsWithinLimits};
ghost use Rattle.ff_plan.specs.Planned.{planned};
ghost use Rattle.ff_plan_layout.specs.Rules.{Rules};
ghost use Rattle.ff_plan_layout.specs.Sources.{sources_of};
ghost use Rattle.ff_plan.specs.laws.Taken.{AllFrames, AreKeptBy, OutputsFit};
ghost use Rattle.ff_plan.specs.declared.planned.Plan.{Plan};
ghost use Rattle.ff_plan_layout.specs.declared.error.PlanError.TheVariants as fault;
ghost use Rattle.ff_plan.specs.laws.Sound.{AreRouted, HasFewIns, IsSoundPlan, KeepsTaken, NeverWantsMemory};
ghost use Rattle.ff_frame.specs.declared.config.ConfigError.TheVariants as config;
ghost use Rattle.ff_frame.specs.declared.head.StreamHead.{StreamHead};
ghost use Rattle.ff_source.specs.declared.made.Made.{Made};
ghost use Rattle.ff_source.specs.Sources.{head_of};
ghost use Rattle.ff_words.specs.declared.job.Job.{Job};

use ff_graph_links::{orders_are_whole, orders_go_upward};
use std::marker::Brand;

/// Each output has some streams, no more than its format holds, and its format takes each.
pub fn outputs_fit()
    ensures { (rules : Rules) (job : Job) (heads : List (List StreamHead)) (p : Plan) → KeepsTaken rules → planned rules job heads ≡ Ok p
        → OutputsFit job.outputs p }
{
    orders_go_upward();
}

/// The plan of a job within the limits is sound: what it asks of its outputs, its routes, its streams, strings, nodes and edges.
pub fn plans_are_sound()
    ensures { (rules : Rules) (job : Job) (heads : List (List StreamHead)) (p : Plan) → AreRules rules → HasFewIns rules → KeepsTaken rules
        → IsWithinLimits job heads → 1 ≤ length job.outputs → planned rules job heads ≡ Ok p → IsSoundPlan rules job heads p }
{
    orders_go_upward();
    orders_are_whole();
}

/// A graph of a plan has as many ways to sources as inputs.
pub fn graph_inputs_are_routes()
    ensures { (rules : Rules) (job : Job) (heads : List (List StreamHead)) (p : Plan) → AreRules rules → 1 ≤ length job.outputs
        → planned rules job heads ≡ Ok p → AreRouted p }
{
    orders_go_upward();
    orders_are_whole();
}

/// The sources of a plan are what the source filters of its complex graphs give, by graph and pad.
pub fn sources_are_asked()
    ensures { (rules : Rules) (job : Job) (heads : List (List StreamHead)) (p : Plan) → planned rules job heads ≡ Ok p
        → p.made ≡ sources_of rules job.graphs }
{}

/// No plan is refused for want of memory: that answer says nothing of the job. Nor is a filter of it, where the rules refuse none so.
pub fn plans_never_want_memory()
    ensures plan { (rules : Rules) (job : Job) (heads : List (List StreamHead)) → planned rules job heads ≡ Err fault.NoMemory → ⊥ }
    ensures filter { (rules : Rules) (job : Job) (heads : List (List StreamHead)) (g f : ℕ) → NeverWantsMemory rules
        → planned rules job heads ≡ Err (fault.Config g f config.NoMemory) → ⊥ }
{}

/// Something that can be so of the head of a stream.
pub trait HeadFact {
    ghost use Rattle.ff_frame.specs.declared.head.StreamHead.{StreamHead};

    /// It is so of this head.
    ghost is_so: { StreamHead → Type 0 };
}

// A call at this type picks what it means.
impl HeadFact for Brand {
    ghost is_so = { λ head. Unit {0} };
}

/// What is so of the heads of all streams of inputs and of all sources, and of what graphs make of such heads, is so of all frames.
pub fn frames_are_kept<K: HeadFact>()
    ensures { (rules : Rules) (job : Job) (heads : List (List StreamHead)) (p : Plan) → AreRules rules → AreKeptBy rules K.is_so
        → AllByRecursion (λ hs. AllByRecursion K.is_so hs) heads → AllByRecursion (λ (m : Made). K.is_so (head_of m)) p.made
        → 1 ≤ length job.outputs → planned rules job heads ≡ Ok p → AllFrames K.is_so p.edges }
{
    orders_go_upward();
    orders_are_whole();
}
