//! The state of the scheduler before a run.
ghost use Rattle.std.specs.Prelude.{◌≡◌, ◌≤◌, ℕ};
ghost use Rattle.ff_plan.specs.declared.planned.PlanNode.{PlanNode};
ghost use Rattle.ff_plan.specs.declared.planned.PlanNode.TheVariants.{Demux as DemuxNode};
ghost use Rattle.ff_sched.specs.Bits.{mark_at};
ghost use Rattle.ff_sched.specs.laws.Routes.{AreRoutes};
ghost use Rattle.ff_run_plan.specs.Openings.{reads_in, is_read, is_unused, IsOpening};

use ff_plan::PlanNode;
use ff_sched::{Routes, SchedState};

/// Whether a node reads the source of this number: an input, or what a source filter gives.
pub(crate) fn reads(node: PlanNode, number: u32) -> bool
    ensures { result ≡ reads_in number node }
{
    match node {
        PlanNode::Demux { input } => input == number,
        PlanNode::Gen { source } => source == number,
        PlanNode::Dec { .. }
        | PlanNode::Graph { .. }
        | PlanNode::Shortest { .. }
        | PlanNode::Enc { .. }
        | PlanNode::Mux { .. } => false,
    }
}

// Whether one of the nodes does.
fn some_reads(nodes: &[PlanNode], number: u32) -> bool
    ensures { result ≡ is_read nodes.now number }
{
    for node in nodes {
        if reads(*node, number) {
            return true;
        }
    }
    false
}

// A mark for each source that no node reads, in a machine word whose lowest bit is that of source 0.
fn unused_sources(nodes: &[PlanNode], sources: u32) -> u16
    requires { sources ≤ 16 }
    ensures { (i : ℕ) → mark_at result i ≡ is_unused nodes.now sources i }
{
    let mut marks: u16 = 0;
    for k in 0..sources {
        let last = if some_reads(nodes, sources - 1 - k) {
            0
        } else {
            1
        };
        marks = 2 * marks + last;
    }
    marks
}

/// What the scheduler of a run begins with.
#[derive(Drop)]
pub(crate) struct Opening {
    /// The opening state.
    pub(crate) state: SchedState,
    /// The routes.
    pub(crate) routes: Routes,
}

/// Nothing has happened yet, and the sources that no node reads have exited.
pub(crate) fn before_run(nodes: &[PlanNode], routes: Routes) -> Opening
    requires { AreRoutes routes }
    ensures state { IsOpening nodes.now routes result.state }
    ensures routes { result.routes ≡ routes }
{
    let unused = unused_sources(nodes, routes.sources);
    Opening {
        state: SchedState::opening(&routes, unused),
        routes,
    }
}
