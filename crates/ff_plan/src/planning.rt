//! The planner of a job.
ghost use Rattle.std.specs.Prelude.{◌≡◌, Ok, IfOk, IfErr};
ghost use Rattle.ff_words.specs.maps.Choice.{lists};
ghost use Rattle.ff_plan_layout.specs.laws.Limits.{IsWithinLimits};
ghost use Rattle.ff_plan.specs.Planned.{planned};
ghost use Rattle.ff_plan_layout.specs.laws.Refusals.{IsRefused};

use crate::numbering::numbered_plan;
use crate::planned::Plan;
use ff_frame::StreamHead;
use ff_plan_layout::{Filtering, PlanError, lay_out};
use ff_words::Job;
use std::alloc::Global;

/// The plan of a job with these heads of each of its inputs, or the refusal that comes first. The rules of graphs are
/// those that `filtering` has. Refusals come in this order: of names and labels of complex graphs, of loops, and of
/// what their filters can't do. Then come those of each output in turn: its maps, its lack of streams, what its
/// format takes, and its simple graphs. Last come those of a label that nothing uses, and of too many streams or
/// graphs. `NoMemory` may come in place of any answer.
pub fn plan<F: Filtering>(
    alloc: Global,
    filtering: &F,
    job: &Job,
    heads: &[Vec<StreamHead>],
) -> Result<Plan, PlanError>
    requires limits { IsWithinLimits job.now (lists heads.now) }
    ensures made { IfOk result (λ p. planned (F.rules filtering.now) job.now (lists heads.now) ≡ Ok p) }
    ensures refused { IfErr result (IsRefused (planned (F.rules filtering.now) job.now (lists heads.now))) }
{
    let laying = lay_out(alloc, filtering, job, heads)?;
    let plan = numbered_plan(alloc, heads, laying)?;
    Ok(plan)
}
