//! The worker of jobs, which plans them and runs them in threads.
ghost use Rattle.std.specs.Prelude.{◌≡◌, ℕ, List, length, Option, Some, None, IfOk, IfSome, IfErr, OnOk};
ghost use Rattle.ff_run.specs.build.Parts.{all_kinds};
ghost use Rattle.ff_command.specs.Histories.{LogHas};
ghost use Rattle.ff_command.specs.Steps.{AreAllHeads};
ghost use Rattle.ff_files.specs.laws.Runs.{RunSays};
ghost use Rattle.ff_run_plan.specs.laws.Accepting.{IsAccepted, IsPlanFor};
ghost use Rattle.ff_run.specs.Meaning.{job_means, IsJobHistory, AreJobReads};
ghost use Rattle.ff_run.specs.laws.Saying.{JobSays, PlanSays};

use ff_command::Worker;
use ff_files::{Done, PlanEnd, WorkEnd};
use ff_host::{Sink, Source};
use ff_input::InputHead;
use ff_plan::Plan;
use ff_plan_layout::PlanError;
use ff_run_plan::{RunFault, RunLog};
use ff_words::Job;

/// Each node of a plan in a thread of its own. Whoever has the threads says how a plan is made, and how it is run.
#[derive(Drop)]
pub(crate) struct Threaded<P: Drop, Q: Drop> {
    /// How a plan is made.
    pub(crate) plan: P,
    /// How a plan is run.
    pub(crate) run: Q,
}

impl<
    Src: Source + Send + Drop,
    Snk: Sink + Send + Drop,
    P: Fn(&Job, &[InputHead]) -> Result<Plan, PlanEnd<PlanError>> + Drop,
    Q: Fn(&Job, Plan, &[InputHead], Vec<Src>, Vec<Snk>) -> Done<RunFault, Src, Snk, RunLog> + Drop,
> Worker<Src, Snk> for Threaded<P, Q> {
    type Plan = Plan;

    ghost means = { λ worker job. job_means job };

    ghost tells = { λ worker job heads bytes events. IsJobHistory job heads bytes events };

    ghost reads = { λ worker job heads bytes events reads. AreJobReads job heads bytes events reads };

    ghost is_able = { λ worker. ((job : _) (hs : _) → IsAccepted all_kinds job.now hs.now → P.pre worker.plan job hs
        × ((r : _) → P.post worker.plan job hs r → PlanSays all_kinds job.now hs.now r))
        × ((job : _) (plan : _) (hs : _) (ss : _) (ks : _) → IsPlanFor all_kinds job.now hs.now plan → Q.pre worker.run job plan hs ss ks
        × ((r : _) → Q.post worker.run job plan hs ss ks r
        → JobSays all_kinds Src.left Src.name Src.faults Snk.holds Snk.name Snk.faults job.now hs.now ss.items ks.items r.end r.log r.srcs.items r.snks.items)) };

    ghost is_plan = { λ worker job heads plan. IsPlanFor all_kinds job heads plan
        × ((job : _) (plan : _) (hs : _) (ss : _) (ks : _) → IsPlanFor all_kinds job.now hs.now plan → Q.pre worker.run job plan hs ss ks
        × ((r : _) → Q.post worker.run job plan hs ss ks r
        → JobSays all_kinds Src.left Src.name Src.faults Snk.holds Snk.name Snk.faults job.now hs.now ss.items ks.items r.end r.log r.srcs.items r.snks.items)) };

    fn plan(&self, job: &Job, heads: &[InputHead]) -> Result<Plan, PlanEnd<PlanError>>
        requires { (((job : _) (hs : _) → IsAccepted all_kinds job.now hs.now → P.pre self.now.plan job hs
            × ((r : _) → P.post self.now.plan job hs r → PlanSays all_kinds job.now hs.now r))
            × ((job : _) (plan : _) (hs : _) (ss : _) (ks : _) → IsPlanFor all_kinds job.now hs.now plan → Q.pre self.now.run job plan hs ss ks
            × ((r : _) → Q.post self.now.run job plan hs ss ks r
            → JobSays all_kinds Src.left Src.name Src.faults Snk.holds Snk.name Snk.faults job.now hs.now ss.items ks.items r.end r.log r.srcs.items r.snks.items)))
            × AreAllHeads job.now heads.now }
        ensures ok { IfOk result (λ plan. IsPlanFor all_kinds job.now heads.now plan
            × ((job : _) (plan : _) (hs : _) (ss : _) (ks : _) → IsPlanFor all_kinds job.now hs.now plan → Q.pre self.now.run job plan hs ss ks
            × ((r : _) → Q.post self.now.run job plan hs ss ks r
            → JobSays all_kinds Src.left Src.name Src.faults Snk.holds Snk.name Snk.faults job.now hs.now ss.items ks.items r.end r.log r.srcs.items r.snks.items))) }
        ensures some { OnOk result ((job_means job.now).refusal heads.now ≡ None) }
        ensures refused { (why : _) → IfErr result (λ end. end ≡ PlanEnd.Refused why → (job_means job.now).refusal heads.now ≡ Some why) }
    {
        (self.plan)(job, heads)
    }

    fn run(
        &self,
        job: &Job,
        plan: Plan,
        heads: &[InputHead],
        srcs: Vec<Src>,
        snks: Vec<Snk>,
    ) -> Done<RunFault, Src, Snk, RunLog>
        requires { IsPlanFor all_kinds job.now heads.now plan
            × ((job : _) (plan : _) (hs : _) (ss : _) (ks : _) → IsPlanFor all_kinds job.now hs.now plan → Q.pre self.now.run job plan hs ss ks
            × ((r : _) → Q.post self.now.run job plan hs ss ks r
            → JobSays all_kinds Src.left Src.name Src.faults Snk.holds Snk.name Snk.faults job.now hs.now ss.items ks.items r.end r.log r.srcs.items r.snks.items)) }
        ensures { RunSays (job_means job.now) Src.left Src.name Src.faults Snk.holds Snk.name Snk.faults
            (λ bytes. LogHas (IsJobHistory job.now heads.now bytes) (AreJobReads job.now heads.now bytes))
            heads.now srcs.items snks.items result.end result.log result.srcs.items result.snks.items }
    {
        (self.run)(job, plan, heads, srcs, snks)
    }
}
