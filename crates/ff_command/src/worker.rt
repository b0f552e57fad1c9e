//! The trait of a worker, which plans jobs and runs the plans.
ghost use Rattle.std.specs.Prelude.{◌≡◌, List, ℕ, Option, None, Some, IfErr, OnOk, IfOk};
ghost use Rattle.ff_files.specs.laws.Runs.{RunSays};
ghost use Rattle.ff_files.specs.Works.{Meaning};
ghost use Rattle.ff_frame.specs.declared.event.Event.{Event};
ghost use Rattle.ff_sched.specs.Printing.{printed};
ghost use Rattle.ff_input.specs.Formats.{InputHead};
ghost use Rattle.ff_plan_layout.specs.declared.error.PlanError.{PlanError};
ghost use Rattle.ff_run_plan.specs.declared.fault.RunFault.{RunFault};
ghost use Rattle.ff_words.specs.declared.job.Job.{Job};
ghost use Rattle.ff_command.specs.Histories.{LogHas};
ghost use Rattle.ff_command.specs.Steps.{AreAllHeads};

use ff_files::{Done, PlanEnd, Work, WorkEnd};
use ff_host::{Sink, Source};
use ff_input::InputHead;
use ff_plan_layout::PlanError;
use ff_run_plan::{RunFault, RunLog};
use ff_sched::print_history;
use ff_words::Job;
use std::alloc::{AllocError, Global};

/// How jobs are worked: of each a plan by the heads of its inputs, and a run of it.
pub trait Worker<Src: Source + Send + Drop, Snk: Sink + Send + Drop> {
    /// What a run of a job follows.
    type Plan: Drop;

    /// What a job means: all that contracts see of its work.
    ghost means: { Self → Job → Meaning InputHead PlanError RunFault };

    /// It may be the history of a run of a job that did all. The inputs have these heads and, where these are told,
    /// these bytes.
    ghost tells: { Self → Job → List InputHead → Option (List (List ℕ)) → List Event → Type 0 };

    /// These may be the reads of such a run, for each input places of this history.
    ghost reads: { Self → Job → List InputHead → Option (List (List ℕ)) → List Event → List (List ℕ) → Type 0 };

    /// It can be worked with: what has to hold of it before.
    ghost is_able: { Self → Type 0 };

    /// It is a plan of the job for these heads.
    ghost is_plan: { Self → Job → List InputHead → Self.Plan → Type 0 };

    /// The plan of a job for these heads, by the number of their inputs.
    fn plan(&self, job: &Job, heads: &[InputHead]) -> Result<Self::Plan, PlanEnd<PlanError>>
        requires { is_able self.now × AreAllHeads job.now heads.now }
        ensures ok { IfOk result (λ plan. is_plan self.now job.now heads.now plan) }
        ensures some { OnOk result ((means self.now job.now).refusal heads.now ≡ None) }
        ensures refused { (why : _) → IfErr result (λ end. end ≡ PlanEnd.Refused why → (means self.now job.now).refusal heads.now ≡ Some why) };

    /// Runs a plan over the sources of the inputs and the sinks of the outputs. The sources give the inputs from the
    /// first byte on, and the sinks hold nothing. The end is the fault of the first that has one, the inputs before
    /// the outputs.
    fn run(
        &self,
        job: &Job,
        plan: Self::Plan,
        heads: &[InputHead],
        srcs: Vec<Src>,
        snks: Vec<Snk>,
    ) -> Done<RunFault, Src, Snk, RunLog>
        requires { is_plan self.now job.now heads.now plan }
        ensures { RunSays (means self.now job.now) Src.left Src.name Src.faults Snk.holds Snk.name Snk.faults
            (λ bytes. LogHas (tells self.now job.now heads.now bytes) (reads self.now job.now heads.now bytes))
            heads.now srcs.items snks.items result.end result.log result.srcs.items result.snks.items };
}

/// A job, and how it is worked.
#[derive(Drop)]
pub(crate) struct JobWork<'a, P> {
    /// Who works the job.
    pub(crate) worker: &'a P,
    /// The job.
    pub(crate) job: &'a Job,
}

impl<'a, Src: Source + Send + Drop, Snk: Sink + Send + Drop, P: Worker<Src, Snk>> Work<
    InputHead,
    Src,
    Snk,
> for JobWork<'a, P> {
    type Plan = P::Plan;

    type Refusal = PlanError;

    type Fault = RunFault;

    type Log = RunLog;

    ghost means = { λ work. P.means work.worker.now work.job.now };

    ghost accepts = { λ work heads. P.is_able work.worker.now × AreAllHeads work.job.now heads };

    ghost tells = { λ work heads bytes log. LogHas (P.tells work.worker.now work.job.now heads bytes) (P.reads work.worker.now work.job.now heads bytes) log };

    ghost printed = { λ log. printed log.history };

    ghost is_plan = { λ work heads plan. P.is_plan work.worker.now work.job.now heads plan };

    fn plan(&self, heads: &[InputHead]) -> Result<P::Plan, PlanEnd<PlanError>>
        requires { P.is_able self.now.worker.now × AreAllHeads self.now.job.now heads.now }
        ensures ok { IfOk result (λ plan. P.is_plan self.now.worker.now self.now.job.now heads.now plan) }
        ensures some { OnOk result ((P.means self.now.worker.now self.now.job.now).refusal heads.now ≡ None) }
        ensures refused { (why : _) → IfErr result (λ end. end ≡ PlanEnd.Refused why → (P.means self.now.worker.now self.now.job.now).refusal heads.now ≡ Some why) }
    {
        self.worker.plan(self.job, heads)
    }

    fn run(
        &self,
        plan: P::Plan,
        heads: &[InputHead],
        srcs: Vec<Src>,
        snks: Vec<Snk>,
    ) -> Done<RunFault, Src, Snk, RunLog>
        requires { P.is_plan self.now.worker.now self.now.job.now heads.now plan }
        ensures { RunSays (P.means self.now.worker.now self.now.job.now) Src.left Src.name Src.faults Snk.holds Snk.name Snk.faults
            (λ bytes. LogHas (P.tells self.now.worker.now self.now.job.now heads.now bytes) (P.reads self.now.worker.now self.now.job.now heads.now bytes))
            heads.now srcs.items snks.items result.end result.log result.srcs.items result.snks.items }
    {
        self.worker.run(self.job, plan, heads, srcs, snks)
    }

    fn print(&self, alloc: Global, log: &RunLog) -> Result<Vec<u8>, AllocError>
        ensures { IfOk result (λ text. text.items ≡ printed log.now.history) }
    {
        print_history(alloc, &log.history)
    }
}
