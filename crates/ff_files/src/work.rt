//! The trait of what is done between the opening and the closing.
ghost use Rattle.std.specs.Prelude.{◌≡◌, List, ℕ, Option, Some, None, IfErr, OnOk, IfOk};
ghost use Rattle.std.specs.List.{All};
ghost use Rattle.ff_files.specs.laws.Runs.{RunSays};
ghost use Rattle.ff_files.specs.Works.{Meaning};

use ff_host::{Sink, Source};
use std::alloc::{AllocError, Global};

/// Why heads gave no plan.
#[derive(Debug, Drop)]
pub enum PlanEnd<R: Drop> {
    /// There is none for them.
    Refused(R),
    /// There was no memory for it.
    NoMemory,
}

/// How a run ended.
#[derive(Clone, Copy, Debug, PartialEq, Eq)]
pub enum WorkEnd<F> {
    /// All was done.
    Fine,
    /// Reading this input failed.
    Input { input: u32 },
    /// Writing this output failed.
    Output { output: u32 },
    /// Something of the inputs' bytes ended it.
    Broken(F),
    /// There was no memory to go on.
    NoMemory,
}

/// How a run ended, what it logged, and its sources and sinks as they are then.
#[derive(Drop)]
pub struct Done<F: Copy, Src: Drop, Snk: Drop, L: Drop> {
    /// How the run ended.
    pub end: WorkEnd<F>,
    /// None where there was no memory for it.
    pub log: Option<L>,
    /// The sources of the inputs, by number.
    pub srcs: Vec<Src>,
    /// The sinks of the outputs, by number.
    pub snks: Vec<Snk>,
}

/// What is done between the opening of all inputs and the closing: a plan by their heads, and a run of it.
pub trait Work<H, Src: Source + Send + Drop, Snk: Sink + Send + Drop> {
    /// What a run follows.
    type Plan: Drop;

    /// Why heads give no plan.
    type Refusal: Drop;

    /// What of the inputs' bytes may end a run.
    type Fault: Copy;

    /// What a run logs.
    type Log: Drop;

    /// All that contracts see of it.
    ghost means: { Self → Meaning H Self.Refusal Self.Fault };

    /// What the heads of all inputs have to be.
    ghost accepts: { Self → List H → Type 0 };

    /// It is a plan for these heads.
    ghost is_plan: { Self → List H → Self.Plan → Type 0 };

    /// It may be the log of a run that did all, over inputs with these heads and, where these are told, these bytes.
    ghost tells: { Self → List H → Option (List (List ℕ)) → Self.Log → Type 0 };

    /// A log as a string.
    ghost printed: { Self.Log → List ℕ };

    /// The plan for these heads, by the number of their inputs.
    fn plan(&self, heads: &[H]) -> Result<Self::Plan, PlanEnd<Self::Refusal>>
        requires { accepts self.now heads.now }
        ensures ok { IfOk result (λ plan. is_plan self.now heads.now plan) }
        ensures some { OnOk result ((means self.now).refusal heads.now ≡ None) }
        ensures refused { (why : _) → IfErr result (λ end. end ≡ PlanEnd.Refused why → (means self.now).refusal heads.now ≡ Some why) };

    /// Runs a plan over the sources of the inputs and the sinks of the outputs. The sources give the inputs from the
    /// first byte on, and the sinks hold nothing. The end is the fault of the first that has one, the inputs before
    /// the outputs.
    fn run(
        &self,
        plan: Self::Plan,
        heads: &[H],
        srcs: Vec<Src>,
        snks: Vec<Snk>,
    ) -> Done<Self::Fault, Src, Snk, Self::Log>
        requires { is_plan self.now heads.now plan }
        ensures { RunSays (means self.now) Src.left Src.name Src.faults Snk.holds Snk.name Snk.faults
            (tells self.now heads.now) heads.now srcs.items snks.items result.end result.log result.srcs.items result.snks.items };

    /// Prints a log.
    fn print(&self, alloc: Global, log: &Self::Log) -> Result<Vec<u8>, AllocError>
        ensures { IfOk result (λ text. text.items ≡ printed log.now) };
}
