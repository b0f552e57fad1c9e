//! The answer to an option that stands alone: a string of the command itself, or the run over generated input.
ghost use Rattle.std.specs.Prelude.{◌≡◌, ◌≢◌, ◌⊎◌, ◌≤◌, ℕ, List, None, Some, Ok, IfSome, IsSome, codes};
ghost use Rattle.ff_words.specs.declared.job.Solo.TheVariants.{SelfRun};
ghost use Rattle.ff_files.specs.Works.{HasLog};
ghost use Rattle.ff_host.specs.laws.memory.QuietHost.{quiet_files};
ghost use Rattle.ff_selfrun.specs.SelfRun.{own_line as line_of};
ghost use Rattle.ff_command.specs.Command.{IsText, IsSoloText, IsGeneratedText, IsOwnAnswer, ReportsOwn};
ghost use Rattle.ff_command.specs.Histories.{LogHas};

use crate::help::{help, version};
use crate::report::Status;
use crate::run::{JobRun, run_job};
use crate::worker::Worker;
use ff_files::Target;
use ff_host::{Begun, QuietHost, QuietSink, QuietSource};
use ff_run_plan::RunLog;
use ff_selfrun::{own_host, own_job, own_line};
use ff_words::Solo;
use std::alloc::{AllocError, Global};

/// How it ended, the string that is told where it is fine, and what the run has logged, where there was one.
#[derive(Drop)]
pub(crate) struct Told {
    /// How it ended.
    pub(crate) status: Status,
    /// The string that is told.
    pub(crate) text: Option<Vec<u8>>,
    /// What the run has logged.
    pub(crate) run: Option<RunLog>,
}

// A string, where there was memory for it.
fn told_text(text: Result<Vec<u8>, AllocError>, run: Option<RunLog>) -> Told
    ensures told { IfSome result.text (λ t. (text ≡ Ok t) × (result.status ≡ Status.Fine)) }
    ensures status { (result.status ≡ Status.Fine) ⊎ (result.status ≡ Status.NoMemory) }
    ensures fine { result.status ≡ Status.Fine → result.text ≢ None }
    ensures run { result.run ≡ run }
{
    match text {
        Ok(text) => Told {
            status: Status::Fine,
            text: Some(text),
            run,
        },
        Err(_) => Told {
            status: Status::NoMemory,
            text: None,
            run,
        },
    }
}

// The line of a run over generated input that did all, by what its output holds.
fn told_run(alloc: Global, seconds: u32, host: &QuietHost, run: Option<RunLog>) -> Told
    requires { IsSome (quiet_files host.now (codes "out")) }
    ensures text { IfSome result.text (λ text. (result.status ≡ Status.Fine)
        × ((bytes : List ℕ) × (quiet_files host.now (codes "out") ≡ Some bytes) × (text.items ≡ line_of seconds bytes))) }
    ensures status { (result.status ≡ Status.Fine) ⊎ (result.status ≡ Status.NoMemory) }
    ensures fine { result.status ≡ Status.Fine → result.text ≢ None }
    ensures run { result.run ≡ run }
{
    let Some(bytes) = host.file("out") else {
        unreachable!();
    };
    told_text(own_line(alloc, seconds, bytes), run)
}

// Nothing, for want of memory.
fn untold() -> Told
    ensures status { result.status ≡ Status.NoMemory }
    ensures text { result.text ≡ None }
{
    Told {
        status: Status::NoMemory,
        text: None,
        run: None,
    }
}

// Runs the one job over generated input, in a host of its own.
#[tactic(auto, using(crate::proofs::Generated::own_none))]
fn run_generated<Q: Worker<Begun<QuietSource>, Target<QuietSink>>>(
    alloc: Global,
    own: &Q,
    seconds: u32,
) -> Told
    requires able { Q.is_able own.now }
    requires few { seconds ≤ 3600 }
    ensures answer { IsOwnAnswer (Q.means own.now) seconds result.status }
    ensures told { IfSome result.text (λ text. IsGeneratedText (Q.means own.now) seconds text.items × (result.status ≡ Status.Fine)) }
    ensures fine { result.status ≡ Status.Fine → result.text ≢ None }
    ensures logged { result.status ≡ Status.Fine → HasLog (ReportsOwn (Q.means own.now)
        (λ job heads bytes log. LogHas (Q.tells own.now job heads bytes) (Q.reads own.now job heads bytes) log) seconds) result.run }
{
    let Ok(job) = own_job(alloc) else {
        return untold();
    };
    let Ok(mut host) = own_host(alloc, seconds) else {
        return untold();
    };
    let JobRun { status, log } = run_job(alloc, own, &job, &mut host);
    match status {
        Status::Fine => told_run(alloc, seconds, &host, log),
        status => Told {
            status,
            text: None,
            run: log,
        },
    }
}

/// What an option asks for that stands alone.
pub(crate) fn tell<Q: Worker<Begun<QuietSource>, Target<QuietSink>>>(
    alloc: Global,
    own: &Q,
    solo: Solo,
) -> Told
    requires able { Q.is_able own.now }
    requires few { (seconds : ℕ) → solo ≡ SelfRun seconds → seconds ≤ 3600 }
    ensures alone { IsText solo → ((result.status ≡ Status.Fine) ⊎ (result.status ≡ Status.NoMemory)) × (result.run ≡ None) }
    ensures generated { (seconds : ℕ) → solo ≡ SelfRun seconds → IsOwnAnswer (Q.means own.now) seconds result.status }
    ensures told { IfSome result.text (λ text. IsSoloText (Q.means own.now) solo text.items × (result.status ≡ Status.Fine)) }
    ensures fine { result.status ≡ Status.Fine → result.text ≢ None }
    ensures logged { (seconds : ℕ) → solo ≡ SelfRun seconds → result.status ≡ Status.Fine → HasLog (ReportsOwn (Q.means own.now)
        (λ job heads bytes log. LogHas (Q.tells own.now job heads bytes) (Q.reads own.now job heads bytes) log) seconds) result.run }
{
    match solo {
        Solo::Help => told_text(help(alloc), None),
        Solo::Version => told_text(version(alloc), None),
        Solo::SelfRun(seconds) => run_generated(alloc, own, seconds),
    }
}
