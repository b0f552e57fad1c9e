//! A job over its files.
ghost use Rattle.std.specs.Prelude.{◌≡◌, ◌<◌, ◌^◌, ℕ, length, Some, None, Ok, IfSome, IsTrue, option_copied};
ghost use Rattle.ff_words.specs.laws.Bounds.{IsBounded};
ghost use Rattle.ff_words.specs.Words.{written};
ghost use Rattle.ff_files.specs.Names.{files_of};
ghost use Rattle.ff_files.specs.There.{IsFirstThere};
ghost use Rattle.ff_files.specs.Counts.{counted};
ghost use Rattle.ff_files.specs.Works.{HasLog};
ghost use Rattle.ff_command.specs.Command.{refused_plan, over, IsReported, HoldsPrinted};
ghost use Rattle.ff_command.specs.Histories.{LogHas};
ghost use Rattle.ff_command.specs.Steps.{broken_run, written_file, status_of, CreatesWritten, IsFree, Ran};

use crate::report::{FileRef, Status};
use crate::worker::{JobWork, Worker};
use crate::written::{Written, written_files};
use ff_files::{Outcome, RunEnd, Target, first_there, over_files};
use ff_host::{Begun, Host};
use ff_plan_layout::PlanError;
use ff_run_plan::{RunFault, RunLog};
use ff_words::Job;
use std::alloc::{AllocError, Global};

// The status of a plan that is refused.
fn status_of_plan(why: PlanError) -> Status
    ensures { result ≡ refused_plan why }
{
    match why {
        PlanError::NoMemory => Status::NoMemory,
        why => Status::Plan(why),
    }
}

// The status of a run that something of the inputs' bytes ended.
fn status_of_run(why: RunFault) -> Status
    ensures { result ≡ broken_run why }
{
    match why {
        RunFault::Damaged { input, offset } => Status::Damaged { input, offset },
        RunFault::TooLong { node, .. } => Status::TooLong { node },
        RunFault::TooLarge { output } => Status::TooLarge { output },
    }
}

// The file of this number among those that are written, of which the first so many are the outputs.
fn file_of(count: u32, number: u32) -> FileRef
    ensures { result ≡ written_file count number }
{
    if number < count {
        FileRef::Output(number)
    } else {
        FileRef::Trace
    }
}

// The status of a job of so many outputs over its files.
fn status_of_end(count: u32, end: RunEnd<PlanError, RunFault>) -> Status
    ensures { result ≡ status_of count end }
{
    match end {
        RunEnd::Fine => Status::Fine,
        RunEnd::InputFailed { input } => Status::Device {
            file: FileRef::Input(input),
        },
        RunEnd::OutputFailed { output } => Status::Device {
            file: file_of(count, output),
        },
        RunEnd::Damaged { input, offset } => Status::Damaged { input, offset },
        RunEnd::Unsupported { input, offset } => Status::Unsupported { input, offset },
        RunEnd::Refused(why) => status_of_plan(why),
        RunEnd::Broken(why) => status_of_run(why),
        RunEnd::NoMemory => Status::NoMemory,
    }
}

// The status of a job of so many outputs that keeps the file of this number.
fn status_of_kept(count: u32, number: u32) -> Status
    ensures { result ≡ Status.Device (written_file count number) }
{
    Status::Device {
        file: file_of(count, number),
    }
}

/// How a job was run.
#[derive(Drop)]
pub(crate) struct JobRun {
    /// How it ended.
    pub(crate) status: Status,
    /// What its run has logged. None where nothing was run, or there was no memory for it.
    pub(crate) log: Option<RunLog>,
}

// The number of the first of the files that the job writes that is there, where the job keeps such.
fn first_kept<H: Host>(job: &Job, files: &[Written], host: &H) -> Result<Option<u32>, AllocError>
    requires named { files_of (λ file. option_copied file.file) files.now ≡ written job.now }
    requires few { length files.now < 2 ^ 32 }
    ensures kept { (k : ℕ) → result ≡ Ok (Some k) → IsTrue job.now.keeps × IsFirstThere (H.files host.now) (written job.now) k }
    ensures free { result ≡ Ok None → IsFree job.now (H.files host.now) }
{
    if job.keeps {
        first_there(host, files)
    } else {
        Ok(None)
    }
}

// Where nothing was run.
fn not_run(status: Status) -> JobRun
    ensures { (result.status ≡ status) × (result.log ≡ None) }
{
    JobRun { status, log: None }
}

// Runs a job over its files, none of which it keeps.
fn run_free<H: Host, P: Worker<Begun<H::Src>, Target<H::Snk>>>(
    alloc: Global,
    worker: &P,
    job: &Job,
    files: &[Written],
    host: &mut H,
) -> JobRun
    requires able { P.is_able worker.now }
    requires bounded { IsBounded job.now }
    requires named { files_of (λ file. option_copied file.file) files.now ≡ written job.now }
    requires free { IsFree job.now (H.files host.old) }
    ensures ran { Ran (P.means worker.now) job.now (H.files host.old) (H.files host.new)
        (counted H.in_faults host.old host.new) (counted H.out_faults host.old host.new) result.status }
    ensures logged { result.status ≡ Status.Fine
        → HasLog (IsReported (over (P.means worker.now) job.now)
        (λ heads bytes log. LogHas (P.tells worker.now job.now heads bytes) (P.reads worker.now job.now heads bytes) log) (H.files host.old)) result.log }
    ensures traced { result.status ≡ Status.Fine → IfSome result.log (λ log. HoldsPrinted job.now (H.files host.old) (H.files host.new) log.history) }
    ensures created { CreatesWritten job.now (H.created host.new) (H.files host.old) (H.files host.new)
        (counted H.out_faults host.old host.new) result.status }
    ensures closed { (H.open_sources host.new ≡ H.open_sources host.old) × (H.open_sinks host.new ≡ H.open_sinks host.old) }
{
    let work = JobWork { worker, job };
    let inputs = job.inputs.as_slice();
    let count = job.outputs.as_slice().len();
    let Outcome { end, log } = over_files(alloc, host, inputs, files, count, &work);
    JobRun {
        status: status_of_end(count as u32, end),
        log,
    }
}

/// Runs a job over its files. Where it keeps what is there, and a file that it writes is, nothing is run.
pub(crate) fn run_job<H: Host, P: Worker<Begun<H::Src>, Target<H::Snk>>>(
    alloc: Global,
    worker: &P,
    job: &Job,
    host: &mut H,
) -> JobRun
    requires able { P.is_able worker.now }
    requires bounded { IsBounded job.now }
    ensures ran { Ran (P.means worker.now) job.now (H.files host.old) (H.files host.new)
        (counted H.in_faults host.old host.new) (counted H.out_faults host.old host.new) result.status }
    ensures logged { result.status ≡ Status.Fine
        → HasLog (IsReported (over (P.means worker.now) job.now)
        (λ heads bytes log. LogHas (P.tells worker.now job.now heads bytes) (P.reads worker.now job.now heads bytes) log) (H.files host.old)) result.log }
    ensures traced { result.status ≡ Status.Fine → IfSome result.log (λ log. HoldsPrinted job.now (H.files host.old) (H.files host.new) log.history) }
    ensures created { CreatesWritten job.now (H.created host.new) (H.files host.old) (H.files host.new)
        (counted H.out_faults host.old host.new) result.status }
    ensures closed { (H.open_sources host.new ≡ H.open_sources host.old) × (H.open_sinks host.new ≡ H.open_sinks host.old) }
{
    let Ok(files) = written_files(alloc, job) else {
        return not_run(Status::NoMemory);
    };
    let files = files.as_slice();
    match first_kept(job, files, host) {
        Err(_) => not_run(Status::NoMemory),
        Ok(Some(number)) => not_run(status_of_kept(job.outputs.as_slice().len() as u32, number)),
        Ok(None) => run_free(alloc, worker, job, files, host),
    }
}
