//! A command: from the arguments and the files to the files, the log and the report.
ghost use Rattle.std.specs.Prelude.{◌≡◌, ◌≢◌, ◌⊎◌, ◌↔◌, [], ℕ, List, None, IfSome, ⊤, true, false};
ghost use Rattle.std.specs.Io.KnownBytes.{Appends, Keeps};
ghost use Rattle.ff_host.specs.Causes.{Rose};
ghost use Rattle.ff_host.specs.Files.{KeepsFiles};
ghost use Rattle.ff_lists.specs.Appends.{AppendsPrefix};
ghost use Rattle.ff_reader.specs.declared.fault.HeadFault.{HeadFault};
ghost use Rattle.ff_reader.specs.declared.fault.HeadFault.TheVariants as head_fault;
ghost use Rattle.ff_words.specs.Words.{texts, fault};
ghost use Rattle.ff_words.specs.declared.error.Fault.{Fault};
ghost use Rattle.ff_run_plan.specs.declared.fault.RunFault.TheVariants as run_fault;
ghost use Rattle.ff_files.specs.Counts.{counted};
ghost use Rattle.ff_files.specs.Ends.{IsPlanRefused, IsBroken};
ghost use Rattle.ff_command.specs.Command.{AsksAlone, AsksText, AskGenerated, AsksGenerated, IsTold, IsDue, IsOwnAnswer, ReportsOwn, ReportsOwnReads};
ghost use Rattle.ff_command.specs.Command.{Ask, AskFor, AreWrong, IsNamed, HasFile, file_name, KeepsOtherFiles, ComesBeforeOutputs, ReportsHistory, ReportsReads, HoldsTrace};
ghost use Rattle.ff_command.specs.Command.{refused_head, refused_plan, over, HoldsMeaning, HoldsMade, HoldsFront, IsHeadRefused, IsDamaged, IsTooLong};
ghost use Rattle.ff_command.specs.Command.{KeepsThere, HasFailed, GivesNoHead, GivesNoPlan, GivesAll, KeepsInputCounts, KeepsOutputCounts};
ghost use Rattle.ff_command.specs.Histories.{history_in, reads_in, LogHas};
ghost use Rattle.ff_run_plan.specs.Reads.{places_in};
ghost use Rattle.ff_files.specs.Works.{HasLog};
ghost use Rattle.ff_command.specs.Steps.{wrong_words, IsOfJob, CreatesAsked, Answered};

use crate::history::History;
use crate::log::log_end;
use crate::report::{FileRef, Line, Report, Status};
use crate::run::{JobRun, run_job};
use crate::told::{Told, tell};
use crate::worker::Worker;
use ff_files::Target;
use ff_host::{Begun, Host, QuietSink, QuietSource, Sink};
use ff_plan_layout::PlanError;
use ff_run_plan::RunLog;
use ff_words::{Command, Job, WordError, WordKind, read_words};
use std::alloc::Global;

// The status of arguments that ask for nothing.
fn status_of_words(error: WordError) -> Status
    ensures { result ≡ wrong_words error }
{
    match error {
        WordError::At { word, kind } => Status::Words { word, kind },
        WordError::NoMemory => Status::NoMemory,
    }
}

// The name of a file of a job.
fn name_of_file(job: &Job, file: FileRef) -> &str
    requires { HasFile job.now file }
    ensures { result.now ≡ file_name job.now file }
{
    match file {
        FileRef::Input(input) => job.inputs.as_slice()[input as usize].name.as_str(),
        FileRef::Output(output) => job.outputs.as_slice()[output as usize].name.as_str(),
        FileRef::Trace => match &job.trace {
            Some(name) => name.as_str(),
            None => unreachable!(),
        },
    }
}

/// How arguments were run, and the job that they ask for, or what they ask to be told.
#[derive(Drop)]
struct Worked {
    status: Status,
    job: Option<Job>,
    told: Option<Vec<u8>>,
    run: Option<RunLog>,
}

// Reads the arguments, and runs the job that they ask for.
fn run_words<
    H: Host,
    P: Worker<Begun<H::Src>, Target<H::Snk>>,
    Q: Worker<Begun<QuietSource>, Target<QuietSink>>,
>(alloc: Global, worker: &P, own: &Q, words: &[String], host: &mut H) -> Worked
    requires able { P.is_able worker.now }
    requires own { Q.is_able own.now }
    ensures answered { Answered (P.means worker.now) (texts words.now) (H.files host.old) (H.files host.new)
        (counted H.in_faults host.old host.new) (counted H.out_faults host.old host.new) result.status }
    ensures asked { IfSome result.job (λ job. Ask (texts words.now) job) }
    ensures told { IfSome result.told (λ text. IsTold (Q.means own.now) (texts words.now) text.items × (result.status ≡ Status.Fine)) }
    ensures alone { AsksAlone (texts words.now) → host.new ≡ host.old }
    ensures text { AsksText (texts words.now) → result.run ≡ None }
    ensures generated { (seconds : ℕ) → AskGenerated (texts words.now) seconds → IsOwnAnswer (Q.means own.now) seconds result.status }
    ensures own_logged { (seconds : ℕ) → AskGenerated (texts words.now) seconds → result.status ≡ Status.Fine
        → HasLog (ReportsOwn (Q.means own.now)
        (λ job heads bytes log. LogHas (Q.tells own.now job heads bytes) (Q.reads own.now job heads bytes) log) seconds) result.run }
    ensures silent { result.status ≡ Status.Fine → result.told ≡ None → AskFor (texts words.now) (λ job. ⊤) }
    ensures named { (file : _) → result.status ≡ Status.Device file → IsOfJob result.job file }
    ensures logged { result.status ≡ Status.Fine
        → AsksAlone (texts words.now) ⊎ HasLog (ReportsHistory (P.means worker.now)
        (λ job heads bytes log. LogHas (P.tells worker.now job heads bytes) (P.reads worker.now job heads bytes) log) (texts words.now) (H.files host.old)) result.run }
    ensures traced { result.status ≡ Status.Fine
        → AsksAlone (texts words.now) ⊎ IfSome result.run (λ log. HoldsTrace (texts words.now) (H.files host.old) (H.files host.new) log.history) }
    ensures created { CreatesAsked (texts words.now) (H.created host.new) (H.files host.old) (H.files host.new)
        (counted H.out_faults host.old host.new) result.status }
    ensures closed { (H.open_sources host.new ≡ H.open_sources host.old) × (H.open_sinks host.new ≡ H.open_sinks host.old) }
{
    match read_words(alloc, words) {
        Err(error) => Worked {
            status: status_of_words(error),
            job: None,
            told: None,
            run: None,
        },
        Ok(Command::Solo(solo)) => {
            let Told { status, text, run } = tell(alloc, own, solo);
            Worked {
                status,
                job: None,
                told: text,
                run,
            }
        }
        Ok(Command::Run(job)) => {
            let JobRun { status, log } = run_job(alloc, worker, &job, host);
            Worked {
                status,
                job: Some(job),
                told: None,
                run: log,
            }
        }
    }
}

// The name of the file of a device's fault; the empty string for any other status.
fn name_of<'a>(status: &Status, job: &'a Option<Job>) -> &'a str
    requires { (file : _) → status.now ≡ Status.Device file → IsOfJob job.now file }
    ensures { (words : List (List ℕ)) → IfSome job.now (λ job. Ask words job) → IsNamed words status.now result.now }
{
    match status {
        Status::Device { file } => match job {
            Some(job) => name_of_file(job, *file),
            None => unreachable!(),
        },
        _ => "",
    }
}

/// What is reported of a run.
#[derive(Drop)]
struct RunReport {
    history: History,
    reads: Vec<Vec<u64>>,
}

// Nothing.
fn nothing(alloc: Global) -> RunReport
    ensures { (result.history ≡ []) × (result.reads.items ≡ []) }
{
    RunReport {
        history: History::new(None),
        reads: Vec::new(alloc),
    }
}

// What is reported with a status.
fn reported(alloc: Global, status: &Status, run: Option<RunLog>) -> RunReport
    ensures fine { status.now ≡ Status.Fine → (result.history ≡ history_in run) × (places_in result.reads.items ≡ reads_in run) }
    ensures other { (status.now ≢ Status.Fine) ⊎ (run ≡ None) → (result.history ≡ []) × (result.reads.items ≡ []) }
{
    let Some(RunLog { history, reads }) = run else {
        return nothing(alloc);
    };
    match status {
        Status::Fine => RunReport {
            history: History::new(Some(history)),
            reads,
        },
        _ => nothing(alloc),
    }
}

// Whether all was done, but for a string that was asked for: there was no memory to log it.
fn is_untold(status: &Status, line: Line) -> bool
    ensures untold { result ≡ true → (status.now ≡ Status.Fine) × (line ≡ Line.NoMemory) }
    ensures told { result ≡ false → status.now ≡ Status.Fine → line ≢ Line.NoMemory }
{
    match status {
        Status::Fine => match line {
            Line::NoMemory => true,
            _ => false,
        },
        _ => false,
    }
}

// What is reported where there was no memory to log a string that was asked for.
fn out_of_memory(alloc: Global) -> Report
    ensures status { (result.status ≡ Status.NoMemory) × (result.line ≡ Line.NoMemory) }
    ensures other { (result.history ≡ []) × (result.reads.items ≡ []) }
{
    let RunReport { history, reads } = nothing(alloc);
    Report {
        status: Status::NoMemory,
        history,
        reads,
        line: Line::NoMemory,
    }
}

/// A command: all that the program does, whatever works its jobs.
///
/// It reads the arguments, opens the inputs by number, each with its head, plans by the heads, creates the outputs by
/// number, and runs. Then it closes the inputs and then the outputs by number, and appends the line of a fault to the
/// log. Where a step is refused, only the closings and the line still follow, and the first refusal is the status. In
/// the run it is the fault of the first node that has one. Want of memory may end it at any step. That the run ends
/// isn't claimed.
///
/// Where the arguments ask for a trace, its file is created after the outputs, and closed last. It gets the printed
/// history in one append where no node has a fault.
///
/// Where the arguments ask for the run over generated input, that job is worked by `own` over a host in memory.
/// Nothing of `host` is touched, and the line that tells of its output is appended to the log.
pub fn run_command<
    H: Host,
    E: Sink,
    P: Worker<Begun<H::Src>, Target<H::Snk>>,
    Q: Worker<Begun<QuietSource>, Target<QuietSink>>,
>(alloc: Global, worker: &P, own: &Q, words: &[String], host: &mut H, log: &mut E) -> Report
    requires able { P.is_able worker.now }
    requires own { Q.is_able own.now }

    // With status Fine the arguments ask for a job, and each of its outputs holds the bytes that the job means. Or
    // they ask for what an option says that stands alone, which touches no file. A string that is asked for so is
    // told, or memory ran out.
    ensures bytes { result.status ≡ Status.Fine → AsksAlone (texts words.now) ⊎ HoldsMeaning (P.means worker.now) (texts words.now) (H.files host.old) (H.files host.new) }

    // A job that names no input means the same over any files: what its outputs hold the arguments alone say.
    ensures made { result.status ≡ Status.Fine → HoldsMade (P.means worker.now) (texts words.now) (H.files host.old) (H.files host.new) }

    ensures alone { AsksAlone (texts words.now) → host.new ≡ host.old }
    ensures text { AsksText (texts words.now) → ((result.status ≡ Status.Fine) ⊎ (result.status ≡ Status.NoMemory)) × (result.history ≡ []) }

    // The run over generated input answers as its one job over its own files does; nothing of these fails.
    ensures generated { (seconds : ℕ) → AskGenerated (texts words.now) seconds → IsOwnAnswer (Q.means own.now) seconds result.status }

    // Whatever the status, no other file changes but the trace. Arguments, heads and plans are refused before any
    // file is created. A run that fails later leaves of each output what was there, a prefix of what is written to
    // it, or all of it.
    ensures others { KeepsOtherFiles (texts words.now) (H.files host.old) (H.files host.new) }
    ensures untouched { ComesBeforeOutputs result.status → KeepsFiles (H.files host.old) (H.files host.new) }
    ensures front { HoldsFront (P.means worker.now) (texts words.now) (H.files host.old) (H.files host.new) }

    // The arguments are refused exactly where they ask for nothing.
    ensures words { (w : ℕ) (kind : _) → result.status ≡ Status.Words w kind → AreWrong (texts words.now) (fault w kind) }
    ensures wrong { (f : Fault) → AreWrong (texts words.now) f → (result.status ≡ Status.Words f.word f.kind) ⊎ (result.status ≡ Status.NoMemory) }

    // A head is refused exactly where it is the first that is, unless reading it or one before it failed.
    ensures unsupported { (i offset : ℕ) → result.status ≡ Status.Unsupported i offset
        → AsksGenerated (texts words.now)
        ⊎ AskFor (texts words.now) (λ job. IsHeadRefused (P.means worker.now) job (H.files host.old) i (head_fault.Unsupported offset)) }
    ensures damaged { (i offset : ℕ) → result.status ≡ Status.Damaged i offset
        → AsksGenerated (texts words.now) ⊎ AskFor (texts words.now) (λ job. IsDamaged (P.means worker.now) job (H.files host.old) (H.files host.new) i offset) }
    ensures refused { (i : ℕ) (why : HeadFault)
        → GivesNoHead (P.means worker.now) (texts words.now) (H.files host.old) (counted H.in_faults host.old host.new) i why
        → (result.status ≡ refused_head i why) ⊎ (result.status ≡ Status.NoMemory) }

    // The plan is refused exactly where the heads give none, unless reading failed.
    ensures plan { (why : PlanError) → result.status ≡ Status.Plan why
        → AsksGenerated (texts words.now) ⊎ AskFor (texts words.now) (λ job. IsPlanRefused (over (P.means worker.now) job) (H.files host.old) why) }
    ensures no_plan { (why : PlanError)
        → GivesNoPlan (P.means worker.now) (texts words.now) (H.files host.old) (counted H.in_faults host.old host.new) why
        → (result.status ≡ refused_plan why) ⊎ (result.status ≡ Status.NoMemory) }
    ensures plan_memory { result.status ≢ Status.Plan PlanError.NoMemory }

    // A run breaks only of the bytes of its inputs.
    ensures too_long { (node : ℕ) → result.status ≡ Status.TooLong node
        → AsksGenerated (texts words.now) ⊎ AskFor (texts words.now) (λ job. IsTooLong (P.means worker.now) job (H.files host.old) node) }
    ensures too_large { (output : ℕ) → result.status ≡ Status.TooLarge output
        → AsksGenerated (texts words.now) ⊎ AskFor (texts words.now) (λ job. IsBroken (over (P.means worker.now) job) (H.files host.old) (run_fault.TooLarge output)) }

    // A fault of a device is answered only where the count of that file's name rose, or `-n` keeps it.
    ensures device { (file : _) → result.status ≡ Status.Device file → AskFor (texts words.now) (λ job. HasFailed (P.means worker.now) job (H.files host.old)
        (counted H.in_faults host.old host.new) (counted H.out_faults host.old host.new) file) }

    // With `-n`, where a file is there that the job writes, the answer is the first such file, or memory ran out. No
    // file has changed.
    ensures kept { (file : _) → KeepsThere (texts words.now) (H.files host.old) file
        → KeepsFiles (H.files host.old) (H.files host.new) × ((result.status ≡ Status.Device file) ⊎ (result.status ≡ Status.NoMemory)) }

    // With status Fine no count has changed. A failure of reading is the status, unless a fault came before it or memory ran out.
    // Under names that are no input, or no output, nothing is counted.
    ensures in_counts { KeepsInputCounts (P.means worker.now) (texts words.now) (H.files host.old) (counted H.in_faults host.old host.new) result.status }
    ensures out_counts { KeepsOutputCounts (P.means worker.now) (texts words.now) (H.files host.old) (counted H.out_faults host.old host.new) result.status }

    // Nothing else keeps the command from being done.
    ensures complete { GivesAll (P.means worker.now) (texts words.now) (H.files host.old)
        (counted H.in_faults host.old host.new) (counted H.out_faults host.old host.new)
        → (result.status ≡ Status.Fine) ⊎ (result.status ≡ Status.NoMemory) }

    // No file is created before all inputs have heads and a plan. Where one can't be, that is the status, whatever a closing does, and
    // a failure is never answered as want of memory.
    ensures created { CreatesAsked (texts words.now) (H.created host.new) (H.files host.old) (H.files host.new)
        (counted H.out_faults host.old host.new) result.status }

    // Whatever the status, each source and each sink that it opened is given back.
    ensures closed { (H.open_sources host.new ≡ H.open_sources host.old) × (H.open_sinks host.new ≡ H.open_sinks host.old) }

    // The string that an option asks for that stands alone. For the run over generated input it is the line that
    // tells of its output. Else it is the line of a fault. That of a device's names the file.
    ensures line_not_due { (result.line ≡ Line.NotDue) ↔ ((result.status ≡ Status.Fine) × AskFor (texts words.now) (λ job. ⊤)) }
    ensures not_logged { result.line ≡ Line.NotDue → Keeps (E.holds log.old) (E.holds log.new) }
    ensures logged { result.line ≡ Line.Whole → (text : List ℕ) × IsDue (Q.means own.now) (texts words.now) result.status text
        × Appends (E.holds log.old) (E.holds log.new) text }
    ensures log_failed { result.line ≡ Line.Failed → Rose (E.faults log.old) (E.faults log.new)
        × ((text : List ℕ) × IsDue (Q.means own.now) (texts words.now) result.status text × AppendsPrefix (E.holds log.old) (E.holds log.new) text) }
    ensures line_no_memory { result.line ≡ Line.NoMemory → Keeps (E.holds log.old) (E.holds log.new) }
    ensures fine_line { result.status ≡ Status.Fine → result.line ≢ Line.NoMemory }

    // The history of what the scheduler of the run granted and was told, which the trace holds where the arguments ask for one.
    ensures history { result.status ≡ Status.Fine
        → AsksAlone (texts words.now) ⊎ ReportsHistory (P.means worker.now) (P.tells worker.now) (texts words.now) (H.files host.old) result.history }
    ensures trace { result.status ≡ Status.Fine → AsksAlone (texts words.now) ⊎ HoldsTrace (texts words.now) (H.files host.old) (H.files host.new) result.history }
    ensures no_history { result.status ≢ Status.Fine → result.history ≡ [] }

    // For each input the places in that history of the grants under which its source tried a unit.
    ensures reads { result.status ≡ Status.Fine → AsksAlone (texts words.now)
        ⊎ ReportsReads (P.means worker.now) (P.reads worker.now) (texts words.now) (H.files host.old) result.history (places_in result.reads.items) }
    ensures no_reads { (result.status ≢ Status.Fine) ⊎ AsksText (texts words.now) → result.reads.items ≡ [] }

    // Those of the run over generated input are of its one job over its own files.
    ensures own_history { (seconds : ℕ) → AskGenerated (texts words.now) seconds → result.status ≡ Status.Fine
        → ReportsOwn (Q.means own.now) (Q.tells own.now) seconds result.history }
    ensures own_reads { (seconds : ℕ) → AskGenerated (texts words.now) seconds → result.status ≡ Status.Fine
        → ReportsOwnReads (Q.means own.now) (Q.reads own.now) seconds result.history (places_in result.reads.items) }
{
    let Worked {
        status,
        job,
        told,
        run,
    } = run_words(alloc, worker, own, words, host);
    let line = log_end(alloc, &told, &status, name_of(&status, &job), log);
    if is_untold(&status, line) {
        return out_of_memory(alloc);
    }
    let RunReport { history, reads } = reported(alloc, &status, run);
    Report {
        status,
        history,
        reads,
        line,
    }
}
