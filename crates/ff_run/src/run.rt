//! The command: from the arguments and the files to the files, the log and the report.
ghost use denote.Param.Send.{IsSync};
ghost use Rattle.std.specs.Prelude.{◌≡◌, ◌≢◌, ◌⊎◌, ◌↔◌, [], ℕ, List, ⊤};
ghost use Rattle.std.specs.Io.KnownBytes.{Appends, Keeps};
ghost use Rattle.ff_host.specs.Causes.{Rose};
ghost use Rattle.ff_host.specs.Files.{KeepsFiles};
ghost use Rattle.ff_lists.specs.Appends.{AppendsPrefix};
ghost use Rattle.ff_reader.specs.declared.fault.HeadFault.{HeadFault};
ghost use Rattle.ff_reader.specs.declared.fault.HeadFault.TheVariants as head_fault;
ghost use Rattle.ff_words.specs.Words.{texts, fault};
ghost use Rattle.ff_words.specs.declared.error.Fault.{Fault};
ghost use Rattle.ff_run_plan.specs.declared.fault.RunFault.TheVariants as run_fault;
ghost use Rattle.ff_files.specs.laws.Targets.{target_holds, target_name, target_faults};
ghost use Rattle.ff_files.specs.Counts.{counted};
ghost use Rattle.ff_files.specs.Ends.{IsPlanRefused, IsBroken};
ghost use Rattle.ff_command.specs.Command.{AsksAlone, AsksText, AskGenerated, AsksGenerated, IsDue, IsOwnAnswer, ReportsOwn, ReportsOwnReads};
ghost use Rattle.ff_command.specs.Command.{AskFor, AreWrong, KeepsOtherFiles, ComesBeforeOutputs, ReportsHistory, ReportsReads, HoldsTrace};
ghost use Rattle.ff_command.specs.Command.{refused_head, refused_plan, over, HoldsMeaning, HoldsMade, HoldsFront, IsHeadRefused, IsDamaged, IsTooLong};
ghost use Rattle.ff_command.specs.Command.{KeepsThere, HasFailed, GivesNoHead, GivesNoPlan, GivesAll, KeepsInputCounts, KeepsOutputCounts};
ghost use Rattle.ff_command.specs.Steps.{CreatesAsked};
ghost use Rattle.ff_run.specs.build.Parts.{all_kinds};
ghost use Rattle.ff_run_plan.specs.laws.Accepting.{IsAccepted, IsPlanFor};
ghost use Rattle.ff_run.specs.Meaning.{job_means, IsJobHistory, AreJobReads};
ghost use Rattle.ff_run_plan.specs.Reads.{places_in};
ghost use Rattle.ff_run.specs.laws.Saying.{BegunSays, JobSays, PlanSays, QuietSays};

use crate::build::{Part, Parts};
use crate::worker::Threaded;
use ff_command::{Line, Report, Status, run_command};
use ff_files::{Done, PlanEnd, Target};
use ff_host::{Begun, Host, QuietSink, QuietSource, Sink, Source};
use ff_input::InputHead;
use ff_plan::Plan;
use ff_plan_layout::PlanError;
use ff_run_plan::{RunFault, RunLog, make_plan, run_plan};
use ff_words::Job;
use std::alloc::Global;
use std::sync::Wait;
use std::thread::Threads;

// Runs a plan of these heads over parts of any format.
fn run_parts<R: Threads + Wait + Sync, Src: Source + Send + Drop, Snk: Sink + Send + Drop>(
    rt: &R,
    alloc: Global,
    job: &Job,
    plan: Plan,
    heads: &[InputHead],
    srcs: Vec<Src>,
    snks: Vec<Snk>,
) -> Done<RunFault, Src, Snk, RunLog>
    requires { IsPlanFor all_kinds job.now heads.now plan }
    ensures { JobSays all_kinds Src.left Src.name Src.faults Snk.holds Snk.name Snk.faults
        job.now heads.now srcs.items snks.items result.end result.log result.srcs.items result.snks.items }
{
    run_plan::<Parts, R, Src, Snk, Part<Src, Snk>>(rt, alloc, job, plan, heads, srcs, snks)
}

/// The command: all that the program does.
///
/// It reads the arguments, opens the inputs by number, each with its head, plans by the heads, and creates the
/// outputs by number. It runs the plan's nodes, each in a thread of its own, until all are done. Then it closes the
/// inputs and then the outputs by number, and appends the line of a fault to the log. Where a step is refused, only
/// the closings and the line still follow, and the first refusal is the status. In the run it is the fault of the
/// first node that has one. Want of memory may end it at any step. That the run ends isn't claimed.
///
/// Where the arguments ask for a trace, its file is created after the outputs, and closed last. It gets the printed
/// history in one append where no node has a fault.
pub fn ffmpeg<R: Threads + Wait + Sync, H: Host, E: Sink>(
    rt: &R,
    alloc: Global,
    words: &[String],
    host: &mut H,
    log: &mut E,
) -> Report
    // With status Fine the arguments ask for a job, and each of its outputs holds the bytes that the job means. Or
    // they ask for what an option says that stands alone, which touches no file. A string that is asked for so is
    // told, or memory ran out.
    ensures bytes { result.status ≡ Status.Fine → AsksAlone (texts words.now) ⊎ HoldsMeaning job_means (texts words.now) (H.files host.old) (H.files host.new) }

    // A job that names no input means the same over any files: what its outputs hold the arguments alone say.
    ensures made { result.status ≡ Status.Fine → HoldsMade job_means (texts words.now) (H.files host.old) (H.files host.new) }

    ensures alone { AsksAlone (texts words.now) → host.new ≡ host.old }
    ensures text { AsksText (texts words.now) → ((result.status ≡ Status.Fine) ⊎ (result.status ≡ Status.NoMemory)) × (result.history ≡ []) }

    // The run over generated input answers as its one job over its own files does; nothing of these fails.
    ensures generated { (seconds : ℕ) → AskGenerated (texts words.now) seconds → IsOwnAnswer job_means seconds result.status }

    // Whatever the status, no other file changes but the trace. Arguments, heads and plans are refused before any
    // file is created. A run that fails later leaves of each output what was there, a prefix of what is written to
    // it, or all of it.
    ensures others { KeepsOtherFiles (texts words.now) (H.files host.old) (H.files host.new) }
    ensures untouched { ComesBeforeOutputs result.status → KeepsFiles (H.files host.old) (H.files host.new) }
    ensures front { HoldsFront job_means (texts words.now) (H.files host.old) (H.files host.new) }

    // The arguments are refused exactly where they ask for nothing.
    ensures words { (w : ℕ) (kind : _) → result.status ≡ Status.Words w kind → AreWrong (texts words.now) (fault w kind) }
    ensures wrong { (f : Fault) → AreWrong (texts words.now) f → (result.status ≡ Status.Words f.word f.kind) ⊎ (result.status ≡ Status.NoMemory) }

    // A head is refused exactly where it is the first that is, unless reading it or one before it failed.
    ensures unsupported { (i offset : ℕ) → result.status ≡ Status.Unsupported i offset
        → AsksGenerated (texts words.now) ⊎ AskFor (texts words.now) (λ job. IsHeadRefused job_means job (H.files host.old) i (head_fault.Unsupported offset)) }
    ensures damaged { (i offset : ℕ) → result.status ≡ Status.Damaged i offset
        → AsksGenerated (texts words.now) ⊎ AskFor (texts words.now) (λ job. IsDamaged job_means job (H.files host.old) (H.files host.new) i offset) }
    ensures refused { (i : ℕ) (why : HeadFault)
        → GivesNoHead job_means (texts words.now) (H.files host.old) (counted H.in_faults host.old host.new) i why
        → (result.status ≡ refused_head i why) ⊎ (result.status ≡ Status.NoMemory) }

    // The plan is refused exactly where the heads give none, unless reading failed.
    ensures plan { (why : PlanError) → result.status ≡ Status.Plan why
        → AsksGenerated (texts words.now) ⊎ AskFor (texts words.now) (λ job. IsPlanRefused (over job_means job) (H.files host.old) why) }
    ensures no_plan { (why : PlanError)
        → GivesNoPlan job_means (texts words.now) (H.files host.old) (counted H.in_faults host.old host.new) why
        → (result.status ≡ refused_plan why) ⊎ (result.status ≡ Status.NoMemory) }
    ensures plan_memory { result.status ≢ Status.Plan PlanError.NoMemory }

    // A run breaks only of the bytes of its inputs.
    ensures too_long { (node : ℕ) → result.status ≡ Status.TooLong node
        → AsksGenerated (texts words.now) ⊎ AskFor (texts words.now) (λ job. IsTooLong job_means job (H.files host.old) node) }
    ensures too_large { (output : ℕ) → result.status ≡ Status.TooLarge output
        → AsksGenerated (texts words.now) ⊎ AskFor (texts words.now) (λ job. IsBroken (over job_means job) (H.files host.old) (run_fault.TooLarge output)) }

    // A fault of a device is answered only where the count of that file's name rose, or `-n` keeps it.
    ensures device { (file : _) → result.status ≡ Status.Device file → AskFor (texts words.now) (λ job. HasFailed job_means job (H.files host.old)
        (counted H.in_faults host.old host.new) (counted H.out_faults host.old host.new) file) }

    // With `-n`, where a file is there that the job writes, the answer is the first such file, or memory ran out. No
    // file has changed.
    ensures kept { (file : _) → KeepsThere (texts words.now) (H.files host.old) file
        → KeepsFiles (H.files host.old) (H.files host.new) × ((result.status ≡ Status.Device file) ⊎ (result.status ≡ Status.NoMemory)) }

    // With status Fine no count has changed. A failure of reading is the status, unless a fault came before it or memory ran out.
    // Under names that are no input, or no output, nothing is counted.
    ensures in_counts { KeepsInputCounts job_means (texts words.now) (H.files host.old)
        (counted H.in_faults host.old host.new) result.status }
    ensures out_counts { KeepsOutputCounts job_means (texts words.now) (H.files host.old)
        (counted H.out_faults host.old host.new) result.status }

    // Nothing else keeps the command from being done.
    ensures complete { GivesAll job_means (texts words.now) (H.files host.old)
        (counted H.in_faults host.old host.new) (counted H.out_faults host.old host.new)
        → (result.status ≡ Status.Fine) ⊎ (result.status ≡ Status.NoMemory) }

    // No file is created before all inputs have heads and a plan. Where one can't be, that is the status, whatever a closing does, and
    // a failure is never answered as want of memory.
    ensures created { CreatesAsked (texts words.now) (H.created host.new) (H.files host.old) (H.files host.new)
        (counted H.out_faults host.old host.new) result.status }

    // Whatever the status, each source and each sink that it opened is given back.
    ensures closed { (H.open_sources host.new ≡ H.open_sources host.old) × (H.open_sinks host.new ≡ H.open_sinks host.old) }

    // The string that an option asks for that stands alone. For the run over generated input it is the line that
    // tells of its output. Else it is the line of a fault. That of a device's names the file.
    ensures line_not_due { (result.line ≡ Line.NotDue) ↔ ((result.status ≡ Status.Fine) × AskFor (texts words.now) (λ job. ⊤)) }
    ensures not_logged { result.line ≡ Line.NotDue → Keeps (E.holds log.old) (E.holds log.new) }
    ensures logged { result.line ≡ Line.Whole → (text : List ℕ) × IsDue job_means (texts words.now) result.status text
        × Appends (E.holds log.old) (E.holds log.new) text }
    ensures log_failed { result.line ≡ Line.Failed → Rose (E.faults log.old) (E.faults log.new)
        × ((text : List ℕ) × IsDue job_means (texts words.now) result.status text × AppendsPrefix (E.holds log.old) (E.holds log.new) text) }
    ensures line_no_memory { result.line ≡ Line.NoMemory → Keeps (E.holds log.old) (E.holds log.new) }
    ensures fine_line { result.status ≡ Status.Fine → result.line ≢ Line.NoMemory }

    // The history of what the scheduler of the run granted and was told, from the opening state of the plan on. The
    // trace holds it where the arguments ask for one. It is legal. Where the files are told it has the times of each
    // output's packets and then its end. It has the exit of each source that is read, after all its grants.
    ensures history { result.status ≡ Status.Fine → AsksAlone (texts words.now) ⊎ ReportsHistory job_means IsJobHistory (texts words.now) (H.files host.old) result.history }
    ensures trace { result.status ≡ Status.Fine → AsksAlone (texts words.now) ⊎ HoldsTrace (texts words.now) (H.files host.old) (H.files host.new) result.history }
    ensures no_history { result.status ≢ Status.Fine → result.history ≡ [] }

    // For each source the places in that history of the grants under which it tried a packet or found the end: for the
    // inputs, and then for the source filters, which give frames. They are the first grants of the source, in order,
    // and none where no stream asks for it. Where the files are told they are enough. What comes of the packets read
    // under them is at each output the whole stream already. Each source has at most one more than packets.
    ensures reads { result.status ≡ Status.Fine → AsksAlone (texts words.now)
        ⊎ ReportsReads job_means AreJobReads (texts words.now) (H.files host.old) result.history (places_in result.reads.items) }
    ensures no_reads { (result.status ≢ Status.Fine) ⊎ AsksText (texts words.now) → result.reads.items ≡ [] }

    // Those of the run over generated input are of its one job over its own files.
    ensures own_history { (seconds : ℕ) → AskGenerated (texts words.now) seconds → result.status ≡ Status.Fine
        → ReportsOwn job_means IsJobHistory seconds result.history }
    ensures own_reads { (seconds : ℕ) → AskGenerated (texts words.now) seconds → result.status ≡ Status.Fine
        → ReportsOwnReads job_means AreJobReads seconds result.history (places_in result.reads.items) }
{
    let plan = |job: &Job, heads: &[InputHead]| -> Result<Plan, PlanEnd<PlanError>>
        requires { IsAccepted all_kinds job.now heads.now }
        ensures { PlanSays all_kinds job.now heads.now result }
    {
        make_plan::<Parts, Begun<H::Src>, Target<H::Snk>, Part<Begun<H::Src>, Target<H::Snk>>>(
            alloc, job, heads,
        )
    };
    let run = |job: &Job, plan: Plan, heads: &[InputHead], srcs: Vec<Begun<H::Src>>, snks: Vec<
        Target<H::Snk>,
    >| -> Done<RunFault, Begun<H::Src>, Target<H::Snk>, RunLog>
        requires sync { IsSync R.row }
        requires plan { IsPlanFor all_kinds job.now heads.now plan }
        ensures { BegunSays all_kinds H.Src.left H.Src.name H.Src.faults target_holds target_name target_faults
            job.now heads.now srcs.items snks.items result.end result.log result.srcs.items result.snks.items }
    { run_parts::<R, Begun<H::Src>, Target<H::Snk>>(rt, alloc, job, plan, heads, srcs, snks) };
    let own_plan = |job: &Job, heads: &[InputHead]| -> Result<Plan, PlanEnd<PlanError>>
        requires { IsAccepted all_kinds job.now heads.now }
        ensures { PlanSays all_kinds job.now heads.now result }
    {
        make_plan::<
            Parts,
            Begun<QuietSource>,
            Target<QuietSink>,
            Part<Begun<QuietSource>, Target<QuietSink>>,
        >(alloc, job, heads)
    };
    let own_run = |job: &Job, plan: Plan, heads: &[InputHead], srcs: Vec<
        Begun<QuietSource>,
    >, snks: Vec<Target<QuietSink>>| -> Done<
        RunFault,
        Begun<QuietSource>,
        Target<QuietSink>,
        RunLog,
    >
        requires sync { IsSync R.row }
        requires plan { IsPlanFor all_kinds job.now heads.now plan }
        ensures { QuietSays all_kinds job.now heads.now srcs.items snks.items result.end result.log result.srcs.items result.snks.items }
    {
        run_parts::<R, Begun<QuietSource>, Target<QuietSink>>(
            rt, alloc, job, plan, heads, srcs, snks,
        )
    };
    let worker = Threaded { plan, run };
    let own = Threaded {
        plan: own_plan,
        run: own_run,
    };
    run_command(alloc, &worker, &own, words, host, log)
}
