//! A command over files, from the names to the files.
ghost use Rattle.std.specs.Prelude.{◌≡◌, ◌⊎◌, Option, Some, None, ◌<◌, ◌≤◌, ◌+◌, ◌-◌, ◌^◌, ℕ, List, [], length, vec_len, vec_capacity, IfOk, IfSome};
ghost use Rattle.std.specs.List.{All};
ghost use Rattle.ff_host.specs.Files.{Files, KeepsFiles};
ghost use Rattle.ff_reader.specs.declared.fault.HeadFault.{HeadFault};
ghost use Rattle.ff_files.specs.Names.{names_of, files_of, AreApart, KeepsAllBut};
ghost use Rattle.ff_files.specs.Counts.{counted, Faulted, KeepsCounts, AreUnfailed};
ghost use Rattle.ff_files.specs.laws.Hosts.{AreOpen};
ghost use Rattle.ff_files.specs.laws.Inputs.{AreBegun};
ghost use Rattle.ff_files.specs.Outputs.{CreatesOutputs};
ghost use Rattle.ff_files.specs.Works.{command_of, HasLog, AreHeadsIn, HoldMeaning, HoldTrace, HoldWritten, told_bytes};
ghost use Rattle.ff_files.specs.Ends.{Ends, ComesBeforeOutputs, end_of_output as end_by_output};
ghost use Rattle.ff_files.specs.Ends.{sound_inputs, sound_outputs, refusal, IsFirstRefused, HasNoPlan, CanBeDone};

use crate::closing::{close_all, close_sources};
use crate::end::{Outcome, RunEnd, end_of, end_of_output, end_of_plan, end_with};
use crate::head::InputFile;
use crate::inputs::{InputRefusal, open_inputs};
use crate::named::OutputFile;
use crate::outputs::{OutputRefusal, create_outputs};
use crate::target::Target;
use crate::trace::run_traced;
use crate::work::{Done, Work};
use ff_host::{Begun, Host, Source};
use std::alloc::{AllocError, Global};

// An empty list with room for so many.
fn room_for<T: Drop>(alloc: Global, count: usize) -> Result<Vec<T>, AllocError>
    ensures { IfOk result (λ list. (list.items ≡ []) × (count ≤ vec_capacity list)) }
{
    let mut list = Vec::new(alloc);
    list.reserve(count)?;
    Ok(list)
}

// The outcome where there was no memory before anything was done.
fn out_of_memory<R: Drop, F: Copy, L: Drop>() -> Outcome<R, F, L>
    ensures end { result.end ≡ RunEnd.NoMemory }
    ensures log { result.log ≡ None }
{
    Outcome {
        end: RunEnd::NoMemory,
        log: None,
    }
}

// Creates the outputs, runs the plan, and closes all, over inputs that have their heads.
fn write_outputs<
    H: Host,
    I: InputFile,
    N: OutputFile,
    W: Work<I::Head, Begun<H::Src>, Target<H::Snk>>,
>(
    alloc: Global,
    host: &mut H,
    inputs: &[I],
    outputs: &[N],
    count: usize,
    work: &W,
    plan: W::Plan,
    heads: &[I::Head],
    srcs: Vec<Begun<H::Src>>,
    mut snks: Vec<Target<H::Snk>>,
    room: Vec<Target<H::Snk>>,
) -> Outcome<W::Refusal, W::Fault, W::Log>
    requires few { length outputs.now < 2 ^ 32 }
    requires count { (count ≤ length outputs.now) × (length outputs.now ≤ count + 1) }
    requires apart { AreApart (files_of N.file_name outputs.now) }
    requires plan { W.is_plan work.now heads.now plan }
    requires planned { (W.means work.now).refusal heads.now ≡ None }
    requires own { AreOpen H.opened ⟦<Begun<H::Src> as Source>⟧.name host.old (names_of I.name_text inputs.now) srcs.items }
    requires many { length srcs.items ≡ length inputs.now }
    requires unfailed { AreUnfailed ⟦<Begun<H::Src> as Source>⟧.faults srcs.items (length inputs.now) }
    requires snks { (snks.items ≡ []) × (length outputs.now ≤ vec_capacity snks) }
    requires room { (room.items ≡ []) × (length outputs.now ≤ vec_capacity room) }
    ensures bytes { result.end ≡ RunEnd.Fine → (before : Option Files) → KeepsFiles before (H.files host.old)
        → AreBegun I.name_text I.head ⟦<Begun<H::Src> as Source>⟧.left before inputs.now srcs.items heads.now
        → HoldMeaning (command_of I.name_text I.head N.file_name inputs.now outputs.now count (W.means work.now)) before (H.files host.new) }
    ensures front { (before : Option Files) → KeepsFiles before (H.files host.old)
        → AreBegun I.name_text I.head ⟦<Begun<H::Src> as Source>⟧.left before inputs.now srcs.items heads.now
        → HoldWritten (command_of I.name_text I.head N.file_name inputs.now outputs.now count (W.means work.now)) before (H.files host.new) }
    ensures others { KeepsAllBut (H.files host.old) (H.files host.new) (files_of N.file_name outputs.now) (length outputs.now) }
    ensures ends { (before : Option Files) → KeepsFiles before (H.files host.old)
        → AreBegun I.name_text I.head ⟦<Begun<H::Src> as Source>⟧.left before inputs.now srcs.items heads.now
        → Ends (command_of I.name_text I.head N.file_name inputs.now outputs.now count (W.means work.now)) before
        (counted H.in_faults host.old host.new) (counted H.out_faults host.old host.new) result.end }
    ensures not_before { ComesBeforeOutputs result.end → ⊥ }
    ensures in_counts { KeepsCounts (H.in_faults host.old) (H.in_faults host.new) (names_of I.name_text inputs.now)
        (sound_inputs (command_of I.name_text I.head N.file_name inputs.now outputs.now count (W.means work.now)) result.end) }
    ensures out_counts { KeepsCounts (H.out_faults host.old) (H.out_faults host.new) (files_of N.file_name outputs.now)
        (sound_outputs (command_of I.name_text I.head N.file_name inputs.now outputs.now count (W.means work.now)) result.end) }
    ensures logged { result.end ≡ RunEnd.Fine → (before : Option Files) → KeepsFiles before (H.files host.old)
        → AreBegun I.name_text I.head ⟦<Begun<H::Src> as Source>⟧.left before inputs.now srcs.items heads.now
        → HasLog (W.tells work.now heads.now (told_bytes (command_of I.name_text I.head N.file_name inputs.now outputs.now count (W.means work.now)) before)) result.log }
    ensures traced { result.end ≡ RunEnd.Fine → (before : Option Files) → KeepsFiles before (H.files host.old) → IfSome result.log (λ log. HoldTrace
        (command_of I.name_text I.head N.file_name inputs.now outputs.now count (W.means work.now)) (W.printed log) before (H.files host.new)) }
    ensures created { CreatesOutputs (H.created host.new) (H.files host.old) (H.files host.new)
        (counted H.out_faults host.old host.new) (files_of N.file_name outputs.now) (λ k why. result.end ≡ end_by_output k why) }
    ensures open_sources { H.open_sources host.new ≡ H.open_sources host.old - vec_len srcs }
    ensures open_sinks { H.open_sinks host.new ≡ H.open_sinks host.old }
{
    match create_outputs(alloc, host, outputs, &mut snks) {
        Err(OutputRefusal { output, end }) => {
            close_all(host, inputs, outputs, srcs, snks);
            Outcome {
                end: end_of_output(output, end),
                log: None,
            }
        }
        Ok(()) => {
            let Done {
                end,
                log,
                srcs,
                snks,
            } = run_traced(alloc, work, count, plan, heads, srcs, snks, room);
            let unclosed = close_all(host, inputs, outputs, srcs, snks);
            Outcome {
                end: end_with(end, unclosed),
                log,
            }
        }
    }
}

// Plans by the heads, and goes on with the outputs, over inputs that have their heads.
fn plan_outputs<
    H: Host,
    I: InputFile,
    N: OutputFile,
    W: Work<I::Head, Begun<H::Src>, Target<H::Snk>>,
>(
    alloc: Global,
    host: &mut H,
    inputs: &[I],
    outputs: &[N],
    count: usize,
    work: &W,
    heads: &[I::Head],
    srcs: Vec<Begun<H::Src>>,
    snks: Vec<Target<H::Snk>>,
    room: Vec<Target<H::Snk>>,
) -> Outcome<W::Refusal, W::Fault, W::Log>
    requires few { length outputs.now < 2 ^ 32 }
    requires count { (count ≤ length outputs.now) × (length outputs.now ≤ count + 1) }
    requires apart { AreApart (files_of N.file_name outputs.now) }
    requires heads { W.accepts work.now heads.now }
    requires own { AreOpen H.opened ⟦<Begun<H::Src> as Source>⟧.name host.old (names_of I.name_text inputs.now) srcs.items }
    requires many { length srcs.items ≡ length inputs.now }
    requires unfailed { AreUnfailed ⟦<Begun<H::Src> as Source>⟧.faults srcs.items (length inputs.now) }
    requires snks { (snks.items ≡ []) × (length outputs.now ≤ vec_capacity snks) }
    requires room { (room.items ≡ []) × (length outputs.now ≤ vec_capacity room) }
    ensures bytes { result.end ≡ RunEnd.Fine → (before : Option Files) → KeepsFiles before (H.files host.old)
        → AreBegun I.name_text I.head ⟦<Begun<H::Src> as Source>⟧.left before inputs.now srcs.items heads.now
        → HoldMeaning (command_of I.name_text I.head N.file_name inputs.now outputs.now count (W.means work.now)) before (H.files host.new) }
    ensures front { (before : Option Files) → KeepsFiles before (H.files host.old)
        → AreBegun I.name_text I.head ⟦<Begun<H::Src> as Source>⟧.left before inputs.now srcs.items heads.now
        → HoldWritten (command_of I.name_text I.head N.file_name inputs.now outputs.now count (W.means work.now)) before (H.files host.new) }
    ensures others { KeepsAllBut (H.files host.old) (H.files host.new) (files_of N.file_name outputs.now) (length outputs.now) }
    ensures untouched { ComesBeforeOutputs result.end → KeepsFiles (H.files host.old) (H.files host.new) }
    ensures ends { (before : Option Files) → KeepsFiles before (H.files host.old)
        → AreBegun I.name_text I.head ⟦<Begun<H::Src> as Source>⟧.left before inputs.now srcs.items heads.now
        → Ends (command_of I.name_text I.head N.file_name inputs.now outputs.now count (W.means work.now)) before
        (counted H.in_faults host.old host.new) (counted H.out_faults host.old host.new) result.end }
    ensures in_counts { KeepsCounts (H.in_faults host.old) (H.in_faults host.new) (names_of I.name_text inputs.now)
        (sound_inputs (command_of I.name_text I.head N.file_name inputs.now outputs.now count (W.means work.now)) result.end) }
    ensures out_counts { KeepsCounts (H.out_faults host.old) (H.out_faults host.new) (files_of N.file_name outputs.now)
        (sound_outputs (command_of I.name_text I.head N.file_name inputs.now outputs.now count (W.means work.now)) result.end) }
    ensures logged { result.end ≡ RunEnd.Fine → (before : Option Files) → KeepsFiles before (H.files host.old)
        → AreBegun I.name_text I.head ⟦<Begun<H::Src> as Source>⟧.left before inputs.now srcs.items heads.now
        → HasLog (W.tells work.now heads.now (told_bytes (command_of I.name_text I.head N.file_name inputs.now outputs.now count (W.means work.now)) before)) result.log }
    ensures traced { result.end ≡ RunEnd.Fine → (before : Option Files) → KeepsFiles before (H.files host.old) → IfSome result.log (λ log. HoldTrace
        (command_of I.name_text I.head N.file_name inputs.now outputs.now count (W.means work.now)) (W.printed log) before (H.files host.new)) }
    ensures created { CreatesOutputs (H.created host.new) (H.files host.old) (H.files host.new)
        (counted H.out_faults host.old host.new) (files_of N.file_name outputs.now) (λ k why. result.end ≡ end_by_output k why) }
    ensures open_sources { H.open_sources host.new ≡ H.open_sources host.old - vec_len srcs }
    ensures open_sinks { H.open_sinks host.new ≡ H.open_sinks host.old }
{
    match work.plan(heads) {
        Err(end) => {
            close_sources(host, inputs, srcs);
            Outcome {
                end: end_of_plan(end),
                log: None,
            }
        }
        Ok(plan) => write_outputs(
            alloc, host, inputs, outputs, count, work, plan, heads, srcs, snks, room,
        ),
    }
}

// The same from the names on, without what follows of how it ends.
fn run_files<H: Host, I: InputFile, N: OutputFile, W: Work<I::Head, Begun<H::Src>, Target<H::Snk>>>(
    alloc: Global,
    host: &mut H,
    inputs: &[I],
    outputs: &[N],
    count: usize,
    work: &W,
) -> Outcome<W::Refusal, W::Fault, W::Log>
    requires few_inputs { length inputs.now < 2 ^ 32 }
    requires few_outputs { length outputs.now < 2 ^ 32 }
    requires count { (count ≤ length outputs.now) × (length outputs.now ≤ count + 1) }
    requires apart { AreApart (files_of N.file_name outputs.now) }
    requires accepts { (heads : List I.Head) → length heads ≡ length inputs.now → All I.is_sound heads → W.accepts work.now heads }
    ensures bytes { result.end ≡ RunEnd.Fine
        → HoldMeaning (command_of I.name_text I.head N.file_name inputs.now outputs.now count (W.means work.now)) (H.files host.old) (H.files host.new) }
    ensures front { HoldWritten (command_of I.name_text I.head N.file_name inputs.now outputs.now count (W.means work.now)) (H.files host.old) (H.files host.new) }
    ensures others { KeepsAllBut (H.files host.old) (H.files host.new) (files_of N.file_name outputs.now) (length outputs.now) }
    ensures untouched { ComesBeforeOutputs result.end → KeepsFiles (H.files host.old) (H.files host.new) }
    ensures ends { Ends (command_of I.name_text I.head N.file_name inputs.now outputs.now count (W.means work.now)) (H.files host.old)
        (counted H.in_faults host.old host.new) (counted H.out_faults host.old host.new) result.end }
    ensures in_counts { KeepsCounts (H.in_faults host.old) (H.in_faults host.new) (names_of I.name_text inputs.now)
        (sound_inputs (command_of I.name_text I.head N.file_name inputs.now outputs.now count (W.means work.now)) result.end) }
    ensures out_counts { KeepsCounts (H.out_faults host.old) (H.out_faults host.new) (files_of N.file_name outputs.now)
        (sound_outputs (command_of I.name_text I.head N.file_name inputs.now outputs.now count (W.means work.now)) result.end) }
    ensures logged { result.end ≡ RunEnd.Fine → HasLog (λ log. (heads : List I.Head)
        × AreHeadsIn (command_of I.name_text I.head N.file_name inputs.now outputs.now count (W.means work.now)) (H.files host.old) heads
        × W.tells work.now heads
        (told_bytes (command_of I.name_text I.head N.file_name inputs.now outputs.now count (W.means work.now)) (H.files host.old)) log) result.log }
    ensures traced { result.end ≡ RunEnd.Fine → IfSome result.log (λ log. HoldTrace
        (command_of I.name_text I.head N.file_name inputs.now outputs.now count (W.means work.now)) (W.printed log) (H.files host.old) (H.files host.new)) }
    ensures created { CreatesOutputs (H.created host.new) (H.files host.old) (H.files host.new)
        (counted H.out_faults host.old host.new) (files_of N.file_name outputs.now) (λ k why. result.end ≡ end_by_output k why) }
    ensures closed { (H.open_sources host.new ≡ H.open_sources host.old) × (H.open_sinks host.new ≡ H.open_sinks host.old) }
{
    let Ok(mut srcs) = room_for(alloc, inputs.len()) else {
        return out_of_memory();
    };
    let Ok(mut heads) = room_for(alloc, inputs.len()) else {
        return out_of_memory();
    };
    let Ok(snks) = room_for(alloc, outputs.len()) else {
        return out_of_memory();
    };
    let Ok(room) = room_for(alloc, outputs.len()) else {
        return out_of_memory();
    };
    match open_inputs(alloc, host, inputs, &mut srcs, &mut heads) {
        Err(InputRefusal { input, end }) => {
            close_sources(host, inputs, srcs);
            Outcome {
                end: end_of(input, end),
                log: None,
            }
        }
        Ok(()) => plan_outputs(
            alloc, host, inputs, outputs, count, work, &heads, srcs, snks, room,
        ),
    }
}

/// A command over files: all that is done between its arguments and its status.
///
/// It opens the inputs by number, each with its head, plans by the heads, creates the outputs by number, and runs.
/// Then it closes the sources and then the sinks by number. Where a step is refused, only the closings still follow,
/// and the first refusal is the end. Two inputs may have one name, which is then read twice; two outputs may not.
/// Want of memory may end it at any step.
///
/// So many of the outputs are the work's. One more may stand after them, the trace. It is created last, gets what the
/// run has logged in one append where all was done, and is closed last.
pub fn over_files<
    H: Host,
    I: InputFile,
    N: OutputFile,
    W: Work<I::Head, Begun<H::Src>, Target<H::Snk>>,
>(
    alloc: Global,
    host: &mut H,
    inputs: &[I],
    outputs: &[N],
    count: usize,
    work: &W,
) -> Outcome<W::Refusal, W::Fault, W::Log>
    requires few_inputs { length inputs.now < 2 ^ 32 }
    requires few_outputs { length outputs.now < 2 ^ 32 }
    requires count { (count ≤ length outputs.now) × (length outputs.now ≤ count + 1) }
    requires apart { AreApart (files_of N.file_name outputs.now) }
    requires accepts { (heads : List I.Head) → length heads ≡ length inputs.now → All I.is_sound heads → W.accepts work.now heads }
    ensures bytes { result.end ≡ RunEnd.Fine
        → HoldMeaning (command_of I.name_text I.head N.file_name inputs.now outputs.now count (W.means work.now)) (H.files host.old) (H.files host.new) }
    ensures front { HoldWritten (command_of I.name_text I.head N.file_name inputs.now outputs.now count (W.means work.now)) (H.files host.old) (H.files host.new) }
    ensures others { KeepsAllBut (H.files host.old) (H.files host.new) (files_of N.file_name outputs.now) (length outputs.now) }
    ensures untouched { ComesBeforeOutputs result.end → KeepsFiles (H.files host.old) (H.files host.new) }
    ensures ends { Ends (command_of I.name_text I.head N.file_name inputs.now outputs.now count (W.means work.now)) (H.files host.old)
        (counted H.in_faults host.old host.new) (counted H.out_faults host.old host.new) result.end }
    ensures in_counts { KeepsCounts (H.in_faults host.old) (H.in_faults host.new) (names_of I.name_text inputs.now)
        (sound_inputs (command_of I.name_text I.head N.file_name inputs.now outputs.now count (W.means work.now)) result.end) }
    ensures out_counts { KeepsCounts (H.out_faults host.old) (H.out_faults host.new) (files_of N.file_name outputs.now)
        (sound_outputs (command_of I.name_text I.head N.file_name inputs.now outputs.now count (W.means work.now)) result.end) }
    ensures logged { result.end ≡ RunEnd.Fine → HasLog (λ log. (heads : List I.Head)
        × AreHeadsIn (command_of I.name_text I.head N.file_name inputs.now outputs.now count (W.means work.now)) (H.files host.old) heads
        × W.tells work.now heads
        (told_bytes (command_of I.name_text I.head N.file_name inputs.now outputs.now count (W.means work.now)) (H.files host.old)) log) result.log }
    ensures traced { result.end ≡ RunEnd.Fine → IfSome result.log (λ log. HoldTrace
        (command_of I.name_text I.head N.file_name inputs.now outputs.now count (W.means work.now)) (W.printed log) (H.files host.old) (H.files host.new)) }
    // No output is created before all inputs have heads and a plan. Where one can't be, that is the end, whatever a closing does.
    ensures created { CreatesOutputs (H.created host.new) (H.files host.old) (H.files host.new)
        (counted H.out_faults host.old host.new) (files_of N.file_name outputs.now) (λ k why. result.end ≡ end_by_output k why) }
    ensures closed { (H.open_sources host.new ≡ H.open_sources host.old) × (H.open_sinks host.new ≡ H.open_sinks host.old) }
    // An input is refused exactly where it is the first whose head is, unless it or one before it couldn't be opened or read.
    ensures refused { (k : ℕ) (why : HeadFault)
        → IsFirstRefused (command_of I.name_text I.head N.file_name inputs.now outputs.now count (W.means work.now)) (H.files host.old) k why
        → ((i : ℕ) → i ≤ k → Faulted (counted H.in_faults host.old host.new) (names_of I.name_text inputs.now) i → ⊥)
        → (result.end ≡ refusal k why) ⊎ (result.end ≡ RunEnd.NoMemory) }
    // The plan is refused exactly where the heads give none, unless an input couldn't be opened or read.
    ensures no_plan { (why : W.Refusal)
        → HasNoPlan (command_of I.name_text I.head N.file_name inputs.now outputs.now count (W.means work.now)) (H.files host.old) why
        → ((i : ℕ) → Faulted (counted H.in_faults host.old host.new) (names_of I.name_text inputs.now) i → ⊥)
        → (result.end ≡ RunEnd.Refused why) ⊎ (result.end ≡ RunEnd.NoMemory) }
    // Nothing else keeps it from being done.
    ensures complete { CanBeDone (command_of I.name_text I.head N.file_name inputs.now outputs.now count (W.means work.now)) (H.files host.old)
        → ((i : ℕ) → Faulted (counted H.in_faults host.old host.new) (names_of I.name_text inputs.now) i → ⊥)
        → ((j : ℕ) → Faulted (counted H.out_faults host.old host.new) (files_of N.file_name outputs.now) j → ⊥)
        → (result.end ≡ RunEnd.Fine) ⊎ (result.end ≡ RunEnd.NoMemory) }
{
    run_files(alloc, host, inputs, outputs, count, work)
}
