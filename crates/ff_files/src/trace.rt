//! The run of a plan, and its log in the file after those of the outputs.
ghost use Rattle.std.specs.Prelude.{◌≡◌, ◌<◌, ◌≤◌, ◌+◌, ◌^◌, ◌++◌, ◌∷◌, ◌⊎◌, [], length, vec_capacity, option_to_list, IfSome};
ghost use Rattle.std.specs.Io.KnownBytes.{Appends};
ghost use Rattle.ff_host.specs.Causes.{Rose};
ghost use Rattle.ff_files.specs.laws.Runs.{IsRun};

use crate::work::{Done, Work, WorkEnd};
use ff_host::{Sink, SinkError, Source};
use std::alloc::Global;

// Writes what a run has logged to the sink of this number, where all was done, and says how the run ends with that.
fn write_log<H, Src: Source + Send + Drop, Snk: Sink + Send + Drop, W: Work<H, Src, Snk>>(
    alloc: Global,
    work: &W,
    number: u32,
    end: WorkEnd<W::Fault>,
    log: &Option<W::Log>,
    trace: &mut Snk,
) -> WorkEnd<W::Fault>
    ensures name { Snk.name trace.new ≡ Snk.name trace.old }
    ensures kept { (end ≡ WorkEnd.Fine → ⊥) → result ≡ end }
    ensures fine { result ≡ WorkEnd.Fine → end ≡ WorkEnd.Fine }
    ensures ended { end ≡ WorkEnd.Fine → (result ≡ WorkEnd.Fine) ⊎ (result ≡ WorkEnd.NoMemory)
        ⊎ ((result ≡ WorkEnd.Output number) × Rose (Snk.faults trace.old) (Snk.faults trace.new)) }
    ensures sound { result ≡ WorkEnd.Fine → Snk.faults trace.new ≡ Snk.faults trace.old }
    ensures unfailed { result ≡ WorkEnd.NoMemory → Snk.faults trace.new ≡ Snk.faults trace.old }
    ensures gained { result ≡ WorkEnd.Fine → IfSome log.now (λ l. Appends (Snk.holds trace.old) (Snk.holds trace.new) (W.printed l)) }
{
    let WorkEnd::Fine = end else {
        return end;
    };
    let Some(log) = log else {
        return WorkEnd::NoMemory;
    };
    let Ok(text) = work.print(alloc, log) else {
        return WorkEnd::NoMemory;
    };
    match trace.append(&text) {
        Ok(()) => WorkEnd::Fine,
        Err(SinkError::Failed) => WorkEnd::Output { output: number },
        Err(SinkError::NoMemory) => WorkEnd::NoMemory,
    }
}

// Sinks, and one more after them, in a list with room for all.
fn with_last<Snk: Drop>(mut all: Vec<Snk>, snks: Vec<Snk>, last: Snk) -> Vec<Snk>
    requires { (all.items ≡ []) × (length snks.items + 1 ≤ vec_capacity all) }
    ensures { result.items ≡ snks.items ++ last ∷ [] }
{
    for snk in snks {
        all.push_reserved(snk);
    }
    all.push_reserved(last);
    all
}

// Runs a plan over the sinks of the outputs, and writes what it has logged to that of the trace.
fn run_with_trace<H, Src: Source + Send + Drop, Snk: Sink + Send + Drop, W: Work<H, Src, Snk>>(
    alloc: Global,
    work: &W,
    plan: W::Plan,
    heads: &[H],
    srcs: Vec<Src>,
    snks: Vec<Snk>,
    mut trace: Snk,
    room: Vec<Snk>,
) -> Done<W::Fault, Src, Snk, W::Log>
    requires few { length snks.items < 2 ^ 32 }
    requires plan { W.is_plan work.now heads.now plan }
    requires room { (room.items ≡ []) × (length snks.items + 1 ≤ vec_capacity room) }
    ensures { IsRun (W.means work.now) Src.left Src.name Src.faults Snk.holds Snk.name Snk.faults (W.tells work.now heads.now) W.printed (length snks.items)
        heads.now srcs.items (snks.items ++ trace ∷ []) result.end result.log result.srcs.items result.snks.items }
{
    let number = snks.len() as u32;
    let Done {
        end,
        log,
        srcs,
        snks,
    } = work.run(plan, heads, srcs, snks);
    let end = write_log(alloc, work, number, end, &log, &mut trace);
    Done {
        end,
        log,
        srcs,
        snks: with_last(room, snks, trace),
    }
}

// Takes the sink after those of so many outputs, if there is one.
fn take_trace<Snk: Drop>(snks: &mut Vec<Snk>, count: usize) -> Option<Snk>
    requires { (count ≤ length snks.old.items) × (length snks.old.items ≤ count + 1) }
    ensures all { snks.old.items ≡ snks.new.items ++ option_to_list result }
    ensures left { length snks.new.items ≡ count }
{
    if count < snks.len() { snks.pop() } else { None }
}

/// Runs a plan over the sources of the inputs and the sinks of so many outputs. One more sink may stand after these,
/// that of the trace. It gains what the run has logged, as a string, in one append, where all was done.
pub(crate) fn run_traced<
    H,
    Src: Source + Send + Drop,
    Snk: Sink + Send + Drop,
    W: Work<H, Src, Snk>,
>(
    alloc: Global,
    work: &W,
    count: usize,
    plan: W::Plan,
    heads: &[H],
    srcs: Vec<Src>,
    mut snks: Vec<Snk>,
    room: Vec<Snk>,
) -> Done<W::Fault, Src, Snk, W::Log>
    requires few { length snks.items < 2 ^ 32 }
    requires plan { W.is_plan work.now heads.now plan }
    requires count { (count ≤ length snks.items) × (length snks.items ≤ count + 1) }
    requires room { (room.items ≡ []) × (length snks.items ≤ vec_capacity room) }
    ensures { IsRun (W.means work.now) Src.left Src.name Src.faults Snk.holds Snk.name Snk.faults (W.tells work.now heads.now) W.printed count
        heads.now srcs.items snks.items result.end result.log result.srcs.items result.snks.items }
{
    match take_trace(&mut snks, count) {
        None => work.run(plan, heads, srcs, snks),
        Some(trace) => run_with_trace(alloc, work, plan, heads, srcs, snks, trace, room),
    }
}
