//! Tests of passes of one cell that work at once, with two streams on two sources.
ghost use Rattle.std.specs.Prelude.{◌≡◌, ◌-◌, ◌<◌, ◌≤◌, ◌^◌, [], ◌∷◌, All, length, sum_by, IfOk};
ghost use Rattle.ff_sched.specs.laws.Passing.{Scheduler, Passing};
ghost use Rattle.ff_test_net.specs.sched.Two.{IsTwo, IsOf, AreOf, IsLike};

use crate::sched::reader::{Lane, STEP, read};
use ff_frame::Event;
use ff_sched::{Grant, Graphs, Pass, Routes, SchedCell, SchedState, Way, Ways};
use std::alloc::{AllocError, Global};
use std::sync::Wait;
use std::test::Fail;
use std::thread::{Threads, join_mut};

// How many turns a worker has.
const TURNS: u64 = 50_000;

// How many events a worker tells or is granted at most.
const EVENTS: u64 = 2 * TURNS;

// What a worker does in each turn, for the source and the stream of this number.
#[derive(Clone, Copy)]
struct Job {
    number: u32,
    asks: bool,
    tells: bool,
}

fn routes_of(alloc: Global) -> Result<Routes, AllocError>
    ensures { IfOk result IsTwo }
{
    let mut streams = Vec::new(alloc);
    streams.push(Way::Source(0))?;
    streams.push(Way::Source(1))?;
    Ok(Routes {
        sources: 2,
        streams: Ways::new(streams),
        graphs: Graphs::new(Vec::new(alloc)),
    })
}

fn cell_of<R: Wait>(rt: &R, alloc: Global) -> Result<(SchedCell, Pass), AllocError>
    ensures cell { IfOk result (λ r. IsOf r.0 r.1) }
    ensures share { IfOk result (λ r. (r.1.share ≡ 2 ^ 62) × (r.1.log ≡ [])) }
{
    let routes = routes_of(alloc)?;
    if !routes.fit() {
        return Err(AllocError);
    }
    let state = SchedState::opening(&routes, 0);
    SchedCell::new(rt, alloc, state, routes)
}

// A pass for a worker, with room for all that it may add.
fn part_of(cell: &SchedCell, pass: &mut Pass) -> Result<Pass, AllocError>
    requires cell { IsOf cell.now pass.old }
    requires share { (100000 ≤ pass.old.share) × (pass.old.log ≡ []) }
    ensures cell { IfOk result (λ r. IsOf cell.now r × IsOf cell.now pass.new) }
    ensures share { IfOk result (λ r. (r.share ≡ 100000) × (pass.new.share ≡ pass.old.share - 100000) × (pass.new.log ≡ [])) }
{
    let mut part = cell.split(pass, EVENTS)?;
    part.reserve(EVENTS as usize)?;
    Ok(part)
}

// Asks for a grant, where the pass has room. Whether it was given.
fn ask<R: Wait>(rt: &R, cell: &SchedCell, pass: &mut Pass, source: u32) -> bool
    requires cell { IsOf cell.now pass.old }
    requires source { source < 2 }
    ensures { IsLike pass.old pass.new }
{
    if pass.spare() == 0 || pass.logged() >= pass.share() {
        return false;
    }
    matches!(cell.take_grant(rt, pass, source), Grant::Go(ticket) if ticket.source == source)
}

// Tells that a packet was taken, where the pass has room.
fn tell<R: Wait>(rt: &R, cell: &SchedCell, pass: &mut Pass, stream: u32, time: u64)
    requires cell { IsOf cell.now pass.old }
    requires range { (stream < 2) × (time < 2 ^ 63) }
    ensures { IsLike pass.old pass.new }
{
    if pass.spare() > 0 && pass.logged() < pass.share() {
        cell.tell(rt, pass, Event::Sent(stream, time));
    }
}

// All turns of a worker: how many grants it was given.
fn work<R: Wait>(rt: &R, cell: &SchedCell, pass: &mut Pass, job: Job) -> u64
    requires cell { IsOf cell.now pass.old }
    requires number { job.number < 2 }
    ensures { IsLike pass.old pass.new }
{
    let mut grants = 0u64;
    for turn in 0..TURNS {
        if job.asks && ask(rt, cell, pass, job.number) {
            grants = grants.saturating_add(1);
        }
        if job.tells {
            tell(rt, cell, pass, job.number, turn * STEP);
        }
    }
    grants
}

// Two workers at once: how many grants they were given.
fn work_both<R: Threads + Wait + Sync>(
    rt: &R,
    cell: &SchedCell,
    first: &mut Pass,
    second: &mut Pass,
    one: Job,
    two: Job,
) -> u64
    requires cell { IsOf cell.now first.old × IsOf cell.now second.old }
    requires number { (one.number < 2) × (two.number < 2) }
    ensures { IsLike first.old first.new × IsLike second.old second.new }
{
    let mut run_first = || -> u64
        requires { IsOf cell.now first.now × (one.number < 2) }
        ensures { IsLike first.entry.now first.exit.now }
    { work(rt, cell, first, one) };
    let mut run_second = || -> u64
        requires { IsOf cell.now second.now × (two.number < 2) }
        ensures { IsLike second.entry.now second.exit.now }
    { work(rt, cell, second, two) };
    let (grants, more) = join_mut(rt, &mut run_first, &mut run_second);
    grants.saturating_add(more)
}

// Two passes that work at the same time.
#[derive(Drop)]
struct Crew {
    first: Pass,
    second: Pass,
}

fn crew_of(cell: &SchedCell, pass: &mut Pass) -> Result<Crew, AllocError>
    requires cell { IsOf cell.now pass.old }
    requires share { (200000 ≤ pass.old.share) × (pass.old.log ≡ []) }
    ensures cell { IfOk result (λ crew. AreOf cell.now crew.first crew.second × IsOf cell.now pass.new) }
    ensures share { IfOk result (λ crew. (pass.new.share ≡ pass.old.share - 200000) × (pass.new.log ≡ [])) }
{
    let first = part_of(cell, pass)?;
    let second = part_of(cell, pass)?;
    Ok(Crew { first, second })
}

fn work_crew<R: Threads + Wait + Sync>(
    rt: &R,
    cell: &SchedCell,
    crew: &mut Crew,
    one: Job,
    two: Job,
) -> u64
    requires cell { AreOf cell.now crew.old.first crew.old.second }
    requires number { (one.number < 2) × (two.number < 2) }
    ensures { AreOf cell.now crew.new.first crew.new.second }
{
    work_both(rt, cell, &mut crew.first, &mut crew.second, one, two)
}

// Two crews at once, of which each has these two jobs.
fn work_all<R: Threads + Wait + Sync>(
    rt: &R,
    cell: &SchedCell,
    first: &mut Crew,
    second: &mut Crew,
    one: (Job, Job),
    two: (Job, Job),
) -> u64
    requires cell { AreOf cell.now first.old.first first.old.second × AreOf cell.now second.old.first second.old.second }
    requires one { (one.0.number < 2) × (one.1.number < 2) }
    requires two { (two.0.number < 2) × (two.1.number < 2) }
    ensures { AreOf cell.now first.new.first first.new.second × AreOf cell.now second.new.first second.new.second }
{
    let mut run_first = || -> u64
        requires { AreOf cell.now first.now.first first.now.second × (one.0.number < 2) × (one.1.number < 2) }
        ensures { AreOf cell.entry.now first.exit.now.first first.exit.now.second }
    { work_crew(rt, cell, first, one.0, one.1) };
    let mut run_second = || -> u64
        requires { AreOf cell.now second.now.first second.now.second × (two.0.number < 2) × (two.1.number < 2) }
        ensures { AreOf cell.entry.now second.exit.now.first second.exit.now.second }
    { work_crew(rt, cell, second, two.0, two.1) };
    let (grants, more) = join_mut(rt, &mut run_first, &mut run_second);
    grants.saturating_add(more)
}

fn passes_of(alloc: Global, rest: Pass, first: Crew, second: Crew) -> Result<Vec<Pass>, AllocError>
    ensures { IfOk result (λ v. v.items ≡ rest ∷ first.first ∷ first.second ∷ second.first ∷ second.second ∷ []) }
{
    let mut passes = Vec::with_capacity(alloc, 5)?;
    passes.push_reserved(rest);
    passes.push_reserved(first.first);
    passes.push_reserved(first.second);
    passes.push_reserved(second.first);
    passes.push_reserved(second.second);
    Ok(passes)
}

// What a history has, and what the workers said.
#[derive(Clone, Copy, PartialEq, Eq, Debug)]
struct Counts {
    lanes: (Lane, Lane),
    events: u64,
    logged: u64,
    grants: u64,
}

// Closes the cell, and reads the history.
fn closed<R: Wait>(rt: &R, cell: SchedCell, passes: Vec<Pass>, grants: u64) -> Result<Counts, Fail>
    requires cell { All (λ p. p.cell ≡ cell) passes.items }
    requires shares { sum_by (λ p. p.share) passes.items ≡ 2 ^ 62 }
{
    let mut logged = 0u64;
    for pass in &passes {
        logged = logged.saturating_add(pass.logged());
    }
    let Ok(history) = cell.close(rt, passes) else {
        return Err("no memory".into());
    };
    let Some(lanes) = read(history.events()) else {
        return Err("the history isn't legal".into());
    };
    let events = history.events().len() as u64;
    Ok(Counts {
        lanes,
        events,
        logged,
        grants,
    })
}

// Whether each packet is in the history and each grant that was given, and the counts add up.
fn add_up(counts: Counts) -> bool {
    let (first, second) = counts.lanes;
    let grants = first.grants.saturating_add(second.grants);
    first.packets == TURNS
        && second.packets == TURNS
        && grants == counts.grants
        && counts.events == counts.logged
        && counts.events == EVENTS.saturating_add(grants)
}

// Four passes at work: what came of it.
fn at_once<R: Threads + Wait + Sync>(
    rt: &R,
    alloc: Global,
    one: (Job, Job),
    two: (Job, Job),
) -> Result<Counts, Fail>
    requires one { (one.0.number < 2) × (one.1.number < 2) }
    requires two { (two.0.number < 2) × (two.1.number < 2) }
{
    let (cell, mut rest) = cell_of(rt, alloc)?;
    let mut first = crew_of(&cell, &mut rest)?;
    let mut second = crew_of(&cell, &mut rest)?;
    let grants = work_all(rt, &cell, &mut first, &mut second, one, two);
    let passes = passes_of(alloc, rest, first, second)?;
    closed(rt, cell, passes, grants)
}

fn job_for(number: u32, asks: bool, tells: bool) -> Job
    ensures { result.number ≡ number }
{
    Job {
        number,
        asks,
        tells,
    }
}

// Two passes, each for a stream and its source; the other two wait.
#[test]
fn two_passes(rt: HostRuntime) -> Result<(), Fail> {
    let one = (job_for(0, true, true), job_for(0, false, false));
    let two = (job_for(1, true, true), job_for(1, false, false));
    let counts = at_once(&rt, rt.alloc(), one, two)?;
    assert!(rt; add_up(counts), "{counts:?}");
    Ok(())
}

// Four passes: each stream and each source has one.
#[test]
fn four_passes(rt: HostRuntime) -> Result<(), Fail> {
    let one = (job_for(0, true, false), job_for(1, false, true));
    let two = (job_for(0, false, true), job_for(1, true, false));
    let counts = at_once(&rt, rt.alloc(), one, two)?;
    assert!(rt; add_up(counts), "{counts:?}");
    Ok(())
}
