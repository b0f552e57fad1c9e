//! Calls on the scheduler's cell, measured: two streams on two sources.

ghost use Rattle.std.specs.Prelude.{◌≡◌, ◌<◌, ◌≤◌, ◌^◌, [], length, IfOk};

use ff_frame::Event;
use ff_sched::{Graphs, Pass, Routes, SchedCell, SchedState, Way, Ways};
use std::alloc::{AllocError, Global};
use std::io;
use std::rt::Clock;
use std::sync::Wait;
use std::thread::{Threads, join_mut};
use std::time::Instant;

/// How many events there are of each kind.
const EVENTS: u64 = 1 << 19;

/// Prints how many nanoseconds a grant, a tell and a refusal take, and a call where two threads meet on the cell.
pub fn measure<R: Threads + Wait + Sync + Print + Clock>(rt: &R, alloc: Global) -> io::Result<()> {
    alone(rt, alloc)?;
    refused(rt, alloc)?;
    together(rt, alloc)
}

fn two_routes(alloc: Global) -> Result<Routes, AllocError>
    ensures { IfOk result (λ r. (r.sources ≡ 2) × (length r.streams ≡ 2)) }
{
    let mut streams = Vec::new(alloc);
    streams.push(Way::Source(0))?;
    streams.push(Way::Source(1))?;
    Ok(Routes {
        sources: 2,
        streams: Ways::new(streams),
        graphs: Graphs::new(Vec::new(alloc)),
    })
}

/// A cell, and a pass of it with room for so many events.
fn cell_for<R: Wait>(rt: &R, alloc: Global, events: u64) -> Result<(SchedCell, Pass), AllocError>
    ensures cell { IfOk result (λ r. (r.0.routes.sources ≡ 2) × (length r.0.routes.streams ≡ 2) × (r.1.cell ≡ r.0)) }
    ensures share { IfOk result (λ r. (r.1.share ≡ 2 ^ 62) × (r.1.log ≡ [])) }
{
    let routes = two_routes(alloc)?;
    if !routes.fit() {
        return Err(AllocError);
    }
    let state = SchedState::opening(&routes, 0);
    let (cell, mut pass) = SchedCell::new(rt, alloc, state, routes)?;
    pass.reserve(events as usize)?;
    Ok((cell, pass))
}

/// Tells of a packet, where the pass has room.
fn tell<R: Wait>(rt: &R, cell: &SchedCell, pass: &mut Pass, stream: u32, time: u64)
    requires routes { (cell.now.routes.sources ≡ 2) × (length cell.now.routes.streams ≡ 2) }
    requires cell { pass.old.cell ≡ cell.now }
    requires range { (stream < 2) × (time < 2 ^ 63) }
    ensures { pass.new.cell ≡ cell.now }
{
    if pass.spare() > 0 && pass.logged() < pass.share() {
        cell.tell(rt, pass, Event::Sent(stream, time));
    }
}

/// Asks for a grant of source 1, where the pass has room.
fn ask<R: Wait>(rt: &R, cell: &SchedCell, pass: &mut Pass)
    requires routes { (cell.now.routes.sources ≡ 2) × (length cell.now.routes.streams ≡ 2) }
    requires cell { pass.old.cell ≡ cell.now }
    ensures { pass.new.cell ≡ cell.now }
{
    if pass.spare() > 0 && pass.logged() < pass.share() {
        cell.take_grant(rt, pass, 1);
    }
}

fn tell_all<R: Wait>(rt: &R, cell: &SchedCell, pass: &mut Pass)
    requires routes { (cell.now.routes.sources ≡ 2) × (length cell.now.routes.streams ≡ 2) }
    requires cell { pass.old.cell ≡ cell.now }
    ensures { pass.new.cell ≡ cell.now }
{
    for time in 0..EVENTS {
        tell(rt, cell, pass, 0, time);
    }
}

fn ask_all<R: Wait>(rt: &R, cell: &SchedCell, pass: &mut Pass)
    requires routes { (cell.now.routes.sources ≡ 2) × (length cell.now.routes.streams ≡ 2) }
    requires cell { pass.old.cell ≡ cell.now }
    ensures { pass.new.cell ≡ cell.now }
{
    for _ in 0..EVENTS {
        ask(rt, cell, pass);
    }
}

/// The nanoseconds since then, for each of so many events.
fn nanos_each(rt: &impl Clock, start: Instant, events: u64) -> io::Result<u128> {
    Ok(start.elapsed(rt)?.as_nanos() / u128::from(events.max(1)))
}

/// One thread: stream 1 has no dts, so that its source may always be read.
fn alone<R: Wait + Print + Clock>(rt: &R, alloc: Global) -> io::Result<()> {
    let (cell, mut pass) = cell_for(rt, alloc, 2 * EVENTS)?;
    let start = Instant::now(rt)?;
    ask_all(rt, &cell, &mut pass);
    let grant = nanos_each(rt, start, EVENTS)?;
    let start = Instant::now(rt)?;
    tell_all(rt, &cell, &mut pass);
    let tell = nanos_each(rt, start, EVENTS)?;
    println!(rt;
        "a grant {grant} ns, a tell {tell} ns ({} events)",
        pass.logged()
    )
}

/// Stream 1 is far ahead, so that its source is never granted.
fn refused<R: Wait + Print + Clock>(rt: &R, alloc: Global) -> io::Result<()> {
    let (cell, mut pass) = cell_for(rt, alloc, EVENTS)?;
    tell(rt, &cell, &mut pass, 0, 0);
    tell(rt, &cell, &mut pass, 1, 1_000_000);
    let start = Instant::now(rt)?;
    ask_all(rt, &cell, &mut pass);
    let refusal = nanos_each(rt, start, EVENTS)?;
    println!(rt; "a refusal {refusal} ns ({} events)", pass.logged())
}

/// One thread tells, the other asks.
fn together<R: Threads + Wait + Sync + Print + Clock>(rt: &R, alloc: Global) -> io::Result<()> {
    let (cell, mut teller) = cell_for(rt, alloc, EVENTS)?;
    let mut asker = cell.split(&mut teller, EVENTS)?;
    asker.reserve(EVENTS as usize)?;
    let start = Instant::now(rt)?;
    at_once(rt, &cell, &mut teller, &mut asker);
    let each = nanos_each(rt, start, 2 * EVENTS)?;
    let logged = teller.logged().saturating_add(asker.logged());
    println!(rt; "two threads, one tells and one asks: {each} ns a call ({logged} events)")
}

fn at_once<R: Threads + Wait + Sync>(rt: &R, cell: &SchedCell, teller: &mut Pass, asker: &mut Pass)
    requires routes { (cell.now.routes.sources ≡ 2) × (length cell.now.routes.streams ≡ 2) }
    requires cell { (teller.old.cell ≡ cell.now) × (asker.old.cell ≡ cell.now) }
{
    let mut tells = || -> ()
        requires { (cell.now.routes.sources ≡ 2) × (length cell.now.routes.streams ≡ 2) × (teller.now.cell ≡ cell.now) }
    { tell_all(rt, cell, teller) };
    let mut asks = || -> ()
        requires { (cell.now.routes.sources ≡ 2) × (length cell.now.routes.streams ≡ 2) × (asker.now.cell ≡ cell.now) }
    { ask_all(rt, cell, asker) };
    join_mut(rt, &mut tells, &mut asks);
}
