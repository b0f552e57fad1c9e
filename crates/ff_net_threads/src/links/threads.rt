//! All nodes at once.
ghost use Rattle.std.specs.Prelude.{◌≡◌, ◌+◌, ◌≤◌, ℕ, [], List, length, vec_len, vec_capacity, IfOk, IfErr};
ghost use Rattle.ff_net_threads.specs.declared.links.linked.Linked.{Linked};
ghost use Rattle.ff_net_threads.specs.laws.links.Runs.{AllRan, AllLawful, AllOf};
ghost use Rattle.ff_net_threads.specs.laws.links.Workers.{AllServe};

use crate::links::bells::Bells;
use crate::links::linked::Linked;
use crate::links::rest::{Rest, SPINS_FOR_ITEMS, Step};
use crate::links::worker::{Worker, finish, start, turn_here};
use ff_net::{Machine, Turn};
use ff_sched::SchedCell;
use std::alloc::{AllocError, Global};
use std::hint::spin_loop;
use std::sync::Wait;
use std::sync::atomic::AtomicBool;
use std::thread;
use std::thread::{Scope, Threads};

fn round_of(all: bool, moved: bool) -> Turn {
    if all {
        Turn::Done
    } else if moved {
        Turn::Moved
    } else {
        Turn::NotYet
    }
}

// One turn of each node that is here. Done where each is done.
fn round<M: Machine, R: Wait>(
    rt: &R,
    cell: &SchedCell,
    bells: &Bells,
    workers: &mut [Worker<M>],
) -> Turn
    requires { (ns : List (Linked _)) × AllServe M.view ns workers.old × AllOf M.view cell.now ns }
    ensures { (ns : List (Linked _)) → AllServe M.view ns workers.old → AllServe M.view ns workers.new }
{
    let mut all = true;
    let mut moved = false;
    for worker in workers.iter_mut() {
        let turn = turn_here(rt, cell, bells, worker);
        all = all & (turn == Turn::Done);
        moved = moved | (turn == Turn::Moved);
    }
    round_of(all, moved)
}

// Turns the nodes that are here, one turn each in rounds, until each is done.
fn rounds<M: Machine, R: Wait>(rt: &R, cell: &SchedCell, bells: &Bells, workers: &mut [Worker<M>])
    requires { (ns : List (Linked _)) × AllServe M.view ns workers.old × AllOf M.view cell.now ns }
    ensures { (ns : List (Linked _)) → AllServe M.view ns workers.old → AllServe M.view ns workers.new }
{
    let mut rest = Rest::new();
    for _ in rt.forever() {
        match round(rt, cell, bells, workers) {
            Turn::Done => return,
            Turn::Moved => {
                rest.end();
            }
            Turn::NotYet => wait_here(rt, bells, &mut rest),
        }
    }
    unreachable!()
}

// After a round that moved nothing. Each node that isn't done has asked, so that the caller is woken as a worker is.
fn wait_here<R: Wait>(rt: &R, bells: &Bells, rest: &mut Rest) {
    match rest.next(SPINS_FOR_ITEMS) {
        Step::Spin | Step::Ask => spin_loop(),
        Step::Sleep(milliseconds) => bells.sleep(rt, bells.caller(), milliseconds),
    }
}

fn start_all<'s, E, M: Machine + Send + Drop + 's, R: Threads + Wait + Sync>(
    scope: &Scope<'s, E>,
    rt: &'s R,
    cell: &'s SchedCell,
    flags: &'s [AtomicBool],
    bells: &'s Bells,
    nodes: Vec<Linked<M>>,
    mut workers: Vec<Worker<M>>,
) -> Vec<Worker<M>>
    requires lawful { AllLawful M.view nodes.items }
    requires cell { AllOf M.view cell.now nodes.items }
    requires flags { vec_len nodes ≤ length flags.now }
    requires room { (workers.items ≡ []) × (vec_len nodes ≤ vec_capacity workers) }
    ensures { AllServe M.view nodes.items result.items }
{
    let mut next = 0;
    for node in nodes {
        workers.push_reserved(start(scope, rt, cell, &flags[next], bells, next, node));
        next += 1;
    }
    workers
}

fn finish_all<M: Machine + Drop, R: Threads + Wait>(
    rt: &R,
    cell: &SchedCell,
    bells: &Bells,
    workers: Vec<Worker<M>>,
    mut done: Vec<Linked<M>>,
) -> Vec<Linked<M>>
    requires serve { (ns : List (Linked _)) × AllServe M.view ns workers.items × AllOf M.view cell.now ns }
    requires room { (done.items ≡ []) × (vec_len workers ≤ vec_capacity done) }
    ensures { (ns : List (Linked _)) → AllServe M.view ns workers.items → AllRan M.view ns result.items }
{
    for worker in workers {
        done.push_reserved(finish(rt, cell, bells, worker));
    }
    done
}

fn run_in<'s, E, M: Machine + Send + Drop + 's, R: Threads + Wait + Sync>(
    scope: &Scope<'s, E>,
    rt: &'s R,
    cell: &'s SchedCell,
    flags: &'s [AtomicBool],
    bells: &'s Bells,
    nodes: Vec<Linked<M>>,
    workers: Vec<Worker<M>>,
    done: Vec<Linked<M>>,
) -> Vec<Linked<M>>
    requires lawful { AllLawful M.view nodes.items }
    requires cell { AllOf M.view cell.now nodes.items }
    requires flags { vec_len nodes ≤ length flags.now }
    requires workers { (workers.items ≡ []) × (vec_len nodes ≤ vec_capacity workers) }
    requires done { (done.items ≡ []) × (vec_len nodes ≤ vec_capacity done) }
    ensures { AllRan M.view nodes.items result.items }
{
    let mut workers = start_all(scope, rt, cell, flags, bells, nodes, workers);
    rounds(rt, cell, bells, workers.as_mut_slice());
    finish_all(rt, cell, bells, workers, done)
}

// The lists are long enough.
fn run_scoped<M: Machine + Send + Drop, R: Threads + Wait + Sync>(
    rt: &R,
    cell: &SchedCell,
    flags: &[AtomicBool],
    bells: &Bells,
    nodes: Vec<Linked<M>>,
    workers: Vec<Worker<M>>,
    done: Vec<Linked<M>>,
) -> Vec<Linked<M>>
    requires lawful { AllLawful M.view nodes.items }
    requires cell { AllOf M.view cell.now nodes.items }
    requires flags { vec_len nodes ≤ length flags.now }
    requires workers { (workers.items ≡ []) × (vec_len nodes ≤ vec_capacity workers) }
    requires done { (done.items ≡ []) × (vec_len nodes ≤ vec_capacity done) }
    ensures { AllRan M.view nodes.items result.items }
{
    thread::scope(
        thread::scope_env(),
        rt,
        |scope| -> Vec<Linked<M>>
            requires { AllLawful M.view nodes.items × AllOf M.view cell.now nodes.items × (vec_len nodes ≤ length flags.now)
                × (workers.items ≡ []) × (vec_len nodes ≤ vec_capacity workers) × (done.items ≡ []) × (vec_len nodes ≤ vec_capacity done) }
            ensures { AllRan M.view nodes.items result.items }
        { run_in(scope, rt, cell, flags, bells, nodes, workers, done) },
    )
}

// The bells of these nodes. A link whose number isn't below that of all ends has none.
fn bells_of<M: Machine>(alloc: Global, nodes: &Vec<Linked<M>>) -> Result<Bells, AllocError> {
    let mut ends: usize = 0;
    for node in nodes {
        ends = ends.saturating_add(node.ends());
    }
    let mut bells = Bells::new(alloc, nodes.len(), ends)?;
    let mut worker: usize = 0;
    for node in nodes {
        node.enter(&mut bells, worker);
        worker = worker.saturating_add(1);
    }
    Ok(bells)
}

// A list with room for so many.
fn list_for<T: Drop>(alloc: Global, count: usize) -> Result<Vec<T>, AllocError>
    ensures { IfOk result (λ list. (list.items ≡ []) × (count ≤ vec_capacity list)) }
{
    let mut list = Vec::new(alloc);
    list.reserve(count)?;
    Ok(list)
}

// So many flags, none of them set.
fn flags_for(alloc: Global, count: usize) -> Result<Vec<AtomicBool>, AllocError>
    ensures { IfOk result (λ flags. vec_len flags ≡ count) }
{
    let mut flags = Vec::new(alloc);
    for _ in 0..count {
        flags.push(AtomicBool::new(false))?;
    }
    Ok(flags)
}

/// Runs each node in a thread of its own until it is done, all under the scheduler of this cell. The caller turns those for
/// which no thread could be started. At `Err` there is no memory for the lists, and none was started.
pub fn run_threads<M: Machine + Send + Drop, R: Threads + Wait + Sync>(
    rt: &R,
    alloc: Global,
    nodes: Vec<Linked<M>>,
    cell: &SchedCell,
) -> Result<Vec<Linked<M>>, Vec<Linked<M>>>
    requires lawful { AllLawful M.view nodes.items }
    requires cell { AllOf M.view cell.now nodes.items }
    ensures ok { IfOk result (λ v. AllRan M.view nodes.items v.items) }
    ensures err { IfErr result (λ v. v.items ≡ nodes.items) }
{
    let Ok(bells) = bells_of(alloc, &nodes) else {
        return Err(nodes);
    };
    let count = nodes.len();
    let Ok(flags) = flags_for(alloc, count) else {
        return Err(nodes);
    };
    let Ok(workers) = list_for(alloc, count) else {
        return Err(nodes);
    };
    let Ok(done) = list_for(alloc, count) else {
        return Err(nodes);
    };
    Ok(run_scoped(rt, cell, flags.as_slice(), &bells, nodes, workers, done))
}
