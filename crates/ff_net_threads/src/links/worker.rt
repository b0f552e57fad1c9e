//! A worker for one node, which the caller turns where no thread can be started.
ghost use Rattle.std.specs.Prelude.{◌≡◌};
ghost use Rattle.ff_net_threads.specs.declared.links.linked.Linked.{Linked};
ghost use Rattle.ff_net.specs.laws.Nodes.{IsOf};
ghost use Rattle.ff_net_threads.specs.laws.links.Nodes.{IsLawful, node_of};
ghost use Rattle.ff_net_threads.specs.laws.links.Runs.{Came, Ran};
ghost use Rattle.ff_net_threads.specs.laws.links.Workers.{Serves};

use crate::links::bells::Bells;
use crate::links::linked::Linked;
use crate::links::rest::{Rest, SPINS_FOR_ITEMS, SPINS_FOR_ROOM, Step};
use ff_net::{Machine, Turn};
use ff_sched::SchedCell;
use std::hint::spin_loop;
use std::snapshot::Snapshot;
use std::sync::Wait;
use std::sync::atomic::{AtomicBool, Ordering};
use std::thread::{Promise, PromisedHandle, Scope, Threads};

/// What a worker gives back: the node, and whether it was turned until it was done.
#[derive(Drop)]
pub struct Back<M> {
    /// The node.
    pub node: Linked<M>,
    /// Whether it was turned until it was done.
    pub done: bool,
}

/// The promise of a worker: what it gives back came from this node.
#[derive(Drop)]
pub struct CameFrom<M>(Snapshot<Linked<M>>);

impl<M: Machine> Promise<Back<M>> for CameFrom<M> {
    ghost use Rattle.ff_net_threads.specs.laws.links.Runs.{Came};

    ghost kept_by = { λ p b. Came M.view p.0.value b };
}

/// A node with its thread, or here.
#[derive(Drop)]
pub enum Worker<M: Machine> {
    /// The node is in a thread of its own.
    Runs(PromisedHandle<Back<M>, CameFrom<M>>),
    /// The node is here, where no thread could be started.
    Here(Back<M>),
}

/// Turns a node until it is done.
pub fn run<M: Machine, R: Wait>(
    rt: &R,
    cell: &SchedCell,
    bells: &Bells,
    worker: usize,
    node: &mut Linked<M>,
)
    requires lawful { IsLawful M.view node.old }
    requires cell { IsOf M.view cell.now (node_of node.old) }
    ensures { Ran M.view node.old node.new }
{
    let mut rest = Rest::new();
    for _ in rt.forever() {
        let logged = node.logged();
        match node.turn(rt, cell) {
            Turn::Done => {
                node.tell(bells, logged, true);
                return;
            }
            Turn::Moved => {
                node.tell(bells, logged, false);
                go_on(bells, worker, node, &mut rest);
            }
            Turn::NotYet => wait(rt, bells, worker, node, &mut rest),
        }
    }
    unreachable!()
}

// After a turn that moved something.
fn go_on<M: Machine>(bells: &Bells, worker: usize, node: &Linked<M>, rest: &mut Rest) {
    if rest.end() {
        node.stop_asking(bells, worker);
    }
}

// After a turn that moved nothing.
fn wait<M: Machine, R: Wait>(
    rt: &R,
    bells: &Bells,
    worker: usize,
    node: &Linked<M>,
    rest: &mut Rest,
) {
    let spins = if node.waits_for_room() {
        SPINS_FOR_ROOM
    } else {
        SPINS_FOR_ITEMS
    };
    match rest.next(spins) {
        Step::Spin => spin_loop(),
        Step::Ask => {
            node.ask(bells, worker);
            node.tell(bells, node.logged(), true);
        }
        Step::Sleep(milliseconds) => bells.sleep(rt, worker, milliseconds),
    }
}

// What a thread runs. Where the flag is set it gives the node back unturned.
fn work<M: Machine, R: Wait>(
    rt: &R,
    cell: &SchedCell,
    refused: &AtomicBool,
    bells: &Bells,
    worker: usize,
    mut node: Linked<M>,
) -> Back<M>
    requires lawful { IsLawful M.view node }
    requires cell { IsOf M.view cell.now (node_of node) }
    ensures { Came M.view node result }
{
    if refused.load(Ordering::SeqCst) {
        return Back { node, done: false };
    }
    run(rt, cell, bells, worker, &mut node);
    Back { node, done: true }
}

/// Starts a thread for a node, or sets the flag and takes the node back.
pub fn start<'s, E, M: Machine + Send + Drop + 's, R: Threads + Wait + Sync>(
    scope: &Scope<'s, E>,
    rt: &'s R,
    cell: &'s SchedCell,
    refused: &'s AtomicBool,
    bells: &'s Bells,
    worker: usize,
    node: Linked<M>,
) -> Worker<M>
    requires lawful { IsLawful M.view node }
    requires cell { IsOf M.view cell.now (node_of node) }
    ensures { Serves M.view node result }
{
    let from = CameFrom(Snapshot::of(&node));
    match scope.spawn_with(
        from,
        move || -> Back<M>
            requires { IsLawful M.view node × IsOf M.view cell.now (node_of node) }
            ensures { Came M.view node result }
        { work(rt, cell, refused, bells, worker, node) },
    ) {
        Ok(handle) => Worker::Runs(handle),
        Err(e) => {
            refused.store(true, Ordering::SeqCst);
            bells.turns_here(worker);
            Worker::Here((e.value)())
        }
    }
}

/// One turn of a node that is here. Done where it runs in a thread.
pub fn turn_here<M: Machine, R: Wait>(
    rt: &R,
    cell: &SchedCell,
    bells: &Bells,
    worker: &mut Worker<M>,
) -> Turn
    requires { (n : Linked _) × Serves M.view n worker.old × IsOf M.view cell.now (node_of n) }
    ensures keeps { (n : Linked _) → Serves M.view n worker.old → Serves M.view n worker.new }
{
    match worker {
        Worker::Runs(_) => Turn::Done,
        Worker::Here(back) => turn_back(rt, cell, bells, back),
    }
}

// After a turn by the caller, who asks to be woken wherever nothing moved.
fn tell_and_ask<M: Machine>(bells: &Bells, node: &Linked<M>, logged: u64, asks: bool) {
    if asks {
        node.ask(bells, bells.caller());
    }
    node.tell(bells, logged, true);
}

fn turn_back<M: Machine, R: Wait>(
    rt: &R,
    cell: &SchedCell,
    bells: &Bells,
    back: &mut Back<M>,
) -> Turn
    requires lawful { IsLawful M.view back.old.node }
    requires cell { IsOf M.view cell.now (node_of back.old.node) }
    ensures { (n : Linked _) → Came M.view n back.old → Came M.view n back.new }
{
    if back.done {
        return Turn::Done;
    }
    let logged = back.node.logged();
    let turn = back.node.turn(rt, cell);
    tell_and_ask(bells, &back.node, logged, turn == Turn::NotYet);
    back.done = turn == Turn::Done;
    turn
}

/// Waits for the node of a worker, and turns it until it is done where it isn't.
pub fn finish<M: Machine + Drop, R: Threads + Wait>(
    rt: &R,
    cell: &SchedCell,
    bells: &Bells,
    worker: Worker<M>,
) -> Linked<M>
    requires { (n : Linked _) × Serves M.view n worker × IsOf M.view cell.now (node_of n) }
    ensures { (n : Linked _) → Serves M.view n worker → Ran M.view n result }
{
    match worker {
        Worker::Runs(handle) => finish_back(rt, cell, bells, handle.join(rt)),
        Worker::Here(back) => finish_back(rt, cell, bells, back),
    }
}

fn finish_back<M: Machine, R: Wait>(
    rt: &R,
    cell: &SchedCell,
    bells: &Bells,
    back: Back<M>,
) -> Linked<M>
    requires lawful { IsLawful M.view back.node }
    requires cell { IsOf M.view cell.now (node_of back.node) }
    ensures { (n : Linked _) → Came M.view n back → Ran M.view n result }
{
    let Back { mut node, done } = back;
    if !done {
        run(rt, cell, bells, bells.caller(), &mut node);
    }
    node
}
