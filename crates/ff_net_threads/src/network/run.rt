//! A network run to its end, each node in a thread of its own.
ghost use Rattle.std.specs.Prelude.{◌≡◌, ◌<◌, ◌≤◌, ◌^◌, ◌++◌, ◌∷◌, [], ℕ, All, List, length, sum_by, true};
ghost use Rattle.std.specs.Prelude.{vec_len, vec_capacity, IfOk, IfErr, IfSome};
ghost use Rattle.ff_stream.specs.declared.item.Lane.{Lane};
ghost use Rattle.ff_link.specs.laws.Views.{Link};
ghost use Rattle.ff_net.specs.Nets.{solve};
ghost use Rattle.ff_net.specs.Pasts.{Task};
ghost use Rattle.ff_net.specs.laws.Serial.{parts_of};
ghost use Rattle.ff_net_threads.specs.laws.links.Runs.{AllLawful, AllOf};
ghost use Rattle.ff_net_threads.specs.laws.links.Settling.{AreLinked, nodes_of};
ghost use Rattle.ff_net_threads.specs.network.Fits.{ins_at, outs_at, network};
ghost use Rattle.ff_net_threads.specs.laws.network.Networks.{Begins, Fits, AllStart, machines_in, ports_of};
ghost use Rattle.ff_net_threads.specs.laws.network.Runs.{FirstFault, AllKept, TellsFault, MeetsNetwork, ReadsSuffice, ins_in, outs_in};
ghost use Rattle.ff_net_threads.specs.laws.network.Scheduling.{AllPassed, AllRouted, AreLogged, Scheduled, logs_in};
ghost use Rattle.ff_sched.specs.laws.Passing.{IsHistory};
ghost use Rattle.ff_sched.specs.laws.Routes.{AreRoutes};

use crate::links::{Linked, Room, run_threads, settle_all};
use crate::network::wiring::{into_machines, wire_up};
use ff_link::Claims;
use ff_net::{Fault, Machine};
use ff_sched::{History, Pass, Routes, SchedCell, SchedState};
use ff_stream::Edge;
use std::alloc::Global;
use std::sync::Wait;
use std::thread::Threads;

/// What went wrong, and at which node, by number from 0.
#[derive(Clone, Copy, Debug, PartialEq, Eq)]
pub struct NodeFault {
    /// The number of the node, from 0.
    pub node: u32,
    /// What went wrong there.
    pub fault: Fault,
}

/// What became of the machines of a network, in the order of the nodes.
#[derive(Drop)]
pub struct Ran<M> {
    /// The machines.
    pub machines: Vec<M>,
    /// The fault of the first node that has one.
    pub fault: Option<NodeFault>,
    /// All that was granted and told, in one order. None where there is no memory for it.
    pub history: Option<History>,
}

/// What became of nodes on links, in their order.
#[derive(Drop)]
pub struct Ended<M> {
    /// The machines.
    pub machines: Vec<M>,
    /// Their passes. In the list is room for one more.
    pub passes: Vec<Pass>,
    /// The fault of the first node that has one.
    pub fault: Option<NodeFault>,
}

// The first node with a fault, and its fault.
fn first_fault<M: Machine>(nodes: &[Linked<M>]) -> Option<NodeFault>
    requires { length nodes.now < 2 ^ 32 }
    ensures { FirstFault M.view (nodes_of nodes.now) result }
{
    for k in 0..nodes.len() {
        if let Some(fault) = nodes[k].fault() {
            return Some(NodeFault {
                node: k as u32,
                fault,
            });
        }
    }
    None
}

/// Runs nodes on links with numbers below `links`, each in a thread of its own until it is done, and settles their
/// links. The scheduler is that of this cell. That this comes isn't claimed. The nodes come back as they were where
/// memory is refused before the start.
///
/// What holds of streams and of the logs of the passes holds for all tasks that the machines can have. There may be
/// none of these.
pub fn run_net<R: Threads + Wait + Sync, M: Machine + Send + Drop>(
    rt: &R,
    alloc: Global,
    nodes: Vec<Linked<M>>,
    cell: &SchedCell,
    links: usize,
) -> Result<Ended<M>, Vec<Linked<M>>>
    requires few { length nodes.items < 2 ^ 32 }
    requires lawful { AllLawful M.view nodes.items }
    requires cell { AllOf M.view cell.now nodes.items }
    requires linked { (by_number : ℕ → Link) × AreLinked by_number nodes.items }
    ensures back { IfErr result (λ back. back.items ≡ nodes.items) }
    ensures kept { IfOk result (λ ran. AllKept M.view (machines_in nodes.items) ran.machines.items) }
    ensures fault { IfOk result (λ ran. TellsFault M.view ran.machines.items ran.fault) }
    ensures passes { IfOk result (λ ran. AllPassed nodes.items ran.passes.items) }
    ensures room { IfOk result (λ ran. vec_len ran.passes < vec_capacity ran.passes) }
    ensures solved { IfOk result (λ ran. (tasks : ℕ → Task) (lanes : List Lane) → Begins M.view tasks lanes nodes.items → length lanes ≤ links
        → MeetsNetwork M.view tasks (parts_of M.view tasks (nodes_of nodes.items)) (ins_in nodes.items) (outs_in nodes.items) ran.machines.items ran.fault) }
    ensures suffice { IfOk result (λ ran. (tasks : ℕ → Task) (lanes : List Lane) → Begins M.view tasks lanes nodes.items → length lanes ≤ links
        → ReadsSuffice M.view (parts_of M.view tasks (nodes_of nodes.items)) (ins_in nodes.items) (outs_in nodes.items) ran.machines.items ran.fault) }
    ensures logged { IfOk result (λ ran. (tasks : ℕ → Task) (lanes : List Lane) → Begins M.view tasks lanes nodes.items → length lanes ≤ links
        → AreLogged M.view tasks (solve (parts_of M.view tasks (nodes_of nodes.items))) (ins_in nodes.items) (outs_in nodes.items)
        ran.machines.items ran.fault (logs_in ran.passes.items)) }
{
    let Ok(room) = Room::new(alloc, nodes.len() + 1, links) else {
        return Err(nodes);
    };
    match run_threads(rt, alloc, nodes, cell) {
        Ok(done) => {
            let fault = first_fault(&done);
            let ran = settle_all(done, room);
            Ok(Ended {
                machines: ran.machines,
                passes: ran.passes,
                fault,
            })
        }
        Err(nodes) => Err(nodes),
    }
}

// What became of machines whose passes and this one have all events of the cell.
fn closed<M: Drop, R: Wait>(rt: &R, cell: SchedCell, rest: Pass, ended: Ended<M>) -> Ran<M>
    requires cell { All (λ p. p.cell ≡ cell) (ended.passes.items ++ rest ∷ []) }
    requires shares { sum_by (λ p. p.share) (ended.passes.items ++ rest ∷ []) ≡ 2 ^ 62 }
    requires room { vec_len ended.passes < vec_capacity ended.passes }
    ensures machines { result.machines ≡ ended.machines }
    ensures fault { result.fault ≡ ended.fault }
    ensures history { IfSome result.history (λ h. IsHistory cell (ended.passes.items ++ rest ∷ []) h) }
{
    let Ended {
        machines,
        mut passes,
        fault,
    } = ended;
    passes.push_reserved(rest);
    let history = match cell.close(rt, passes) {
        Ok(history) => Some(history),
        Err(_) => None,
    };
    Ran {
        machines,
        fault,
        history,
    }
}

/// Runs machines as the nodes of a network, on a new link of this size for each edge. Each runs in a thread of its
/// own until it is done. The scheduler begins in this state with these routes. That this comes isn't claimed. They
/// come back as they were where memory is refused before the start.
///
/// `C` claims that what the machines are for is known. Where it claims nothing, less is promised. Each machine keeps
/// its source or sink and has the fault of its own device, and the history is one by the scheduler's rules. There may
/// be fewer than 2^16 machines, so that the right to add 2^62 events to the history is enough for all.
pub fn run_network<C: Claims, R: Threads + Wait + Sync, M: Machine + Send + Drop>(
    rt: &R,
    alloc: Global,
    machines: Vec<M>,
    edges: &[Edge],
    size: usize,
    state: SchedState,
    routes: Routes,
) -> Result<Ran<M>, Vec<M>>
    requires few { length machines.items < 2 ^ 16 }
    requires size { (1 ≤ size) × (size ≤ 1024) }
    requires fits { Fits M.view edges.now machines.items }
    requires count { state.count ≡ 0 }
    requires routes { AreRoutes routes }
    requires sources { AllRouted M.view routes machines.items }
    requires start { C.claims ≡ true → (tasks : ℕ → Task) × AllStart M.view tasks machines.items }
    ensures back { IfErr result (λ back. back.items ≡ machines.items) }
    ensures kept { IfOk result (λ ran. AllKept M.view machines.items ran.machines.items) }
    ensures fault { IfOk result (λ ran. TellsFault M.view ran.machines.items ran.fault) }
    ensures solved { IfOk result (λ ran. C.claims ≡ true → (tasks : ℕ → Task) → AllStart M.view tasks machines.items
        → MeetsNetwork M.view tasks (network tasks (ports_of M.view machines.items) edges.now (length machines.items)) (ins_at (ports_of M.view machines.items) edges.now) (outs_at (ports_of M.view machines.items) edges.now) ran.machines.items ran.fault) }
    ensures suffice { IfOk result (λ ran. C.claims ≡ true → (tasks : ℕ → Task) → AllStart M.view tasks machines.items
        → ReadsSuffice M.view (network tasks (ports_of M.view machines.items) edges.now (length machines.items))
        (ins_at (ports_of M.view machines.items) edges.now) (outs_at (ports_of M.view machines.items) edges.now) ran.machines.items ran.fault) }
    ensures scheduled { IfOk result (λ ran. IfSome ran.history (λ history. Scheduled M.view routes state
        (λ tasks. (C.claims ≡ true) × AllStart M.view tasks machines.items)
        (λ tasks. solve (network tasks (ports_of M.view machines.items) edges.now (length machines.items)))
        (ins_at (ports_of M.view machines.items) edges.now) (outs_at (ports_of M.view machines.items) edges.now)
        ran.machines.items ran.fault history)) }
{
    let Ok(back) = Vec::with_capacity(alloc, machines.len()) else {
        return Err(machines);
    };
    let Ok((cell, mut rest)) = SchedCell::new(rt, alloc, state, routes) else {
        return Err(machines);
    };
    match wire_up::<C, M>(alloc, machines, edges, size, &cell, &mut rest) {
        Ok(nodes) => match run_net(rt, alloc, nodes, &cell, edges.len()) {
            Ok(ended) => Ok(closed(rt, cell, rest, ended)),
            Err(nodes) => Err(into_machines(nodes, back)),
        },
        Err(machines) => Err(machines),
    }
}
