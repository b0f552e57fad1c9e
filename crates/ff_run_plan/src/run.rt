//! The nodes of a plan: built, run in threads, and taken apart.
ghost use Rattle.std.specs.Prelude.{◌≡◌, ◌<◌, ◌≤◌, ◌^◌, ℕ, List, Bool, true, [], length, map, slice_get, vec_capacity, Option, None, Some, IfOk, IfSome, IsSome};
ghost use Rattle.ff_net.specs.declared.fault.Fault.TheVariants.{NoMemory as NoMemoryFault};
ghost use Rattle.ff_net.specs.Pasts.{Task};
ghost use Rattle.ff_net_threads.specs.network.Fits.{ins_at, outs_at, network, AreFit};
ghost use Rattle.ff_net_threads.specs.laws.network.Networks.{Fits, AllStart, ports_of};
ghost use Rattle.ff_net_threads.specs.laws.network.Runs.{AllKept, MeetsNetwork};
ghost use Rattle.ff_files.specs.Works.{AreTold};
ghost use Rattle.ff_run_plan.specs.Asked.{asked_of};
ghost use Rattle.ff_run_plan.specs.laws.Claims.{tell_all};
ghost use Rattle.ff_net_threads.specs.network.Fits.{ports_by};
ghost use Rattle.ff_run_plan.specs.Parts.{AreBelow, AreFitting, AreOrdered, AllAside, HaveNumbers};
ghost use Rattle.ff_net_threads.specs.laws.network.Scheduling.{AllRouted};
ghost use Rattle.ff_run_plan.specs.Histories.{AreScheduled};
ghost use Rattle.ff_run_plan.specs.Reads.{AreSufficient, IsLogOf, first_reads, places_in};
ghost use Rattle.ff_run_plan.specs.Openings.{CanBegin, or_memory};
ghost use Rattle.ff_run_plan.specs.laws.Rooms.{HasRoom};
ghost use Rattle.ff_run_plan.specs.laws.Runs.{TellsRun, AreRun, IsDone};

use crate::build::{Places, build};
use crate::end::end_with;
use crate::fault::RunFault;
use crate::gather::gather;
use crate::kinds::Kinds;
use crate::opening::Opening;
use crate::reads::{RunLog, logged};
use crate::tables::{listed, tabled};
use ff_files::{Done, WorkEnd};
use ff_host::{Sink, Source};
use ff_link::Claims;
use ff_net::{Fault, Machine};
use ff_net_threads::network::{NodeFault, Ran, run_network};
use ff_plan::PlanNode;
use ff_plan_layout::GraphText;
use ff_source::Made;
use ff_stream::Edge;
use ff_words::Job;
use std::alloc::{AllocError, Global};
use std::sync::Wait;
use std::thread::Threads;

// Want of memory before the start.
fn no_memory() -> Option<NodeFault>
    ensures { result ≡ Some (record { node = 0; fault = NoMemoryFault }) }
{
    Some(NodeFault {
        node: 0,
        fault: Fault::NoMemory,
    })
}

/// Parts that were run.
#[derive(Drop)]
struct RanParts<M: Drop> {
    machines: Vec<M>,
    /// The fault that is reported.
    fault: Option<NodeFault>,
    /// What the run has logged, where it was begun and there was memory for it.
    log: Option<RunLog>,
}

// Parts with which nothing was begun.
fn unstarted<M: Drop>(parts: Vec<M>) -> RanParts<M>
    ensures machines { result.machines ≡ parts }
    ensures fault { result.fault ≡ Some (record { node = 0; fault = NoMemoryFault }) }
    ensures log { result.log ≡ None }
{
    RanParts {
        machines: parts,
        fault: no_memory(),
        log: None,
    }
}

// The fault that is reported, or want of memory for the log.
fn fault_or_memory(fault: Option<NodeFault>, told: bool) -> Option<NodeFault>
    ensures { result ≡ or_memory fault told }
{
    match fault {
        Some(fault) => Some(fault),
        None => if told { None } else { no_memory() },
    }
}

// Runs parts as the nodes of a network under the scheduler. Where memory is refused before the start they are as they were.
fn run_parts<
    C: Claims,
    K: Kinds<Src, Snk, M>,
    R: Threads + Wait + Sync,
    Src: Source + Send + Drop,
    Snk: Sink + Send + Drop,
    M: Machine + Send + Drop,
>(
    rt: &R,
    alloc: Global,
    nodes: &[PlanNode],
    parts: Vec<M>,
    edges: &[Edge],
    size: usize,
    opening: Opening,
) -> RanParts<M>
    requires few { length parts.items < 2 ^ 16 }
    requires opening { CanBegin opening }
    requires sources { AllRouted M.view opening.routes parts.items }
    requires size { (1 ≤ size) × (size ≤ 1024) }
    requires fits { Fits M.view edges.now parts.items }
    requires start { C.claims ≡ true → (tasks : ℕ → Task) × AllStart M.view tasks parts.items }
    requires sound { (k : ℕ) (m : M) → slice_get parts.items k ≡ Some m → (M.view m).fault ≡ None }
    ensures kept { AllKept M.view parts.items result.machines.items }
    ensures tells { TellsRun M.view result.machines.items result.fault }
    ensures solved { C.claims ≡ true → (tasks : ℕ → Task) → AllStart M.view tasks parts.items
        → MeetsNetwork M.view tasks (network tasks (ports_of M.view parts.items) edges.now (length parts.items))
        (ins_at (ports_of M.view parts.items) edges.now) (outs_at (ports_of M.view parts.items) edges.now) result.machines.items result.fault }
    ensures told { result.fault ≡ None → IsSome result.log }
    ensures scheduled { IfSome result.log (λ log. AreScheduled M.view edges.now C.claims parts.items result.machines.items
        opening.routes opening.state result.fault log.history) }
    ensures suffice { AreSufficient M.view edges.now C.claims parts.items result.machines.items result.fault }
    ensures reads { IfSome result.log (λ log. places_in log.reads.items ≡ first_reads M.view opening.routes.sources nodes.now result.machines.items log.history) }
{
    let Opening { state, routes } = opening;
    let sources = routes.sources;
    match run_network::<C, R, M>(rt, alloc, parts, edges, size, state, routes) {
        Ok(
            Ran {
                machines,
                fault,
                history,
            },
        ) => {
            let log = logged::<K, Src, Snk, M>(alloc, sources, nodes, &machines, history);
            RanParts {
                machines,
                fault: fault_or_memory(fault, log.is_some()),
                log,
            }
        }
        Err(parts) => unstarted(parts),
    }
}

// Builds the parts of all nodes, and runs them. Where memory is refused before the start, those that were made are as they were.
fn build_and_run<
    C: Claims,
    K: Kinds<Src, Snk, M>,
    R: Threads + Wait + Sync,
    Src: Source + Send + Drop,
    Snk: Sink + Send + Drop,
    M: Machine + Send + Drop,
>(
    rt: &R,
    alloc: Global,
    nodes: &[PlanNode],
    edges: &[Edge],
    size: usize,
    heads: &[K::Head],
    job: &Job,
    texts: &[GraphText],
    made: &[Made],
    opening: Opening,
    parts: Vec<M>,
    places: &mut Places<Src, Snk>,
) -> RanParts<M>
    requires room { (parts.items ≡ []) × (length nodes.now ≤ vec_capacity parts) }
    requires few { (length nodes.now < 2 ^ 16) × (length heads.now < 2 ^ 32) }
    requires size { (1 ≤ size) × (size ≤ 1024) }
    requires fits { AreFit (ports_by edges.now) (length nodes.now) edges.now }
    requires fitting { AreFitting K.is (asked_of job.now texts.now made.now nodes.now) heads.now edges.now nodes.now }
    requires numbers { HaveNumbers (asked_of job.now texts.now made.now nodes.now) edges.now nodes.now }
    requires ordered { AreOrdered (length places.old.srcs.items) (length places.old.snks.items) nodes.now }
    requires opening { CanBegin opening }
    requires sources { AreBelow opening.routes.sources nodes.now }
    requires aside { (srcs : List Src) × (snks : List Snk) × AllAside srcs places.old.srcs.items × AllAside snks places.old.snks.items
        × (C.claims ≡ true → (bytes : List (List ℕ)) × AreTold Src.left Snk.holds srcs snks bytes) }
    ensures ran { (srcs : List Src) (snks : List Snk) → AllAside srcs places.old.srcs.items → AllAside snks places.old.snks.items
        → (olds : List M) × AreRun K.is Src.left Src.name Src.faults Snk.holds Snk.name Snk.faults M.view
        (asked_of job.now texts.now made.now nodes.now) heads.now edges.now nodes.now srcs snks C.claims
        olds result.machines.items places.new.srcs.items places.new.snks.items result.fault
        × IfSome result.log (λ log. AreScheduled M.view edges.now C.claims olds result.machines.items opening.routes opening.state result.fault log.history)
        × AreSufficient M.view edges.now C.claims olds result.machines.items result.fault }
    ensures told { result.fault ≡ None → IsSome result.log }
    ensures reads { IfSome result.log (λ log. places_in log.reads.items ≡ first_reads M.view opening.routes.sources nodes.now result.machines.items log.history) }
{
    match build::<K, Src, Snk, M>(
        alloc, nodes, edges, size, heads, job, texts, made, parts, places,
    ) {
        Ok(parts) => {
            run_parts::<C, K, R, Src, Snk, M>(rt, alloc, nodes, parts, edges, size, opening)
        }
        Err(parts) => unstarted(parts),
    }
}

/// Room for the parts of a run, and for the sources and sinks in their places and after it.
#[derive(Drop)]
pub(crate) struct Room<Part: Drop, Src: Drop, Snk: Drop> {
    parts: Vec<Part>,
    src_places: Vec<Option<Src>>,
    snk_places: Vec<Option<Snk>>,
    srcs: Vec<Src>,
    snks: Vec<Snk>,
}

impl<Part: Drop, Src: Drop, Snk: Drop> Room<Part, Src, Snk> {
    ghost use Rattle.ff_run_plan.specs.laws.Rooms.{HasRoom};

    /// Room for so many of each.
    pub(crate) fn new(
        alloc: Global,
        parts: usize,
        srcs: usize,
        snks: usize,
    ) -> Result<Self, AllocError>
        ensures { IfOk result (HasRoom parts srcs snks) }
    {
        Ok(Room {
            parts: Vec::with_capacity(alloc, parts)?,
            src_places: Vec::with_capacity(alloc, srcs)?,
            snk_places: Vec::with_capacity(alloc, snks)?,
            srcs: Vec::with_capacity(alloc, srcs)?,
            snks: Vec::with_capacity(alloc, snks)?,
        })
    }
}

/// Builds the nodes of a plan over these sources and sinks, runs them in threads, and takes them apart again. `C` says whether
/// all sources tell what is left and all sinks that they hold nothing.
pub(crate) fn run_nodes<
    C: Claims,
    K: Kinds<Src, Snk, M>,
    R: Threads + Wait + Sync,
    Src: Source + Send + Drop,
    Snk: Sink + Send + Drop,
    M: Machine + Send + Drop,
>(
    rt: &R,
    alloc: Global,
    nodes: &[PlanNode],
    edges: &[Edge],
    size: usize,
    heads: &[K::Head],
    job: &Job,
    texts: &[GraphText],
    made: &[Made],
    opening: Opening,
    srcs: Vec<Src>,
    snks: Vec<Snk>,
    room: Room<M, Src, Snk>,
) -> Done<RunFault, Src, Snk, RunLog>
    requires room { HasRoom (length nodes.now) (length srcs.items) (length snks.items) room }
    requires few { (length nodes.now < 2 ^ 16) × (length heads.now < 2 ^ 32) }
    requires size { (1 ≤ size) × (size ≤ 1024) }
    requires fits { AreFit (ports_by edges.now) (length nodes.now) edges.now }
    requires fitting { AreFitting K.is (asked_of job.now texts.now made.now nodes.now) heads.now edges.now nodes.now }
    requires numbers { HaveNumbers (asked_of job.now texts.now made.now nodes.now) edges.now nodes.now }
    requires ordered { AreOrdered (length srcs.items) (length snks.items) nodes.now }
    requires queue { size ≡ job.now.queue }
    requires opening { CanBegin opening }
    requires sources { AreBelow opening.routes.sources nodes.now }
    requires told { C.claims ≡ tell_all Src.left Snk.holds srcs.items snks.items }
    ensures done { IsDone K.is Src.left Src.name Src.faults Snk.holds Snk.name Snk.faults M.view
        (asked_of job.now texts.now made.now nodes.now) heads.now edges.now nodes.now srcs.items snks.items C.claims
        result.end result.srcs.items result.snks.items }
    ensures told { result.end ≡ WorkEnd.Fine → IsSome result.log }
    ensures logged { IfSome result.log (λ log. IsLogOf K.is Src.left Src.name Src.faults Snk.holds Snk.name Snk.faults M.view
        (asked_of job.now texts.now made.now nodes.now) heads.now edges.now nodes.now
        srcs.items snks.items C.claims opening.routes opening.state result.end result.srcs.items result.snks.items log) }
{
    let mut places = Places {
        srcs: tabled(srcs, room.src_places),
        snks: tabled(snks, room.snk_places),
    };
    let RanParts {
        machines,
        fault,
        log,
    } = build_and_run::<C, K, R, Src, Snk, M>(
        rt,
        alloc,
        nodes,
        edges,
        size,
        heads,
        job,
        texts,
        made,
        opening,
        room.parts,
        &mut places,
    );
    let end = end_with(heads.len() as u32, nodes, fault);
    gather::<K, Src, Snk, M>(nodes, machines, &mut places);
    let Places { srcs, snks } = places;
    Done {
        end,
        log,
        srcs: listed(srcs, room.srcs),
        snks: listed(snks, room.snks),
    }
}
