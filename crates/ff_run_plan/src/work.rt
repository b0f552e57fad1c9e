//! The plan of a job and its run, between the opening and the closing of files.
ghost use Rattle.std.specs.Prelude.{◌≡◌, ℕ, List, [], ◌∷◌, length, map, Option, None, Some, Ok, IfOk, IfSome, IfErr, OnOk};
ghost use Rattle.ff_words.specs.maps.Choice.{lists};
ghost use Rattle.ff_files.specs.laws.Runs.{RunSays};
ghost use Rattle.ff_run_plan.specs.laws.Accepting.{IsAccepted, IsPlanFor};
ghost use Rattle.ff_run_plan.specs.Asked.{asked_of};
ghost use Rattle.ff_run_plan.specs.laws.Claims.{tell_all};
ghost use Rattle.ff_run_plan.specs.Histories.{state_before};
ghost use Rattle.ff_run_plan.specs.Reads.{IsLogFor, IsLogOf};
ghost use Rattle.ff_run_plan.specs.Meaning.{plan_for, refusal_of, means as means_of};

use crate::fault::RunFault;
use crate::kinds::Kinds;
use crate::opening::before_run;
use crate::reads::RunLog;
use crate::run::{Room, run_nodes};
use ff_files::{Done, PlanEnd, WorkEnd};
use ff_frame::StreamHead;
use ff_graph_links::{orders_are_whole, orders_go_upward};
use ff_host::{Sink, Source};
use ff_net::Machine;
use ff_plan::{
    Plan, graph_plans_are_fed, graphs_fit, nodes_have_rows, plans_are_sound, sources_are_asked,
    starts_fit,
};
use ff_plan_layout::{PlanError, is_within_limits};
use ff_words::Job;
use std::alloc::{AllocError, Global};
use std::marker::Brand;
use std::sync::Wait;
use std::thread::Threads;

// The streams of each input.
fn streams_of<
    K: Kinds<Src, Snk, M>,
    Src: Source + Send + Drop,
    Snk: Sink + Send + Drop,
    M: Machine + Send + Drop,
>(alloc: Global, heads: &[K::Head]) -> Result<Vec<Vec<StreamHead>>, AllocError>
    ensures { IfOk result (λ streams. lists streams.items ≡ map K.is.streams heads.now) }
{
    let mut streams = Vec::new(alloc);
    for k in 0..heads.len() {
        streams.push(K::streams(alloc, &heads[k])?)?;
    }
    Ok(streams)
}

/// The plan of a job for the heads of its inputs. A graph of more filters than an argument can write would want memory that there isn't.
pub fn make_plan<
    K: Kinds<Src, Snk, M>,
    Src: Source + Send + Drop,
    Snk: Sink + Send + Drop,
    M: Machine + Send + Drop,
>(alloc: Global, job: &Job, heads: &[K::Head]) -> Result<Plan, PlanEnd<PlanError>>
    requires { IsAccepted K.is job.now heads.now }
    ensures ok { IfOk result (λ plan. IsPlanFor K.is job.now heads.now plan) }
    ensures some { OnOk result (refusal_of K.is job.now (plan_for K.is job.now heads.now) ≡ None) }
    ensures refused { (why : _) → IfErr result (λ end. end ≡ PlanEnd.Refused why → refusal_of K.is job.now (plan_for K.is job.now heads.now) ≡ Some why) }
{
    let Ok(streams) = streams_of::<K, Src, Snk, M>(alloc, heads) else {
        return Err(PlanEnd::NoMemory);
    };
    orders_go_upward();
    orders_are_whole();
    plans_are_sound();
    graph_plans_are_fed();
    graphs_fit();
    sources_are_asked();
    starts_fit();
    nodes_have_rows();
    let lists = streams.as_slice();
    if !is_within_limits(job, lists) {
        return Err(PlanEnd::NoMemory);
    }
    match K::plan(alloc, job, lists) {
        Ok(plan) => Ok(plan),
        Err(PlanError::NoMemory) => Err(PlanEnd::NoMemory),
        Err(refusal) => Err(PlanEnd::Refused(refusal)),
    }
}

/// Runs a plan, each node of it in a thread of its own. Where there is no memory to begin, the sources and sinks are as they were.
///
/// What comes back with them is the history of the run: all that its scheduler granted and was told, in one order.
/// For each source, the inputs and then the source filters, there are the places of the grants in it under which it has
/// tried a unit.
pub fn run_plan<
    K: Kinds<Src, Snk, M>,
    R: Threads + Wait + Sync,
    Src: Source + Send + Drop,
    Snk: Sink + Send + Drop,
    M: Machine + Send + Drop,
>(
    rt: &R,
    alloc: Global,
    job: &Job,
    plan: Plan,
    heads: &[K::Head],
    srcs: Vec<Src>,
    snks: Vec<Snk>,
) -> Done<RunFault, Src, Snk, RunLog>
    requires { IsPlanFor K.is job.now heads.now plan }
    ensures ran { RunSays (means_of K.is job.now) Src.left Src.name Src.faults Snk.holds Snk.name Snk.faults
        (IsLogFor K.is job.now heads.now) heads.now srcs.items snks.items result.end result.log result.srcs.items result.snks.items }
    ensures scheduled { IfSome result.log (λ log. IsLogOf K.is Src.left Src.name Src.faults Snk.holds Snk.name Snk.faults M.view
        (asked_of job.now plan.texts plan.made plan.nodes) heads.now plan.edges plan.nodes
        srcs.items snks.items (tell_all Src.left Snk.holds srcs.items snks.items) plan.routes (state_before plan) result.end result.srcs.items result.snks.items log) }
{
    let Plan {
        nodes,
        edges,
        routes,
        texts,
        made,
    } = plan;
    let nodes = nodes.as_slice();
    let edges = edges.as_slice();
    let texts = texts.as_slice();
    let made = made.as_slice();
    let outputs = job.outputs.as_slice();
    if srcs.len() != heads.len() || snks.len() != outputs.len() {
        return Done {
            end: WorkEnd::NoMemory,
            log: None,
            srcs,
            snks,
        };
    }
    let Ok(room) = Room::new(alloc, nodes.len(), srcs.len(), snks.len()) else {
        return Done {
            end: WorkEnd::NoMemory,
            log: None,
            srcs,
            snks,
        };
    };
    let size = job.queue as usize;
    let opening = before_run(nodes, routes);
    run_nodes::<Brand, K, R, Src, Snk, M>(
        rt, alloc, nodes, edges, size, heads, job, texts, made, opening, srcs, snks, room,
    )
}
