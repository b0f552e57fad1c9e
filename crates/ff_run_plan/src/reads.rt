//! The grants of a run's history under which its sources have tried their units.
ghost use Rattle.std.specs.Prelude.{◌≡◌, take, IfOk, IfSome, Some};
ghost use Rattle.ff_run_plan.specs.Reads.{is_grant_of as grant_of, grants_of, places_in, tried_in, first_reads};

use crate::kinds::Kinds;
use crate::opening::reads;
use ff_frame::Event;
use ff_host::{Sink, Source};
use ff_net::Machine;
use ff_plan::PlanNode;
use ff_sched::History;
use std::alloc::{AllocError, Global};

/// What a run of a plan's nodes has logged.
#[derive(Drop)]
pub struct RunLog {
    /// All that its scheduler granted and was told, in one order.
    pub history: History,
    /// For each source the places in the history of the grants under which it tried a unit, in order: the inputs, and
    /// then the source filters.
    pub reads: Vec<Vec<u64>>,
}

fn is_grant_of(event: &Event, number: u32) -> bool
    ensures { result ≡ grant_of number event.now }
{
    match event {
        Event::Grant(source) => *source == number,
        Event::Sent(_, _) | Event::Finished(_) | Event::Best(_, _) | Event::Exited(_) => false,
    }
}

// Under how many tickets a source has tried a unit, by the part of the node that reads it.
fn tried<
    K: Kinds<Src, Snk, M>,
    Src: Source + Send + Drop,
    Snk: Sink + Send + Drop,
    M: Machine + Send + Drop,
>(nodes: &[PlanNode], parts: &[M], source: u32) -> u64
    ensures { result ≡ tried_in M.view source nodes.now parts.now }
{
    for number in 0..parts.len() {
        let Some(node) = nodes.get(number) else {
            break;
        };
        if reads(*node, source) {
            return K::tried(&parts[number]);
        }
    }
    0
}

// The places of so many grants of a source, the first ones.
fn first_grants(
    alloc: Global,
    events: &[Event],
    source: u32,
    count: u64,
) -> Result<Vec<u64>, AllocError>
    ensures { IfOk result (λ places. places.items ≡ take count (grants_of source events.now)) }
{
    let mut places = Vec::new(alloc);
    for at in 0..events.len() {
        if (places.len() as u64) < count && is_grant_of(&events[at], source) {
            places.push(at as u64)?;
        }
    }
    Ok(places)
}

// Of each of so many sources.
fn all_reads<
    K: Kinds<Src, Snk, M>,
    Src: Source + Send + Drop,
    Snk: Sink + Send + Drop,
    M: Machine + Send + Drop,
>(
    alloc: Global,
    sources: u32,
    nodes: &[PlanNode],
    parts: &[M],
    events: &[Event],
) -> Result<Vec<Vec<u64>>, AllocError>
    ensures { IfOk result (λ all. places_in all.items ≡ first_reads M.view sources nodes.now parts.now events.now) }
{
    let mut all = Vec::new(alloc);
    for source in 0..sources {
        let count = tried::<K, Src, Snk, M>(nodes, parts, source);
        let places = first_grants(alloc, events, source, count)?;
        all.push(places)?;
    }
    Ok(all)
}

/// What the run of these parts has logged, where there is a history and memory for all.
pub(crate) fn logged<
    K: Kinds<Src, Snk, M>,
    Src: Source + Send + Drop,
    Snk: Sink + Send + Drop,
    M: Machine + Send + Drop,
>(
    alloc: Global,
    sources: u32,
    nodes: &[PlanNode],
    parts: &[M],
    history: Option<History>,
) -> Option<RunLog>
    ensures history { IfSome result (λ log. history ≡ Some log.history) }
    ensures reads { IfSome result (λ log. places_in log.reads.items ≡ first_reads M.view sources nodes.now parts.now log.history) }
{
    let Some(history) = history else {
        return None;
    };
    match all_reads::<K, Src, Snk, M>(alloc, sources, nodes, parts, history.events()) {
        Ok(reads) => Some(RunLog { history, reads }),
        Err(_) => None,
    }
}
