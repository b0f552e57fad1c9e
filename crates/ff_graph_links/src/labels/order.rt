//! The order of graphs that feed one another, and their loops.
ghost use Rattle.std.specs.Prelude.{◌≡◌, ◌<◌, ◌^◌, ◌||◌, All, IfOk, length, map, slice_index_or, false};
ghost use Rattle.ff_graph_links.specs.labels.Order.{below, feeds, cell, reaches, comes_behind, first_on_loop, on_loop};
ghost use Rattle.ff_graph_links.specs.labels.Order.{feeders_to as fed_from, feeders_by, order_by, graph_order};
ghost use Rattle.ff_graph_links.specs.orders.Orders.{lists};
ghost use Rattle.ff_graph_links.specs.laws.labels.Tables.{marks};

use crate::labels::labels::gives_to;
use crate::orders::in_order;
use ff_lang::Graph;
use std::alloc::{AllocError, Global};

// Whether a graph feeds another one.
fn does_feed(graphs: &[Graph], from: usize, to: usize) -> bool
    ensures { result ≡ feeds graphs.now from to }
{
    if from == to {
        return false;
    }
    match graphs.get(from) {
        Some(giver) => match graphs.get(to) {
            Some(taker) => gives_to(giver, taker),
            None => false,
        },
        None => false,
    }
}

// A mark for each graph that this one feeds.
fn fed_by(alloc: Global, graphs: &[Graph], from: usize) -> Result<Vec<bool>, AllocError>
    ensures { IfOk result (λ row. row.items ≡ map (feeds graphs.now from) (below (length graphs.now))) }
{
    let mut row = Vec::new(alloc);
    for to in 0..graphs.len() {
        row.push(does_feed(graphs, from, to))?;
    }
    Ok(row)
}

// The same of all graphs.
fn table(alloc: Global, graphs: &[Graph]) -> Result<Vec<Vec<bool>>, AllocError>
    ensures { IfOk result (λ rows. marks rows.items ≡ map (λ a. map (feeds graphs.now a) (below (length graphs.now))) (below (length graphs.now))) }
{
    let mut rows = Vec::new(alloc);
    for from in 0..graphs.len() {
        let row = fed_by(alloc, graphs, from)?;
        rows.push(row)?;
    }
    Ok(rows)
}

fn has_mark(rows: &[Vec<bool>], from: usize, to: usize) -> bool
    ensures { result ≡ cell (marks rows.now) from to }
{
    match rows.get(from) {
        Some(row) => marked(row.as_slice(), to),
        None => false,
    }
}

fn marked(row: &[bool], at: usize) -> bool
    ensures { result ≡ slice_index_or row.now at false }
{
    match row.get(at) {
        Some(mark) => *mark,
        None => false,
    }
}

// Whether one of the marked graphs feeds this one.
fn is_reached(rows: &[Vec<bool>], to: usize, behind: &[bool]) -> bool
    ensures { result ≡ reaches (marks rows.now) to 0 behind.now }
{
    for (from, mark) in behind.iter().enumerate() {
        if *mark && has_mark(rows, from, to) {
            return true;
        }
    }
    false
}

// Whether one graph feeds another, or one of the marked graphs does.
fn is_next_step(rows: &[Vec<bool>], from: usize, to: usize, behind: &[bool]) -> bool
    ensures { result ≡ (cell (marks rows.now) from to || reaches (marks rows.now) to 0 behind.now) }
{
    has_mark(rows, from, to) || is_reached(rows, to, behind)
}

// The graphs that come after one in a step more than the marked ones.
fn step_on(
    alloc: Global,
    rows: &[Vec<bool>],
    from: usize,
    behind: &[bool],
) -> Result<Vec<bool>, AllocError>
    ensures { IfOk result (λ next. next.items ≡ map (λ to. cell (marks rows.now) from to || reaches (marks rows.now) to 0 behind.now) (below (length rows.now))) }
{
    let mut next = Vec::new(alloc);
    for to in 0..rows.len() {
        next.push(is_next_step(rows, from, to, behind))?;
    }
    Ok(next)
}

fn no_marks(alloc: Global, count: usize) -> Result<Vec<bool>, AllocError>
    ensures { IfOk result (λ none. none.items ≡ map (λ _. false) (below count)) }
{
    let mut none = Vec::new(alloc);
    for at in 0..count {
        none.push(false)?;
    }
    Ok(none)
}

// Whether a graph comes after itself.
fn comes_back(alloc: Global, rows: &[Vec<bool>], graph: usize) -> Result<bool, AllocError>
    requires { graph < length rows.now }
    ensures { IfOk result (λ back. back ≡ comes_behind (cell (marks rows.now)) (length rows.now) (length rows.now) graph graph) }
{
    let mut behind = no_marks(alloc, rows.len())?;
    for step in 0..rows.len() {
        let next = step_on(alloc, rows, graph, behind.as_slice())?;
        behind = next;
    }
    let all = behind.as_slice();
    Ok(marked(all, graph))
}

fn is_looped(
    alloc: Global,
    rows: &[Vec<bool>],
    own: &[bool],
    graph: usize,
) -> Result<bool, AllocError>
    requires { graph < length rows.now }
    ensures { IfOk result (λ back. back ≡ (slice_index_or own.now graph false
        || comes_behind (cell (marks rows.now)) (length rows.now) (length rows.now) graph graph)) }
{
    if marked(own, graph) {
        Ok(true)
    } else {
        comes_back(alloc, rows, graph)
    }
}

fn first_looped(alloc: Global, rows: &[Vec<bool>], own: &[bool]) -> Result<Option<u32>, AllocError>
    requires { length rows.now < 2 ^ 32 }
    ensures { IfOk result (λ graph. graph ≡ first_on_loop (cell (marks rows.now)) (length rows.now) own.now) }
{
    for graph in 0..rows.len() {
        let looped = is_looped(alloc, rows, own, graph)?;
        if looped {
            return Ok(Some(graph as u32));
        }
    }
    Ok(None)
}

/// The least graph on a loop: its own, of those that are marked, or one of graphs that feed each other.
pub fn graph_on_loop(
    alloc: Global,
    graphs: &[Graph],
    own: &[bool],
) -> Result<Option<u32>, AllocError>
    requires { length graphs.now < 2 ^ 32 }
    ensures { IfOk result (λ graph. graph ≡ on_loop own.now graphs.now) }
{
    let rows = table(alloc, graphs)?;
    first_looped(alloc, rows.as_slice(), own)
}

// The graphs that feed this one.
fn feeders_to(alloc: Global, rows: &[Vec<bool>], to: usize) -> Result<Vec<usize>, AllocError>
    ensures { IfOk result (λ feeders. feeders.items ≡ fed_from (cell (marks rows.now)) (length rows.now) to) }
{
    let mut feeders = Vec::new(alloc);
    for from in 0..rows.len() {
        if has_mark(rows, from, to) {
            feeders.push(from)?;
        }
    }
    Ok(feeders)
}

// The same of all graphs.
fn all_feeders(alloc: Global, rows: &[Vec<bool>]) -> Result<Vec<Vec<usize>>, AllocError>
    ensures { IfOk result (λ all. lists all.items ≡ feeders_by (cell (marks rows.now)) (length rows.now)) }
{
    let mut all = Vec::new(alloc);
    for to in 0..rows.len() {
        let feeders = feeders_to(alloc, rows, to)?;
        all.push(feeders)?;
    }
    Ok(all)
}

fn numbers(alloc: Global, things: &[usize]) -> Result<Vec<u32>, AllocError>
    requires { All (λ k. k < 2 ^ 32) things.now }
    ensures { IfOk result (λ numbers. numbers.items ≡ things.now) }
{
    let mut numbers = Vec::new(alloc);
    for thing in things {
        numbers.push(*thing as u32)?;
    }
    Ok(numbers)
}

fn order_of(alloc: Global, rows: &[Vec<bool>]) -> Result<Vec<u32>, AllocError>
    requires { length rows.now < 2 ^ 32 }
    ensures { IfOk result (λ order. order.items ≡ order_by (cell (marks rows.now)) (length rows.now)) }
{
    let feeders = all_feeders(alloc, rows)?;
    let things = in_order(alloc, feeders.as_slice())?;
    numbers(alloc, things.as_slice())
}

/// The numbers of graphs in the order of their nodes: each after those that feed it, else by number. Where a loop keeps graphs from
/// having an order, these aren't there.
pub fn graphs_in_order(alloc: Global, graphs: &[Graph]) -> Result<Vec<u32>, AllocError>
    requires { length graphs.now < 2 ^ 32 }
    ensures { IfOk result (λ order. order.items ≡ graph_order graphs.now) }
{
    let rows = table(alloc, graphs)?;
    order_of(alloc, rows.as_slice())
}
