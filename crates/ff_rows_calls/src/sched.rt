//! Calls of the scheduler: the state after events, the sources that may be read, and histories.
ghost use Rattle.std.specs.Prelude.{◌≡◌, ◌<◌, true};
ghost use Rattle.ff_sched.specs.Events.{IsSmall};

use crate::runs::Runs;
use crate::table::Stop;
use crate::told::Told;
use crate::words::Call;
use ff_frame::Event;
use ff_sched::{
    Grant, Graphs, Routes, SchedNode, SchedState, Way, Ways, print_history, step, unchoked,
};
use std::alloc::Global;

// `sNUMBER` is a source, `gNUMBER` a graph.
fn way(call: &mut Call, text: &str) -> Way {
    if let Some(source) = text.strip_prefix('s') {
        return Way::Source(call.read_wide(source));
    }
    match text.strip_prefix('g') {
        Some(graph) => Way::Graph(call.read_wide(graph)),
        None => {
            call.misread();
            Way::Source(0)
        }
    }
}

// Ways with commas between them, or `-` for none.
fn ways(call: &mut Call, text: &str) -> Ways {
    let mut items = Vec::new(call.alloc);
    if text != "-" {
        for one in text.split(',') {
            let way = way(call, one);
            call.note(items.push(way));
        }
    }
    Ways::new(items)
}

// The ways of each graph with a `/` between graphs, or `-` for no graph.
fn graphs(call: &mut Call, text: &str) -> Graphs {
    let mut items = Vec::new(call.alloc);
    if text != "-" {
        for one in text.split('/') {
            let ways = ways(call, one);
            call.note(items.push(ways));
        }
    }
    Graphs::new(items)
}

fn routes(call: &mut Call) -> Routes {
    let (streams, inputs) = (call.text(1), call.text(2));
    Routes {
        sources: call.wide(0),
        streams: ways(call, streams),
        graphs: graphs(call, inputs),
    }
}

fn opening(call: &mut Call, routes: &Routes) -> SchedState {
    SchedState::opening(routes, call.up_to(3, 65535) as u16)
}

// An event of two numbers.
fn pair(call: &mut Call, name: &str, numbers: &str) -> Option<Event> {
    let (first, second) = numbers.split_once(':')?;
    let first = call.read_wide(first);
    match name {
        "sent" => Some(Event::Sent(first, call.read_number(second))),
        "best" => Some(Event::Best(first, call.read_wide(second))),
        _ => None,
    }
}

// `grant=SOURCE`, `sent=STREAM:TIME`, `finished=STREAM`, `best=GRAPH:INPUT` or `exited=SOURCE`.
fn event(call: &mut Call, text: &str) -> Option<Event> {
    let (name, numbers) = text.split_once('=')?;
    match name {
        "grant" => Some(Event::Grant(call.read_wide(numbers))),
        "finished" => Some(Event::Finished(call.read_wide(numbers))),
        "exited" => Some(Event::Exited(call.read_wide(numbers))),
        _ => pair(call, name, numbers),
    }
}

// The event of the argument at this place. None where it can't be read, and that is noted.
fn event_at(call: &mut Call, at: usize) -> Option<Event> {
    let text = call.text(at);
    let event = event(call, text);
    call.read(event)
}

fn is_small(event: Event) -> bool
    ensures { result ≡ true → IsSmall event }
{
    match event {
        Event::Grant(number) | Event::Finished(number) | Event::Exited(number) => number < 16,
        Event::Sent(stream, time) => stream < 16 && time < 1 << 63,
        Event::Best(graph, input) => graph < 16 && input < 16,
    }
}

// Whether the event can happen.
fn happens(state: &mut SchedState, event: Event) -> bool {
    if !is_small(event) || state.count() >= 1 << 63 {
        return false;
    }
    step(state, event);
    true
}

// The state after the events of a row, where each can happen.
fn state_after(call: &mut Call, routes: &Routes) -> Option<SchedState> {
    let mut state = opening(call, routes);
    for at in 4..call.len() {
        if !happens(&mut state, event_at(call, at)?) {
            return None;
        }
    }
    Some(state)
}

// Tells what the state has of the stream, the source and the graph of this number.
fn tell_number(told: &mut Told, state: &SchedState, number: u32)
    requires { number < 16 }
{
    match state.last(number) {
        Some(time) => told.count(time),
        None => told.text("none"),
    }
    told.text(if state.finished(number) {
        " finished"
    } else {
        ""
    });
    told.text(if state.exited(number) { " exited" } else { "" });
    told.text(" best ");
    told.count(u64::from(state.best(number)));
}

fn tell_state(alloc: Global, told: &mut Told, state: &SchedState) {
    let mut runs = Runs::new();
    for number in 0..16 {
        let mut one = Told::new(alloc);
        tell_number(&mut one, state, number);
        runs.add(told, number as usize, one);
    }
    runs.end(told);
    told.text("; count ");
    told.count(state.count());
}

/// `sched_state SOURCES STREAMS GRAPHS UNUSED EVENT..`: the state after these events, where the sources with a bit in
/// UNUSED have exited before. It has of each number the last dts and the marks, and the best input, and it has the
/// count.
pub fn state(call: &mut Call, told: &mut Told) {
    let routes = routes(call);
    match state_after(call, &routes) {
        Some(state) => tell_state(call.alloc, told, &state),
        None => told.text("out of range"),
    }
}

/// `unchoked` with the same arguments: the sources that may be read then, each a bit.
pub fn sources(call: &mut Call, told: &mut Told) {
    let routes = routes(call);
    if !routes.fit() {
        return told.text("too many");
    }
    match state_after(call, &routes) {
        Some(state) => told.count(u64::from(unchoked(&state, &routes))),
        None => told.text("out of range"),
    }
}

fn tell_grant(told: &mut Told, grant: Grant) {
    match grant {
        Grant::Go(ticket) => {
            told.text("go ");
            told.counts(" ", &[u64::from(ticket.source), ticket.place]);
        }
        Grant::Choked(state) => {
            told.text("choked ");
            told.count(state.count());
        }
    }
}

// A grant is asked for, another event told, and what is answered is told.
fn answer(told: &mut Told, node: &mut SchedNode, event: Event) {
    if !node.routes().has(event) || node.state().count() >= 1 << 63 {
        return told.text("out of range");
    }
    match event {
        Event::Grant(source) => match node.offer(source) {
            Ok(grant) => tell_grant(told, grant),
            Err(_) => told.fail(Stop::Broken),
        },
        Event::Sent(_, _) | Event::Finished(_) | Event::Best(_, _) | Event::Exited(_) => {
            match node.hear(event) {
                Ok(place) => told.count(place),
                Err(_) => told.fail(Stop::Broken),
            }
        }
    }
}

// Tells what each event of a row is answered, with commas between.
fn tell_answers(call: &mut Call, told: &mut Told, node: &mut SchedNode) {
    for at in 4..call.len() {
        if at > 4 {
            told.text(", ");
        }
        if let Some(event) = event_at(call, at) {
            answer(told, node, event);
        }
    }
}

/// `scheduled` with the same arguments: what the scheduler in one place answers, a line, and the history that it prints.
pub fn scheduled(call: &mut Call, told: &mut Told) {
    let routes = routes(call);
    if !routes.fit() {
        return told.text("too many");
    }
    let state = opening(call, &routes);
    let mut node = SchedNode::new(call.alloc, state, routes);
    tell_answers(call, told, &mut node);
    told.text("\n");
    told.made_text(print_history(call.alloc, &node.into_history()));
}
