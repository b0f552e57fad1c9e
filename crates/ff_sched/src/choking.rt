//! The sources that may be read: those for which the trailing streams ask.
ghost use Rattle.std.specs.Prelude.{◌≡◌, ◌↔◌, ◌⊎◌, ◌<◌, ◌≤◌, ℕ, Some, None, true, false};
ghost use Rattle.std.specs.Prelude.{not, IfSome, IsNone, if◌then◌else◌};
ghost use Rattle.ff_sched.specs.Bits.{mark_at};
ghost use Rattle.ff_sched.specs.State.{exited_at, best_at};
ghost use Rattle.ff_sched.specs.laws.Routes.{AreRoutes};
ghost use Rattle.ff_sched.specs.Ways.{way_in};
ghost use Rattle.ff_sched.specs.Unchoked.{IsTrailing, IsAskedFor, NoneIsLeft, Unchokes, source_within, asks_by, asked_in};

use crate::routes::{Routes, Way};
use crate::state::SchedState;

// How far above the trailing dts a stream is too far, in microseconds.
const SLACK: u64 = 100_000;

// How many graphs a way may lead through.
const MOST_GRAPHS: u32 = 16;

fn least_of(found: Option<u64>, time: u64) -> u64
    ensures some { (t : ℕ) → found ≡ Some t
        → (result ≤ t) × (result ≤ time) × ((result ≡ t) ⊎ (result ≡ time)) }
    ensures none { found ≡ None → result ≡ time }
{
    match found {
        Some(least) => if least < time { least } else { time },
        None => time,
    }
}

// The trailing dts: the least last dts of the streams that go on, where each has one.
fn trailing(state: &SchedState, routes: &Routes) -> Option<u64>
    requires { AreRoutes routes.now }
    ensures some { IfSome result (IsTrailing routes.now state.now) }
    ensures none { IsNone result → (t : ℕ) → IsTrailing routes.now state.now t → ⊥ }
{
    let mut found = None;
    let streams = routes.streams.len() as u32;
    for j in 0..streams {
        if !state.finished(j) {
            match state.last(j) {
                Some(time) => found = Some(least_of(found, time)),
                None => return None,
            }
        }
    }
    found
}

// Whether a stream asks for its source.
fn asks(state: &SchedState, trailing: Option<u64>, stream: u32) -> bool
    requires stream { stream < 16 }
    ensures { result ≡ asks_by state.now trailing stream }
{
    if state.finished(stream) {
        return false;
    }
    let Some(last) = state.last(stream) else {
        return true;
    };
    match trailing {
        Some(least) => last < SLACK || last - SLACK < least,
        None => false,
    }
}

// The way of the best input of a graph.
fn next_way(state: &SchedState, routes: &Routes, graph: u32) -> Option<Way>
    requires { AreRoutes routes.now }
    ensures { result ≡ way_in routes.now.graphs graph (best_at state.now graph) }
{
    if graph >= 16 {
        return None;
    }
    let best = state.best(graph);
    routes.graphs.get(graph as usize, best as usize)
}

// The source to which a way leads.
fn source_of(state: &SchedState, routes: &Routes, way: Way) -> Option<u32>
    requires { AreRoutes routes.now }
    ensures { result ≡ source_within routes.now state.now 16 way }
{
    let mut way = way;
    for passed in 0..MOST_GRAPHS + 1 {
        match way {
            Way::Source(source) => return found(source, source < routes.sources),
            Way::Graph(graph) => match next_way(state, routes, graph) {
                Some(next) => way = next,
                None => return None,
            },
        }
    }
    None
}

fn found(source: u32, there: bool) -> Option<u32>
    ensures { result ≡ if there then Some source else None }
{
    if there { Some(source) } else { None }
}

// The source for which a stream asks.
fn asked_by(state: &SchedState, routes: &Routes, trailing: Option<u64>, stream: u32) -> Option<u32>
    requires routes { AreRoutes routes.now }
    requires stream { stream < 16 }
    ensures source { result ≡ asked_in routes.now state.now trailing stream }
    ensures there { IfSome result (λ k. k < 16) }
{
    if !asks(state, trailing, stream) {
        return None;
    }
    match routes.streams.get(stream as usize) {
        Some(way) => source_of(state, routes, way),
        None => None,
    }
}

// For whom the streams ask.
enum Asked {
    /// For this source.
    ThisOne,
    /// For another that hasn't exited.
    Another,
    /// For no source that hasn't exited.
    Nobody,
}

fn asked_for(state: &SchedState, routes: &Routes, source: u32) -> Asked
    requires routes { AreRoutes routes.now }
    requires exited { exited_at state.now source ≡ false }
    ensures this { result ≡ Asked.ThisOne → IsAskedFor routes.now state.now source }
    ensures another { result ≡ Asked.Another
        → (IsAskedFor routes.now state.now source → ⊥) × (NoneIsLeft routes.now state.now → ⊥) }
    ensures nobody { result ≡ Asked.Nobody → NoneIsLeft routes.now state.now }
{
    let least = trailing(state, routes);
    let mut another = false;
    let streams = routes.streams.len() as u32;
    for j in 0..streams {
        match asked_by(state, routes, least, j) {
            Some(k) => {
                if k == source {
                    return Asked::ThisOne;
                }
                another = another || goes_on(state, k);
            }
            None => {}
        }
    }
    if another {
        Asked::Another
    } else {
        Asked::Nobody
    }
}

// Whether a source hasn't exited.
fn goes_on(state: &SchedState, source: u32) -> bool
    requires { source < 16 }
    ensures { result ≡ not (exited_at state.now source) }
{
    !state.exited(source)
}

// Whether each source below this one has exited.
fn is_lowest(state: &SchedState, source: u32) -> bool
    requires { source ≤ 16 }
    ensures yes { result ≡ true → (i : ℕ) → i < source → exited_at state.now i ≡ true }
    ensures no { result ≡ false → ((i : ℕ) → i < source → exited_at state.now i ≡ true) → ⊥ }
{
    for i in 0..source {
        if !state.exited(i) {
            return false;
        }
    }
    true
}

/// Whether the state unchokes a source.
pub(crate) fn unchokes(state: &SchedState, routes: &Routes, source: u32) -> bool
    requires routes { AreRoutes routes.now }
    requires source { source < routes.now.sources }
    ensures yes { result ≡ true → Unchokes routes.now state.now source }
    ensures no { result ≡ false → Unchokes routes.now state.now source → ⊥ }
{
    if state.exited(source) {
        return false;
    }
    match asked_for(state, routes, source) {
        Asked::ThisOne => true,
        Asked::Another => false,
        Asked::Nobody => is_lowest(state, source),
    }
}

/// The sources that may be read, each a bit.
pub fn unchoked(state: &SchedState, routes: &Routes) -> u16
    requires { AreRoutes routes.now }
    ensures { (k : ℕ) → k < 16 → (mark_at result k ≡ true) ↔ Unchokes routes.now state.now k }
{
    let mut bits = 0;
    for k in 0..routes.sources {
        if unchokes(state, routes, k) {
            bits |= 1 << k;
        }
    }
    bits
}
