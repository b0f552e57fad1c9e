//! The routes from the output streams to the sources that feed them.
ghost use Rattle.std.specs.Prelude.{◌≡◌, ◌≤◌, true, false, All, length, slice_get};
ghost use Rattle.ff_sched.specs.Ways.{way_in};
ghost use Rattle.ff_sched.specs.laws.Routes.{AreRoutes};
ghost use Rattle.ff_sched.specs.Events.{IsInRange};

use ff_frame::Event;
use std::marker::Model;

// How many sources, streams, graphs and inputs of a graph there may be.
const MOST: usize = 16;

/// Where what an output stream or an input of a graph carries comes from.
#[derive(Clone, Copy, Debug, PartialEq, Eq)]
pub enum Way {
    /// The source of this number.
    Source(u32),
    /// The graph of this number: further through its best input.
    Graph(u32),
}

/// Ways in their order.
#[derive(Debug, Drop)]
pub struct Ways {
    items: Vec<Way>,
}

impl Model for Ways {
    ghost use Rattle.std.specs.Prelude.{List};
    ghost use Rattle.ff_sched.specs.declared.routes.Way.{Way};

    ghost Value = { List Way };

    ghost view = { λ w. w.items.items };
}

impl Ways {
    /// The ways of a `Vec`, which it takes over.
    pub fn new(items: Vec<Way>) -> Ways
        ensures { result ≡ items.items }
    {
        Ways { items }
    }

    /// The `Vec` of the ways.
    pub fn into_vec(self) -> Vec<Way>
        ensures { result.items ≡ self }
    {
        self.items
    }

    /// How many ways there are.
    pub fn len(&self) -> usize
        ensures { result ≡ length self.now }
    {
        self.items.len()
    }

    /// The way of this number.
    pub fn get(&self, number: usize) -> Option<Way>
        ensures { result ≡ slice_get self.now number }
    {
        self.items.get(number).copied()
    }
}

/// The ways of the inputs of each graph.
#[derive(Debug, Drop)]
pub struct Graphs {
    items: Vec<Ways>,
}

impl Model for Graphs {
    ghost use Rattle.std.specs.Prelude.{List};
    ghost use Rattle.ff_sched.specs.declared.routes.Way.{Way};

    ghost Value = { List (List Way) };

    ghost view = { λ g. g.items.items };
}

impl Graphs {
    /// The graphs of a `Vec`, which it takes over.
    pub fn new(items: Vec<Ways>) -> Graphs
        ensures { result ≡ items.items }
    {
        Graphs { items }
    }

    /// The `Vec` of the graphs.
    pub fn into_vec(self) -> Vec<Ways>
        ensures { result.items ≡ self }
    {
        self.items
    }

    /// How many graphs there are.
    pub fn len(&self) -> usize
        ensures { result ≡ length self.now }
    {
        self.items.len()
    }

    // Whether no graph has more inputs than there may be.
    fn are_narrow(&self) -> bool
        ensures yes { result ≡ true → All (λ ways. length ways ≤ 16) self.now }
        ensures no { result ≡ false → All (λ ways. length ways ≤ 16) self.now → ⊥ }
    {
        for ways in &self.items {
            if ways.len() > MOST {
                return false;
            }
        }
        true
    }

    /// The way of an input of a graph, where both are there.
    pub fn get(&self, graph: usize, input: usize) -> Option<Way>
        ensures { result ≡ way_in self.now graph input }
    {
        match self.items.get(graph) {
            Some(ways) => ways.get(input),
            None => None,
        }
    }
}

/// How the output streams hang on the sources.
#[derive(Debug, Drop)]
pub struct Routes {
    /// How many sources there are.
    pub sources: u32,
    /// The way of each output stream.
    pub streams: Ways,
    /// The ways of each graph's inputs.
    pub graphs: Graphs,
}

impl Routes {
    /// Whether there are at most 16 of each, as the calls that take routes ask.
    pub fn fit(&self) -> bool
        ensures yes { result ≡ true → AreRoutes self.now }
        ensures no { result ≡ false → AreRoutes self.now → ⊥ }
    {
        let few = self.sources <= 16 && self.streams.len() <= MOST && self.graphs.len() <= MOST;
        few && self.graphs.are_narrow()
    }

    /// Whether the numbers of an event are in range. Its source, stream or graph is there, its input is one of the
    /// graph's, and its time is below 2^63.
    pub fn has(&self, event: Event) -> bool
        ensures yes { result ≡ true → IsInRange self.now event }
        ensures no { result ≡ false → IsInRange self.now event → ⊥ }
    {
        match event {
            Event::Grant(source) | Event::Exited(source) => source < self.sources,
            Event::Sent(stream, time) => (stream as usize) < self.streams.len() && time < 1 << 63,
            Event::Finished(stream) => (stream as usize) < self.streams.len(),
            Event::Best(graph, input) => self.graphs.get(graph as usize, input as usize).is_some(),
        }
    }
}
