//! The plan of filters that feed one another, and the ways of items along its edges.
ghost use Rattle.std.specs.Prelude.{◌≡◌, ◌<◌, ◌+◌, length, Option, None, Ok, Some, OnOk, OnErr, IfOk, IfErr, true, false};
ghost use Rattle.ff_graph_dag.specs.laws.Graphs.{Sound, Sound-prop, graph_view, spots, to_go, IsCarried, IsEmpty, AreEmpty, IsQuiet, ways_of, port_held, wire_at};
ghost use Rattle.ff_stream.specs.declared.item.Item.{Item};
ghost use Rattle.ff_graph_dag.specs.laws.Spends.{feed_spent, SweptFrom, Swept};
ghost use Rattle.ff_filter.specs.Views.{Same, Fed, Gave, Waits, Stopped};

use crate::placed::Placed;
use ff_filter::Filter;
use ff_stream::{Item, Lane, Refused};
use std::alloc::AllocError;

/// A port of a filter: the filter by its number, and the port by its number there.
#[derive(Clone, Copy, Debug)]
pub struct Port {
    /// The filter.
    pub filter: usize,
    /// Its input or output.
    pub port: usize,
}

/// The edges at a filter's inputs and outputs.
#[derive(Drop)]
pub struct Node {
    /// The edge at each input.
    pub ins: Vec<usize>,
    /// The edge at each output.
    pub outs: Vec<usize>,
}

/// An edge that leads to an input of a filter: from an output of an earlier one, or from an input of the graph.
#[derive(Clone, Copy, Debug)]
pub struct Wire {
    /// The output that it leaves; None where it is an input of the graph.
    pub from: Option<Port>,
    /// The input that it leads to.
    pub to: Port,
}

/// How filters feed filters. Input i of the graph is edge i.
#[derive(Drop)]
pub struct Plan {
    /// What each input of the graph carries.
    pub ins: Vec<Lane>,
    /// What each output of the graph carries.
    pub outs: Vec<Lane>,
    /// The edges of each filter, which feeds later ones only.
    pub nodes: Vec<Node>,
    /// The edges that lead to a filter, by number.
    pub wires: Vec<Wire>,
    /// Where each input of the graph leads.
    pub feeds: Vec<Port>,
    /// Which port gives each output of the graph.
    pub pads: Vec<Port>,
    /// The edge at each output of the graph.
    pub edges: Vec<usize>,
    /// For each output of the graph, the edges from which it can be reached, the highest first.
    pub ways: Vec<Vec<usize>>,
}

/// Filters fed by filters, and how they feed one another.
#[derive(Drop)]
pub struct Graph<F: Filter> {
    /// The filters, those that feed others first.
    pub places: Vec<Placed<F>>,
    /// How they are fed, which never changes.
    pub plan: Plan,
    pub ghost sound: { Sound plan (spots F.view places.items) } by { Sound-prop plan (spots F.view places.items) },
}

impl<F: Filter> Graph<F> {
    // One item goes on, along this edge or from before the input that it leads to; false where there is none.
    fn carry(&mut self, wire: usize) -> Result<bool, AllocError>
        requires { wire < length self.old.plan.wires.items }
        ensures plan { self.new.plan ≡ self.old.plan }
        ensures same { Same (graph_view self.old.plan (spots F.view self.old.places.items)) (graph_view self.old.plan (spots F.view self.new.places.items)) }
        ensures shrinks { result ≡ Ok true → to_go self.old.plan (spots F.view self.new.places.items) < to_go self.old.plan (spots F.view self.old.places.items) }
        ensures empty { result ≡ Ok false → IsCarried (spots F.view self.old.places.items) (spots F.view self.new.places.items)
            × IsEmpty self.old.plan (spots F.view self.new.places.items) wire }
    {
        let Wire { from, to } = self.plan.wires[wire];
        if self.places[to.filter].holds(to.port) {
            return match self.places[to.filter].deliver(to.port) {
                Ok(()) => Ok(true),
                Err(error) => Err(error),
            };
        }
        match from {
            None => Ok(false),
            Some(from) => match self.places[from.filter].pull(from.port) {
                Err(error) => Err(error),
                Ok(None) => Ok(false),
                Ok(Some(item)) => {
                    self.places[to.filter].store(to.port, item);
                    Ok(true)
                }
            },
        }
    }

    // The same; nothing where there is no such edge.
    fn try_carry(&mut self, wire: usize) -> Result<bool, AllocError>
        ensures plan { self.new.plan ≡ self.old.plan }
        ensures same { Same (graph_view self.old.plan (spots F.view self.old.places.items)) (graph_view self.old.plan (spots F.view self.new.places.items)) }
        ensures shrinks { result ≡ Ok true → to_go self.old.plan (spots F.view self.new.places.items) < to_go self.old.plan (spots F.view self.old.places.items) }
        ensures carried { result ≡ Ok false → IsCarried (spots F.view self.old.places.items) (spots F.view self.new.places.items) }
        ensures empty { result ≡ Ok false → wire < length self.old.plan.wires.items → IsEmpty self.old.plan (spots F.view self.new.places.items) wire }
    {
        if wire >= self.plan.wires.len() {
            return Ok(false);
        }
        self.carry(wire)
    }

    // One item goes on along an edge from which an output can be reached, the highest first; false where there is none.
    fn advance(&mut self, port: usize) -> Result<bool, AllocError>
        requires { port < length self.old.plan.ways.items }
        ensures plan { self.new.plan ≡ self.old.plan }
        ensures same { Same (graph_view self.old.plan (spots F.view self.old.places.items)) (graph_view self.old.plan (spots F.view self.new.places.items)) }
        ensures shrinks { result ≡ Ok true → to_go self.old.plan (spots F.view self.new.places.items) < to_go self.old.plan (spots F.view self.old.places.items) }
        ensures carried { result ≡ Ok false → IsCarried (spots F.view self.old.places.items) (spots F.view self.new.places.items) }
        ensures empty { result ≡ Ok false → AreEmpty self.old.plan (spots F.view self.new.places.items) (ways_of self.old.plan port) }
    {
        for index in 0..self.plan.ways[port].len() {
            let wire = self.plan.ways[port][index];
            if self.try_carry(wire)? {
                return Ok(true);
            }
        }
        Ok(false)
    }

    // What the filter at an output has for it.
    fn give(&mut self, port: usize) -> Result<Option<Item>, AllocError>
        requires there { port < length self.old.plan.pads.items }
        requires wanted { (graph_view self.old.plan (spots F.view self.old.places.items)).stopped port ≡ false }
        ensures plan { self.new.plan ≡ self.old.plan }
        ensures gives { (x : Item) → result ≡ Ok (Some x) → Gave (graph_view self.old.plan (spots F.view self.old.places.items))
            (graph_view self.old.plan (spots F.view self.new.places.items)) port x }
        ensures waits { result ≡ Ok None → IsCarried (spots F.view self.old.places.items) (spots F.view self.new.places.items)
            × IsQuiet self.old.plan (spots F.view self.new.places.items) port }
        ensures same { result ≡ Ok None → Same (graph_view self.old.plan (spots F.view self.old.places.items))
            (graph_view self.old.plan (spots F.view self.new.places.items)) }
        ensures unchanged { OnErr result (Same (graph_view self.old.plan (spots F.view self.old.places.items))
            (graph_view self.old.plan (spots F.view self.new.places.items))) }
    {
        let pad = self.plan.pads[port];
        self.places[pad.filter].pull(pad.port)
    }

    // The next item of an output that is wanted. None where each edge of its cone is empty, and nothing is due there.
    fn take(&mut self, port: usize) -> Result<Option<Item>, AllocError>
        requires there { port < length self.old.plan.pads.items }
        requires ways { port < length self.old.plan.ways.items }
        requires wanted { (graph_view self.old.plan (spots F.view self.old.places.items)).stopped port ≡ false }
        ensures plan { self.new.plan ≡ self.old.plan }
        ensures gives { (x : Item) → result ≡ Ok (Some x) → Gave (graph_view self.old.plan (spots F.view self.old.places.items))
            (graph_view self.old.plan (spots F.view self.new.places.items)) port x }
        ensures same { result ≡ Ok None → Same (graph_view self.old.plan (spots F.view self.old.places.items))
            (graph_view self.old.plan (spots F.view self.new.places.items)) }
        ensures quiet { result ≡ Ok None → IsQuiet self.old.plan (spots F.view self.new.places.items) port }
        ensures empty { result ≡ Ok None → AreEmpty self.old.plan (spots F.view self.new.places.items) (ways_of self.old.plan port) }
        ensures waits { result ≡ Ok None → Waits (graph_view self.old.plan (spots F.view self.old.places.items))
            (graph_view self.old.plan (spots F.view self.new.places.items)) port }
        ensures unchanged { OnErr result (Same (graph_view self.old.plan (spots F.view self.old.places.items))
            (graph_view self.old.plan (spots F.view self.new.places.items))) }
    {
        loop {
            match self.give(port) {
                Err(error) => return Err(error),
                Ok(Some(item)) => return Ok(Some(item)),
                Ok(None) => {}
            }
            if !self.advance(port)? {
                return Ok(None);
            }
        }
    }

    // What waits at the end of an edge is fed, so that nothing waits there.
    fn make_room(&mut self, wire: usize) -> Result<(), AllocError>
        requires { wire < length self.old.plan.wires.items }
        ensures plan { self.new.plan ≡ self.old.plan }
        ensures same { Same (graph_view self.old.plan (spots F.view self.old.places.items)) (graph_view self.old.plan (spots F.view self.new.places.items)) }
        ensures empty { OnOk result (port_held (spots F.view self.new.places.items) (wire_at self.old.plan wire).to ≡ false) }
    {
        let Wire { from: _, to } = self.plan.wires[wire];
        self.places[to.filter].deliver(to.port)
    }

    // Puts an item before the filter that an input leads to, where none waits.
    fn enter(&mut self, port: usize, item: Item)
        requires there { port < length self.old.plan.feeds.items }
        requires room { port_held (spots F.view self.old.places.items) (wire_at self.old.plan port).to ≡ false }
        requires open_before { (graph_view self.old.plan (spots F.view self.old.places.items)).shut port ≡ false }
        ensures plan { self.new.plan ≡ self.old.plan }
        ensures fed { Fed (graph_view self.old.plan (spots F.view self.old.places.items)) (graph_view self.old.plan (spots F.view self.new.places.items)) port item }
    {
        let Wire { from: _, to } = self.plan.wires[port];
        self.places[to.filter].store(to.port, item);
    }

    // Puts an item before the filter that an input leads to, behind what waits there.
    fn put(&mut self, port: usize, item: Item) -> Result<(), Refused>
        requires there { port < length self.old.plan.feeds.items }
        requires open_before { (graph_view self.old.plan (spots F.view self.old.places.items)).shut port ≡ false }
        ensures plan { self.new.plan ≡ self.old.plan }
        ensures fed { OnOk result (Fed (graph_view self.old.plan (spots F.view self.old.places.items))
            (graph_view self.old.plan (spots F.view self.new.places.items)) port item) }
        ensures refused { IfErr result (λ r. r.item ≡ item) }
        ensures unchanged { OnErr result (Same (graph_view self.old.plan (spots F.view self.old.places.items))
            (graph_view self.old.plan (spots F.view self.new.places.items))) }
    {
        match self.make_room(port) {
            Err(_) => Err(Refused { item }),
            Ok(()) => {
                self.enter(port, item);
                Ok(())
            }
        }
    }

    /// Feeds an input that hasn't closed. A refused item comes back, and nothing that can be seen has changed.
    pub fn feed(&mut self, port: usize, item: Item) -> Result<(), Refused>
        requires there { port < length self.old.plan.feeds.items }
        requires open_before { (graph_view self.old.plan (spots F.view self.old.places.items)).shut port ≡ false }
        ensures plan { self.new.plan ≡ self.old.plan }
        ensures fed { OnOk result (Fed (graph_view self.old.plan (spots F.view self.old.places.items))
            (graph_view self.old.plan (spots F.view self.new.places.items)) port item) }
        ensures refused { IfErr result (λ r. r.item ≡ item) }
        ensures unchanged { OnErr result (Same (graph_view self.old.plan (spots F.view self.old.places.items))
            (graph_view self.old.plan (spots F.view self.new.places.items))) }
        ensures swept { Swept F.view F.spends self.new.plan self.new.places.items }
    {
        let fed = self.put(port, item);
        self.sweep();
        fed
    }

    // The filter at an output is told that its receiver has finished.
    fn leave(&mut self, port: usize)
        requires { port < length self.old.plan.pads.items }
        ensures plan { self.new.plan ≡ self.old.plan }
        ensures stopped { Stopped (graph_view self.old.plan (spots F.view self.old.places.items)) (graph_view self.old.plan (spots F.view self.new.places.items)) port }
    {
        let pad = self.plan.pads[port];
        self.places[pad.filter].stop(pad.port);
    }

    // Where an edge leads from a filter to a spent input, the output that it leaves is stopped: it keeps nothing from then on.
    fn halt(&mut self, wire: usize)
        requires { wire < length self.old.plan.wires.items }
        ensures plan { self.new.plan ≡ self.old.plan }
        ensures same { Same (graph_view self.old.plan (spots F.view self.old.places.items))
            (graph_view self.old.plan (spots F.view self.new.places.items)) }
        ensures swept { SweptFrom F.view F.spends self.old.plan self.old.places.items (wire + 1) → SweptFrom F.view F.spends self.old.plan self.new.places.items wire }
    {
        let Wire { from, to } = self.plan.wires[wire];
        let Some(from) = from else {
            return;
        };
        if self.places[to.filter].needs(to.port) {
            return;
        }
        self.places[from.filter].stop(from.port);
    }

    /// Stops each output that feeds a spent input, the last edge first: so a stop goes up from filter to filter.
    pub fn sweep(&mut self)
        ensures plan { self.new.plan ≡ self.old.plan }
        ensures same { Same (graph_view self.old.plan (spots F.view self.old.places.items))
            (graph_view self.old.plan (spots F.view self.new.places.items)) }
        ensures swept { Swept F.view F.spends self.new.plan self.new.places.items }
    {
        let count = self.plan.wires.len();
        'wires: for done in 0..count {
            self.halt(count - 1 - done);
        }
    }

    // The edge at the only output of the filter to which an edge leads. None where it has several.
    fn on_from(&self, wire: Wire) -> Option<usize> {
        let outs = self.plan.nodes.get(wire.to.filter)?.outs.as_slice();
        if outs.len() == 1 { Some(outs[0]) } else { None }
    }

    // Whether the filter to which an edge leads makes its next items of it.
    fn is_lacked(&self, wire: Wire) -> bool {
        match self.places.get(wire.to.filter) {
            Some(place) => place.filter.lacks(wire.to.port),
            None => true,
        }
    }

    /// Whether each filter on the way from an input makes its next items of what comes that way, as far as the first
    /// one with several outputs. A hint, of which no clause speaks.
    pub fn lacks(&self, port: usize) -> bool {
        let mut edge = port;
        'way: for passed in 0..self.plan.wires.len() {
            let Some(wire) = self.plan.wires.get(edge) else {
                return true;
            };
            if !self.is_lacked(*wire) {
                return false;
            }
            let Some(next) = self.on_from(*wire) else {
                return true;
            };
            edge = next;
        }
        true
    }

    /// The next item of an output that is wanted. None where nothing is due there.
    pub fn pull(&mut self, port: usize) -> Result<Option<Item>, AllocError>
        requires there { port < length self.old.plan.pads.items }
        requires ways { port < length self.old.plan.ways.items }
        requires wanted { (graph_view self.old.plan (spots F.view self.old.places.items)).stopped port ≡ false }
        ensures plan { self.new.plan ≡ self.old.plan }
        ensures gives { (x : Item) → result ≡ Ok (Some x) → Gave (graph_view self.old.plan (spots F.view self.old.places.items))
            (graph_view self.old.plan (spots F.view self.new.places.items)) port x }
        ensures waits { result ≡ Ok None → Waits (graph_view self.old.plan (spots F.view self.old.places.items))
            (graph_view self.old.plan (spots F.view self.new.places.items)) port }
        ensures unchanged { OnErr result (Same (graph_view self.old.plan (spots F.view self.old.places.items))
            (graph_view self.old.plan (spots F.view self.new.places.items))) }
        ensures swept { Swept F.view F.spends self.new.plan self.new.places.items }
    {
        let given = self.take(port);
        self.sweep();
        given
    }

    /// The receiver of an output has finished.
    pub fn stop(&mut self, port: usize)
        requires { port < length self.old.plan.pads.items }
        ensures plan { self.new.plan ≡ self.old.plan }
        ensures stopped { Stopped (graph_view self.old.plan (spots F.view self.old.places.items)) (graph_view self.old.plan (spots F.view self.new.places.items)) port }
        ensures swept { Swept F.view F.spends self.new.plan self.new.places.items }
    {
        self.leave(port);
        self.sweep();
    }

    /// Whether an input was closed.
    pub fn is_shut(&self, port: usize) -> bool
        requires { port < length self.now.plan.feeds.items }
        ensures { result ≡ (graph_view self.now.plan (spots F.view self.now.places.items)).shut port }
    {
        let feed = self.plan.feeds[port];
        self.places[feed.filter].is_shut(feed.port)
    }

    /// Whether the filter to which an input leads says that the input there is spent.
    pub fn is_spent(&self, port: usize) -> bool
        requires { port < length self.now.plan.feeds.items }
        ensures { result ≡ feed_spent F.spends self.now.plan self.now.places.items port }
    {
        let feed = self.plan.feeds[port];
        self.places[feed.filter].filter.spent(feed.port)
    }

    /// Whether an output was stopped.
    pub fn is_stopped(&self, port: usize) -> bool
        requires { port < length self.now.plan.pads.items }
        ensures { result ≡ (graph_view self.now.plan (spots F.view self.now.places.items)).stopped port }
    {
        let pad = self.plan.pads[port];
        self.places[pad.filter].filter.is_stopped(pad.port)
    }
}
