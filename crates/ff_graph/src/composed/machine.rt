//! A graph as one machine of a network, with a cut after each output.
ghost use Rattle.std.specs.Prelude.{◌≡◌, IfOk, IfErr, None, [], length, map};
ghost use Rattle.ff_stream.specs.declared.item.Lane.TheVariants.{Frames as FramesOf};
ghost use Rattle.ff_net.specs.Pasts.{start};
ghost use Rattle.ff_filters.specs.limited.Cuts.{AreStreamHeads};
ghost use Rattle.ff_graph.specs.Opens.{open_ins};
ghost use Rattle.ff_graph.specs.Configured.{CanBeHad};
ghost use Rattle.ff_graph.specs.laws.Pads.{IsRefused};
ghost use Rattle.ff_graph.specs.declared.refusal.Refusal.TheVariants.{NoMemory};
ghost use Rattle.ff_graph_links.specs.labels.Clear.{IsClear};
ghost use Rattle.ff_graph.specs.composed.Cuts.{all_given, graph_outs, graph_task};
ghost use Rattle.ff_graph.specs.composed.Pads.{HasFilter, HaveChannels};

use crate::Refusal;
use crate::composed::graph::{GraphFilter, MadeGraph, make_graph};
use ff_frame::{Event, StreamHead, Ticket};
use ff_lang::Graph;
use ff_net::{Fault, Machine};
use ff_node_filter::Alone;
use ff_stream::{Item, Refused};
use ff_trim::{Cutting, OutputCut};
use std::alloc::{AllocError, Global};

/// The filters of a graph with a cut after each output, as one filter.
pub type CutGraph = Cutting<GraphFilter>;

/// A graph as a machine, with a cut after each output.
///
/// An input of it is spent where it has closed, where each output is over, or where the input of a filter to which it
/// leads is spent. An output of a filter that feeds a spent input has closed or was stopped.
#[derive(Drop)]
pub struct GraphMachine {
    /// The filters and the cuts as one filter, and that as a machine.
    pub machine: Alone<CutGraph>,
}

impl Machine for GraphMachine {
    ghost use Rattle.ff_filters.specs.contracts.any.AnyFilterFilter.TheImpl.Laws.{grows-law, quiet-law, spent_only-law};
    ghost use Rattle.ff_graph.specs.laws.composed.Machines.{graph_shown, graph_laws};

    ghost view = { λ m. graph_shown m.machine };

    fn inputs(&self) -> usize {
        self.machine.inputs()
    }

    fn outputs(&self) -> usize {
        self.machine.outputs()
    }

    fn source(&self) -> Option<u32> {
        self.machine.source()
    }

    fn fault(&self) -> Option<Fault> {
        self.machine.fault()
    }

    fn allow(&mut self, ticket: Ticket) -> Option<Ticket> {
        self.machine.allow(ticket)
    }

    fn feed(&mut self, port: usize, item: Item) -> Result<(), Refused> {
        self.machine.feed(port, item)
    }

    fn pull(&mut self, port: usize) -> Result<Option<Item>, AllocError> {
        self.machine.pull(port)
    }

    fn stop(&mut self, port: usize) {
        self.machine.stop(port);
    }

    fn spent(&self, port: usize) -> bool {
        let over = self.machine.spent(port);
        over | self.machine.filter.filter.leads_to_spent(port)
    }

    fn next_event(&mut self) -> Option<Event> {
        self.machine.next_event()
    }

    fn lacks(&self, port: usize) -> bool {
        self.machine.lacks(port)
    }

    ghost laws = { λ m. graph_laws grows-law quiet-law spent_only-law m.machine };
}

/// A graph as one machine of a network. A stream of each of these heads comes to its open input pads in the order of
/// writing. After each of its open output pads stands one of these cuts.
pub fn graph_machine(
    alloc: Global,
    graph: &Graph,
    heads: &[StreamHead],
    cuts: &[OutputCut],
) -> Result<GraphMachine, Refusal>
    requires clear { IsClear graph.now }
    requires counted { length heads.now ≡ length (open_ins graph.now) }
    requires each { length cuts.now ≡ length (graph_outs graph.now heads.now) }
    ensures refused { IfErr result (IsRefused graph.now (all_given heads.now)) }
    ensures had { IfErr result (λ e. CanBeHad graph.now (all_given heads.now) → e ≡ NoMemory) }
    ensures ins { IfOk result (λ m. (⟦<GraphMachine as Machine>⟧.view m).in_lanes ≡ map FramesOf heads.now) }
    ensures outs { IfOk result (λ m. (⟦<GraphMachine as Machine>⟧.view m).out_lanes ≡ map (λ o. FramesOf o.head) (graph_outs graph.now heads.now)) }
    ensures source { IfOk result (λ m. (⟦<GraphMachine as Machine>⟧.view m).source ≡ None) }
    ensures sound { IfOk result (λ m. (⟦<GraphMachine as Machine>⟧.view m).fault ≡ None) }
    ensures device { IfOk result (λ m. (⟦<GraphMachine as Machine>⟧.view m).device ≡ None) }
    ensures failures { IfOk result (λ m. (⟦<GraphMachine as Machine>⟧.view m).failures ≡ 0) }
    ensures stands { IfOk result (λ m. AreStreamHeads heads.now
        → (⟦<GraphMachine as Machine>⟧.view m).stands (start (graph_task graph.now heads.now cuts.now))) }
    ensures has_ins { IfOk result (λ m. HasFilter graph.now → (⟦<GraphMachine as Machine>⟧.view m).in_lanes ≡ [] → ⊥) }
    ensures has_outs { IfOk result (λ m. HasFilter graph.now → HaveChannels heads.now → (⟦<GraphMachine as Machine>⟧.view m).out_lanes ≡ [] → ⊥) }
{
    let made = make_graph(alloc, graph, heads)?;
    let MadeGraph { filter, outs } = made;
    let cutting = Cutting::new(alloc, filter, &outs, cuts)?;
    Ok(GraphMachine {
        machine: Alone::new(cutting),
    })
}
