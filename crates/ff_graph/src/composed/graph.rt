//! A graph as one filter.
ghost use Rattle.std.specs.Prelude.{◌≡◌, ◌≤◌, ℕ, IfOk, IfErr, length, map};
ghost use Rattle.ff_stream.specs.declared.item.Lane.TheVariants.{Frames as FramesOf};
ghost use Rattle.ff_filter.specs.Joins.{Ports};
ghost use Rattle.ff_filter.specs.Views.{IsNew};
ghost use Rattle.ff_node_filter.specs.Limiting.{IsLimited};
ghost use Rattle.ff_graph_links.specs.pads.Links.{pads_in, opens_from};
ghost use Rattle.ff_filters.specs.limited.Cuts.{AreStreamHeads};
ghost use Rattle.ff_graph.specs.Meaning.{graph_means};
ghost use Rattle.ff_graph.specs.Opens.{open_ins};
ghost use Rattle.ff_graph.specs.Configured.{CanBeHad};
ghost use Rattle.ff_graph.specs.laws.Pads.{heads_in, output_of, IsRefused};
ghost use Rattle.ff_graph.specs.declared.refusal.Refusal.TheVariants.{NoMemory};
ghost use Rattle.ff_graph_dag.specs.wiring.Flows.{no_flows, flows_from, IsDrawing};
ghost use Rattle.ff_graph_dag.specs.wiring.Limits.{flows_at};
ghost use Rattle.ff_graph_links.specs.labels.Clear.{IsClear};
ghost use Rattle.ff_graph.specs.composed.Cuts.{all_given, graph_cuts, graph_outs, out_heads};
ghost use Rattle.ff_graph.specs.composed.Pads.{HasFilter, HaveChannels};
ghost use Rattle.ff_graph.specs.laws.composed.Ready.{AreReady, counts_of, pads_of as pads_in_order};

use crate::composed::connecting::connect;
use crate::composed::lists::{counts, given, heads_of, in_lanes, out_lanes, pads_of};
use crate::{Configured, Refusal, configure_graph};
use ff_filter::Filter;
use ff_filters::AnyFilter;
use ff_frame::StreamHead;
use ff_graph_dag::{Dag, Drawing};
use ff_graph_links::open_inputs;
use ff_lang::Graph;
use std::alloc::{AllocError, Global};

/// The filters of a graph, as one filter.
pub type GraphFilter = Dag<AnyFilter>;

// The filters of a graph that were made on streams of these heads, as one filter.
fn compose(alloc: Global, made: Configured, heads: &[StreamHead]) -> Result<GraphFilter, AllocError>
    requires drawing { IsDrawing (pads_in made.sources.items) made.order.items (counts_of (heads_in made.heads.items)) (opens_from 0 (pads_in made.sources.items))
        (pads_in_order (map output_of made.outs.items)) }
    requires ready { AreReady (pads_in made.sources.items) (counts_of (heads_in made.heads.items)) made.order.items
        (map (⟦<AnyFilter as Filter>⟧.view) made.filters.items) }
    requires counted { length heads.now ≡ length (opens_from 0 (pads_in made.sources.items)) }
    ensures ins { IfOk result (λ m. (⟦<GraphFilter as Filter>⟧.view m).ins ≡ map FramesOf heads.now) }
    ensures outs { IfOk result (λ m. (⟦<GraphFilter as Filter>⟧.view m).outs ≡ map (λ o. FramesOf o.head) (map output_of made.outs.items)) }
    ensures new { IfOk result (λ m. IsNew (⟦<GraphFilter as Filter>⟧.view m)) }
    ensures means { IfOk result (λ m. (ext : Ports) (q : ℕ) → (⟦<GraphFilter as Filter>⟧.view m).rest ext q
        ≡ flows_at (pads_in_order (map output_of made.outs.items)) (flows_from (pads_in made.sources.items) (opens_from 0 (pads_in made.sources.items)) ext no_flows
        made.order.items (map (⟦<AnyFilter as Filter>⟧.view) made.filters.items)) q) }
{
    let opens = open_inputs(alloc, &made.sources)?;
    let counts = counts(alloc, &made.heads)?;
    let pads = pads_of(alloc, &made.outs)?;
    let ins = in_lanes(alloc, heads)?;
    let outs = out_lanes(alloc, &made.outs)?;
    let Configured {
        order,
        sources,
        filters,
        heads: _,
        outs: _,
    } = made;
    let drawing = Drawing {
        order: &order,
        sources: &sources,
        counts: &counts,
        opens: &opens,
        outs: &pads,
    };
    connect(alloc, &drawing, filters, ins, outs)
}

/// A graph as one filter.
#[derive(Drop)]
pub struct MadeGraph {
    /// The filter.
    pub filter: GraphFilter,
    /// The heads of its outputs.
    pub outs: Vec<StreamHead>,
}

/// A graph as one filter, where a stream of each of these heads comes to its open input pads in the order of writing. `Loop` only where
/// its filters feed one another in a loop.
pub fn make_graph(alloc: Global, graph: &Graph, heads: &[StreamHead]) -> Result<MadeGraph, Refusal>
    requires clear { IsClear graph.now }
    requires counted { length heads.now ≡ length (open_ins graph.now) }
    ensures refused { IfErr result (IsRefused graph.now (all_given heads.now)) }
    ensures had { IfErr result (λ e. CanBeHad graph.now (all_given heads.now) → e ≡ NoMemory) }
    ensures heads { IfOk result (λ m. m.outs.items ≡ out_heads graph.now heads.now) }
    ensures new { IfOk result (λ m. IsNew (⟦<GraphFilter as Filter>⟧.view m.filter)) }
    ensures ins { IfOk result (λ m. (⟦<GraphFilter as Filter>⟧.view m.filter).ins ≡ map FramesOf heads.now) }
    ensures outs { IfOk result (λ m. (⟦<GraphFilter as Filter>⟧.view m.filter).outs ≡ map (λ o. FramesOf o.head) (graph_outs graph.now heads.now)) }
    ensures means { IfOk result (λ m. (ext : Ports) (q : ℕ)
        → (⟦<GraphFilter as Filter>⟧.view m.filter).rest ext q ≡ graph_means graph.now (all_given heads.now) ext q) }
    ensures limited { IfOk result (λ m. AreStreamHeads heads.now → IsLimited (⟦<GraphFilter as Filter>⟧.view m.filter).ins
        (⟦<GraphFilter as Filter>⟧.view m.filter).outs (⟦<GraphFilter as Filter>⟧.view m.filter).rest (graph_cuts graph.now (all_given heads.now))) }
    ensures some_ins { IfOk result (λ m. HasFilter graph.now → 1 ≤ length (⟦<GraphFilter as Filter>⟧.view m.filter).ins) }
    ensures some_outs { IfOk result (λ m. HasFilter graph.now → HaveChannels heads.now → 1 ≤ length (⟦<GraphFilter as Filter>⟧.view m.filter).outs) }
{
    let given = given(alloc, heads)?;
    let made = configure_graph(alloc, graph, &given)?;
    let outs = heads_of(alloc, &made.outs)?;
    let filter = compose(alloc, made, heads)?;
    Ok(MadeGraph { filter, outs })
}
