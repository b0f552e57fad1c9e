//! Filters that feed one another as they are drawn, as one filter.
ghost use Rattle.std.specs.Prelude.{◌≡◌, ℕ, IfOk, map, length};
ghost use Rattle.ff_filter.specs.Joins.{Ports};
ghost use Rattle.ff_filter.specs.Views.{IsNew};
ghost use Rattle.ff_graph_links.specs.pads.Links.{pads_in};
ghost use Rattle.ff_graph_dag.specs.laws.Graphs.{graph_view, spots};
ghost use Rattle.ff_graph_dag.specs.wiring.Flows.{no_flows, flows_from, IsDrawing};
ghost use Rattle.ff_graph_dag.specs.wiring.Limits.{flows_at};
ghost use Rattle.ff_graph.specs.laws.composed.Ready.{AreReady};

use crate::composed::lists::places;
use ff_filter::Filter;
use ff_graph_dag::{Dag, Drawing, drawn_plan};
use ff_stream::Lane;
use std::alloc::{AllocError, Global};

/// Filters that are fed as they are drawn, as one filter: `ins` and `outs` are what the graph's inputs and outputs carry.
pub(crate) fn connect<F: Filter + Drop>(
    alloc: Global,
    drawing: &Drawing<'_>,
    filters: Vec<F>,
    ins: Vec<Lane>,
    outs: Vec<Lane>,
) -> Result<Dag<F>, AllocError>
    requires drawing { IsDrawing (pads_in drawing.now.sources.now) drawing.now.order.now drawing.now.counts.now drawing.now.opens.now drawing.now.outs.now }
    requires ready { AreReady (pads_in drawing.now.sources.now) drawing.now.counts.now drawing.now.order.now (map F.view filters.items) }
    requires inputs { length ins.items ≡ length drawing.now.opens.now }
    requires outputs { length outs.items ≡ length drawing.now.outs.now }
    ensures ins { IfOk result (λ m. (graph_view m.graph.plan (spots F.view m.graph.places.items)).ins ≡ ins.items) }
    ensures outs { IfOk result (λ m. (graph_view m.graph.plan (spots F.view m.graph.places.items)).outs ≡ outs.items) }
    ensures new { IfOk result (λ m. IsNew (graph_view m.graph.plan (spots F.view m.graph.places.items))) }
    ensures means { IfOk result (λ m. (ext : Ports) (q : ℕ) → (graph_view m.graph.plan (spots F.view m.graph.places.items)).rest ext q
        ≡ flows_at drawing.now.outs.now (flows_from (pads_in drawing.now.sources.now) drawing.now.opens.now ext no_flows drawing.now.order.now
        (map F.view filters.items)) q) }
{
    let plan = drawn_plan(alloc, drawing, ins, outs)?;
    let placed = places(alloc, filters)?;
    Dag::new(alloc, placed, plan)
}
