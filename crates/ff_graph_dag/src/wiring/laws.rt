//! Laws of plans. Each is a function that does nothing: its clauses hold of all values.
ghost use Rattle.std.specs.Prelude.{◌≡◌, ◌<◌, ℕ, Bool, List, [], Option, Some, None, length, map, slice_get, slice_index_or};
ghost use Rattle.std.specs.List.{position_or_len};
ghost use Rattle.ff_stream.specs.declared.item.Lane.{Lane};
ghost use Rattle.ff_stream.specs.Ports.{stream_at};
ghost use Rattle.ff_filter.specs.Joins.{Flow, Ports};
ghost use Rattle.ff_filter.specs.Views.{View};
ghost use Rattle.ff_node_filter.specs.Limiting.{IsLimited};
ghost use Rattle.ff_graph_links.specs.declared.pads.drawn.Pad.{Pad as APad};
ghost use Rattle.ff_graph_dag.specs.declared.graph.Node.{Node};
ghost use Rattle.ff_graph_dag.specs.declared.graph.Port.{Port as APort};
ghost use Rattle.ff_graph_dag.specs.declared.graph.Plan.{Plan};
ghost use Rattle.ff_graph_dag.specs.laws.Dags.{Spot};
ghost use Rattle.ff_graph_dag.specs.laws.Graphs.{spot_at, Fits};
ghost use Rattle.ff_graph_dag.specs.laws.Parts.{AreNew, composed};
ghost use Rattle.ff_graph_links.specs.pads.Links.{opens_from};
ghost use Rattle.ff_graph_links.specs.orders.Orders.{IsOrder};
ghost use Rattle.ff_graph_dag.specs.laws.ties.Tied.{IsTied};
ghost use Rattle.ff_graph_dag.specs.wiring.Flows.{no_flows, flows_from, same_pad, pad_place, placed, placed_counts, placed_pads, pad_at, source_at, IsForward, IsDrawing};
ghost use Rattle.ff_graph_dag.specs.wiring.Limits.{flows_at, cuts_from, AreLimited, Leave};
ghost use Rattle.ff_graph_dag.specs.laws.wiring.Meant.{Streams, Solves};
ghost use Rattle.ff_graph_dag.specs.laws.wiring.Wires.{IsLinked, IsWired};

/// A plan of filters to which nothing was done stands for the streams that solve its filters, so that they have one solution only.
pub fn wired_plans_solve()
    ensures { (fed : List (List (Option APort))) (counts : List ℕ) (opens pads : List APort) (p : Plan) (ss : List Spot) (ext : Ports) (σ : Streams) (q : ℕ) (f : APort)
        → IsLinked fed counts opens pads → IsWired fed counts opens pads p → IsTied p → length ss ≡ length p.nodes.items
        → ((k : ℕ) (m : Node) → k < length ss → Fits (spot_at ss k) (slice_index_or p.nodes.items k m)) → AreNew ss
        → Solves fed opens ext (map (λ s. s.view) ss) σ → slice_get p.pads.items q ≡ Some f → composed p ss ext q ≡ σ f }
{}

/// Filters that are taken one by one, each after those that feed it, solve the filters by their places.
pub fn filters_in_order_solve()
    ensures { (order : List ℕ) (sources : List (List (Option APad))) (opens : List APad) (ext : Ports) (vs : List View)
        → IsForward sources order → length vs ≡ length order
        → ((i : ℕ) (q : APad) → slice_get opens i ≡ Some q → (j : ℕ) × (slice_get order j ≡ Some q.filter))
        → ((f i : ℕ) (from : APad) → source_at sources f i ≡ Some (Some from) → (j : ℕ) × (slice_get order j ≡ Some from.filter))
        → Solves (placed order sources) (placed_pads order opens) ext vs (λ f. flows_from sources opens ext no_flows order vs (pad_at order f)) }
{}

/// An order in which each filter comes after those that feed it has each filter. It goes forward in a drawing where
/// the filter of each source is among those that feed.
pub fn orders_go_forward()
    ensures forward { (feeders : List (List ℕ)) (sources : List (List (Option APad))) (order : List ℕ) → IsOrder feeders order
        → ((f i : ℕ) (from : APad) → source_at sources f i ≡ Some (Some from) → (j : ℕ) × (slice_get (slice_index_or feeders f []) j ≡ Some from.filter))
        → IsForward sources order }
    ensures all { (feeders : List (List ℕ)) (order : List ℕ) (f : ℕ) → IsOrder feeders order → f < length feeders → (j : ℕ) × (slice_get order j ≡ Some f) }
{}

/// The open inputs of ff_graph_links are the pads that no filter feeds, each once.
pub fn open_inputs_are_open()
    ensures free { (sources : List (List (Option APad))) (n : ℕ) (p : APad) → slice_get (opens_from 0 sources) n ≡ Some p
        → source_at sources p.filter p.pad ≡ Some None }
    ensures once { (sources : List (List (Option APad))) (n m : ℕ) (p : APad) → slice_get (opens_from 0 sources) n ≡ Some p
        → slice_get (opens_from 0 sources) m ≡ Some p → n ≡ m }
    ensures all { (sources : List (List (Option APad))) (p : APad) → source_at sources p.filter p.pad ≡ Some None
        → (n : ℕ) × (slice_get (opens_from 0 sources) n ≡ Some p) }
{}

/// A drawing by the places of its filters is one of filters that feed later ones only.
pub fn drawings_are_linked()
    ensures { (sources : List (List (Option APad))) (order counts : List ℕ) (opens outs : List APad) → IsDrawing sources order counts opens outs
        → IsLinked (placed order sources) (placed_counts order counts) (placed_pads order opens) (placed_pads order outs) }
{}

/// The plan of a drawing stands for its filters one after another, where nothing was done to them. On each output of
/// the graph it has the stream of the pad there.
pub fn drawn_plans_mean()
    ensures { (sources : List (List (Option APad))) (order counts : List ℕ) (opens outs : List APad) (p : Plan) (ss : List Spot) (ext : Ports) (q : ℕ) (out : APad)
        → IsDrawing sources order counts opens outs
        → IsWired (placed order sources) (placed_counts order counts) (placed_pads order opens) (placed_pads order outs) p → IsTied p
        → length ss ≡ length p.nodes.items → ((k : ℕ) (m : Node) → k < length ss → Fits (spot_at ss k) (slice_index_or p.nodes.items k m)) → AreNew ss
        → slice_get outs q ≡ Some out → composed p ss ext q ≡ flows_from sources opens ext no_flows order (map (λ s. s.view) ss) out }
{}

/// Filters whose functions are within limits make a graph whose function is within limits; it is cut where a limit of one of them cuts.
pub fn graphs_are_limited()
    ensures { (sources : List (List (Option APad))) (opens : List APad) (ins : List Lane) (lanes : APad → Option Lane) (outs : List Lane) (os : List APad) (ks : List ℕ)
        (vs : List View) (cs : List (List Flow → Bool)) → Leave lanes os outs → AreLimited sources opens ins lanes ks vs cs
        → IsLimited ins outs (λ ext. flows_at os (flows_from sources opens ext no_flows ks vs)) (λ ss. cuts_from sources opens (stream_at ss) no_flows ks vs cs) }
{}

/// So is what the plan of a drawing of such filters stands for.
pub fn drawn_plans_are_limited()
    ensures { (sources : List (List (Option APad))) (order counts : List ℕ) (opens outs : List APad) (p : Plan) (ss : List Spot) (ins : List Lane)
        (lanes : APad → Option Lane) (leaving : List Lane) (cs : List (List Flow → Bool)) → IsDrawing sources order counts opens outs
        → IsWired (placed order sources) (placed_counts order counts) (placed_pads order opens) (placed_pads order outs) p → IsTied p
        → length ss ≡ length p.nodes.items → ((k : ℕ) (m : Node) → k < length ss → Fits (spot_at ss k) (slice_index_or p.nodes.items k m)) → AreNew ss
        → Leave lanes outs leaving → AreLimited sources opens ins lanes order (map (λ s. s.view) ss) cs
        → IsLimited ins leaving (λ ext q. composed p ss ext q) (λ rs. cuts_from sources opens (stream_at rs) no_flows order (map (λ s. s.view) ss) cs) }
{}

/// The place of a pad among others is its position there.
pub fn pad_places_are_positions()
    ensures { (pads : List APad) (p : APad) → pad_place pads p ≡ position_or_len (same_pad p) pads }
{}
