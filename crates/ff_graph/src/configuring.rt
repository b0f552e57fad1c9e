//! The configuration of all filters of a graph.
ghost use Rattle.std.specs.Prelude.{◌≡◌, IfOk, IfErr, Ok, false, length, map};
ghost use Rattle.ff_graph_links.specs.pads.Links.{all_seen, pads_in};
ghost use Rattle.ff_graph.specs.Configured.{configured, make_all as all_made, open_outs as open_outs_of, CanBeHad};
ghost use Rattle.ff_graph.specs.Drawings.{seen_graph};
ghost use Rattle.ff_graph.specs.Opens.{filter_order, loops, sources_in};
ghost use Rattle.ff_graph.specs.laws.Pads.{heads_in, made_by, output_of, IsRefusal, IsRefused};
ghost use Rattle.ff_graph.specs.declared.refusal.Refusal.TheVariants.{NoMemory};

use crate::drawing::drawn;
use crate::making::make_all;
use crate::ordering::in_order;
use crate::outputs::{OpenOutput, open_outs};
use crate::refusal::Refusal;
use ff_filter::Filter;
use ff_filters::AnyFilter;
use ff_frame::StreamHead;
use ff_graph_links::{Drawn, Pad, sources};
use ff_lang::Graph;
use std::alloc::Global;

/// The filters of a graph.
#[derive(Drop)]
pub struct Configured {
    /// The order in which they are made: their numbers in the order of writing.
    pub order: Vec<usize>,
    /// The output pad that feeds each input pad of each, by the order of writing; None where the pad is open.
    pub sources: Vec<Vec<Option<Pad>>>,
    /// The filters, in the order in which they are made.
    pub filters: Vec<AnyFilter>,
    /// The heads of the output pads of each, by the order of writing.
    pub heads: Vec<Vec<StreamHead>>,
    /// The open output pads in the order of writing.
    pub outs: Vec<OpenOutput>,
}

// The filters of this order, and what they are fed by and give.
fn in_this_order(
    alloc: Global,
    drawn: &[Drawn<'_>],
    given: &[Option<StreamHead>],
    order: Vec<usize>,
) -> Result<Configured, Refusal>
    requires those { order.items ≡ filter_order (all_seen drawn.now) }
    ensures order { IfOk result (λ c. c.order ≡ order) }
    ensures sources { IfOk result (λ c. pads_in c.sources.items ≡ sources_in (all_seen drawn.now)) }
    ensures filters { IfOk result (λ c. all_made (all_seen drawn.now) given.now ≡ Ok (made_by (⟦<AnyFilter as Filter>⟧.view) c.filters c.heads)) }
    ensures outs { IfOk result (λ c. map output_of c.outs.items ≡ open_outs_of (all_seen drawn.now) (heads_in c.heads.items)) }
    ensures size { IfOk result (λ c. length c.heads.items ≡ length drawn.now) }
    ensures refused { IfErr result (IsRefusal (all_made (all_seen drawn.now) given.now)) }
{
    let sources = sources(alloc, drawn)?;
    let (filters, heads) = make_all(alloc, drawn, given, &order)?;
    let outs = open_outs(alloc, drawn, &sources, &heads)?;
    Ok(Configured {
        order,
        sources,
        filters,
        heads,
        outs,
    })
}

/// The filters of a graph where its open input pads have these heads (None: no stream), and its open output pads.
/// Each filter is made by the heads of what those before it give. `Loop` only where its filters feed one another in a
/// loop.
pub fn configure_graph(
    alloc: Global,
    graph: &Graph,
    given: &[Option<StreamHead>],
) -> Result<Configured, Refusal>
    ensures made { IfOk result (λ c. configured graph.now given.now ≡ Ok (map output_of c.outs.items)) }
    ensures filters { IfOk result (λ c. all_made (seen_graph graph.now) given.now ≡ Ok (made_by (⟦<AnyFilter as Filter>⟧.view) c.filters c.heads)) }
    ensures order { IfOk result (λ c. c.order.items ≡ filter_order (seen_graph graph.now)) }
    ensures sources { IfOk result (λ c. pads_in c.sources.items ≡ sources_in (seen_graph graph.now)) }
    ensures size { IfOk result (λ c. length c.heads.items ≡ length (seen_graph graph.now)) }
    ensures unlooped { IfOk result (λ c. loops graph.now ≡ false) }
    ensures refused { IfErr result (IsRefused graph.now given.now) }
    ensures had { IfErr result (λ e. CanBeHad graph.now given.now → e ≡ NoMemory) }
{
    let drawn = drawn(alloc, graph)?;
    match in_order(alloc, &drawn)? {
        None => Err(Refusal::Loop),
        Some(order) => in_this_order(alloc, &drawn, given, order),
    }
}
