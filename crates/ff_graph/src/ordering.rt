//! The order in which the filters of a graph are made.
ghost use Rattle.std.specs.Prelude.{◌≡◌, ℕ, List, IfOk, IfSome, Ok, None, is_some, not};
ghost use Rattle.ff_graph_links.specs.pads.Links.{all_seen};
ghost use Rattle.ff_graph_links.specs.orders.Orders.{IsOrder, IsLowestOrder, loops as is_looped};
ghost use Rattle.ff_graph.specs.Opens.{feeders_in, filter_order, loops};

use crate::drawing::drawn;
use ff_graph_links::{Drawn, feeders, order};
use ff_lang::Graph;
use std::alloc::{AllocError, Global};

/// The order in which the filters of a graph are made: each after those that feed it, else by number. None only where there is
/// no such order: filters feed one another in a loop.
pub fn in_order(alloc: Global, drawn: &[Drawn<'_>]) -> Result<Option<Vec<usize>>, AllocError>
    ensures lowest { IfOk result (λ o. IfSome o (λ filters. IsLowestOrder (feeders_in (all_seen drawn.now)) filters.items)) }
    ensures looped { result ≡ Ok None → (filters : List ℕ) → IsOrder (feeders_in (all_seen drawn.now)) filters → ⊥ }
    ensures those { IfOk result (λ o. IfSome o (λ filters. filters.items ≡ filter_order (all_seen drawn.now))) }
    ensures found { IfOk result (λ o. is_some o ≡ not (is_looped (feeders_in (all_seen drawn.now)))) }
{
    let fed = feeders(alloc, drawn)?;
    order(alloc, &fed)
}

/// Whether filters of a graph feed one another in a loop.
pub fn has_loop(alloc: Global, graph: &Graph) -> Result<bool, AllocError>
    ensures { IfOk result (λ looped. looped ≡ loops graph.now) }
{
    let filters = drawn(alloc, graph)?;
    let order = in_order(alloc, &filters)?;
    Ok(order.is_none())
}
