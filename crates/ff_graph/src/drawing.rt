//! The filters of a graph as they are drawn, with their pads.
ghost use Rattle.std.specs.Prelude.{◌≡◌, ◌++◌, IfOk, OnOk, false, map};
ghost use Rattle.ff_graph_links.specs.pads.Links.{seen, all_seen};
ghost use Rattle.ff_filters.specs.Names.{filter_named};
ghost use Rattle.ff_graph.specs.Drawings.{seen_as, seen_chain, seen_graph};

use ff_filters::{inputs, named, outputs};
use ff_graph_links::Drawn;
use ff_lang::{Filter, Graph};
use std::alloc::{AllocError, Global};

// A filter as it is drawn. One whose name no filter has has no pads.
fn draw<'a>(filter: &'a Filter, follows: bool) -> Drawn<'a>
    ensures { seen result ≡ seen_as filter.entry.now follows (filter_named filter.entry.now.name) }
{
    match named(filter.name.as_str()) {
        None => Drawn {
            filter,
            inputs: 0,
            outputs: 0,
            follows,
        },
        Some(name) => Drawn {
            filter,
            inputs: inputs(name, filter.args.as_slice()),
            outputs: outputs(name, filter.args.as_slice()),
            follows,
        },
    }
}

// Adds the filters of a chain.
fn draw_chain<'a>(drawn: &mut Vec<Drawn<'a>>, filters: &'a [Filter]) -> Result<(), AllocError>
    ensures { OnOk result (map seen drawn.new.items ≡ map seen drawn.old.items ++ seen_chain false filters.entry.now) }
{
    let mut follows = false;
    'filters: for i in 0..filters.len() {
        drawn.push(draw(&filters[i], follows))?;
        follows = true;
    }
    Ok(())
}

/// The filters of a graph in the order of writing, each as it is drawn.
pub fn drawn<'a>(alloc: Global, graph: &'a Graph) -> Result<Vec<Drawn<'a>>, AllocError>
    ensures { IfOk result (λ filters. all_seen filters.items ≡ seen_graph graph.entry.now) }
{
    let chains = graph.chains.as_slice();
    let mut drawn = Vec::new(alloc);
    'chains: for i in 0..chains.len() {
        draw_chain(&mut drawn, chains[i].filters.as_slice())?;
    }
    Ok(drawn)
}
