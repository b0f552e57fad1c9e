//! The filters that feed each filter.
ghost use Rattle.std.specs.Prelude.{◌≡◌, ◌++◌, [], IfOk, OnOk};
ghost use Rattle.ff_graph_links.specs.pads.Links.{seen, all_seen, filter_and, first_fed, givers, feeders_of, feeders_from, filters_in};

use crate::pads::drawn::{Drawn, Pad, chained, giver};
use ff_lang::Text;
use std::alloc::{AllocError, Global};

// Adds the filter of a pad, if there is one.
fn add(feeders: &mut Vec<usize>, pad: Option<Pad>) -> Result<(), AllocError>
    ensures { OnOk result (feeders.new.items ≡ feeders.old.items ++ filter_and pad []) }
{
    match pad {
        None => Ok(()),
        Some(pad) => {
            feeders.push(pad.filter)?;
            Ok(())
        }
    }
}

// Adds the filters that give these labels.
fn add_givers(
    feeders: &mut Vec<usize>,
    drawn: &[Drawn<'_>],
    labels: &[Text],
) -> Result<(), AllocError>
    ensures { OnOk result (feeders.new.items ≡ feeders.old.items ++ givers (all_seen drawn.now) labels.now) }
{
    'labels: for place in 0..labels.len() {
        add(feeders, giver(drawn, labels[place].as_str()))?;
    }
    Ok(())
}

// The output pad that feeds the first input pad without a label of a filter, if it has such a pad.
fn first_chained(drawn: &[Drawn<'_>], filter: usize, own: &Drawn<'_>) -> Option<Pad>
    ensures { result ≡ first_fed (all_seen drawn.now) filter (seen own.now) }
{
    if own.filter.ins.as_slice().len() >= own.inputs {
        return None;
    }
    chained(drawn, filter, own, 0)
}

// The filters that feed a filter.
fn feeders_at(
    alloc: Global,
    drawn: &[Drawn<'_>],
    filter: usize,
    own: &Drawn<'_>,
) -> Result<Vec<usize>, AllocError>
    ensures { IfOk result (λ feeders. feeders.items ≡ feeders_of (all_seen drawn.now) filter (seen own.now)) }
{
    let mut feeders = Vec::new(alloc);
    add(&mut feeders, first_chained(drawn, filter, own))?;
    add_givers(&mut feeders, drawn, own.filter.ins.as_slice())?;
    Ok(feeders)
}

/// The filters that feed each filter. They are those that give its labels, also ones for which it has no pad. The one
/// before it in its chain is among them where a pad of that feeds one of its own.
pub fn feeders(alloc: Global, drawn: &[Drawn<'_>]) -> Result<Vec<Vec<usize>>, AllocError>
    ensures { IfOk result (λ all. filters_in all.items ≡ feeders_from (all_seen drawn.now) 0 (all_seen drawn.now)) }
{
    let mut all = Vec::new(alloc);
    'filters: for filter in 0..drawn.len() {
        let own = feeders_at(alloc, drawn, filter, &drawn[filter])?;
        all.push(own)?;
    }
    Ok(all)
}
