//! The output pad that feeds each input pad.
ghost use Rattle.std.specs.Prelude.{◌≡◌, IfOk};
ghost use Rattle.ff_graph_links.specs.pads.Links.{seen, all_seen, source_of, sources_of, sources_from, pads_in};

use crate::pads::drawn::{Drawn, Pad, chained, giver};
use std::alloc::{AllocError, Global};

// The output pad that feeds an input pad of a filter. None where the pad is open.
fn source(drawn: &[Drawn<'_>], filter: usize, own: &Drawn<'_>, pad: usize) -> Option<Pad>
    ensures { result ≡ source_of (all_seen drawn.now) filter (seen own.now) pad }
{
    let labels = own.filter.ins.as_slice();
    if pad < labels.len() {
        return giver(drawn, labels[pad].as_str());
    }
    chained(drawn, filter, own, pad - labels.len())
}

// The same of each input pad.
fn sources_at(
    alloc: Global,
    drawn: &[Drawn<'_>],
    filter: usize,
    own: &Drawn<'_>,
) -> Result<Vec<Option<Pad>>, AllocError>
    ensures { IfOk result (λ pads. pads.items ≡ sources_of (all_seen drawn.now) filter (seen own.now)) }
{
    let mut pads = Vec::new(alloc);
    'pads: for pad in 0..own.inputs {
        pads.push(source(drawn, filter, own, pad))?;
    }
    Ok(pads)
}

/// The output pad that feeds each input pad of each filter. None where the pad is open.
pub fn sources(alloc: Global, drawn: &[Drawn<'_>]) -> Result<Vec<Vec<Option<Pad>>>, AllocError>
    ensures { IfOk result (λ all. pads_in all.items ≡ sources_from (all_seen drawn.now) 0 (all_seen drawn.now)) }
{
    let mut all = Vec::new(alloc);
    'filters: for filter in 0..drawn.len() {
        let pads = sources_at(alloc, drawn, filter, &drawn[filter])?;
        all.push(pads)?;
    }
    Ok(all)
}
