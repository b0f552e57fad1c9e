//! The input pads that no filter of the graph feeds.
ghost use Rattle.std.specs.Prelude.{◌≡◌, ◌++◌, IfOk, OnOk};
ghost use Rattle.ff_graph_links.specs.pads.Links.{pads_in, opens_at, opens_from};

use crate::pads::drawn::Pad;
use std::alloc::{AllocError, Global};

// Adds the open ones of a filter's input pads, of which each is fed so.
fn add_open(pads: &mut Vec<Pad>, filter: usize, sources: &[Option<Pad>]) -> Result<(), AllocError>
    ensures { OnOk result (pads.new.items ≡ pads.old.items ++ opens_at filter 0 sources.now) }
{
    'inputs: for pad in 0..sources.len() {
        if sources[pad].is_none() {
            pads.push(Pad { filter, pad })?;
        }
    }
    Ok(())
}

/// The input pads that no filter of the graph feeds, in the order of writing.
pub fn open_inputs(alloc: Global, sources: &[Vec<Option<Pad>>]) -> Result<Vec<Pad>, AllocError>
    ensures { IfOk result (λ pads. pads.items ≡ opens_from 0 (pads_in sources.now)) }
{
    let mut pads = Vec::new(alloc);
    'filters: for filter in 0..sources.len() {
        add_open(&mut pads, filter, &sources[filter])?;
    }
    Ok(pads)
}
