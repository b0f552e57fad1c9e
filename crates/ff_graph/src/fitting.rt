//! The checks whether a filter has the pads that its labels and its chain ask for.
ghost use Rattle.std.specs.Prelude.{◌≡◌, ◌-◌, [], is_some, length, slice_get, slice_index_or};
ghost use Rattle.std.specs.List.{list_any};
ghost use Rattle.ff_graph_links.specs.pads.Links.{Seen, seen, all_seen, pads_in};
ghost use Rattle.ff_graph.specs.Configured.{leaves_over as left_over, stands_at as is_at, is_fed_source as fed_source, is_misfit as misfits};
ghost use Rattle.ff_graph.specs.Configured.{too_few_channels, is_surplus as has_surplus};
ghost use Rattle.ff_graph.specs.Opens.{sources_in};

use crate::sources::is_source_filter;
use ff_filters::{FilterName, is_apart};
use ff_frame::StreamHead;
use ff_graph_links::{Drawn, Pad};

// Whether the filter before it in its chain has output pads without a label that no input pad of its own takes.
fn leaves_over(drawn: &[Drawn<'_>], filter: usize, own: &Drawn<'_>) -> bool
    ensures { result ≡ left_over (seen own.now) (slice_get (all_seen drawn.now) (filter - 1)) }
{
    let place = filter.saturating_sub(1);
    if place >= drawn.len() {
        return false;
    }
    let before = &drawn[place];
    let wanted = own.inputs.saturating_sub(own.filter.ins.as_slice().len());
    let left = before
        .outputs
        .saturating_sub(before.filter.outs.as_slice().len());
    own.follows && wanted < left
}

// Whether the pad at this place is one of the filter.
fn stands_at(pads: &[Pad], place: usize, filter: usize) -> bool
    ensures { result ≡ is_at filter (slice_get pads.now place) }
{
    place < pads.len() && pads[place].filter == filter
}

// Whether one of these input pads is fed.
fn some_fed(sources: &[Option<Pad>]) -> bool
    ensures { result ≡ list_any (λ from. is_some from) sources.now }
{
    'pads: for at in 0..sources.len() {
        if sources[at].is_some() {
            return true;
        }
    }
    false
}

// Whether an input pad of this filter is fed.
fn is_fed(sources: &[Vec<Option<Pad>>], filter: usize) -> bool
    ensures { result ≡ list_any (λ from. is_some from) (slice_index_or (pads_in sources.now) filter []) }
{
    if filter >= sources.len() {
        return false;
    }
    some_fed(&sources[filter])
}

// Whether a filter is a source filter to which something else would come: it has a label at its input, or is fed.
fn is_fed_source(sources: &[Vec<Option<Pad>>], filter: usize, own: &Drawn<'_>) -> bool
    ensures { result ≡ fed_source (pads_in sources.now) filter (seen own.now) }
{
    is_source_filter(own.filter)
        && (!own.filter.ins.as_slice().is_empty() || is_fed(sources, filter))
}

/// Whether a filter has more labels at its inputs than pads, its chain leaves outputs over, or it is one too many.
/// That is the 65th, or one that has the graph's 17th open input pad. Or it is a source filter to which something else
/// would come.
pub(crate) fn is_misfit(
    drawn: &[Drawn<'_>],
    sources: &[Vec<Option<Pad>>],
    opens: &[Pad],
    filter: usize,
    own: &Drawn<'_>,
) -> bool
    requires fed { pads_in sources.now ≡ sources_in (all_seen drawn.now) }
    ensures { result ≡ misfits (all_seen drawn.now) opens.now filter (seen own.now) }
{
    own.inputs < own.filter.ins.as_slice().len()
        || leaves_over(drawn, filter, own)
        || filter == 64
        || stands_at(opens, 16, filter)
        || is_fed_source(sources, filter, own)
}

// Whether a filter has more labels at its outputs than its input has channels.
fn lacks_channels(labels: usize, heads: &[StreamHead]) -> bool
    ensures { (d : Seen) → length d.filter.outs ≡ labels → result ≡ too_few_channels d heads.now }
{
    if heads.is_empty() {
        return false;
    }
    match heads[0] {
        StreamHead::Audio { channels, .. } => (channels as usize) < labels,
        StreamHead::Video { .. } => false,
    }
}

/// Whether a filter has more labels at its outputs than pads.
pub(crate) fn is_surplus(name: FilterName, own: &Drawn<'_>, heads: &[StreamHead]) -> bool
    ensures { result ≡ has_surplus name (seen own.now) heads.now }
{
    let labels = own.filter.outs.as_slice().len();
    if is_apart(name) {
        lacks_channels(labels, heads)
    } else {
        own.outputs < labels
    }
}
