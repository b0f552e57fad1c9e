//! The filters of a graph with their pads, as they are written.
ghost use Rattle.std.specs.Prelude.{◌≡◌, slice_get};
ghost use Rattle.ff_graph_links.specs.pads.Links.{seen, all_seen, place_from, giver_from, next_pad as next_pad_of, chained as chained_to};

use ff_lang::{Filter, Text};

/// A pad of a filter of a graph.
#[derive(Clone, Copy, Debug)]
pub struct Pad {
    /// The filter, by the order of writing.
    pub filter: usize,
    /// Its pad.
    pub pad: usize,
}

/// A filter of a graph as it is drawn.
#[derive(Clone, Copy)]
pub struct Drawn<'a> {
    /// The filter, with the labels of its first input and output pads.
    pub filter: &'a Filter,
    /// How many input pads it has.
    pub inputs: usize,
    /// How many of its output pads there are for filters after it in its chain, those with a label counted too.
    pub outputs: usize,
    /// Whether a filter stands before it in its chain.
    pub follows: bool,
}

// The place of a label among others.
fn place_of(labels: &[Text], label: &str) -> Option<usize>
    ensures { result ≡ place_from 0 labels.now label.now }
{
    'labels: for place in 0..labels.len() {
        if label == labels[place].as_str() {
            return Some(place);
        }
    }
    None
}

/// The output pad with this label, the first where there are several.
pub fn giver(drawn: &[Drawn<'_>], label: &str) -> Option<Pad>
    ensures { result ≡ giver_from 0 (all_seen drawn.now) label.now }
{
    'filters: for filter in 0..drawn.len() {
        let written = drawn[filter].filter;
        if let Some(pad) = place_of(written.outs.as_slice(), label) {
            return Some(Pad { filter, pad });
        }
    }
    None
}

// The output pad of a filter that feeds the input pad of this number among those without a label of the one after it.
fn next_pad(drawn: &[Drawn<'_>], filter: usize, number: usize) -> Option<Pad>
    ensures { result ≡ next_pad_of filter (slice_get (all_seen drawn.now) filter) number }
{
    if filter >= drawn.len() {
        return None;
    }
    let written = drawn[filter].filter;
    let labels = written.outs.as_slice().len();
    let outputs = drawn[filter].outputs;
    if labels >= outputs || number >= outputs - labels {
        return None;
    }
    Some(Pad {
        filter,
        pad: labels + number,
    })
}

/// The output pad that feeds the input pad of this number among those without a label of a filter, by its chain.
pub fn chained(drawn: &[Drawn<'_>], filter: usize, own: &Drawn<'_>, number: usize) -> Option<Pad>
    ensures { result ≡ chained_to (all_seen drawn.now) filter (seen own.now) number }
{
    if !own.follows {
        return None;
    }
    next_pad(drawn, filter.saturating_sub(1), number)
}
