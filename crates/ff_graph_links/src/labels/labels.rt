//! The labels that a graph takes and gives.
ghost use Rattle.std.specs.Prelude.{◌≡◌, true, false};
ghost use Rattle.std.specs.List.{AllByRecursion};
ghost use Rattle.ff_graph_links.specs.labels.Labels.{is_one_of as one_of, IsShort, outs_of, ins_of, given_in, taken_in, meet};

use ff_lang::{Chain, Graph, Text};

/// Whether a string is one of these.
pub(crate) fn is_one_of(text: &str, texts: &[Text]) -> bool
    ensures { result ≡ one_of text.now texts.now }
{
    for other in texts {
        if text == other.as_str() {
            return true;
        }
    }
    false
}

fn chain_gives(chain: &Chain, label: &str) -> bool
    ensures { result ≡ one_of label.now (outs_of chain.now.filters) }
{
    for filter in chain.filters.as_slice() {
        if is_one_of(label, filter.outs.as_slice()) {
            return true;
        }
    }
    false
}

/// Whether an output pad of a graph has this label.
pub fn gives(graph: &Graph, label: &str) -> bool
    ensures { result ≡ one_of label.now (given_in graph.now) }
{
    for chain in graph.chains.as_slice() {
        if chain_gives(chain, label) {
            return true;
        }
    }
    false
}

fn chain_takes(chain: &Chain, label: &str) -> bool
    ensures { result ≡ one_of label.now (ins_of chain.now.filters) }
{
    for filter in chain.filters.as_slice() {
        if is_one_of(label, filter.ins.as_slice()) {
            return true;
        }
    }
    false
}

/// Whether an input pad of a graph has this label.
pub fn takes(graph: &Graph, label: &str) -> bool
    ensures { result ≡ one_of label.now (taken_in graph.now) }
{
    for chain in graph.chains.as_slice() {
        if chain_takes(chain, label) {
            return true;
        }
    }
    false
}

// Whether a graph gives one of these labels.
fn gives_any(graph: &Graph, labels: &[Text]) -> bool
    ensures { result ≡ meet labels.now (given_in graph.now) }
{
    for label in labels {
        if gives(graph, label.as_str()) {
            return true;
        }
    }
    false
}

fn gives_to_chain(graph: &Graph, chain: &Chain) -> bool
    ensures { result ≡ meet (ins_of chain.now.filters) (given_in graph.now) }
{
    for filter in chain.filters.as_slice() {
        if gives_any(graph, filter.ins.as_slice()) {
            return true;
        }
    }
    false
}

/// Whether a label that the first graph gives stands at an input pad of the second.
pub(crate) fn gives_to(from: &Graph, to: &Graph) -> bool
    ensures { result ≡ meet (taken_in to.now) (given_in from.now) }
{
    for chain in to.chains.as_slice() {
        if gives_to_chain(from, chain) {
            return true;
        }
    }
    false
}

// How many filters a graph may have: its string has no more bytes.
const MOST: usize = 65_536;

/// Whether a graph has at most 65,536 filters.
pub fn is_short(graph: &Graph) -> bool
    ensures yes { result ≡ true → IsShort graph.now }
    ensures no { result ≡ false → IsShort graph.now → ⊥ }
{
    let mut left = MOST;
    for chain in graph.chains.as_slice() {
        let count = chain.filters.as_slice().len();
        if count > left {
            return false;
        }
        left -= count;
    }
    true
}

/// Whether each graph has at most 65,536 filters, as all have that were read of a string of so many bytes.
pub fn are_short(graphs: &[Graph]) -> bool
    ensures yes { result ≡ true → AllByRecursion IsShort graphs.now }
    ensures no { result ≡ false → AllByRecursion IsShort graphs.now → ⊥ }
{
    for graph in graphs {
        if !is_short(graph) {
            return false;
        }
    }
    true
}
