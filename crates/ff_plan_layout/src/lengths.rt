//! The check whether graphs are short.
ghost use Rattle.std.specs.Prelude.{◌≡◌, true, false, List};
ghost use Rattle.std.specs.List.{AllByRecursion};
ghost use Rattle.ff_plan_layout.specs.laws.Limits.{IsShortIfSome, HasShortGraphs};

use ff_graph_links::is_short;
use ff_lang::Graph;
use ff_words::OutputJob;

fn is_short_if_some(graph: &Option<Graph>) -> bool
    ensures yes { result ≡ true → IsShortIfSome graph.now }
    ensures no { result ≡ false → IsShortIfSome graph.now → ⊥ }
{
    match graph {
        Some(graph) => is_short(graph),
        None => true,
    }
}

fn has_short_graphs(out: &OutputJob) -> bool
    ensures yes { result ≡ true → HasShortGraphs out.now }
    ensures no { result ≡ false → HasShortGraphs out.now → ⊥ }
{
    is_short_if_some(&out.vf) && is_short_if_some(&out.af)
}

/// Whether the simple graphs of each output are short.
pub(crate) fn have_short_graphs(outs: &[OutputJob]) -> bool
    ensures yes { result ≡ true → AllByRecursion HasShortGraphs outs.now }
    ensures no { result ≡ false → AllByRecursion HasShortGraphs outs.now → ⊥ }
{
    for out in outs {
        if !has_short_graphs(out) {
            return false;
        }
    }
    true
}
