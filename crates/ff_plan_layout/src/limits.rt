//! The limits within which jobs are planned.
ghost use Rattle.std.specs.Prelude.{◌≡◌, ◌≤◌, true, false, length};
ghost use Rattle.std.specs.List.{AllByRecursion};
ghost use Rattle.ff_words.specs.maps.Choice.{lists};
ghost use Rattle.ff_plan_layout.specs.laws.Limits.{IsWithinLimits};

use crate::lengths::have_short_graphs;
use ff_frame::StreamHead;
use ff_graph_links::are_short;
use ff_words::{Job, OutputJob};

// How many inputs, streams of one, outputs and maps of one there may be.
const MOST: usize = 16;

// Whether each input has few streams.
fn are_narrow(heads: &[Vec<StreamHead>]) -> bool
    ensures yes { result ≡ true → AllByRecursion (λ hs. length hs ≤ 16) (lists heads.now) }
    ensures no { result ≡ false → AllByRecursion (λ hs. length hs ≤ 16) (lists heads.now) → ⊥ }
{
    for streams in heads {
        if streams.as_slice().len() > MOST {
            return false;
        }
    }
    true
}

// Whether each output has few maps.
fn have_few_maps(outs: &[OutputJob]) -> bool
    ensures yes { result ≡ true → AllByRecursion (λ out. length out.maps ≤ 16) outs.now }
    ensures no { result ≡ false → AllByRecursion (λ out. length out.maps ≤ 16) outs.now → ⊥ }
{
    for out in outs {
        if out.maps.as_slice().len() > MOST {
            return false;
        }
    }
    true
}

/// Whether a job and the heads of its inputs are within the limits that `plan` asks for. These are at most 16 inputs
/// of at most 16 streams, and at most 16 outputs of at most 16 maps. There are at most 16 graphs, each of at most
/// 65,536 filters, as are those of outputs.
pub fn is_within_limits(job: &Job, heads: &[Vec<StreamHead>]) -> bool
    ensures yes { result ≡ true → IsWithinLimits job.now (lists heads.now) }
    ensures no { result ≡ false → IsWithinLimits job.now (lists heads.now) → ⊥ }
{
    let outs = job.outputs.as_slice();
    let graphs = job.graphs.as_slice();
    let few = heads.len() <= MOST && outs.len() <= MOST && graphs.len() <= MOST;
    few && are_narrow(heads) && have_few_maps(outs) && are_short(graphs) && have_short_graphs(outs)
}
