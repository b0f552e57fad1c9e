//! The parts of graphs and of Shortest nodes.
ghost use Rattle.std.specs.Prelude.{◌≡◌, ◌<◌, List, length, map, slice_get, None, Some, IfOk, IfSome};
ghost use Rattle.ff_stream.specs.declared.item.Lane.TheVariants.{Frames};
ghost use Rattle.ff_lang.specs.declared.graph.Graph.{Graph};
ghost use Rattle.ff_net.specs.Pasts.{start};
ghost use Rattle.ff_plan_layout.specs.Streams.{null_graph as null_of, simple_of};
ghost use Rattle.ff_plan_layout.specs.Texts.{graph_text};
ghost use Rattle.ff_run_plan.specs.Asked.{text_there};
ghost use Rattle.ff_run_plan.specs.Kinds.{IsNew};
ghost use Rattle.ff_frame.specs.declared.head.StreamHead.{StreamHead};
ghost use Rattle.ff_words.specs.declared.job.OutputJob.{OutputJob};

use crate::kinds::Kinds;
use ff_frame::StreamHead;
use ff_host::{Sink, Source};
use ff_lang::{Chain, Filter, Graph, Sequence, Text};
use ff_net::Machine;
use ff_plan_layout::{GraphText, simple_graph};
use ff_trim::OutputCut;
use ff_words::maps::Kind;
use ff_words::{Job, OutputJob};
use std::alloc::{AllocError, Global};

// The graph that changes nothing, for a stream of this kind.
fn null_graph(alloc: Global, kind: Kind) -> Result<Graph, AllocError>
    ensures { IfOk result (λ g. g ≡ null_of kind) }
{
    let name = match kind {
        Kind::Audio => "anull",
        Kind::Video => "null",
    };
    let mut filters = Sequence::new(alloc);
    filters.push(Filter {
        ins: Sequence::new(alloc),
        name: Text::of(String::from_str(alloc, name)?),
        args: Sequence::new(alloc),
        outs: Sequence::new(alloc),
    })?;
    let mut chains = Sequence::new(alloc);
    chains.push(Chain { filters })?;
    Ok(Graph { chains })
}

// The graph of this number, whose string stands there.
fn graph_by<
    K: Kinds<Src, Snk, M>,
    Src: Source + Send + Drop,
    Snk: Sink + Send + Drop,
    M: Machine + Send + Drop,
>(
    alloc: Global,
    number: u32,
    job: &Job,
    stands: GraphText,
    heads: &[StreamHead],
    cuts: &[OutputCut],
) -> Option<M>
    requires { (text : Graph) × (graph_text job.now stands ≡ Some text)
        × (made : List StreamHead) × K.is.CanFilter text heads.now made × (length cuts.now ≡ length made) }
    ensures new { IfSome result (λ m. (text : Graph) (made : List StreamHead) → graph_text job.now stands ≡ Some text → K.is.CanFilter text heads.now made
        → IsNew None (map (λ head. Frames head) heads.now) (map (λ head. Frames head) made) None 0 (M.view m)) }
    ensures starts { IfSome result (λ m. (text : Graph) → graph_text job.now stands ≡ Some text
        → (M.view m).stands (start (K.is.graph_task number text heads.now cuts.now))) }
{
    match stands {
        GraphText::Complex { graph } => {
            let text = &job.graphs.as_slice()[graph as usize];
            K::graph(alloc, number, text, heads, cuts).ok()
        }
        GraphText::Simple { output, kind } => {
            match simple_graph(&job.outputs.as_slice()[output as usize], kind) {
                Some(text) => K::graph(alloc, number, text, heads, cuts).ok(),
                None => unreachable!(),
            }
        }
        GraphText::Null { kind } => match null_graph(alloc, kind) {
            Ok(text) => K::graph(alloc, number, &text, heads, cuts).ok(),
            Err(_) => None,
        },
    }
}

/// The graph of this number, by the places where the strings of all graphs stand.
pub(crate) fn graph_at<
    K: Kinds<Src, Snk, M>,
    Src: Source + Send + Drop,
    Snk: Sink + Send + Drop,
    M: Machine + Send + Drop,
>(
    alloc: Global,
    number: u32,
    job: &Job,
    texts: &[GraphText],
    heads: &[StreamHead],
    cuts: &[OutputCut],
) -> Option<M>
    requires { (text : Graph) × (text_there job.now (slice_get texts.now number) ≡ Some text)
        × (made : List StreamHead) × K.is.CanFilter text heads.now made × (length cuts.now ≡ length made) }
    ensures new { IfSome result (λ m. (text : Graph) (made : List StreamHead) → text_there job.now (slice_get texts.now number) ≡ Some text
        → K.is.CanFilter text heads.now made
        → IsNew None (map (λ head. Frames head) heads.now) (map (λ head. Frames head) made) None 0 (M.view m)) }
    ensures starts { IfSome result (λ m. (text : Graph) → text_there job.now (slice_get texts.now number) ≡ Some text
        → (M.view m).stands (start (K.is.graph_task number text heads.now cuts.now))) }
{
    graph_by::<K, Src, Snk, M>(alloc, number, job, texts[number as usize], heads, cuts)
}

/// The Shortest node of an output, over frames of these heads.
pub(crate) fn shortest_at<
    K: Kinds<Src, Snk, M>,
    Src: Source + Send + Drop,
    Snk: Sink + Send + Drop,
    M: Machine + Send + Drop,
>(alloc: Global, output: u32, outputs: &[OutputJob], heads: &[StreamHead]) -> Option<M>
    requires there { output < length outputs.now }
    requires can { K.is.CanJoin heads.now }
    ensures new { IfSome result (λ m. IsNew None (map (λ head. Frames head) heads.now) (map (λ head. Frames head) heads.now) None 0 (M.view m)) }
    ensures starts { IfSome result (λ m. (out : OutputJob) → slice_get outputs.now output ≡ Some out
        → (M.view m).stands (start (K.is.shortest_task out.shortest heads.now))) }
{
    K::shortest(alloc, outputs[output as usize].shortest, heads).ok()
}
