//! Plans as values.
use ff_lang::Sequence;
use ff_plan_layout::GraphText;
use ff_sched::Routes;
use ff_source::Made;
use ff_stream::Edge;
use ff_words::maps::StreamRef;

/// A node of a plan. Inputs, outputs and graphs have numbers from 0, over the whole job; so do the streams of an output.
#[derive(Clone, Copy, Debug, PartialEq, Eq)]
pub enum PlanNode {
    /// Cuts the bytes of an input into packets.
    Demux { input: u32 },
    /// Makes the frames of a source filter. Sources have numbers behind those of the inputs.
    Gen { source: u32 },
    /// Decodes a stream of an input.
    Dec { stream: StreamRef },
    /// Filters frames.
    Graph { graph: u32 },
    /// Ends all streams of an output with the shortest of them.
    Shortest { output: u32 },
    /// Codes a stream of an output.
    Enc { output: u32, stream: u32 },
    /// Writes an output.
    Mux { output: u32 },
}

/// The plan of a run.
#[derive(Debug, Drop)]
pub struct Plan {
    /// The nodes, each after those that feed it.
    pub nodes: Sequence<PlanNode>,
    /// The edges between the nodes.
    pub edges: Sequence<Edge>,
    /// The routes of the output streams, for the scheduler.
    pub routes: Routes,
    /// Where the string of each graph stands, by the number of the graph.
    pub texts: Sequence<GraphText>,
    /// What the source filters give, by the number of the source. That behind the inputs comes first.
    pub made: Sequence<Made>,
}
