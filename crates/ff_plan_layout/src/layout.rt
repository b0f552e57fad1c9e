//! Layouts as values.
use crate::open_pads::OpenOut;
use ff_frame::StreamHead;
use ff_lang::{Sequence, Text};
use ff_words::maps::{Kind, Stream, StreamRef};

/// Where frames come from: a stream of an input, or an open output pad of a graph.
#[derive(Clone, Copy)]
pub enum Origin {
    /// A stream of an input.
    Stream(StreamRef),
    /// An open output pad of a graph, by number.
    Pad { graph: u32, pad: u32 },
}

/// What an input of a graph or a stream of an output shows, and its head.
#[derive(Clone, Copy)]
pub struct InPad {
    /// Where its frames come from.
    pub source: Origin,
    /// The head of these frames.
    pub head: StreamHead,
}

/// A stream of an output: the head of its frames and that of its packets.
#[derive(Clone, Copy)]
pub struct OutStream {
    /// Where its frames come from.
    pub source: Origin,
    /// The head of these frames.
    pub head: StreamHead,
    /// The head of its packets.
    pub packed: StreamHead,
}

/// A stream of an output in its place: its number over all outputs, its output, its number there.
#[derive(Clone, Copy)]
pub struct Placed {
    /// Its number over all outputs, from 0.
    pub number: u32,
    /// The number of its output, from 0.
    pub output: u32,
    /// Its number in that output, from 0.
    pub stream: u32,
    /// The stream.
    pub what: OutStream,
}

/// A graph with its inputs in the order of its open input pads.
#[derive(Drop)]
pub struct Laid {
    /// The number of the graph.
    pub graph: u32,
    /// What its inputs show.
    pub ins: Sequence<InPad>,
}

/// A graph that was configured.
#[derive(Drop)]
pub struct Made {
    /// The graph with its inputs.
    pub laid: Laid,
    /// Its open output pads.
    pub outs: Sequence<OpenOut>,
}

/// What an open input pad of a complex graph gets. It is a stream of an input, what has this label in the graph of
/// this number, or nothing.
#[derive(Drop)]
pub enum Want {
    /// A stream of an input.
    KnownStream(Stream),
    /// The output pad with this label in the graph of this number.
    Labelled { graph: u32, label: Text },
    /// Nothing: there is no stream for it.
    Nothing,
}

/// A stream of an output, and the simple graph that it passes through, if one.
#[derive(Drop)]
pub struct Passed {
    /// The stream.
    pub what: OutStream,
    /// The simple graph that it passes through.
    pub graph: Option<Laid>,
}

/// Where the string of a graph stands.
#[derive(Clone, Copy, Debug, PartialEq, Eq)]
pub enum GraphText {
    /// The job's complex graph of this number.
    Complex { graph: u32 },
    /// The simple graph of an output for its streams of a kind.
    Simple { output: u32, kind: Kind },
    /// The graph that changes nothing, for a stream of this kind.
    Null { kind: Kind },
}

/// What a plan is made of, before its nodes are numbered.
#[derive(Drop)]
pub struct Laying {
    /// What the source filters of complex graphs make, by graph and pad.
    pub made: Vec<ff_source::Made>,
    /// The graphs in the order of their nodes.
    pub graphs: Vec<Laid>,
    /// The streams of each output.
    pub outputs: Vec<Vec<OutStream>>,
    /// Where the string of each graph stands, by the number of the graph.
    pub texts: Vec<GraphText>,
}
