//! The open pads of a graph, and the refusal of a filter.
use ff_frame::{ConfigError, StreamHead};
use ff_lang::Text;
use ff_source::Made;
use ff_words::maps::Kind;

/// The source filter that an open input pad belongs to.
#[derive(Clone, Copy, Debug)]
pub struct SourcePad {
    /// The number of the filter in the order of writing, from 0.
    pub filter: u32,
    /// What the filter makes; none where its arguments are refused.
    pub made: Option<Made>,
}

/// An input pad of a graph that no filter of it feeds.
#[derive(Debug, Drop)]
pub struct OpenIn {
    /// Its label, if it has one.
    pub label: Option<Text>,
    /// The kind of stream that it takes.
    pub kind: Kind,
    /// The source filter that it belongs to, if it is one's.
    pub source: Option<SourcePad>,
}

/// An output pad of a graph that feeds no filter of it.
#[derive(Debug, Drop)]
pub struct OpenOut {
    /// Its label, if it has one.
    pub label: Option<Text>,
    /// The head of the stream that it gives.
    pub head: StreamHead,
}

/// The refusal of a filter of a graph, by its number in the order of writing.
#[derive(Clone, Copy, Debug, PartialEq, Eq)]
pub struct Refused {
    /// The number of the filter, from 0.
    pub filter: u32,
    /// Why it is refused.
    pub kind: ConfigError,
}
