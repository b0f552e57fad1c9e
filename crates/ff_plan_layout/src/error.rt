//! The reasons why there is no plan.
ghost use Rattle.std.specs.Prelude.{◌≡◌};
ghost use Rattle.ff_plan_layout.specs.declared.error.PlanError.TheVariants.{NoMemory};

use ff_frame::ConfigError;
use ff_lang::Text;
use std::alloc::AllocError;

/// Why there is no plan.
#[derive(Debug, Drop)]
pub enum PlanError {
    /// A map names an input that isn't there, or without `?` no stream of one.
    NoStream {
        output: u32,
        map: u32,
    },
    /// An output gets no stream.
    NoStreams {
        output: u32,
    },
    /// A label that no graph gives and that is no stream.
    UnknownLabel {
        label: Text,
    },
    /// A label that a graph gives and nothing uses.
    UnusedLabel {
        label: Text,
    },
    /// A label that is given or used twice.
    LabelTwice {
        label: Text,
    },
    /// The filters of a graph, or it and further graphs, feed each other in a circle.
    Loop {
        graph: u32,
    },
    /// A filter of a graph can't be had.
    Config {
        graph: u32,
        filter: u32,
        kind: ConfigError,
    },
    /// The format of an output doesn't take this stream, or no further one. The stream counts within its output.
    Takes {
        output: u32,
        stream: u32,
    },
    /// More than 16 streams of outputs.
    TooManyStreams,
    /// More than 16 graphs.
    TooManyGraphs,
    /// More than 16 inputs and source filters together.
    TooManySources,
    /// There was no memory.
    NoMemory,
}

impl From<AllocError> for PlanError {
    ghost from_gives = { λ _ e. e ≡ NoMemory };

    fn from(_: AllocError) -> Self {
        PlanError::NoMemory
    }
}
