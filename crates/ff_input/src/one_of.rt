//! The sum of two formats, which nests to any number of them.
ghost use Rattle.std.specs.Prelude.{◌≡◌};

use ff_frame::{Cut, StreamHead};
use ff_reader::PacketCut;
use std::alloc::{AllocError, Global};

/// One of two formats' heads, walks or cuts; where the other is such a one again, one of any number.
#[derive(Clone, Copy, Debug, Drop)]
pub enum OneOf<A, B> {
    /// Of the first format.
    First(A),
    /// Of another.
    Other(B),
}

impl<A: PacketCut, B: PacketCut> PacketCut for OneOf<A, B> {
    ghost use Rattle.ff_input.specs.Either.{either_cutter};

    type Head = OneOf<A::Head, B::Head>;

    ghost is = { either_cutter A.is B.is };

    fn stream_head(head: &OneOf<A::Head, B::Head>) -> StreamHead {
        match head {
            OneOf::First(head) => A::stream_head(head),
            OneOf::Other(head) => B::stream_head(head),
        }
    }

    fn start(head: &OneOf<A::Head, B::Head>) -> u64 {
        match head {
            OneOf::First(head) => A::start(head),
            OneOf::Other(head) => B::start(head),
        }
    }

    fn new(alloc: Global, head: &OneOf<A::Head, B::Head>) -> OneOf<A, B> {
        match head {
            OneOf::First(head) => OneOf::First(A::new(alloc, head)),
            OneOf::Other(head) => OneOf::Other(B::new(alloc, head)),
        }
    }

    fn feed(&mut self, bytes: &[u8]) -> Result<(), AllocError> {
        match self {
            OneOf::First(cut) => cut.feed(bytes),
            OneOf::Other(cut) => cut.feed(bytes),
        }
    }

    fn reserve(&mut self, count: usize) -> Result<(), AllocError> {
        match self {
            OneOf::First(cut) => cut.reserve(count),
            OneOf::Other(cut) => cut.reserve(count),
        }
    }

    fn end(&mut self) {
        match self {
            OneOf::First(cut) => cut.end(),
            OneOf::Other(cut) => cut.end(),
        }
    }

    fn held(&self) -> u64 {
        match self {
            OneOf::First(cut) => cut.held(),
            OneOf::Other(cut) => cut.held(),
        }
    }

    fn pull(&mut self) -> Result<Cut, AllocError> {
        match self {
            OneOf::First(cut) => cut.pull(),
            OneOf::Other(cut) => cut.pull(),
        }
    }
}
