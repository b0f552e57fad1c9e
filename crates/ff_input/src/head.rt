//! The streams that the head of an input tells of.
ghost use Rattle.std.specs.Prelude.{◌≡◌, IfOk};
ghost use Rattle.ff_input.specs.Formats.{streams_in};

use crate::formats::{InputHead, SingleCut};
use crate::one_of::OneOf;
use ff_frame::StreamHead;
use ff_reader::PacketCut;
use std::alloc::{AllocError, Global};

impl InputHead {
    /// The heads of its streams, by number.
    pub fn streams(&self, alloc: Global) -> Result<Vec<StreamHead>, AllocError>
        ensures { IfOk result (λ heads. heads.items ≡ streams_in self.now) }
    {
        match self {
            OneOf::First(head) => Vec::from_slice(alloc, &[SingleCut::stream_head(head)]),
            OneOf::Other(head) => match head.second {
                None => Vec::from_slice(alloc, &[head.first]),
                Some(second) => Vec::from_slice(alloc, &[head.first, second]),
            },
        }
    }
}
