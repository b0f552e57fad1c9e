//! The trait of what codes the blocks that wait.
ghost use Rattle.std.specs.Prelude.{◌+◌, ◌<◌, ◌≤◌, ◌^◌, length, IfOk, All};
ghost use Rattle.ff_flac_enc.specs.Frame.{IsBlock};
ghost use Rattle.ff_flac_enc.specs.laws.Blocks.{AreCoded};

use ff_frame::{AFrame, Bytes};
use std::alloc::{AllocError, Global};

/// How the blocks that wait are coded: whoever has threads codes them at once.
pub trait Coder {
    /// The bytes of 1 to 8 blocks, in order, numbered from `first` on: of each the first of the shortest ways to write it.
    fn code(&self, alloc: Global, blocks: &[AFrame], first: u32) -> Result<Vec<Bytes>, AllocError>
        requires some { 1 ≤ length blocks.now }
        requires few { length blocks.now ≤ 8 }
        requires blocks { All IsBlock blocks.now }
        requires numbers { first + length blocks.now ≤ 2 ^ 31 }
        ensures { IfOk result (λ v. AreCoded blocks.now first v.items) };
}
