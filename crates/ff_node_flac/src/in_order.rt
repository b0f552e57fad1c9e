//! Blocks coded one after another.
use crate::coder::Coder;
use ff_flac_enc::coded_block;
use ff_frame::{AFrame, Bytes};
use std::alloc::{AllocError, Global};

/// Codes the blocks that wait one after another, in the thread that asks.
#[derive(Drop)]
pub struct InOrder;

impl Coder for InOrder {
    fn code(&self, alloc: Global, blocks: &[AFrame], first: u32) -> Result<Vec<Bytes>, AllocError> {
        let mut codes = Vec::new(alloc);
        for (i, block) in blocks.iter().enumerate() {
            let bytes = coded_block(alloc, block, first + i as u32)?;
            codes.push(bytes)?;
        }
        Ok(codes)
    }
}
