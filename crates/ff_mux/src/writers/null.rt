//! The writer of nothing.
ghost use Rattle.std.specs.Prelude.{⊤};
ghost use Rattle.ff_format.specs.Outputs.{no_layout};

use ff_format::{Patch, TooLarge, Writer};
use ff_frame::{Pkt, Totals};
use std::alloc::{AllocError, Global};

/// Gives no bytes, of whatever packets.
#[derive(Drop)]
pub struct NullWriter {
    alloc: Global,
}

impl NullWriter {
    /// Of no packets.
    pub fn new(alloc: Global) -> NullWriter {
        NullWriter { alloc }
    }
}

impl Writer for NullWriter {
    ghost layout = { λ w. no_layout };

    ghost counts = { λ w packets. ⊤ };

    fn first(&self) -> Result<Vec<u8>, AllocError> {
        Ok(Vec::new(self.alloc))
    }

    fn text(&self, _stream: u32, _packet: Pkt) -> Result<Vec<u8>, Pkt> {
        Ok(Vec::new(self.alloc))
    }

    fn add(&mut self, _stream: u32, _packet: &Pkt) -> Result<(), TooLarge> {
        Ok(())
    }

    fn tail(&self, alloc: Global) -> Result<Vec<u8>, AllocError> {
        Ok(Vec::new(alloc))
    }

    fn last(&self, _totals: Option<Totals>) -> Result<Option<Patch>, AllocError> {
        Ok(None)
    }

    ghost inside = { λ w n totals. tt };
}
