//! The writer of samples or pictures alone, and of streams.
ghost use Rattle.std.specs.Prelude.{◌≡◌, [], ⊤};
ghost use Rattle.ff_format.specs.Layouts.{stream_of};
ghost use Rattle.ff_mux.specs.laws.writers.Writers.{raw_header};

use ff_format::{Patch, TooLarge, Writer};
use ff_frame::{Pkt, Totals};
use std::alloc::{AllocError, Global};

/// Gives a header, where there is one, the bytes of packets, and nothing else.
#[derive(Drop)]
pub struct RawWriter {
    alloc: Global,
    header: Vec<u8>,
}

impl RawWriter {
    /// Of packets alone.
    pub fn new(alloc: Global) -> RawWriter
        ensures { raw_header result ≡ [] }
    {
        RawWriter {
            alloc,
            header: Vec::new(alloc),
        }
    }

    /// Of packets behind a header of which no byte is replaced.
    pub fn behind(alloc: Global, header: Vec<u8>) -> RawWriter
        ensures { raw_header result ≡ header.items }
    {
        RawWriter { alloc, header }
    }
}

impl Writer for RawWriter {
    ghost layout = { λ w. stream_of (raw_header w) };

    ghost counts = { λ w packets. ⊤ };

    fn first(&self) -> Result<Vec<u8>, AllocError> {
        Vec::from_slice(self.alloc, &self.header)
    }

    fn text(&self, _stream: u32, packet: Pkt) -> Result<Vec<u8>, Pkt> {
        Ok(packet.bytes.into_vec())
    }

    fn add(&mut self, _stream: u32, _packet: &Pkt) -> Result<(), TooLarge> {
        Ok(())
    }

    fn tail(&self, alloc: Global) -> Result<Vec<u8>, AllocError> {
        Ok(Vec::new(alloc))
    }

    fn last(&self, _totals: Option<Totals>) -> Result<Option<Patch>, AllocError> {
        Ok(None)
    }

    ghost inside = { λ w n totals. tt };
}
