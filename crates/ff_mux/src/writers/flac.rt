//! The writer of FLAC files.
ghost use Rattle.std.specs.Prelude.{◌≡◌, ◌↔◌, IfOk, OnOk, ⊤};
ghost use Rattle.ff_mux.specs.FlacHead.{CanHold};
ghost use Rattle.ff_mux.specs.writers.FlacFile.{CanHold-prop, flac_inside, flac_layout};

use crate::{flac_first, flac_last};
use ff_format::{Patch, TooLarge, Writer};
use ff_frame::{Pkt, StreamHead, Totals};
use std::alloc::{AllocError, Global};

/// Where STREAMINFO stands: after the mark and the head of its block.
const INFO_AT: u64 = 8;

/// Gives the bytes of a FLAC file (RFC 9639): the mark and STREAMINFO, and the frame that each packet holds. Where
/// the stream's totals were told, STREAMINFO with them takes the place of that without.
#[derive(Drop)]
pub struct FlacWriter {
    alloc: Global,
    head: StreamHead,
    ghost coded: { CanHold head } by { CanHold-prop head },
}

impl FlacWriter {
    ghost use Rattle.ff_mux.specs.laws.writers.Writers.{flac_head};

    /// For the packets of a stream of FLAC, of 1 to 8 channels, 4 to 24 bits and a rate of at most 1,048,575.
    pub fn new(alloc: Global, head: StreamHead) -> FlacWriter
        requires { CanHold head }
        ensures { flac_head result ≡ head }
    {
        FlacWriter { alloc, head }
    }
}

impl Writer for FlacWriter {
    ghost use Rattle.ff_mux.specs.laws.writers.Writers.{flac_head};

    ghost layout = { λ w. flac_layout (flac_head w) };

    ghost counts = { λ w packets. ⊤ };

    fn first(&self) -> Result<Vec<u8>, AllocError> {
        flac_first(self.alloc, &self.head)
    }

    fn text(&self, _stream: u32, packet: Pkt) -> Result<Vec<u8>, Pkt> {
        Ok(packet.bytes.into_vec())
    }

    fn add(&mut self, _stream: u32, _packet: &Pkt) -> Result<(), TooLarge> {
        Ok(())
    }

    fn tail(&self, alloc: Global) -> Result<Vec<u8>, AllocError> {
        Ok(Vec::new(alloc))
    }

    fn last(&self, totals: Option<Totals>) -> Result<Option<Patch>, AllocError> {
        let Some(totals) = totals else {
            return Ok(None);
        };
        let bytes = flac_last(self.alloc, &self.head, &totals)?;
        Ok(Some(Patch { at: INFO_AT, bytes }))
    }

    ghost inside = { λ w n totals. flac_inside (flac_head w) totals };
}
