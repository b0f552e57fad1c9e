//! The writer of framecrc files.
ghost use Rattle.std.specs.Prelude.{◌≡◌, ◌<◌, ◌^◌, ◌↔◌, length, vec_len, ⊤};
ghost use Rattle.ff_mux.specs.writers.CrcFile.{crc_layout};

use crate::frame_crc::{crc_header, crc_line};
use ff_format::{Patch, TooLarge, Writer};
use ff_frame::{Pkt, StreamHead, Totals};
use std::alloc::{AllocError, Global};

/// Gives the lines of a framecrc file: those on its streams, and of each packet a line with the Adler-32 sum of its
/// bytes.
#[derive(Drop)]
pub struct CrcWriter {
    alloc: Global,
    heads: Vec<StreamHead>,
    ghost few: { length heads.items < 2 ^ 32 },
}

impl CrcWriter {
    ghost use Rattle.ff_mux.specs.laws.writers.Writers.{crc_heads};

    /// For the packets of these streams, fewer than 2^32.
    pub fn new(alloc: Global, heads: Vec<StreamHead>) -> CrcWriter
        requires { length heads.items < 2 ^ 32 }
        ensures { crc_heads result ≡ heads.items }
    {
        CrcWriter { alloc, heads }
    }
}

impl Writer for CrcWriter {
    ghost use Rattle.ff_mux.specs.laws.writers.Writers.{crc_heads};

    ghost layout = { λ w. crc_layout (crc_heads w) };

    ghost counts = { λ w packets. ⊤ };

    fn first(&self) -> Result<Vec<u8>, AllocError> {
        crc_header(self.alloc, &self.heads)
    }

    fn text(&self, stream: u32, packet: Pkt) -> Result<Vec<u8>, Pkt> {
        match crc_line(self.alloc, stream, &packet) {
            Ok(line) => Ok(line),
            Err(_) => Err(packet),
        }
    }

    fn add(&mut self, _stream: u32, _packet: &Pkt) -> Result<(), TooLarge> {
        Ok(())
    }

    fn tail(&self, alloc: Global) -> Result<Vec<u8>, AllocError> {
        Ok(Vec::new(alloc))
    }

    fn last(&self, _totals: Option<Totals>) -> Result<Option<Patch>, AllocError> {
        Ok(None)
    }

    ghost inside = { λ w n totals. tt };
}
