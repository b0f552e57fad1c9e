//! The writer of framehash files.
ghost use Rattle.std.specs.Prelude.{◌≡◌, ◌<◌, ◌^◌, ◌↔◌, length, vec_len, ⊤};
ghost use Rattle.ff_mux.specs.writers.HashFile.{hash_layout};

use crate::HashPut;
use ff_format::{Patch, TooLarge, Writer};
use ff_frame::{HashKind, Pkt, StreamHead, Totals};
use std::alloc::{AllocError, Global};

/// Gives the lines of a framehash file: those on its streams, and of each packet a line with the digest of its bytes.
#[derive(Drop)]
pub struct HashWriter {
    put: HashPut,
}

impl HashWriter {
    ghost use Rattle.ff_mux.specs.laws.writers.Writers.{hash_kind, hash_heads};

    /// For the packets of these streams, fewer than 2^32, with this digest.
    pub fn new(alloc: Global, kind: HashKind, heads: Vec<StreamHead>) -> HashWriter
        requires { length heads.items < 2 ^ 32 }
        ensures kind { hash_kind result ≡ kind }
        ensures heads { hash_heads result ≡ heads.items }
    {
        HashWriter {
            put: HashPut::new(alloc, kind, heads),
        }
    }
}

impl Writer for HashWriter {
    ghost use Rattle.ff_mux.specs.laws.writers.Writers.{hash_kind, hash_heads};

    ghost layout = { λ w. hash_layout (hash_kind w) (hash_heads w) };

    ghost counts = { λ w packets. ⊤ };

    fn first(&self) -> Result<Vec<u8>, AllocError> {
        self.put.first()
    }

    fn text(&self, stream: u32, packet: Pkt) -> Result<Vec<u8>, Pkt> {
        match self.put.line(stream, &packet) {
            Ok(line) => Ok(line),
            Err(_) => Err(packet),
        }
    }

    fn add(&mut self, _stream: u32, _packet: &Pkt) -> Result<(), TooLarge> {
        Ok(())
    }

    fn tail(&self, alloc: Global) -> Result<Vec<u8>, AllocError> {
        Ok(Vec::new(alloc))
    }

    fn last(&self, _totals: Option<Totals>) -> Result<Option<Patch>, AllocError> {
        Ok(None)
    }

    ghost inside = { λ w n totals. tt };
}
