//! The lines of a framehash file, for any number of streams and either digest.
ghost use Rattle.std.specs.Prelude.{◌≡◌, ◌<◌, ◌^◌, length, IfOk};

use crate::frame_hash::{hash_header, hash_line};
use ff_frame::{HashKind, Pkt, StreamHead};
use std::alloc::{AllocError, Global};

/// The lines of a framehash file of any number of streams, with either digest of each packet's bytes.
#[derive(Drop)]
pub struct HashPut {
    alloc: Global,
    kind: HashKind,
    heads: Vec<StreamHead>,
    ghost few: { length heads.items < 2 ^ 32 },
}

impl HashPut {
    ghost use Rattle.ff_mux.specs.HashTexts.{text_before, line_by};
    ghost use Rattle.ff_mux.specs.laws.Puts.{put_kind, put_heads};

    /// For the packets of streams of these heads, fewer than 2^32.
    pub fn new(alloc: Global, kind: HashKind, heads: Vec<StreamHead>) -> HashPut
        requires { length heads.items < 2 ^ 32 }
        ensures kind { put_kind result ≡ kind }
        ensures heads { put_heads result ≡ heads.items }
    {
        HashPut { alloc, kind, heads }
    }

    /// The lines before those of the packets: which digest it is, what is known of each stream, and the columns.
    pub fn first(&self) -> Result<Vec<u8>, AllocError>
        ensures { IfOk result (λ text. text.items ≡ text_before (put_kind self.now) (put_heads self.now)) }
    {
        hash_header(self.alloc, self.kind, &self.heads)
    }

    /// The line of a packet of this stream. It has its times, duration and size, each of them right in its column,
    /// and the digest of its bytes.
    pub fn line(&self, stream: u32, pkt: &Pkt) -> Result<Vec<u8>, AllocError>
        ensures { IfOk result (λ line. line.items ≡ line_by (put_kind self.now) stream pkt.now) }
    {
        hash_line(self.alloc, self.kind, stream, pkt)
    }
}
