//! The header that is written, with the count of the body's bytes.
ghost use Rattle.std.specs.Prelude.{◌≡◌, ◌+◌, min, IfOk};
ghost use Rattle.ff_au.specs.Codecs.{IsAuCoded, IsAuCoded-prop};

use crate::header::header_bytes;
use ff_frame::StreamHead;
use std::alloc::{AllocError, Global};

/// The header of an AU that is written: of a body to the end of the file before its size is known, and with its size
/// afterwards.
#[derive(Drop)]
pub struct AuPut {
    alloc: Global,
    head: StreamHead,
    /// The body's bytes so far, at most 2^32 - 1.
    size: u32,
    ghost coded: { IsAuCoded head } by { IsAuCoded-prop head },
}

impl AuPut {
    ghost use Rattle.ff_au.specs.Header.{header, to_the_end, written_head, body_size};

    /// For a stream of linear PCM as AU has it, with no byte of its body counted.
    pub fn new(alloc: Global, head: &StreamHead) -> AuPut
        requires { IsAuCoded head.now }
        ensures head { written_head result ≡ head.now }
        ensures size { body_size result ≡ 0 }
    {
        AuPut {
            alloc,
            head: *head,
            size: 0,
        }
    }

    /// The header of a body that goes to the end of the file.
    pub fn first(&self) -> Result<Vec<u8>, AllocError>
        ensures { IfOk result (λ bytes. bytes.items ≡ header (written_head self.now) to_the_end) }
    {
        header_bytes(self.alloc, &self.head, 0xFFFF_FFFF)
    }

    /// Counts bytes of the body. A body of 2^32 - 1 bytes or more goes to the end of the file.
    pub fn add(&mut self, len: u64)
        ensures size { body_size self.new ≡ min (body_size self.old + len) to_the_end }
        ensures head { written_head self.new ≡ written_head self.old }
    {
        let len = len.min(0xFFFF_FFFF) as u32;
        self.size = self.size.saturating_add(len);
    }

    /// The header with the size of the body.
    pub fn last(&self) -> Result<Vec<u8>, AllocError>
        ensures { IfOk result (λ bytes. bytes.items ≡ header (written_head self.now) (body_size self.now)) }
    {
        header_bytes(self.alloc, &self.head, self.size)
    }
}
