//! The header that is written, with the count of the body's bytes.
ghost use Rattle.std.specs.Prelude.{◌≡◌, ◌+◌, ◌%◌, ◌<◌, ◌≤◌, ◌↔◌, IsErr, IsTrue, IfOk, OnOk, OnErr};
ghost use Rattle.ff_wav.specs.Codecs.{IsWavCoded};
ghost use Rattle.ff_wav.specs.Limits.{longest_of};
ghost use Rattle.ff_wav.specs.laws.Sound.{IsWavCoded-prop};

use crate::header::{
    HeaderForm, Sizes, first_form, header_bytes, last_form, longest, sizes_of, streamed_sizes,
};
use ff_format::{Rf64, TooLarge};
use ff_frame::StreamHead;
use std::alloc::{AllocError, Global};

/// The header of a WAV that is written: without sizes before its body is known, and with its sizes afterwards.
#[derive(Drop)]
pub struct WavPut {
    alloc: Global,
    head: StreamHead,
    mode: Rf64,
    /// The body's bytes so far.
    size: u64,
    ghost small: { size ≤ longest_of mode },
    ghost coded: { IsWavCoded head } by { IsWavCoded-prop head },
}

impl WavPut {
    ghost use Rattle.ff_wav.specs.Header.{first_header, streamed_header, header_of, written_head, written_mode, body_size};

    /// For a stream of linear PCM as WAV has it, with no byte of its body counted.
    pub fn new(alloc: Global, head: &StreamHead, mode: Rf64) -> WavPut
        requires { IsWavCoded head.now }
        ensures head { written_head result ≡ head.now }
        ensures mode { written_mode result ≡ mode }
        ensures size { body_size result ≡ 0 }
    {
        WavPut {
            alloc,
            head: *head,
            mode,
            size: 0,
        }
    }

    /// The header without sizes: of 32 bits they are 0, or all ones where it is RF64 always, and of 64 bits they are 0.
    pub fn first(&self) -> Result<Vec<u8>, AllocError>
        ensures { IfOk result (λ bytes. bytes.items ≡ first_header (written_mode self.now) (written_head self.now)) }
    {
        let sizes = Sizes {
            file: 0,
            body: 0,
            frames: 0,
        };
        header_bytes(self.alloc, &self.head, first_form(self.mode), sizes)
    }

    /// The header of a stream, whose sizes are never known: of 32 bits they are all ones, and of 64 bits they are 0.
    pub fn streamed(&self) -> Result<Vec<u8>, AllocError>
        ensures { IfOk result (λ bytes. bytes.items ≡ streamed_header (written_mode self.now) (written_head self.now)) }
    {
        header_bytes(
            self.alloc,
            &self.head,
            first_form(self.mode),
            streamed_sizes(self.mode),
        )
    }

    /// Counts bytes of the body. TooLarge where it would be longer than 4,294,967,200 bytes and it is never RF64, or
    /// longer than 2^63 - 1 bytes, the longest file; then nothing was counted.
    pub fn add(&mut self, len: u64) -> Result<(), TooLarge>
        ensures too_large { IsErr result ↔ (longest_of (written_mode self.old) < body_size self.old + len) }
        ensures ok { OnOk result (body_size self.new ≡ body_size self.old + len) }
        ensures err { OnErr result (body_size self.new ≡ body_size self.old) }
        ensures head { written_head self.new ≡ written_head self.old }
        ensures mode { written_mode self.new ≡ written_mode self.old }
    {
        if len > longest(self.mode) - self.size {
            return Err(TooLarge);
        }
        self.size += len;
        Ok(())
    }

    /// Whether one pad byte 0 follows the body.
    pub fn pad(&self) -> bool
        ensures { IsTrue result ↔ (body_size self.now % 2 ≡ 1) }
    {
        self.size % 2 == 1
    }

    /// The header with the sizes of the file and of the body, and with the number of sample frames where it is RF64.
    pub fn last(&self) -> Result<Vec<u8>, AllocError>
        ensures { IfOk result (λ bytes. bytes.items ≡ header_of (written_mode self.now) (written_head self.now) (body_size self.now)) }
    {
        let form = last_form(self.mode, &self.head, self.size);
        let sizes = sizes_of(form, &self.head, self.size);
        header_bytes(self.alloc, &self.head, form, sizes)
    }
}
