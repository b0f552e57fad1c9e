//! The frame that some bytes begin with, under a head.
ghost use Rattle.std.specs.Prelude.{◌≡◌, ℕ, IfOk, IsErrOf};
ghost use Rattle.ff_flac_frame.specs.Frame.{IsStream, Begins, IsNotYet, IsNever};
ghost use Rattle.ff_flac_frame.specs.laws.Parts.{frame_of};
ghost use Rattle.ff_flac_dec.specs.Streams.{stream_of};

use crate::head::FlacHead;
use ff_flac_frame::{FlacFrame, FrameEnd};
use std::alloc::Global;

/// The frame that begins the bytes, in an input with this head (RFC 9639, section 9). A frame has the head's rate, depth and
/// channels.
pub fn frame_at(alloc: Global, bytes: &[u8], head: &FlacHead) -> Result<FlacFrame, FrameEnd>
    requires { IsStream (stream_of head.now.head) }
    // A frame begins the bytes.
    ensures ok { IfOk result (λ f. (number : ℕ) × Begins (stream_of head.now.head) bytes.now (frame_of number f) f.len) }
    // None does, and with some bytes more one does.
    ensures not_yet { IsErrOf result FrameEnd.NotYet → IsNotYet (stream_of head.now.head) bytes.now }
    // None does, whatever follows.
    ensures never { IsErrOf result FrameEnd.Never → IsNever (stream_of head.now.head) bytes.now }
{
    let stream = head.stream();
    ff_flac_frame::frame_at(alloc, bytes, &stream)
}
