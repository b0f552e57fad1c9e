//! The decoder and the encoder of raw video.
ghost use Rattle.std.specs.Prelude.{◌≡◌, IfOk};
ghost use Rattle.ff_frame.specs.Heads.{IsPictureFor};
ghost use Rattle.ff_pcm.specs.laws.Raw.{HasFrame, IsFrameIn};

use ff_frame::{Pkt, StreamHead, VFrame};
use std::alloc::{AllocError, Global};

/// The frame of a packet of raw video: the packet's bytes are its planes, and its times are the packet's. The head is
/// of video, and the packet has the planes of one frame.
pub fn raw_decode(alloc: Global, head: &StreamHead, packet: &Pkt) -> Result<VFrame, AllocError>
    requires { HasFrame head.now packet.now.bytes }
    ensures value { IfOk result (IsFrameIn head.now packet.now) }
    ensures fits { IfOk result (IsPictureFor head.now) }
{
    match *head {
        StreamHead::Video {
            format,
            width,
            height,
            ..
        } => {
            let planes = packet.bytes.try_copy(alloc)?;
            Ok(VFrame::make(packet.pts, packet.duration, format, width, height, planes))
        }
        StreamHead::Audio { .. } => unreachable!(),
    }
}

/// The bytes of a packet of raw video: the planes Y, Cb and Cr as they stand.
pub fn raw_encode(alloc: Global, frame: &VFrame) -> Result<Vec<u8>, AllocError>
    ensures { IfOk result (λ bytes. bytes.items ≡ frame.now.planes) }
{
    frame.planes.as_slice().to_vec(alloc)
}
