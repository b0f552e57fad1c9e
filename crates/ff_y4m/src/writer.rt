//! The writer of YUV4MPEG2 files.
ghost use Rattle.std.specs.Prelude.{◌≡◌, ◌++◌, ◌↔◌, IfOk, IfErr, OnOk, OnErr, ⊤};
ghost use Rattle.ff_y4m.specs.Header.{IsVideoHead, frame_line};
ghost use Rattle.ff_y4m.specs.Layout.{y4m_layout, IsVideoHead-prop};

use crate::header::y4m_header;
use ff_format::{Patch, TooLarge, Writer};
use ff_frame::{Bytes, Pkt, StreamHead, Totals};
use std::alloc::{AllocError, Global};

/// The line of a frame.
const FRAME: &[u8] = b"FRAME\n";

/// Gives the bytes of a YUV4MPEG2 file (yuv4mpeg(5)): the first line, and of each packet a line and its planes.
#[derive(Drop)]
pub struct Y4mWriter {
    alloc: Global,
    head: StreamHead,
    ghost pictures: { IsVideoHead head } by { IsVideoHead-prop head },
}

impl Y4mWriter {
    ghost use Rattle.ff_y4m.specs.laws.Writers.{y4m_head};

    /// For the packets of a video stream.
    pub fn new(alloc: Global, head: StreamHead) -> Y4mWriter
        requires { IsVideoHead head }
        ensures { y4m_head result ≡ head }
    {
        Y4mWriter { alloc, head }
    }
}

// Puts the line of a frame after its planes. No more room is made than that takes.
fn push_line(planes: &mut Vec<u8>) -> Result<(), AllocError>
    ensures ok { OnOk result (planes.new.items ≡ planes.old.items ++ frame_line) }
    ensures err { OnErr result (planes.new.items ≡ planes.old.items) }
{
    planes.reserve_exact(FRAME.len())?;
    planes.extend_from_slice(FRAME)
}

// A frame: its line, and its planes, in their own memory. Without memory they come back.
fn framed(planes: Bytes) -> Result<Vec<u8>, Bytes>
    ensures ok { IfOk result (λ text. text.items ≡ frame_line ++ planes) }
    ensures err { IfErr result (λ back. back ≡ planes) }
{
    let mut text = planes.into_vec();
    if push_line(&mut text).is_err() {
        return Err(Bytes::new(text));
    }
    text.rotate_right(FRAME.len());
    Ok(text)
}

impl Writer for Y4mWriter {
    ghost use Rattle.ff_y4m.specs.laws.Writers.{y4m_head};

    ghost layout = { λ w. y4m_layout (y4m_head w) };

    ghost counts = { λ w packets. ⊤ };

    fn first(&self) -> Result<Vec<u8>, AllocError> {
        y4m_header(self.alloc, &self.head)
    }

    fn text(&self, _stream: u32, packet: Pkt) -> Result<Vec<u8>, Pkt> {
        match framed(packet.bytes) {
            Ok(text) => Ok(text),
            Err(bytes) => Err(Pkt { bytes, ..packet }),
        }
    }

    fn add(&mut self, _stream: u32, _packet: &Pkt) -> Result<(), TooLarge> {
        Ok(())
    }

    fn tail(&self, alloc: Global) -> Result<Vec<u8>, AllocError> {
        Ok(Vec::new(alloc))
    }

    fn last(&self, _totals: Option<Totals>) -> Result<Option<Patch>, AllocError> {
        Ok(None)
    }

    ghost inside = { λ w n totals. tt };
}
