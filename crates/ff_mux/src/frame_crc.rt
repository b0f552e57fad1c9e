//! The lines of a framecrc file, in the pieces in which they are written.
ghost use Rattle.std.specs.Prelude.{◌≡◌, ◌<◌, ◌^◌, ◌++◌, IfOk, OnOk, length};
ghost use Rattle.ff_mux.specs.CrcTexts.{sum_text, crc_line as line_of};
ghost use Rattle.ff_mux.specs.HashTexts.{streams_from};

use crate::adler::adler32;
use crate::frame_hash::{push_fields, push_streams};
use ff_frame::{Pkt, StreamHead};
use std::alloc::{AllocError, Global};

/// The length of a packet's line, where its numbers keep to their columns.
const LINE_LEN: usize = 60;

/// The lines before those of the packets, of a file with these streams: what is known of each stream.
pub(crate) fn crc_header(alloc: Global, heads: &[StreamHead]) -> Result<Vec<u8>, AllocError>
    requires { length heads.now < 2 ^ 32 }
    ensures { IfOk result (λ text. text.items ≡ streams_from 0 heads.now) }
{
    let mut text = Vec::new(alloc);
    push_streams(alloc, &mut text, heads)?;
    Ok(text)
}

/// Adds a sum of 32 bits in eight digits.
pub(crate) fn push_sum(alloc: Global, line: &mut Vec<u8>, sum: u32) -> Result<(), AllocError>
    ensures { OnOk result (line.new.items ≡ line.old.items ++ sum_text sum) }
{
    let digits = hex::encode(alloc, sum.to_be_bytes())?;
    line.extend_from_slice(b"0x")?;
    line.extend_from_slice(digits.as_bytes())
}

/// The line of a packet of a stream. It has its times, duration and size, each of them right in its column, and the
/// Adler-32 sum of its bytes, begun at 0.
#[tactic(auto, unfolding(crate::specs::CrcTexts::crc_line))]
pub(crate) fn crc_line(alloc: Global, stream: u32, pkt: &Pkt) -> Result<Vec<u8>, AllocError>
    ensures { IfOk result (λ line. line.items ≡ line_of stream pkt.now) }
{
    let mut line = Vec::with_capacity(alloc, LINE_LEN)?;
    push_fields(alloc, &mut line, stream, pkt)?;
    line.extend_from_slice(b", ")?;
    push_sum(alloc, &mut line, adler32(0, pkt.bytes.as_slice()))?;
    line.push(b'\n')?;
    Ok(line)
}
