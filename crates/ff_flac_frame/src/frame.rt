//! Whole frames (RFC 9639, section 9).
ghost use Rattle.std.specs.Prelude.{◌≡◌, ℕ, ◌<◌, ◌≤◌, ◌^◌, IfOk, IfErr, IsErrOf, EachIndex, slice_index, map, length};
ghost use Rattle.ff_bits.specs.Bits.{bits};
ghost use Rattle.ff_bits.specs.Reading.{Done};
ghost use Rattle.ff_flac_frame.specs.Codes.{depths};
ghost use Rattle.ff_flac_frame.specs.Frame.{IsStream, Frame, sealed_header, unpadded, frame, subframes, Begins, IsNotYet, IsNever};
ghost use Rattle.ff_flac_frame.specs.laws.Gives.{Gives};
ghost use Rattle.ff_flac_frame.specs.laws.Parts.{header_of, part_of, read_of, frame_of};

use crate::end::FrameEnd;
use crate::field::read_field;
use crate::header::{Header, read_header};
use crate::reading::read_subframe;
use crate::rule::Rule;
use crate::sequence::Sequence;
use crate::stream::FlacStream;
use crate::subframe::Subframe;
use ff_bits::{BitReader, crc8, crc16};
use std::alloc::Global;

/// A frame: what its bytes say of the samples of one block.
#[derive(Drop)]
pub struct FlacFrame {
    /// How many bytes it has.
    pub len: usize,
    /// The block size: sample frames.
    pub block: u32,
    /// The channel code: how the channels stand in the subframes (RFC 9639, section 9.1.3).
    pub form: u8,
    /// One for each channel.
    pub subframes: Sequence<Subframe>,
}

/// What a frame's bytes say.
#[derive(Drop)]
struct Body {
    header: Header,
    parts: Vec<Subframe>,
}

/// The bits of each subframe's samples under a channel code: a side channel has one more (RFC 9639, section 9.1.3).
#[tactic(auto, unfolding(crate::specs::Codes::depths))]
pub fn depths_of(alloc: Global, form: u8, channels: u8, bits: u8) -> Result<Vec<u32>, FrameEnd>
    requires low { 2 ≤ bits }
    requires high { bits ≤ 31 }
    ensures list { IfOk result (λ v. v.items ≡ depths form channels bits) }
    ensures within { IfOk result (λ v. EachIndex v.items (λ k. (2 ≤ slice_index v.items k) × (slice_index v.items k ≤ 32))) }
    ensures memory { IfErr result (λ e. e ≡ FrameEnd.NoMemory) }
{
    let depth = bits as u32;
    if form < 8 {
        return Ok(vec![in alloc; depth; channels as usize]?);
    }
    if form == 9 {
        return Ok(vec![in alloc; depth + 1, depth]?);
    }
    Ok(vec![in alloc; depth, depth + 1]?)
}

fn read_subframes(
    alloc: Global,
    reader: &mut BitReader,
    block: u32,
    depths: &[u32],
) -> Result<Vec<Subframe>, FrameEnd>
    requires { EachIndex depths.now (λ k. (2 ≤ slice_index depths.now k) × (slice_index depths.now k ≤ 32)) }
    ensures { Gives (λ v. map part_of v.items) result (subframes block depths.now reader.old) reader.new }
{
    let mut parts = Vec::new(alloc);
    for depth in depths {
        let part = read_subframe(alloc, reader, block, *depth)?;
        parts.push(part)?;
    }
    Ok(parts)
}

/// A frame's header with its checksum of 8 bits (RFC 9639, section 9.1.8).
pub fn read_head(
    reader: &mut BitReader,
    bytes: &[u8],
    stream: &FlacStream,
) -> Result<Header, FrameEnd>
    requires start { reader.old ≡ bits bytes.now }
    requires stream { IsStream stream.now }
    ensures { Gives header_of result (sealed_header stream.now reader.old) reader.new }
{
    let header = read_header(reader, stream)?;
    let len = bytes.len() - reader.bytes_left();
    let sum = crc8(&bytes[..len]);
    let _sum = read_field(reader, 8, Rule::Equal(sum as u64))?;
    Ok(header)
}

#[tactic(auto, unfolding(crate::specs::Frame::unpadded))]
fn read_unpadded(
    alloc: Global,
    reader: &mut BitReader,
    bytes: &[u8],
    stream: &FlacStream,
) -> Result<Body, FrameEnd>
    requires start { reader.old ≡ bits bytes.now }
    requires stream { IsStream stream.now }
    ensures { Gives read_of result (unpadded stream.now reader.old) reader.new }
{
    let header = read_head(reader, bytes, stream)?;
    let depths = depths_of(alloc, header.form, stream.channels, stream.bits)?;
    let parts = read_subframes(alloc, reader, header.block, depths.as_slice())?;
    Ok(Body { header, parts })
}

/// What stands after the subframes: the zeros that fill the last byte, and the sum over all of the frame.
pub fn read_end(reader: &mut BitReader, bytes: &[u8], stream: &FlacStream) -> Result<(), FrameEnd>
    requires stream { IsStream stream.now }
    requires body { (f : Frame) × (unpadded stream.now (bits bytes.now) ≡ Done f reader.old) }
    ensures { (f : Frame) → unpadded stream.now (bits bytes.now) ≡ Done f reader.old → Gives (λ _. f) result (frame stream.now (bits bytes.now)) reader.new }
{
    let pad = reader.bits_to_byte();
    let _zeros = read_field(reader, pad, Rule::Equal(0))?;
    let len = bytes.len() - reader.bytes_left();
    let sum = crc16(&bytes[..len]);
    let _sum = read_field(reader, 16, Rule::Equal(sum as u64))?;
    Ok(())
}

fn read_frame(
    alloc: Global,
    reader: &mut BitReader,
    bytes: &[u8],
    stream: &FlacStream,
) -> Result<Body, FrameEnd>
    requires start { reader.old ≡ bits bytes.now }
    requires stream { IsStream stream.now }
    ensures { Gives read_of result (frame stream.now reader.old) reader.new }
{
    let read = read_unpadded(alloc, reader, bytes, stream)?;
    read_end(reader, bytes, stream)?;
    Ok(read)
}

/// The frame that begins the bytes, in a stream of this kind. A frame has the stream's rate, depth and channels.
pub fn frame_at(alloc: Global, bytes: &[u8], stream: &FlacStream) -> Result<FlacFrame, FrameEnd>
    requires { IsStream stream.now }
    // A frame begins the bytes.
    ensures ok { IfOk result (λ f. (number : ℕ) × Begins stream.now bytes.now (frame_of number f) f.len) }
    // None does, and with some bytes more one does.
    ensures not_yet { IsErrOf result FrameEnd.NotYet → IsNotYet stream.now bytes.now }
    // None does, whatever follows.
    ensures never { IsErrOf result FrameEnd.Never → IsNever stream.now bytes.now }
{
    let mut reader = BitReader::new(bytes);
    let Body { header, parts } = read_frame(alloc, &mut reader, bytes, stream)?;
    let len = bytes.len() - reader.bytes_left();
    Ok(FlacFrame {
        len,
        block: header.block,
        form: header.form,
        subframes: Sequence::of(parts),
    })
}
