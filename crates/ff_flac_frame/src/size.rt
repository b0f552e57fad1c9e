//! The size of a frame, without what it says of its samples.

ghost use Rattle.std.specs.Prelude.{◌≡◌, ◌≤◌, IfOk, IsErrOf, EachIndex, slice_index};
ghost use Rattle.ff_bits.specs.Bits.{bits};
ghost use Rattle.ff_flac_frame.specs.Frame.{IsStream, Frame, unpadded, frame, subframes, Begins, IsNotYet, IsNever};
ghost use Rattle.ff_flac_frame.specs.laws.Gives.{Gives};
ghost use Rattle.ff_flac_frame.specs.laws.Parts.{header_of};
ghost use Rattle.ff_flac_frame.specs.laws.Passed.{passed, header_alone};

use crate::end::FrameEnd;
use crate::frame::{depths_of, read_end, read_head};
use crate::header::Header;
use crate::passing::pass_subframe;
use crate::stream::FlacStream;
use ff_bits::BitReader;
use std::alloc::Global;

/// How long a frame is.
#[derive(Clone, Copy, Debug, PartialEq, Eq)]
pub struct FrameSize {
    /// How many bytes it has.
    pub len: usize,
    /// The block size: sample frames.
    pub block: u32,
}

fn pass_subframes(
    alloc: Global,
    reader: &mut BitReader,
    block: u32,
    depths: &[u32],
) -> Result<(), FrameEnd>
    requires { EachIndex depths.now (λ k. (2 ≤ slice_index depths.now k) × (slice_index depths.now k ≤ 32)) }
    ensures { Gives (λ _. tt) result (passed (subframes block depths.now) reader.old) reader.new }
{
    for depth in depths {
        pass_subframe(alloc, reader, block, *depth)?;
    }
    Ok(())
}

#[tactic(auto, unfolding(crate::specs::Frame::unpadded))]
fn pass_unpadded(
    alloc: Global,
    reader: &mut BitReader,
    bytes: &[u8],
    stream: &FlacStream,
) -> Result<Header, FrameEnd>
    requires start { reader.old ≡ bits bytes.now }
    requires stream { IsStream stream.now }
    ensures { Gives header_of result (header_alone (unpadded stream.now) reader.old) reader.new }
{
    let header = read_head(reader, bytes, stream)?;
    let depths = depths_of(alloc, header.form, stream.channels, stream.bits)?;
    pass_subframes(alloc, reader, header.block, depths.as_slice())?;
    Ok(header)
}

fn pass_frame(
    alloc: Global,
    reader: &mut BitReader,
    bytes: &[u8],
    stream: &FlacStream,
) -> Result<Header, FrameEnd>
    requires start { reader.old ≡ bits bytes.now }
    requires stream { IsStream stream.now }
    ensures { Gives header_of result (header_alone (frame stream.now) reader.old) reader.new }
{
    let header = pass_unpadded(alloc, reader, bytes, stream)?;
    read_end(reader, bytes, stream)?;
    Ok(header)
}

/// How many bytes the frame has that begins the bytes, and its block size. This takes less time than `frame_at`.
pub fn frame_size_at(
    alloc: Global,
    bytes: &[u8],
    stream: &FlacStream,
) -> Result<FrameSize, FrameEnd>
    requires { IsStream stream.now }
    ensures ok { IfOk result (λ z. (f : Frame) × Begins stream.now bytes.now f z.len × (f.header.block ≡ z.block)) }
    ensures not_yet { IsErrOf result FrameEnd.NotYet → IsNotYet stream.now bytes.now }
    ensures never { IsErrOf result FrameEnd.Never → IsNever stream.now bytes.now }
{
    let mut reader = BitReader::new(bytes);
    let header = pass_frame(alloc, &mut reader, bytes, stream)?;
    Ok(FrameSize {
        len: bytes.len() - reader.bytes_left(),
        block: header.block,
    })
}
