//! The packet or fault that some bytes begin with.
ghost use Rattle.std.specs.Prelude.{◌≡◌, ◌≤◌, ℕ, length, IfOk};
ghost use Rattle.ff_flac_frame.specs.Frame.{IsStream};
ghost use Rattle.ff_flac_dec.specs.Packets.{unit};

use crate::hand_over::FrameSender;
use ff_flac_frame::{FlacStream, FrameEnd, frame_at, frame_size_at};
use ff_lists::front;
use std::alloc::{AllocError, Global};

/// What some bytes begin with.
#[derive(Clone, Copy, PartialEq, Eq, Debug)]
pub enum Front {
    /// More bytes decide.
    Wait,
    /// No frame begins here.
    Other,
    /// A whole frame: the number of its bytes, and its block size in sample frames.
    Whole(usize, u32),
}

/// What these bytes begin with, in a stream of this kind.
pub(crate) fn front_of(
    alloc: Global,
    bytes: &[u8],
    stream: &FlacStream,
) -> Result<Front, AllocError>
    requires { IsStream stream.now }
    ensures exact { IfOk result (λ found. found ≡ unit stream.now bytes.now) }
    ensures bounds { (len block : ℕ) → result ≡ Ok (Front.Whole len block) → (8 ≤ len) × (len ≤ length bytes.now) × (1 ≤ block) × (block ≤ 65535) }
{
    match frame_size_at(alloc, bytes, stream) {
        Ok(size) => Ok(Front::Whole(size.len, size.block)),
        Err(FrameEnd::NotYet) => Ok(Front::Wait),
        Err(FrameEnd::Never) => Ok(Front::Other),
        Err(FrameEnd::NoMemory) => Err(AllocError),
    }
}

/// The same of the bytes that stand at this offset. A whole frame is sent on, where there is room for it.
pub(crate) fn front_sent(
    alloc: Global,
    sender: &mut FrameSender,
    pos: u64,
    bytes: &[u8],
    stream: &FlacStream,
) -> Result<Front, AllocError>
    requires { IsStream stream.now }
    ensures exact { IfOk result (λ found. found ≡ unit stream.now bytes.now) }
    ensures bounds { (len block : ℕ) → result ≡ Ok (Front.Whole len block) → (8 ≤ len) × (len ≤ length bytes.now) × (1 ≤ block) × (block ≤ 65535) }
{
    if !sender.has_room() {
        return front_of(alloc, bytes, stream);
    }
    match frame_at(alloc, bytes, stream) {
        Ok(frame) => {
            let whole = Front::Whole(frame.len, frame.block);
            let own = front(bytes, frame.len);
            sender.send(alloc, stream, pos, own, frame);
            Ok(whole)
        }
        Err(FrameEnd::NotYet) => Ok(Front::Wait),
        Err(FrameEnd::Never) => Ok(Front::Other),
        Err(FrameEnd::NoMemory) => Err(AllocError),
    }
}
