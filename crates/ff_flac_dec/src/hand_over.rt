//! Frames that a cut has read, handed to the decoder of its packets, so that a frame need not be read twice.
//!
//! ```text
//! cut ──► packet ──────────────────────► decoder
//!     └─► FrameSender ──► FrameReceiver ──┘
//! ```
//!
//! A frame goes with the bytes that it is, and counts for a packet only if these are the packet's. So nothing but time depends on
//! what is sent, and contracts see of either end only that it is there.
ghost use Rattle.std.specs.Prelude.{◌≡◌, ℕ, IfSome, length};
ghost use Rattle.ff_flac_frame.specs.Frame.{Begins};
ghost use Rattle.ff_flac_frame.specs.laws.Parts.{frame_of};

use ff_flac_frame::{FlacFrame, FlacStream};
use ff_frame::Bytes;
use rtrb::{Consumer, Producer, Protocol, RingBuffer};
use std::alloc::{AllocError, Global};
use std::marker::Model;

/// A frame, and what it was read from.
#[derive(Drop)]
pub struct ReadFrame {
    stream: FlacStream,
    /// Its offset in the input.
    pos: u64,
    bytes: Bytes,
    frame: FlacFrame,
}

/// Each frame that is sent is all of its bytes.
pub struct WholeFrames;

impl Protocol<ReadFrame> for WholeFrames {
    ghost use Rattle.ff_flac_dec.specs.laws.HandedOver.{IsWhole};

    ghost allows = { λ before read. IsWhole read };
}

/// The end of a channel at which a cut sends the frames that it has read; or of none.
#[derive(Drop)]
pub struct FrameSender {
    ring: Option<Producer<ReadFrame, Global, WholeFrames>>,
}

impl Model for FrameSender {
    ghost Value = { Unit {0} };

    ghost view = { λ _. tt };
}

/// The end of a channel at which a decoder takes them; or of none.
#[derive(Drop)]
pub struct FrameReceiver {
    ring: Option<Consumer<ReadFrame, Global, WholeFrames>>,
}

impl Model for FrameReceiver {
    ghost Value = { Unit {0} };

    ghost view = { λ _. tt };
}

/// A channel with room for so many frames.
pub fn frame_channel(
    alloc: Global,
    room: usize,
) -> Result<(FrameSender, FrameReceiver), AllocError> {
    let (producer, consumer) = RingBuffer::with_protocol::<Global, WholeFrames>(alloc, room)?;
    let sender = FrameSender {
        ring: Some(producer),
    };
    let receiver = FrameReceiver {
        ring: Some(consumer),
    };
    Ok((sender, receiver))
}

impl FrameSender {
    /// Of no channel.
    pub fn of_none() -> FrameSender {
        FrameSender { ring: None }
    }

    /// Whether a frame can be sent now.
    pub(crate) fn has_room(&mut self) -> bool {
        match &mut self.ring {
            Some(ring) => !ring.is_full(),
            None => false,
        }
    }

    /// Sends a frame with its bytes, which stand at this offset. Without room or memory it goes nowhere.
    pub(crate) fn send(
        &mut self,
        alloc: Global,
        stream: &FlacStream,
        pos: u64,
        bytes: &[u8],
        frame: FlacFrame,
    )
        requires { (number : ℕ) × Begins stream.now bytes.now (frame_of number frame) (length bytes.now) }
    {
        let Some(ring) = &mut self.ring else {
            return;
        };
        let Ok(bytes) = bytes.to_vec(alloc) else {
            return;
        };
        let _full = ring.push(ReadFrame {
            stream: *stream,
            pos,
            bytes: Bytes::new(bytes),
            frame,
        });
    }
}

/// Whether a frame of this offset may come next, or one of an earlier offset.
fn comes_next(ring: &mut Consumer<ReadFrame, Global, WholeFrames>, pos: u64) -> bool {
    match ring.peek() {
        Ok(read) => read.pos <= pos,
        Err(_) => false,
    }
}

impl FrameReceiver {
    /// Of no channel.
    pub fn of_none() -> FrameReceiver {
        FrameReceiver { ring: None }
    }

    /// The frame that these bytes are, which stand at this offset of an input with such a stream, where it comes next of those sent.
    /// A frame of an earlier offset is let go in its place.
    pub fn take(&mut self, stream: &FlacStream, pos: u64, bytes: &[u8]) -> Option<FlacFrame>
        ensures { IfSome result (λ f. (number : ℕ) × Begins stream.now bytes.now (frame_of number f) (length bytes.now)) }
    {
        let Some(ring) = &mut self.ring else {
            return None;
        };
        if !comes_next(ring, pos) {
            return None;
        }
        let Ok(read) = ring.pop() else {
            return None;
        };
        if read.stream == *stream && read.bytes.as_slice() == bytes {
            let ReadFrame { frame, .. } = read;
            Some(frame)
        } else {
            None
        }
    }
}
