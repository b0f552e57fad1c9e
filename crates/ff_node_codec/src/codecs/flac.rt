//! The decoder of FLAC packets.
ghost use Rattle.std.specs.Prelude.{◌≡◌, ◌↔◌, ℕ, Some, IsTrue, IfOk, IfErr, IfSome};
ghost use Rattle.ff_frame.specs.declared.packet.Pkt.{Pkt};
ghost use Rattle.ff_frame.specs.declared.audio.AFrame.{AFrame};
ghost use Rattle.ff_frame.specs.declared.head.StreamHead.{StreamHead};
ghost use Rattle.ff_flac_frame.specs.Frame.{IsStream};
ghost use Rattle.ff_flac_frame.specs.laws.Parts.{frame_of};
ghost use Rattle.ff_flac_dec.specs.Streams.{stream_of};
ghost use Rattle.ff_stream.specs.declared.item.Item.TheVariants.{Audio};
ghost use Rattle.ff_node_codec.specs.codecs.Decoding.{flac_frame, IsFlacPacket};
ghost use Rattle.ff_node_codec.specs.laws.codecs.FlacLaws.{HoldsSound, IsFoundIn, flac_decoded};

use crate::codecs::decoder::Decoder;
use crate::codecs::pcm::sample_frames;
use ff_flac_dec::{DecodeEnd, FlacHead, FrameReceiver, decode, frame_at};
use ff_flac_frame::{FlacFrame, FrameEnd};
use ff_frame::{Pkt, StreamHead};
use ff_stream::Item;
use std::alloc::{AllocError, Global};

/// Decodes packets of FLAC, each of which is one frame (RFC 9639, section 9).
#[derive(Drop)]
pub struct FlacDecoder {
    alloc: Global,
    head: StreamHead,
    /// Where frames come from that were read as their packets were cut.
    frames: FrameReceiver,
    ghost stream: { IsStream (stream_of head) },
}

impl FlacDecoder {
    ghost use Rattle.ff_node_codec.specs.laws.codecs.Coders.{flac_head};

    /// For the packets of a stream of FLAC.
    pub fn new(alloc: Global, head: StreamHead) -> FlacDecoder
        requires { IsStream (stream_of head) }
        ensures { flac_head result ≡ head }
    {
        FlacDecoder {
            alloc,
            head,
            frames: FrameReceiver::of_none(),
        }
    }

    /// Has it take the frames that a cut sends, so that it needn't read these packets itself. It decodes as before.
    pub fn take_frames_from(&mut self, frames: FrameReceiver)
        ensures { self.new ≡ self.old }
    {
        self.frames = frames;
    }
}

// The frame that a packet is, if it is one and nothing stands after it.
fn frame_in(alloc: Global, head: &FlacHead, packet: &Pkt) -> Result<Option<FlacFrame>, AllocError>
    requires { IsStream (stream_of head.now.head) }
    ensures { IfOk result (λ found. IsFoundIn head.now.head packet.now found) }
{
    let bytes = packet.bytes.as_slice();
    match frame_at(alloc, bytes, head) {
        Ok(frame) => {
            if frame.len == bytes.len() {
                return Ok(Some(frame));
            }
            Ok(None)
        }
        Err(FrameEnd::NotYet) => Ok(None),
        Err(FrameEnd::Never) => Ok(None),
        Err(FrameEnd::NoMemory) => Err(AllocError),
    }
}

// The same, where a cut sent that frame.
fn frame_sent(head: &FlacHead, frames: &mut FrameReceiver, packet: &Pkt) -> Option<FlacFrame>
    ensures { IfSome result (λ f. (number : ℕ) × IsFlacPacket head.now.head packet.now (frame_of number f)) }
{
    frames.take(&head.stream(), packet.pos, packet.bytes.as_slice())
}

// The same, sent or read.
fn frame_for(
    alloc: Global,
    head: &FlacHead,
    frames: &mut FrameReceiver,
    packet: &Pkt,
) -> Result<Option<FlacFrame>, AllocError>
    requires { IsStream (stream_of head.now.head) }
    ensures { IfOk result (λ found. IsFoundIn head.now.head packet.now found) }
{
    match frame_sent(head, frames, packet) {
        Some(frame) => Ok(Some(frame)),
        None => frame_in(alloc, head, packet),
    }
}

// The audio of a packet that is this frame, if it lasts as long as the packet.
fn sound_of(
    alloc: Global,
    head: &FlacHead,
    frame: &FlacFrame,
    packet: &Pkt,
) -> Result<Option<Item>, AllocError>
    requires stream { IsStream (stream_of head.now.head) }
    requires whole { (number : ℕ) × IsFlacPacket head.now.head packet.now (frame_of number frame.now) }
    ensures { IfOk result (λ sound. sound ≡ flac_frame head.now.head packet.now) }
{
    match decode(alloc, frame, head, packet.pts) {
        Ok(sound) => {
            if sample_frames(&sound) == packet.duration {
                return Ok(Some(Item::Audio(sound)));
            }
            Ok(None)
        }
        Err(DecodeEnd::OutOfDepth) => Ok(None),
        Err(DecodeEnd::NoMemory) => Err(AllocError),
    }
}

// The audio of a packet, if its bytes stand for any.
fn sound_in(
    alloc: Global,
    head: &FlacHead,
    frames: &mut FrameReceiver,
    packet: &Pkt,
) -> Result<Option<Item>, AllocError>
    requires { IsStream (stream_of head.now.head) }
    ensures { IfOk result (λ sound. sound ≡ flac_frame head.now.head packet.now) }
{
    match frame_for(alloc, head, frames, packet)? {
        Some(frame) => sound_of(alloc, head, &frame, packet),
        None => Ok(None),
    }
}

impl Decoder for FlacDecoder {
    ghost use Rattle.ff_node_codec.specs.laws.codecs.Coders.{flac_head};

    ghost head = { flac_head };

    ghost takes = { λ d p. Unit {0} };

    ghost made = { λ d p. flac_frame (flac_head d) p };

    fn can_take(&self, _packet: &Pkt) -> bool {
        true
    }

    fn decode(&mut self, packet: Pkt) -> Result<Option<Item>, Pkt> {
        let head = FlacHead {
            head: self.head,
            start: 0,
        };
        match sound_in(self.alloc, &head, &mut self.frames, &packet) {
            Ok(sound) => Ok(sound),
            Err(_) => Err(packet),
        }
    }

    ghost carries = { λ d p fits. flac_decoded (flac_head d) p d.stream fits };
}

/// A packet has a frame exactly where its bytes are one frame of the grammar and nothing more. The frame has as many
/// sample frames as the packet lasts ticks. Each sample is within its subframe's depth and the stream's.
pub fn flac_frames_are_their_packets()
    ensures { (head : StreamHead) (packet : Pkt) (sound : AFrame) → flac_frame head packet ≡ Some (Audio sound) ↔ HoldsSound head packet sound }
{}
