//! The decoder and the encoder of linear PCM packets.
ghost use Rattle.std.specs.Prelude.{◌≡◌, ◌↔◌, ◌*◌, ◌/◌, ◌<◌, ℕ, Some, length, pos, slice_index, IsTrue, IfOk, IfErr};
ghost use Rattle.ff_frame.specs.Audio.{IsAudio};
ghost use Rattle.ff_frame.specs.Codecs.{IsPcmCodec, sample_bytes};
ghost use Rattle.ff_frame.specs.Heads.{IsSoundHead};
ghost use Rattle.ff_frame.specs.laws.PcmLaws.{IsPcmCodec-prop};
ghost use Rattle.ff_pcm.specs.Frames.{IsPcmHead, HasBlocks, frame_of};
ghost use Rattle.ff_node_codec.specs.laws.codecs.Props.{IsPcmHead-prop};
ghost use Rattle.ff_node_codec.specs.codecs.Decoding.{octets, pcm_frame};
ghost use Rattle.ff_node_codec.specs.codecs.Encoding.{coded_head, packet_of, pcm_packet_of, IsSound};
ghost use Rattle.ff_node_codec.specs.laws.codecs.PcmLaws.{pcm_decoded, pcm_encoded, pcm_times};

use crate::codecs::decoder::Decoder;
use crate::codecs::encoder::Encoder;
use ff_bits::know_bytes;
use ff_frame::{AFrame, Bytes, Codec, Pkt, StreamHead};
use ff_pcm::{depth_change, depth_of, has_blocks, is_audio, pcm_decode, pcm_encode_into, room_for};
use ff_stream::Item;
use std::alloc::{AllocError, Global};

/// Decodes packets of linear PCM (RIFF WAVE, the data of PCM formats).
#[derive(Drop)]
pub struct PcmDecoder {
    alloc: Global,
    head: StreamHead,
    ghost pcm: { IsPcmHead head } by { IsPcmHead-prop head },
}

impl PcmDecoder {
    ghost use Rattle.ff_node_codec.specs.laws.codecs.Coders.{pcm_head};

    /// For the packets of a stream of linear PCM.
    pub fn new(alloc: Global, head: StreamHead) -> PcmDecoder
        requires { IsPcmHead head }
        ensures { pcm_head result ≡ head }
    {
        PcmDecoder { alloc, head }
    }
}

// The frame of a packet.
fn frame(alloc: Global, head: &StreamHead, packet: &Pkt) -> Result<AFrame, AllocError>
    requires head { IsPcmHead head.now }
    requires blocks { HasBlocks head.now packet.now.bytes }
    ensures { IfOk result (λ frame. frame ≡ frame_of head.now (octets packet.now)) }
{
    know_bytes(packet.bytes.as_slice());
    pcm_decode(alloc, head, packet)
}

impl Decoder for PcmDecoder {
    ghost use Rattle.ff_node_codec.specs.laws.codecs.Coders.{pcm_head};

    ghost head = { pcm_head };

    ghost takes = { λ d p. HasBlocks (pcm_head d) p.bytes };

    ghost made = { λ d p. pcm_frame (pcm_head d) p };

    fn can_take(&self, packet: &Pkt) -> bool {
        has_blocks(&self.head, packet)
    }

    fn decode(&mut self, packet: Pkt) -> Result<Option<Item>, Pkt> {
        match frame(self.alloc, &self.head, &packet) {
            Ok(frame) => Ok(Some(Item::Audio(frame))),
            Err(_) => Err(packet),
        }
    }

    ghost carries = { λ d p fits. pcm_decoded (pcm_head d) p d.pcm fits };
}

/// Encodes audio frames as linear PCM, at the codec's depth (RIFF WAVE, the data of PCM formats).
#[derive(Drop)]
pub struct PcmEncoder {
    alloc: Global,
    codec: Codec,
    ghost pcm: { IsPcmCodec codec } by { IsPcmCodec-prop codec },
}

impl PcmEncoder {
    ghost use Rattle.ff_node_codec.specs.laws.codecs.Coders.{pcm_codec};

    /// To a codec of linear PCM.
    pub fn new(alloc: Global, codec: Codec) -> PcmEncoder
        requires { IsPcmCodec codec }
        ensures { pcm_codec result ≡ codec }
    {
        PcmEncoder { alloc, codec }
    }
}

/// How many sample frames an audio frame has.
pub(crate) fn sample_frames(frame: &AFrame) -> i64
    requires { IsAudio frame.now.bits frame.now.channels frame.now.samples }
    ensures { result ≡ pos (length frame.now.samples / frame.now.channels) }
{
    (frame.samples.as_slice().len() / usize::from(frame.channels)) as i64
}

// The packet of a frame, in a place for its bytes.
fn packet(codec: Codec, mut frame: AFrame, mut bytes: Vec<u8>) -> Pkt
    requires pcm { IsPcmCodec codec }
    requires frame { IsAudio frame.bits frame.channels frame.samples }
    requires size { length bytes.items ≡ sample_bytes codec * length frame.samples }
    ensures { result ≡ packet_of codec frame }
{
    let duration = sample_frames(&frame);
    depth_change(&mut frame, depth_of(codec));
    pcm_encode_into(codec, &frame, &mut bytes);
    Pkt {
        pts: frame.pts,
        dts: frame.pts,
        duration,
        pos: 0,
        bytes: Bytes::new(bytes),
    }
}

impl Encoder for PcmEncoder {
    ghost use Rattle.ff_node_codec.specs.laws.codecs.Coders.{pcm_codec};

    ghost serves = { λ e head. IsSoundHead head };

    ghost coded = { λ e head. coded_head (pcm_codec e) head };

    ghost takes = { λ e x. IsSound x };

    ghost made = { λ e x. pcm_packet_of (pcm_codec e) x };

    fn can_take(&self, frame: &Item) -> bool {
        match frame {
            Item::Audio(frame) => is_audio(frame),
            Item::Video(_) | Item::Packet(_) | Item::Trailer(_) | Item::End | Item::Broken => false,
        }
    }

    fn encode(&self, frame: Item) -> Result<Pkt, Item> {
        match frame {
            Item::Audio(frame) => match room_for(self.alloc, self.codec, &frame) {
                Ok(bytes) => Ok(packet(self.codec, frame, bytes)),
                Err(_) => Err(Item::Audio(frame)),
            },
            Item::Video(_) | Item::Packet(_) | Item::Trailer(_) | Item::End | Item::Broken =>
                unreachable!(),
        }
    }

    ghost carries = { λ e head x serves fits. pcm_encoded (pcm_codec e) head x e.pcm serves fits };

    ghost keeps_times = { λ e head serves. pcm_times (pcm_codec e) head };
}
