//! The decoder and the encoder of raw video packets.
ghost use Rattle.std.specs.Prelude.{◌≡◌, ◌↔◌, ◌≤◌, Some, length, IsTrue};
ghost use Rattle.ff_frame.specs.Video.{IsVideo};
ghost use Rattle.ff_pcm.specs.laws.Raw.{HasFrame};
ghost use Rattle.ff_node_codec.specs.laws.codecs.Props.{IsPictureHead-prop};
ghost use Rattle.ff_node_codec.specs.codecs.Decoding.{raw_frame, IsPictureHead};
ghost use Rattle.ff_node_codec.specs.codecs.Encoding.{raw_packet_of, IsPicture, IsPictures};
ghost use Rattle.ff_node_codec.specs.laws.codecs.RawLaws.{raw_decoded, raw_encoded, raw_times};

use crate::codecs::decoder::Decoder;
use crate::codecs::encoder::Encoder;
use ff_frame::{Format, Pkt, StreamHead, VFrame};
use ff_stream::Item;

/// Decodes packets of raw video: the bytes of each are the planes of a frame, which are moved.
#[derive(Drop)]
pub struct RawDecoder {
    head: StreamHead,
    ghost sides: { IsPictureHead head } by { IsPictureHead-prop head },
}

impl RawDecoder {
    ghost use Rattle.ff_node_codec.specs.laws.codecs.Coders.{raw_head};

    /// For the packets of a video stream.
    pub fn new(head: StreamHead) -> RawDecoder
        requires { IsPictureHead head }
        ensures { raw_head result ≡ head }
    {
        RawDecoder { head }
    }
}

// Whether so many bytes are the planes of one frame.
fn are_planes(format: Format, width: u32, height: u32, bytes: &[u8]) -> bool
    requires columns { (1 ≤ width) × (width ≤ 16384) }
    requires rows { (1 ≤ height) × (height ≤ 16384) }
    ensures { IsTrue result ↔ IsVideo format width height bytes.now }
{
    bytes.len() == format.frame_size(width, height)
}

impl Decoder for RawDecoder {
    ghost use Rattle.ff_node_codec.specs.laws.codecs.Coders.{raw_head};

    ghost head = { raw_head };

    ghost takes = { λ d p. HasFrame (raw_head d) p.bytes };

    ghost made = { λ d p. raw_frame (raw_head d) p };

    fn can_take(&self, packet: &Pkt) -> bool {
        match self.head {
            StreamHead::Video {
                format,
                width,
                height,
                ..
            } => are_planes(format, width, height, packet.bytes.as_slice()),
            StreamHead::Audio { .. } => unreachable!(),
        }
    }

    fn decode(&mut self, packet: Pkt) -> Result<Option<Item>, Pkt> {
        match self.head {
            StreamHead::Video {
                format,
                width,
                height,
                ..
            } => Ok(Some(Item::Video(VFrame::make(
                packet.pts,
                packet.duration,
                format,
                width,
                height,
                packet.bytes,
            )))),
            StreamHead::Audio { .. } => unreachable!(),
        }
    }

    ghost carries = { λ d p fits. raw_decoded (raw_head d) p d.sides fits };
}

/// Encodes video frames as raw video: the planes of each are the bytes of a packet, and are moved.
#[derive(Drop)]
pub struct RawEncoder;

impl Encoder for RawEncoder {
    ghost serves = { λ e head. IsPictures head };

    ghost coded = { λ e head. head };

    ghost takes = { λ e x. IsPicture x };

    ghost made = { λ e x. raw_packet_of x };

    fn can_take(&self, frame: &Item) -> bool {
        match frame {
            Item::Video(_) => true,
            Item::Audio(_) | Item::Packet(_) | Item::Trailer(_) | Item::End | Item::Broken => false,
        }
    }

    fn encode(&self, frame: Item) -> Result<Pkt, Item> {
        match frame {
            Item::Video(frame) => Ok(Pkt {
                pts: frame.pts,
                dts: frame.pts,
                duration: frame.duration,
                pos: 0,
                bytes: frame.planes,
            }),
            Item::Audio(_) | Item::Packet(_) | Item::Trailer(_) | Item::End | Item::Broken =>
                unreachable!(),
        }
    }

    ghost carries = { λ e head x serves fits. raw_encoded head x serves fits };

    ghost keeps_times = { λ e head serves. raw_times head };
}
