//! The decoder and the encoder of any codec.
ghost use Rattle.std.specs.Prelude.{◌≡◌};
ghost use Rattle.ff_node_codec.specs.laws.codecs.AnyCoders.{any_head, any_takes, any_frame, any_decoded, any_serves, any_coded, any_accepts, any_packet, any_encoded, any_times};

use crate::codecs::decoder::Decoder;
use crate::codecs::encoder::Encoder;
use crate::codecs::flac::FlacDecoder;
use crate::codecs::pcm::{PcmDecoder, PcmEncoder};
use crate::codecs::raw::{RawDecoder, RawEncoder};
use ff_flac_dec::FrameReceiver;
use ff_frame::Pkt;
use ff_stream::Item;

/// The decoder of any codec that is read.
#[derive(Drop)]
pub enum AnyDecoder {
    /// Linear PCM.
    Pcm(PcmDecoder),
    /// Raw video.
    Raw(RawDecoder),
    /// FLAC.
    Flac(FlacDecoder),
}

impl AnyDecoder {
    /// Has a decoder of FLAC take the frames that a cut sends, so that it needn't read these packets itself. Each decodes as before.
    pub fn take_frames_from(&mut self, frames: FrameReceiver)
        ensures { self.new ≡ self.old }
    {
        match self {
            AnyDecoder::Flac(decoder) => decoder.take_frames_from(frames),
            AnyDecoder::Pcm(_) | AnyDecoder::Raw(_) => {}
        }
    }
}

impl Decoder for AnyDecoder {
    ghost head = { any_head };

    ghost takes = { any_takes };

    ghost made = { any_frame };

    fn can_take(&self, packet: &Pkt) -> bool {
        match self {
            AnyDecoder::Pcm(decoder) => decoder.can_take(packet),
            AnyDecoder::Raw(decoder) => decoder.can_take(packet),
            AnyDecoder::Flac(decoder) => decoder.can_take(packet),
        }
    }

    fn decode(&mut self, packet: Pkt) -> Result<Option<Item>, Pkt> {
        match self {
            AnyDecoder::Pcm(decoder) => decoder.decode(packet),
            AnyDecoder::Raw(decoder) => decoder.decode(packet),
            AnyDecoder::Flac(decoder) => decoder.decode(packet),
        }
    }

    ghost carries = { any_decoded };
}

/// The encoder to any codec that is written.
#[derive(Drop)]
pub enum AnyEncoder {
    /// Linear PCM.
    Pcm(PcmEncoder),
    /// Raw video.
    Raw(RawEncoder),
}

impl Encoder for AnyEncoder {
    ghost serves = { any_serves };

    ghost coded = { any_coded };

    ghost takes = { any_accepts };

    ghost made = { any_packet };

    fn can_take(&self, frame: &Item) -> bool {
        match self {
            AnyEncoder::Pcm(encoder) => encoder.can_take(frame),
            AnyEncoder::Raw(encoder) => encoder.can_take(frame),
        }
    }

    fn encode(&self, frame: Item) -> Result<Pkt, Item> {
        match self {
            AnyEncoder::Pcm(encoder) => encoder.encode(frame),
            AnyEncoder::Raw(encoder) => encoder.encode(frame),
        }
    }

    ghost carries = { any_encoded };

    ghost keeps_times = { any_times };
}
