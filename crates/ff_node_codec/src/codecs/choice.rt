//! The decoder and the encoder for a head.
ghost use Rattle.std.specs.Prelude.{◌≡◌};
ghost use Rattle.ff_node_codec.specs.laws.codecs.AnyCoders.{any_head, any_frame, any_serves, any_coded, any_packet};
ghost use Rattle.ff_node_codec.specs.codecs.Choices.{CanDecode, CanDecodeSound, CanEncode, frame_made, sound_made, packet_made};

use crate::codecs::any::{AnyDecoder, AnyEncoder};
use crate::codecs::flac::FlacDecoder;
use crate::codecs::pcm::{PcmDecoder, PcmEncoder};
use crate::codecs::raw::{RawDecoder, RawEncoder};
use ff_frame::{Codec, Coding, StreamHead};
use std::alloc::Global;

// The decoder of audio packets of this head, in this codec.
fn sound_decoder_of(alloc: Global, head: &StreamHead, codec: Codec) -> AnyDecoder
    requires { CanDecodeSound head.now codec }
    ensures head { any_head result ≡ head.now }
    ensures frame { any_frame result ≡ sound_made head.now codec }
{
    match codec.coding() {
        Coding::Pcm(_) => AnyDecoder::Pcm(PcmDecoder::new(alloc, *head)),
        Coding::Flac => AnyDecoder::Flac(FlacDecoder::new(alloc, *head)),
        Coding::RawVideo => unreachable!(),
    }
}

/// The decoder of packets of this head.
pub fn decoder_of(alloc: Global, head: &StreamHead) -> AnyDecoder
    requires { CanDecode head.now }
    ensures head { any_head result ≡ head.now }
    ensures frame { any_frame result ≡ frame_made head.now }
{
    match head {
        StreamHead::Audio { codec, .. } => sound_decoder_of(alloc, head, *codec),
        StreamHead::Video { .. } => AnyDecoder::Raw(RawDecoder::new(*head)),
    }
}

/// The encoder of frames of the first head to packets of the second.
pub fn encoder_of(alloc: Global, head: &StreamHead, coded: &StreamHead) -> AnyEncoder
    requires { CanEncode head.now coded.now }
    ensures serves { any_serves result head.now }
    ensures coded { any_coded result head.now ≡ coded.now }
    ensures packet { any_packet result ≡ packet_made coded.now }
{
    match coded {
        StreamHead::Audio { codec, .. } => AnyEncoder::Pcm(PcmEncoder::new(alloc, *codec)),
        StreamHead::Video { .. } => AnyEncoder::Raw(RawEncoder),
    }
}
