//! Calls of the header of AU that is written.
ghost use Rattle.std.specs.Prelude.{IfSome};
ghost use Rattle.ff_frame.specs.Codecs.{IsPcmCodec};
ghost use Rattle.ff_au.specs.Codecs.{IsAuCodec, IsAuCoded};

use crate::heads::codec_named;
use crate::told::Told;
use crate::words::Call;
use ff_au::AuPut;
use ff_frame::{Codec, StreamHead};
use ff_pcm::depth_of;

// The codec of AU of this name.
fn au_codec(name: &str) -> Option<Codec>
    ensures au { IfSome result IsAuCodec }
    ensures pcm { IfSome result IsPcmCodec }
{
    match codec_named(name)? {
        Codec::PcmS8 => Some(Codec::PcmS8),
        Codec::PcmS16be => Some(Codec::PcmS16be),
        Codec::PcmS24be => Some(Codec::PcmS24be),
        Codec::PcmS32be => Some(Codec::PcmS32be),
        _ => None,
    }
}

// The head of `CODEC CHANNELS`, at 44,100 sample frames a second.
fn head_of(call: &mut Call) -> Option<StreamHead>
    ensures { IfSome result IsAuCoded }
{
    let channels = call.up_to(1, 8) as u8;
    let codec = au_codec(call.text(0))?;
    let tb = call.base_of(1, 44100)?;
    Some(StreamHead::Audio {
        tb,
        rate: 44100,
        bits: depth_of(codec),
        channels,
        codec,
    })
}

/// `au_first CODEC CHANNELS`: the header of an AU whose size isn't known yet.
pub fn first(call: &mut Call, told: &mut Told) {
    match head_of(call) {
        Some(head) => told.made_hex(AuPut::new(call.alloc, &head).first()),
        None => call.misread(),
    }
}

/// `au_last CODEC CHANNELS SIZE..`: the header after so many bytes of the body, which are counted one size after another.
pub fn last(call: &mut Call, told: &mut Told) {
    let Some(head) = head_of(call) else {
        return call.misread();
    };
    let mut put = AuPut::new(call.alloc, &head);
    for at in 2..call.len() {
        put.add(call.number(at));
    }
    told.made_hex(put.last());
}
