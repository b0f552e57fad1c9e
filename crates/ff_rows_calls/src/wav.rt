//! Calls of the header of WAV that is written.
ghost use Rattle.std.specs.Prelude.{IfSome};
ghost use Rattle.ff_frame.specs.Codecs.{IsPcmCodec};
ghost use Rattle.ff_wav.specs.Codecs.{IsWavCodec, IsWavCoded};

use crate::heads::codec_named;
use crate::told::Told;
use crate::words::Call;
use ff_format::Rf64;
use ff_frame::{Codec, StreamHead};
use ff_pcm::depth_of;
use ff_wav::WavPut;

// The codec of WAV of this name.
fn wav_codec(name: &str) -> Option<Codec>
    ensures wav { IfSome result IsWavCodec }
    ensures pcm { IfSome result IsPcmCodec }
{
    match codec_named(name)? {
        Codec::PcmU8 => Some(Codec::PcmU8),
        Codec::PcmS16le => Some(Codec::PcmS16le),
        Codec::PcmS24le => Some(Codec::PcmS24le),
        Codec::PcmS32le => Some(Codec::PcmS32le),
        _ => None,
    }
}

/// The head of `CODEC CHANNELS`, at 44,100 sample frames a second.
pub fn head_of(call: &mut Call) -> Option<StreamHead>
    ensures { IfSome result IsWavCoded }
{
    let channels = call.up_to(1, 8) as u8;
    let codec = wav_codec(call.text(0))?;
    let tb = call.base_of(1, 44100)?;
    Some(StreamHead::Audio {
        tb,
        rate: 44100,
        bits: depth_of(codec),
        channels,
        codec,
    })
}

// When it is RF64, where the third argument says it, and the place of the next argument; never without it.
fn mode_of(call: &Call) -> (Rf64, usize) {
    match call.all().get(2) {
        None => (Rf64::Never, 2),
        Some(word) => match word.as_str() {
            "never" => (Rf64::Never, 3),
            "auto" => (Rf64::Auto, 3),
            "always" => (Rf64::Always, 3),
            _ => (Rf64::Never, 2),
        },
    }
}

/// `wav_first CODEC CHANNELS [never|auto|always]`: the header of a WAV whose sizes aren't known yet.
pub fn first(call: &mut Call, told: &mut Told) {
    let (mode, _next) = mode_of(call);
    match head_of(call) {
        Some(head) => told.made_hex(WavPut::new(call.alloc, &head, mode).first()),
        None => call.misread(),
    }
}

// Counts the sizes that the arguments from this place on say, and tells for each whether it was taken.
fn count(call: &mut Call, told: &mut Told, put: &mut WavPut, from: usize) {
    for at in from..call.len() {
        told.text(if put.add(call.number(at)).is_ok() {
            "taken "
        } else {
            "refused "
        });
    }
}

/// `wav_last CODEC CHANNELS [never|auto|always] SIZE..`: for each size whether so many bytes of the body are taken. Then comes the
/// header, and `pad` where a byte follows the body.
pub fn last(call: &mut Call, told: &mut Told) {
    let (mode, next) = mode_of(call);
    let Some(head) = head_of(call) else {
        return call.misread();
    };
    let mut put = WavPut::new(call.alloc, &head, mode);
    count(call, told, &mut put, next);
    told.made_hex(put.last());
    if put.pad() {
        told.text(" pad");
    }
}
