//! The streams that an output takes by its format, and the heads of their packets.
ghost use Rattle.std.specs.Prelude.{◌≡◌, ◌<◌, ◌≤◌, true};
ghost use Rattle.std.specs.List.{list_any};
ghost use Rattle.ff_words.specs.maps.Choice.{has_kind};
ghost use Rattle.ff_plan_layout.specs.declared.layout.InPad.{InPad};
ghost use Rattle.ff_plan_layout.specs.Choice.{kind_of as kind_in};
ghost use Rattle.ff_plan_layout.specs.Streams.{takes_kind as kind_taken, audio_codec as codec_of_sound, codec_or, packed_bits as bits_packed, packed_as as head_packed};
ghost use Rattle.ff_plan_layout.specs.Streams.{takes_sound as sound_taken, takes_head as head_taken};
ghost use Rattle.ff_plan_layout.specs.Streams.{drops as is_dropped, simple_of, is_graph, is_pad as shows_pad, takes as is_taken, is_wanted};
ghost use Rattle.ff_plan_layout.specs.Streams.{most_streams as most_of};

use crate::layout::{InPad, Origin};
use crate::wanting::is_kind;
use ff_format::FileFormat;
use ff_frame::{Codec, Coding, StreamHead};
use ff_words::OutputJob;
use ff_words::maps::Kind;

/// The kind of a stream of this head.
pub(crate) fn kind_of(head: StreamHead) -> Kind
    ensures { result ≡ kind_in head }
{
    match head {
        StreamHead::Audio { .. } => Kind::Audio,
        StreamHead::Video { .. } => Kind::Video,
    }
}

fn takes_kind(format: FileFormat, kind: Kind) -> bool
    ensures { result ≡ kind_taken format kind }
{
    let taken = format.taken();
    match kind {
        Kind::Audio => taken.sound.is_some(),
        Kind::Video => taken.pictures,
    }
}

/// Whether an output drops the streams of inputs that have this kind.
pub(crate) fn drops(out: &OutputJob, kind: Kind) -> bool
    ensures { result ≡ is_dropped out.now kind }
{
    match kind {
        Kind::Audio => out.no_audio,
        Kind::Video => out.no_video,
    }
}

// Whether one of these pads shows a stream of this kind.
fn has_kind_among(pads: &[InPad], kind: Kind) -> bool
    ensures { result ≡ list_any (λ (i : InPad). has_kind kind i.head) pads.now }
{
    for pad in pads {
        if is_kind(kind, pad.head) {
            return true;
        }
    }
    false
}

/// Whether the automatic choice looks for this kind, beside these pads.
pub(crate) fn looks_for(out: &OutputJob, before: &[InPad], kind: Kind) -> bool
    ensures { result ≡ is_wanted out.now before.now kind }
{
    takes_kind(out.format, kind) && !drops(out, kind) && !has_kind_among(before, kind)
}

fn codec_given(default: Codec, given: Option<Codec>) -> Codec
    ensures { result ≡ codec_or default given }
{
    match given {
        Some(codec) => codec,
        None => default,
    }
}

// The audio codec of an output.
fn audio_codec(out: &OutputJob) -> Codec
    ensures { result ≡ codec_of_sound out.now out.now.format }
{
    codec_given(out.format.taken().codec, out.audio)
}

fn packed_bits(codec: Codec, bits: u8) -> u8
    ensures { result ≡ bits_packed codec bits }
{
    match codec.coding() {
        Coding::Pcm(form) => form.depth.bits(),
        Coding::Flac => { if 4 <= bits && bits <= 24 { bits } else { 24 } }
        Coding::RawVideo => bits,
    }
}

/// The head of an output's packets, by that of its frames.
pub(crate) fn packed_as(out: &OutputJob, head: StreamHead) -> StreamHead
    ensures { result ≡ head_packed out.now head }
{
    match head {
        StreamHead::Audio {
            tb,
            rate,
            bits,
            channels,
            codec: _,
        } => {
            let codec = audio_codec(out);
            StreamHead::Audio {
                tb,
                rate,
                bits: packed_bits(codec, bits),
                channels,
                codec,
            }
        }
        StreamHead::Video { .. } => head,
    }
}

// Whether a format takes such audio.
fn takes_sound(format: FileFormat, codec: Codec, rate: u32) -> bool
    ensures { result ≡ sound_taken format codec rate }
{
    format.taken().sound.takes(codec, rate)
}

fn takes_head(out: &OutputJob, head: StreamHead) -> bool
    ensures { result ≡ head_taken out.now head }
{
    match head {
        StreamHead::Audio { rate, .. } => {
            takes_kind(out.format, Kind::Audio) && takes_sound(out.format, audio_codec(out), rate)
        }
        StreamHead::Video { .. } => takes_kind(out.format, Kind::Video),
    }
}

// Whether an output has a simple graph for a kind.
fn has_graph(out: &OutputJob, kind: Kind) -> bool
    ensures { result ≡ is_graph (simple_of out.now kind) }
{
    match kind {
        Kind::Audio => out.af.is_some(),
        Kind::Video => out.vf.is_some(),
    }
}

fn is_pad(source: Origin) -> bool
    ensures { result ≡ shows_pad source }
{
    match source {
        Origin::Stream(_) => false,
        Origin::Pad { .. } => true,
    }
}

// How many streams a format can hold.
fn most(format: FileFormat) -> usize
    ensures most { result ≡ most_of format }
    ensures few { result ≤ 16 }
{
    format.taken().streams
}

/// Whether an output takes this as its n-th stream.
pub(crate) fn accepts(out: &OutputJob, n: usize, pad: InPad) -> bool
    ensures taken { result ≡ is_taken out.now n pad }
    ensures few { result ≡ true → n < 16 }
{
    let filtered_twice = is_pad(pad.source) && has_graph(out, kind_of(pad.head));
    takes_head(out, pad.head) && n < most(out.format) && !filtered_twice
}
