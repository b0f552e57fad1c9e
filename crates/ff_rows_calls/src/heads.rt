//! Calls that read the heads of inputs.
use crate::runs::Runs;
use crate::table::Stop;
use crate::told::Told;
use crate::words::Call;
use ff_avi::AviHead;
use ff_flac_dec::FlacHead;
use ff_frame::{Codec, Format, HeadEnd, StreamHead};
use ff_lists::front;
use ff_pcm::PcmHead;
use ff_time::Rational;
use ff_words::AUDIO_CODECS;
use ff_y4m::Y4mHead;

/// The audio codec of this name.
pub fn codec_named(name: &str) -> Option<Codec> {
    for codec in AUDIO_CODECS.iter() {
        if codec.name() == name {
            return Some(*codec);
        }
    }
    None
}

/// The name of a pixel format, as a table has it.
pub fn name_of_format(format: Format) -> &'static str {
    match format {
        Format::C420 => "420",
        Format::C422 => "422",
        Format::C444 => "444",
        Format::Mono => "mono",
    }
}

/// Tells a time base.
pub fn tell_base(told: &mut Told, base: Rational) {
    told.number(base.num());
    told.text("/");
    told.number(base.den());
}

// A name, and a number after it.
fn tell_field(told: &mut Told, name: &str, number: u64) {
    told.text(name);
    told.count(number);
}

/// Tells what a head says of its stream.
pub fn tell_stream(told: &mut Told, head: &StreamHead) {
    match *head {
        StreamHead::Audio {
            tb,
            rate,
            bits,
            channels,
            codec,
        } => {
            told.text("audio base ");
            tell_base(told, tb);
            tell_field(told, " rate ", u64::from(rate));
            tell_field(told, " bits ", u64::from(bits));
            tell_field(told, " channels ", u64::from(channels));
            told.texts(&[" codec ", codec.name()]);
        }
        StreamHead::Video {
            tb,
            format,
            width,
            height,
            sar_num,
            sar_den,
        } => {
            told.text("video base ");
            tell_base(told, tb);
            told.texts(&[" format ", name_of_format(format)]);
            tell_field(told, " width ", u64::from(width));
            tell_field(told, " height ", u64::from(height));
            tell_field(told, " aspect ", u64::from(sar_num));
            tell_field(told, ":", u64::from(sar_den));
        }
    }
}

/// Tells the head of a format whose body is linear PCM.
pub fn tell_pcm(told: &mut Told, head: &PcmHead) {
    tell_stream(told, &head.head);
    tell_field(told, " start ", head.start);
    match head.len {
        Some(size) => tell_field(told, " size ", size),
        None => told.text(" size none"),
    }
}

/// Tells the head of a YUV4MPEG2.
pub fn tell_y4m(told: &mut Told, head: &Y4mHead) {
    tell_stream(told, &head.head);
    tell_field(told, " start ", head.start);
    tell_field(told, " frame ", head.frame_bytes);
}

/// Tells the head of a FLAC.
pub fn tell_flac(told: &mut Told, head: &FlacHead) {
    tell_stream(told, &head.head);
    tell_field(told, " start ", head.start);
}

/// Tells the head of an AVI.
pub fn tell_avi(told: &mut Told, head: &AviHead) {
    told.text("avi ");
    tell_stream(told, &head.first);
    if let Some(second) = &head.second {
        told.text(" ");
        tell_stream(told, second);
    }
    tell_field(told, " start ", head.start);
}

/// Tells why so many bytes give no head, or none yet.
pub fn tell_end(told: &mut Told, length: usize, end: HeadEnd) {
    match end {
        HeadEnd::NotYet => told.text("not yet"),
        HeadEnd::Damaged { offset } => {
            if offset == length as u64 {
                told.text("damaged at its end");
            } else {
                tell_field(told, "damaged at ", offset);
            }
        }
        HeadEnd::Unsupported { offset } => tell_field(told, "unsupported at ", offset),
        HeadEnd::NoMemory => told.fail(Stop::Broken),
    }
}

/// A format whose head is read.
#[derive(Clone, Copy)]
enum Read {
    Wav,
    Y4m,
    Flac,
}

fn format_at(call: &mut Call, at: usize) -> Read {
    match call.text(at) {
        "wav" => Read::Wav,
        "y4m" => Read::Y4m,
        "flac" => Read::Flac,
        _ => {
            call.misread();
            Read::Wav
        }
    }
}

// Tells the head of an input of this format, whether it ends after these bytes or goes on.
fn tell_head(told: &mut Told, format: Read, whole: bool, bytes: &[u8]) {
    match format {
        Read::Wav => match ff_wav::read_head(bytes, whole) {
            Ok(head) => tell_pcm(told, &head),
            Err(end) => tell_end(told, bytes.len(), end),
        },
        Read::Y4m => match ff_y4m::read_head(bytes, whole) {
            Ok(head) => tell_y4m(told, &head),
            Err(end) => tell_end(told, bytes.len(), end),
        },
        Read::Flac => match ff_flac_dec::read_head(bytes, whole) {
            Ok(head) => tell_flac(told, &head),
            Err(end) => tell_end(told, bytes.len(), end),
        },
    }
}

/// Whether an input ends after its bytes.
pub fn is_whole(call: &mut Call, at: usize) -> bool {
    match call.text(at) {
        "whole" => true,
        "begun" => false,
        _ => {
            call.misread();
            false
        }
    }
}

/// `head FORMAT whole|begun BYTES`: the head of an input that is these bytes, or goes on after them.
pub fn head(call: &mut Call, told: &mut Told) {
    let (format, whole) = (format_at(call, 0), is_whole(call, 1));
    tell_head(told, format, whole, call.bytes(2).as_slice());
}

/// `head_fronts FORMAT whole|begun BYTES`: the same of each prefix of these bytes, from none to all.
pub fn head_fronts(call: &mut Call, told: &mut Told) {
    let (format, whole) = (format_at(call, 0), is_whole(call, 1));
    let bytes = call.bytes(2);
    let mut runs = Runs::new();
    for length in 0..=bytes.len() {
        let mut one = Told::new(call.alloc);
        tell_head(&mut one, format, whole, front(bytes.as_slice(), length));
        runs.add(told, length, one);
    }
    runs.end(told);
}
