//! The heads of streams, as a table has them.
use crate::fields::Fields;
use crate::table::{Stop, halves};
use crate::told::Told;
use ff_frame::{Codec, Format, StreamHead};

fn read_format(fields: &mut Fields) -> Format {
    match fields.word() {
        "420" => Format::C420,
        "422" => Format::C422,
        "444" => Format::C444,
        "mono" => Format::Mono,
        _ => {
            fields.fail(Stop::Unreadable);
            Format::Mono
        }
    }
}

/// The name of a pixel format, as a table has it.
pub fn name_of_format(format: Format) -> &'static str {
    match format {
        Format::C420 => "420",
        Format::C422 => "422",
        Format::C444 => "444",
        Format::Mono => "mono",
    }
}

/// The audio codecs.
const SOUND: [Codec; 5] = [
    Codec::PcmU8,
    Codec::PcmS16le,
    Codec::PcmS24le,
    Codec::PcmS32le,
    Codec::Flac,
];

fn read_codec(fields: &mut Fields) -> Codec {
    let name = fields.rest();
    for codec in SOUND.iter() {
        if codec.name() == name {
            return *codec;
        }
    }
    fields.fail(Stop::Unreadable);
    Codec::Flac
}

fn read_pictures(text: &str) -> Result<StreamHead, Stop> {
    let mut fields = Fields::new(text);
    let base = fields.base();
    let format = read_format(&mut fields);
    let (width, height) = (fields.until('x'), fields.word());
    let (sar_num, sar_den) = (fields.until(':'), fields.rest());
    let (width, height) = (fields.number(width), fields.number(height));
    let (sar_num, sar_den) = (fields.number(sar_num), fields.number(sar_den));
    let head = base.map(|tb| StreamHead::Video {
        tb,
        format,
        width,
        height,
        sar_num,
        sar_den,
    });
    fields.finish(head)
}

fn read_sound(text: &str) -> Result<StreamHead, Stop> {
    let mut fields = Fields::new(text);
    let base = fields.base();
    let (rate, bits, channels) = (fields.word(), fields.word(), fields.word());
    let codec = read_codec(&mut fields);
    let (rate, bits, channels) = (
        fields.number(rate),
        fields.small(bits),
        fields.small(channels),
    );
    let head = base.map(|tb| StreamHead::Audio {
        tb,
        rate,
        bits,
        channels,
        codec,
    });
    fields.finish(head)
}

/// The head of a string: `pictures BASE FORMAT COLUMNSxROWS NUM:DEN` or `sound BASE RATE BITS CHANNELS CODEC`.
pub fn read_head(text: &str) -> Result<StreamHead, Stop> {
    match halves(text) {
        ("pictures", rest) => read_pictures(rest),
        ("sound", rest) => read_sound(rest),
        _ => Err(Stop::Unreadable),
    }
}

/// Writes a head.
pub fn tell_head(told: &mut Told, head: &StreamHead) {
    match *head {
        StreamHead::Video {
            tb,
            format,
            width,
            height,
            sar_num,
            sar_den,
        } => {
            told.text("pictures ");
            told.numbers("/", &[tb.num(), tb.den()]);
            told.texts(&[" ", name_of_format(format), " "]);
            told.numbers("x", &[i64::from(width), i64::from(height)]);
            told.text(" ");
            told.numbers(":", &[i64::from(sar_num), i64::from(sar_den)]);
        }
        StreamHead::Audio {
            tb,
            rate,
            bits,
            channels,
            codec,
        } => {
            told.text("sound ");
            told.numbers("/", &[tb.num(), tb.den()]);
            told.text(" ");
            told.numbers(
                " ",
                &[i64::from(rate), i64::from(bits), i64::from(channels)],
            );
            told.texts(&[" ", codec.name()]);
        }
    }
}
