//! Items, as a table has them.
use crate::fields::Fields;
use crate::heads::name_of_format;
use crate::sound::{read_samples, tell_samples};
use crate::table::Stop;
use crate::told::Told;
use ff_frame::{AFrame, Bytes, Samples, StreamHead, VFrame};
use ff_stream::Item;
use std::alloc::Global;

// How many times a part stands: as a number after a `*` says, or once.
fn times_of(fields: &mut Fields, times: Option<&str>) -> u64 {
    let Some(times) = times else {
        return 1;
    };
    match times.parse::<u64>() {
        Ok(times) => times,
        Err(_) => {
            fields.fail(Stop::Unreadable);
            0
        }
    }
}

// Bytes in hex, so many times as a number after a `*` says.
fn add_part(alloc: Global, fields: &mut Fields, out: &mut Vec<u8>, part: &str) {
    let (once, times) = match part.split_once('*') {
        Some((once, times)) => (once, Some(times)),
        None => (part, None),
    };
    let times = times_of(fields, times);
    let Ok(bytes) = hex::decode(alloc, once) else {
        return fields.fail(Stop::Unreadable);
    };
    for _ in 0..times {
        if !fields.note(out.extend_from_slice(bytes.as_slice())) {
            return;
        }
    }
}

// The bytes of parts with a `+` between them.
fn read_bytes(alloc: Global, fields: &mut Fields) -> Vec<u8> {
    let mut out = Vec::new(alloc);
    for part in fields.rest().split('+') {
        add_part(alloc, fields, &mut out, part);
    }
    out
}

// `TIME+DURATION:PLANES`, a video frame of this head.
fn read_picture(alloc: Global, fields: &mut Fields, head: &StreamHead) -> Option<Item> {
    let StreamHead::Video {
        format,
        width,
        height,
        ..
    } = *head
    else {
        return None;
    };
    let (pts, duration) = (fields.until('+'), fields.until(':'));
    Some(Item::Video(VFrame {
        pts: fields.signed(pts),
        duration: fields.signed(duration),
        format,
        width,
        height,
        planes: Bytes::new(read_bytes(alloc, fields)),
    }))
}

// `TIME:SAMPLES`, audio of this head.
fn read_sound(alloc: Global, fields: &mut Fields, head: &StreamHead) -> Option<Item> {
    let StreamHead::Audio {
        rate,
        bits,
        channels,
        ..
    } = *head
    else {
        return None;
    };
    let pts = fields.until(':');
    Some(Item::Audio(AFrame {
        pts: fields.signed(pts),
        rate,
        bits,
        channels,
        samples: Samples::new(read_samples(alloc, fields)),
    }))
}

/// The item of a string, on a stream of this head: a frame, `end` or `broken`.
pub fn read_item(alloc: Global, head: &StreamHead, text: &str) -> Result<Item, Stop> {
    let mut fields = Fields::new(text);
    let item = match text {
        "end" => Some(Item::End),
        "broken" => Some(Item::Broken),
        _ => match head {
            StreamHead::Video { .. } => read_picture(alloc, &mut fields, head),
            StreamHead::Audio { .. } => read_sound(alloc, &mut fields, head),
        },
    };
    fields.finish(item)
}

// What a video frame has that isn't as its head says.
fn tell_picture_of_another(told: &mut Told, head: &StreamHead, frame: &VFrame) {
    if let StreamHead::Video {
        format,
        width,
        height,
        ..
    } = *head
        && format == frame.format
        && width == frame.width
        && height == frame.height
    {
        return;
    }
    told.texts(&["(", name_of_format(frame.format), " "]);
    told.numbers("x", &[i64::from(frame.width), i64::from(frame.height)]);
    told.text(")");
}

fn tell_picture(told: &mut Told, head: &StreamHead, frame: &VFrame) {
    tell_picture_of_another(told, head, frame);
    told.numbers("+", &[frame.pts, frame.duration]);
    told.text(":");
    told.hex(frame.planes.as_slice());
}

// What audio has that isn't as its head says.
fn tell_sound_of_another(told: &mut Told, head: &StreamHead, frame: &AFrame) {
    if let StreamHead::Audio {
        rate,
        bits,
        channels,
        ..
    } = *head
        && rate == frame.rate
        && bits == frame.bits
        && channels == frame.channels
    {
        return;
    }
    let (rate, bits, channels) = (frame.rate, frame.bits, frame.channels);
    told.text("(");
    told.numbers(
        " ",
        &[i64::from(rate), i64::from(bits), i64::from(channels)],
    );
    told.text(")");
}

fn tell_sound(told: &mut Told, head: &StreamHead, frame: &AFrame) {
    tell_sound_of_another(told, head, frame);
    told.number(frame.pts);
    told.text(":");
    tell_samples(told, frame.samples.as_slice(), frame.channels as usize);
}

/// Writes an item on a stream of this head. What it has that isn't as the head says stands before it in brackets.
pub fn tell_item(told: &mut Told, head: &StreamHead, item: &Item) {
    match item {
        Item::Video(frame) => tell_picture(told, head, frame),
        Item::Audio(frame) => tell_sound(told, head, frame),
        Item::End => told.text("end"),
        Item::Broken => told.text("broken"),
        Item::Packet(_) => told.text("packet"),
        Item::Trailer(_) => told.text("trailer"),
    }
}
