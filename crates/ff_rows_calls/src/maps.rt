//! Calls that read maps, and choose streams with a map or without.
ghost use Rattle.std.specs.Prelude.{◌≡◌, ◌<◌, ◌^◌, true, vec_len};
ghost use Rattle.std.specs.List.{AllByRecursion};

use crate::table::Stop;
use crate::told::Told;
use crate::words::Call;
use ff_frame::{Codec, Format, StreamHead};
use ff_time::Rational;
use ff_words::maps::{
    Kind, MapError, MapFrom, MapSpec, Pick, StreamRef, best_streams, read_map, select,
};

fn name_of(kind: Kind) -> &'static str {
    match kind {
        Kind::Audio => "audio",
        Kind::Video => "video",
    }
}

fn tell_pick(told: &mut Told, file: u32, pick: Pick) {
    told.text("input ");
    told.count(u64::from(file));
    match pick {
        Pick::All => {}
        Pick::Index(number) => {
            told.text(" stream ");
            told.count(u64::from(number));
        }
        Pick::Kind(kind) => told.texts(&[" ", name_of(kind)]),
        Pick::Nth(kind, number) => {
            told.texts(&[" ", name_of(kind), " "]);
            told.count(u64::from(number));
        }
    }
}

/// A map: `input FILE`, after it `stream NUMBER`, or a kind and maybe a number; or `label LABEL`; and then `or none` where it
/// may name nothing.
pub fn tell_map(told: &mut Told, map: &MapSpec) {
    match &map.from {
        MapFrom::Input { file, pick } => tell_pick(told, *file, *pick),
        MapFrom::Label(label) => told.texts(&["label ", label.as_str()]),
    }
    if map.optional {
        told.text(" or none");
    }
}

/// `map TEXT`: the map of a string.
pub fn map(call: &mut Call, told: &mut Told) {
    match read_map(call.alloc, call.text(0)) {
        Ok(map) => tell_map(told, &map),
        Err(MapError::Bad { at }) => {
            told.text("bad at ");
            told.count(at as u64);
        }
        Err(MapError::NoMemory) => told.fail(Stop::Broken),
    }
}

fn sound(call: &mut Call, channels: &str) -> Option<StreamHead> {
    let channels = call.read_up_to(channels, 255) as u8;
    let tb = call.base_of(1, 8000)?;
    Some(StreamHead::Audio {
        tb,
        rate: 8000,
        bits: 8,
        channels,
        codec: Codec::PcmU8,
    })
}

fn picture(call: &mut Call, size: &str) -> Option<StreamHead> {
    let (width, height) = size.split_once('x').unwrap_or(("", ""));
    let (width, height) = (call.read_wide(width), call.read_wide(height));
    let tb = call.base_of(1, 25)?;
    Some(StreamHead::Video {
        tb,
        format: Format::Mono,
        width,
        height,
        sar_num: 0,
        sar_den: 0,
    })
}

// Audio of so many channels is `a2`, video of so many columns and rows are `v4x3`.
fn head(call: &mut Call, text: &str) -> Option<StreamHead> {
    if let Some(channels) = text.strip_prefix('a') {
        return sound(call, channels);
    }
    match text.strip_prefix('v') {
        Some(size) => picture(call, size),
        None => call.read(None),
    }
}

/// The streams at this place with commas between them; `-` has none.
pub fn streams(call: &mut Call, at: usize) -> Vec<StreamHead> {
    let mut heads = Vec::new(call.alloc);
    let text = call.text(at);
    if text != "-" {
        for one in text.split(',') {
            if let Some(head) = head(call, one) {
                call.note(heads.push(head));
            }
        }
    }
    heads
}

fn inputs(call: &mut Call) -> Vec<Vec<StreamHead>> {
    let mut heads = Vec::new(call.alloc);
    for at in 1..call.len() {
        let streams = streams(call, at);
        call.note(heads.push(streams));
    }
    heads
}

// Whether each input has few streams.
fn are_few(heads: &[Vec<StreamHead>]) -> bool
    ensures { result ≡ true → AllByRecursion (λ v. vec_len v < 2 ^ 32) heads.now }
{
    for streams in heads.iter() {
        if streams.len() > 1024 {
            return false;
        }
    }
    true
}

fn tell_streams<E: Drop>(told: &mut Told, found: Result<Vec<StreamRef>, E>) {
    let Ok(refs) = found else {
        return told.fail(Stop::Broken);
    };
    if refs.is_empty() {
        told.text("none");
    }
    for (place, one) in refs.iter().enumerate() {
        if place > 0 {
            told.text(" ");
        }
        told.counts(":", &[u64::from(one.input), u64::from(one.stream)]);
    }
}

/// `select MAP STREAMS..`: the streams that a map names among those of each input.
pub fn selected(call: &mut Call, told: &mut Told) {
    let heads = inputs(call);
    let Ok(map) = read_map(call.alloc, call.text(0)) else {
        return call.misread();
    };
    if heads.len() > 1024 || !are_few(heads.as_slice()) {
        return call.misread();
    }
    tell_streams(told, select(call.alloc, &map, heads.as_slice()));
}

/// `best video|audio|both|none STREAMS..`: the best streams of the wanted kinds among those of each input.
pub fn best(call: &mut Call, told: &mut Told) {
    let heads = inputs(call);
    let (video, audio) = match call.text(0) {
        "video" => (true, false),
        "audio" => (false, true),
        "both" => (true, true),
        "none" => (false, false),
        _ => return call.misread(),
    };
    if heads.len() > 1024 || !are_few(heads.as_slice()) {
        return call.misread();
    }
    tell_streams(
        told,
        best_streams(call.alloc, heads.as_slice(), video, audio),
    );
}
