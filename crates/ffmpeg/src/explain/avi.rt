//! The fields of an AVI's head (AVI RIFF File Reference).
use crate::explain::bytes::{low_first, stands, tell_bytes};
use crate::explain::told::Told;
use crate::explain::wav::sound_field;

/// Where the first chunk stands.
const FIRST: usize = 12;

// Where the last chunk of this name begins before a place.
fn chunk_before(front: &[u8], name: &[u8], at: usize) -> Option<usize> {
    let mut found = None;
    for place in FIRST..at {
        if stands(front, place, name) {
            found = Some(place);
        }
    }
    found
}

// What is wrong with the chunk or list that begins here.
fn chunk(front: &[u8], at: usize) -> Option<&'static str> {
    if stands(front, at, b"strf") {
        return Some("the format of a stream is too short");
    }
    if !stands(front, at, b"LIST") {
        return None;
    }
    if stands(front, at.checked_add(8)?, b"movi") {
        return Some("its data begin before any stream");
    }
    Some("the list of a stream doesn't begin with strh of 56 bytes and strf")
}

// A field of a stream's header, so many bytes behind its begin: what it is, and what of it is read.
fn header_field(place: usize) -> Option<(&'static str, &'static str)> {
    let read = "with the other in lowest terms 1 to 2147483647 are read";
    match place {
        28 => Some(("the scale", read)),
        32 => Some(("the rate", read)),
        _ => None,
    }
}

// A field of the format of video.
fn picture_field(place: usize) -> Option<(&'static str, &'static str)> {
    match place {
        12 => Some(("the width", "1 to 16384 are read")),
        16 => Some(("the height", "1 to 16384 are read")),
        _ => None,
    }
}

// The field at an offset with its number: what it is, the number, and what of it is read.
fn numbered(front: &[u8], at: usize) -> Option<(&'static str, u64, &'static str)> {
    let header = chunk_before(front, b"strh", at)?;
    let format = chunk_before(front, b"strf", at).unwrap_or(0);
    if format < header {
        let (what, read) = header_field(at.checked_sub(header)?)?;
        return Some((what, low_first(front, at, 4)?, read));
    }
    let place = at.checked_sub(format)?;
    if is_video(front, at) {
        let (what, read) = picture_field(place)?;
        return Some((what, low_first(front, at, 4)?, read));
    }
    let (size, what, read) = sound_field(place)?;
    Some((what, low_first(front, at, size)?, read))
}

// Whether a chunk of this name begins so many bytes before a place.
fn is_behind(front: &[u8], name: &[u8], at: usize, place: usize) -> bool {
    match at.checked_sub(place) {
        Some(begin) => stands(front, begin, name),
        None => false,
    }
}

// Four bytes from a place on, or none.
fn letters(front: &[u8], at: usize) -> &[u8] {
    match at.checked_add(4) {
        Some(end) => front.get(at..end).unwrap_or(&[]),
        None => &[],
    }
}

// Whether the stream whose format this is, is video.
fn is_video(front: &[u8], at: usize) -> bool {
    match chunk_before(front, b"strh", at) {
        Some(header) => match header.checked_add(8) {
            Some(kind) => stands(front, kind, b"vids"),
            None => false,
        },
        None => false,
    }
}

// Tells four letters with what they are, and what is read of them.
fn tell_letters(told: &mut Told, front: &[u8], at: usize, what: &str, read: &str) {
    told.text(what);
    tell_bytes(told, letters(front, at));
    told.texts(&["; ", read]);
}

/// Tells the field at an offset with what stands there, and answers whether it could.
pub(crate) fn tell_avi_field(told: &mut Told, front: &[u8], at: usize) -> bool {
    if let Some(what) = chunk(front, at) {
        told.text(what);
        return true;
    }
    if is_behind(front, b"strh", at, 8) {
        tell_letters(
            told,
            front,
            at,
            "a stream is ",
            "one vids and one auds are read",
        );
        return true;
    }
    if is_behind(front, b"strf", at, 24) && is_video(front, at) {
        tell_letters(
            told,
            front,
            at,
            "the compression is ",
            "I420 and IYUV are read",
        );
        return true;
    }
    let Some((what, number, read)) = numbered(front, at) else {
        return false;
    };
    told.texts(&[what, " is "]);
    told.number(number);
    told.texts(&["; ", read]);
    true
}
