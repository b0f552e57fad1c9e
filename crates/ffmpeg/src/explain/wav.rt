//! The fields of a WAV's head (RIFF WAVE; RF64, EBU Tech 3306).
use crate::explain::bytes::{low_first, stands};
use crate::explain::told::Told;

/// Where the first chunk stands.
const FIRST: usize = 12;

// Where the first `fmt ` stands.
fn format_chunk(front: &[u8]) -> Option<usize> {
    let mut at = FIRST;
    for _ in 0..front.len() {
        if stands(front, at, b"fmt ") {
            return Some(at);
        }
        let size = low_first(front, at.checked_add(4)?, 4)? as usize;
        at = at.checked_add(8)?.checked_add(size)?.checked_add(size % 2)?;
    }
    None
}

/// A field of `fmt `, so many bytes behind its begin: how many bytes it has, what it is, and what of it is read. An AVI's
/// audio has the same.
pub(crate) fn sound_field(place: usize) -> Option<(usize, &'static str, &'static str)> {
    match place {
        8 => Some((
            2,
            "the format tag",
            "1 (PCM) is read, and 65534 with PCM in its GUID",
        )),
        10 => Some((2, "the number of channels", "1 to 8 are read")),
        12 => Some((4, "the sample rate", "1 to 2147483647 are read")),
        20 => Some((2, "the block align", "channels times bits over 8 is read")),
        22 => Some((2, "the number of bits", "8, 16, 24 and 32 are read")),
        32 => Some((2, "the tag in the GUID", "1 (PCM) is read")),
        _ => None,
    }
}

// What is wrong with the chunk that begins here.
fn chunk(front: &[u8], at: usize) -> Option<&'static str> {
    if stands(front, 0, b"RF64") && at == FIRST {
        return Some("its first chunk isn't a ds64 of 28 bytes");
    }
    if stands(front, at, b"data") {
        return Some("its data chunk stands before its fmt chunk");
    }
    if stands(front, at, b"fmt ") {
        return Some("its fmt chunk is too short");
    }
    None
}

// The field of `fmt ` at an offset with its number: what it is, the number, and what of it is read.
fn numbered(front: &[u8], at: usize) -> Option<(&'static str, u64, &'static str)> {
    let place = at.checked_sub(format_chunk(front)?)?;
    let (size, what, read) = sound_field(place)?;
    Some((what, low_first(front, at, size)?, read))
}

/// Tells the field at an offset with what stands there, and answers whether it could.
pub(crate) fn tell_wav_field(told: &mut Told, front: &[u8], at: usize) -> bool {
    if let Some(what) = chunk(front, at) {
        told.text(what);
        return true;
    }
    let Some((what, number, read)) = numbered(front, at) else {
        return false;
    };
    told.texts(&[what, " is "]);
    told.number(number);
    told.texts(&["; ", read]);
    true
}
