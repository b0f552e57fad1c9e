//! The fields of a FLAC file's head (RFC 9639, section 8).
use crate::explain::bytes::high_first;
use crate::explain::told::Told;

// The number of bits of a sample, less one, is the five bits behind 20 bits of rate and 3 of channels.
fn bits(front: &[u8]) -> Option<u64> {
    let word = high_first(front, 20, 2)?;
    Some(word / 16 % 32 + 1)
}

// What the block that begins here is.
fn block(front: &[u8], at: usize) -> Option<&'static str> {
    if at == 4 {
        return Some("its first metadata block isn't a STREAMINFO of 34 bytes");
    }
    match high_first(front, at, 1)? % 128 {
        0 => Some("a second STREAMINFO"),
        127 => Some("a metadata block of type 127"),
        _ => None,
    }
}

// The number of bits.
fn tell_bits(told: &mut Told, front: &[u8]) -> bool {
    let Some(bits) = bits(front) else {
        return false;
    };
    told.text("the number of bits is ");
    told.number(bits);
    told.text("; 4 to 24 are read");
    true
}

/// Tells the field at an offset with what stands there, and answers whether it could.
pub(crate) fn tell_flac_field(told: &mut Told, front: &[u8], at: usize) -> bool {
    if at == 20 {
        return tell_bits(told, front);
    }
    let what = if at == 18 {
        Some("the sample rate is 0")
    } else {
        block(front, at)
    };
    told.text(what.unwrap_or(""));
    what.is_some()
}
