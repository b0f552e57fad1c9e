//! Numbers and words among the first bytes of an input.
use crate::explain::told::Told;

// So many bytes from a place on.
fn part(front: &[u8], at: usize, count: usize) -> Option<&[u8]> {
    front.get(at..at.checked_add(count)?)
}

fn add(number: u64, byte: u8) -> u64 {
    number.saturating_mul(256).saturating_add(u64::from(byte))
}

/// The number of so many bytes from a place on, the highest byte first.
pub(crate) fn high_first(front: &[u8], at: usize, count: usize) -> Option<u64> {
    let mut number = 0;
    for byte in part(front, at, count)?.iter() {
        number = add(number, *byte);
    }
    Some(number)
}

/// The same with the lowest byte first.
pub(crate) fn low_first(front: &[u8], at: usize, count: usize) -> Option<u64> {
    let mut number = 0;
    for byte in part(front, at, count)?.iter().rev() {
        number = add(number, *byte);
    }
    Some(number)
}

/// Whether these bytes stand at a place.
pub(crate) fn stands(front: &[u8], at: usize, bytes: &[u8]) -> bool {
    part(front, at, bytes.len()) == Some(bytes)
}

fn is_printed(byte: u8) -> bool {
    b' ' <= byte && byte <= b'~'
}

fn tell_hexadecimal(told: &mut Told, bytes: &[u8]) {
    told.text("the bytes");
    for byte in bytes.iter() {
        told.text(" ");
        told.byte(*byte);
    }
}

/// Tells bytes as a string in quotes where they can all be printed, else in hexadecimal.
pub(crate) fn tell_bytes(told: &mut Told, bytes: &[u8]) {
    if !bytes.iter().all(|byte| is_printed(*byte)) {
        return tell_hexadecimal(told, bytes);
    }
    told.text("\"");
    for byte in bytes.iter() {
        told.char(char::from(*byte));
    }
    told.text("\"");
}
