//! The fields of an AU's head.
use crate::explain::bytes::high_first;
use crate::explain::told::Told;

// A field of 32 bits: what it is, and what of it is read.
fn field(at: usize) -> Option<(&'static str, &'static str)> {
    match at {
        4 => Some(("the data offset", "24 to 268435456 are read")),
        12 => Some(("the encoding", "2 to 5, PCM of 8 to 32 bits, are read")),
        16 => Some(("the sample rate", "1 to 2147483647 are read")),
        20 => Some(("the number of channels", "1 to 8 are read")),
        _ => None,
    }
}

/// Tells the field at an offset with what stands there, and answers whether it could.
pub(crate) fn tell_au_field(told: &mut Told, front: &[u8], at: usize) -> bool {
    let (Some((what, read)), Some(number)) = (field(at), high_first(front, at, 4)) else {
        return false;
    };
    told.texts(&[what, " is "]);
    told.number(number);
    told.texts(&["; ", read]);
    true
}
