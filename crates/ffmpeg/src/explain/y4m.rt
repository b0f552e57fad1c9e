//! The words of a YUV4MPEG2 file's first line (yuv4mpeg(5)).
use crate::explain::bytes::tell_bytes;
use crate::explain::told::Told;

// What is read of a parameter of this letter.
fn read_of(letter: u8) -> Option<&'static str> {
    match letter {
        b'W' | b'H' => Some("1 to 16384 columns and rows are read"),
        b'F' => Some("a rate of two numbers is read, as F30000:1001, below 2147483648"),
        b'A' => Some("an aspect of two numbers is read, as A1:1, below 4294967296"),
        b'I' => Some("Ip, progressive frames, is read"),
        b'C' => Some("C420, C420jpeg, C420mpeg2, C420paldv, C422, C444 and Cmono are read"),
        _ => None,
    }
}

// The parameter that begins here, up to a space or the end of the line.
fn parameter(front: &[u8], at: usize) -> Option<&[u8]> {
    let rest = front.get(at..)?;
    for (length, byte) in rest.iter().enumerate() {
        if *byte == b' ' || *byte == b'\n' || length == 40 {
            return rest.get(..length);
        }
    }
    Some(rest)
}

/// Tells the parameter at an offset, and answers whether it could.
pub(crate) fn tell_y4m_field(told: &mut Told, front: &[u8], at: usize) -> bool {
    let Some(word) = parameter(front, at) else {
        return false;
    };
    let [letter, ..] = word else {
        told.text("its first line ends without W, H and F");
        return true;
    };
    let Some(read) = read_of(*letter) else {
        return false;
    };
    told.text("the parameter ");
    tell_bytes(told, word);
    told.texts(&["; ", read]);
    true
}
