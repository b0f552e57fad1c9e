//! Lines and their first words.
ghost use Rattle.std.specs.Prelude.{◌≡◌, ◌<◌, ◌≤◌, [], ◌∷◌, length, IfSome};
ghost use Rattle.ff_y4m.specs.Lines.{begins as begins_with, line_end as end_of_line};

/// A line has at most so many bytes, with its line feed.
pub(crate) const LONGEST_LINE: usize = 1024;

fn is_separator(byte: u8) -> bool
    ensures { result ≡ begins_with [] (byte ∷ []) }
{
    byte == b' ' || byte == b'\n'
}

/// Whether the bytes, as far as they go, are this word, and a space or a line feed after it.
pub(crate) fn begins(word: &[u8], bytes: &[u8]) -> bool
    ensures { result ≡ begins_with word.now bytes.now }
{
    let count = word.len().min(bytes.len());
    'bytes: for i in 0..count {
        if bytes[i] != word[i] {
            return false;
        }
    }
    if bytes.len() <= word.len() {
        return true;
    }
    is_separator(bytes[word.len()])
}

/// The place of the first line feed, or `room` where none is among so many bytes; None where more bytes decide.
pub(crate) fn line_end(room: usize, bytes: &[u8]) -> Option<usize>
    ensures value { result ≡ end_of_line room bytes.now }
    ensures there { IfSome result (λ n. (n < room → n < length bytes.now) × (n ≤ room)) }
{
    let count = room.min(bytes.len());
    'bytes: for i in 0..count {
        if bytes[i] == b'\n' {
            return Some(i);
        }
    }
    if bytes.len() < room {
        return None;
    }
    Some(room)
}
