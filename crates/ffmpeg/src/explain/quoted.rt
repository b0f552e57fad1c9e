//! Words as they are quoted, and lists of names, so that a line stays short and one.
use crate::explain::told::Told;

/// How many characters of a word are quoted.
const LONGEST: usize = 40;

// As it is told: a character that would end or change the line as `?`.
fn shown(c: char) -> char {
    if c.is_control() { '?' } else { c }
}

/// Tells a word, without what stands behind its first characters.
pub(crate) fn tell_clipped(told: &mut Told, word: &str) {
    for (number, c) in word.chars().enumerate() {
        if number == LONGEST {
            told.text("..");
            break;
        }
        told.char(shown(c));
    }
}

/// The same in quotes.
pub(crate) fn tell_quoted(told: &mut Told, word: &str) {
    told.text("\"");
    tell_clipped(told, word);
    told.text("\"");
}

/// The rest of a word from a byte on; nothing where none is left.
pub(crate) fn rest_of(word: &str, at: usize) -> Option<&str> {
    word.get(at..).filter(|rest| !rest.is_empty())
}

/// Tells `a, b or c`, with this word before the last.
pub(crate) fn tell_listed(told: &mut Told, names: &[&str], last: &str) {
    for (number, name) in names.iter().enumerate() {
        if number != 0 {
            let between = if number.saturating_add(1) == names.len() {
                last
            } else {
                ", "
            };
            told.text(between);
        }
        told.text(name);
    }
}
