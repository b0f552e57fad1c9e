//! The classes of bytes in a map.
ghost use Rattle.std.specs.Prelude.{◌≡◌};
ghost use Rattle.ff_words.specs.maps.Reading.{letter_of, IsDecimal};

/// What a byte is in a map.
#[derive(Clone, Copy)]
pub(super) enum Letter {
    /// A digit's value.
    Digit(u8),
    /// A colon.
    Colon,
    /// The mark of a map that may name nothing.
    Question,
    /// The letter `a`.
    A,
    /// The letter `v`.
    V,
    /// The bracket before a label.
    Bracket,
    /// No byte of a map outside of labels.
    Other,
}

/// What a byte is.
pub(super) fn classify(byte: u8) -> Letter
    ensures letter { result ≡ letter_of byte }
    ensures digit { IsDecimal result }
{
    match byte {
        b'0'..=b'9' => Letter::Digit(byte - b'0'),
        b':' => Letter::Colon,
        b'?' => Letter::Question,
        b'a' => Letter::A,
        b'v' => Letter::V,
        b'[' => Letter::Bracket,
        _ => Letter::Other,
    }
}
