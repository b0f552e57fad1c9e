//! The classes of bytes in a duration.
ghost use Rattle.std.specs.Prelude.{◌≡◌};
ghost use Rattle.ff_time.specs.Reading.{letter_of};

/// What a byte is in a duration.
#[derive(Clone, Copy)]
pub(super) enum Letter {
    /// A digit's value.
    Digit(u8),
    /// A colon.
    Colon,
    /// A decimal point.
    Point,
    /// The letter `s`, and so on.
    S,
    /// The letter `m`.
    M,
    /// The letter `u`.
    U,
    /// No byte of a duration.
    Other,
}

/// What a byte is.
pub(super) fn classify(byte: u8) -> Letter
    ensures { result ≡ letter_of byte }
{
    match byte {
        b'0'..=b'9' => Letter::Digit(byte - b'0'),
        b':' => Letter::Colon,
        b'.' => Letter::Point,
        b's' => Letter::S,
        b'm' => Letter::M,
        b'u' => Letter::U,
        _ => Letter::Other,
    }
}
