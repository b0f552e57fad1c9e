//! The values of `-r` and `-s`.
ghost use Rattle.std.specs.Prelude.{◌≡◌};
ghost use Rattle.ff_words.specs.Numbers.{size_of as size_in};
ghost use Rattle.ff_words.specs.Values.{ReadsRate};

use crate::error::WordKind;
use crate::job::Size;
use ff_frame::{is_side, read_sides};
use ff_time::{Rational, read_rate};

/// The time base of so many frames a second.
pub(crate) fn rate_of(text: &str) -> Result<Rational, WordKind>
    ensures { ReadsRate text.now result }
{
    match read_rate(text) {
        None => Err(WordKind::BadValue),
        Some(base) => Ok(base),
    }
}

/// Columns and rows.
pub(crate) fn size_of(text: &str) -> Option<Size>
    ensures { result ≡ size_in text.now }
{
    match read_sides(text) {
        None => None,
        Some((width, height)) => {
            if is_side(width) && is_side(height) {
                Some(Size {
                    width: width as u32,
                    height: height as u32,
                })
            } else {
                None
            }
        }
    }
}
