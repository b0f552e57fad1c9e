//! Sizes of pictures, in columns and rows.
ghost use Rattle.std.specs.Prelude.{◌≡◌, ◌<◌, ◌≤◌, ◌^◌, IfSome, true};
ghost use Rattle.ff_frame.specs.Sizes.{sides_of, is_side as side_fits};

use ff_time::read_number;

/// Columns and rows that are written as WxH: whole numbers of 1 to 5 digits.
pub fn read_sides(text: &str) -> Option<(u64, u64)>
    ensures value { result ≡ sides_of text.now }
    ensures few { IfSome result (λ size. (size.0 < 10 ^ 10) × (size.1 < 10 ^ 10)) }
{
    match text.split_once('x') {
        None => None,
        Some((first, second)) => match read_number(first, 5) {
            None => None,
            Some(width) => match read_number(second, 5) {
                None => None,
                Some(height) => Some((width, height)),
            },
        },
    }
}

/// 1 to 16,384 columns or rows.
pub fn is_side(number: u64) -> bool
    ensures fits { result ≡ side_fits number }
    ensures small { result ≡ true → number ≤ 16384 }
{
    number >= 1 && number <= 16384
}
