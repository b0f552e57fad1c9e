//! The numbers in parameters.
ghost use Rattle.std.specs.Prelude.{◌≡◌, ◌≤◌, ◌<◌, ◌^◌, length, take, drop, IfSome, pos, ℕ};
ghost use Rattle.ff_y4m.specs.Numbers.{whole as whole_number, first_place, pair as pair_of, base_of};

use ff_time::{Rational, digits};

/// A whole number of 1 to 10 digits.
#[tactic(auto, unfolding(crate::specs::Numbers::whole))]
pub(crate) fn whole(bytes: &[u8]) -> Option<u64>
    ensures value { result ≡ whole_number bytes.now }
    ensures few { IfSome result (λ n. n < 10 ^ 10) }
{
    if bytes.len() >= 1 && bytes.len() <= 10 {
        return digits(bytes);
    }
    None
}

/// The place of the first such byte.
pub(crate) fn place_of(byte: u8, bytes: &[u8]) -> Option<usize>
    ensures place { result ≡ first_place byte bytes.now }
    ensures there { IfSome result (λ n. n < length bytes.now) }
{
    'bytes: for i in 0..bytes.len() {
        if bytes[i] == byte {
            return Some(i);
        }
    }
    None
}

/// The bytes from a place on.
pub(crate) fn from_place(bytes: &[u8], place: usize) -> &[u8]
    requires { place ≤ length bytes.now }
    ensures { result.now ≡ drop place bytes.now }
{
    &bytes[place..]
}

/// The bytes before a place.
pub(crate) fn front(bytes: &[u8], place: usize) -> &[u8]
    requires { place ≤ length bytes.now }
    ensures { result.now ≡ take place bytes.now }
{
    &bytes[..place]
}

/// Two whole numbers joined by a colon.
#[tactic(auto, unfolding(crate::specs::Numbers::pair))]
pub(crate) fn pair(bytes: &[u8]) -> Option<(u64, u64)>
    ensures value { result ≡ pair_of bytes.now }
    ensures few { IfSome result (λ p. (p.0 < 10 ^ 10) × (p.1 < 10 ^ 10)) }
{
    let colon = place_of(b':', bytes)?;
    let first = whole(front(bytes, colon))?;
    let second = whole(from_place(bytes, colon + 1))?;
    Some((first, second))
}

fn fraction(num: i64, den: i64) -> Option<Rational>
    ensures { (n d : ℕ) → num ≡ pos n → den ≡ pos d → result ≡ base_of n d }
{
    match Rational::new(num, den) {
        Ok(base) => Some(base),
        Err(_) => None,
    }
}

/// The time base num / den in lowest terms, where both are positive and the lowest terms below 2^31.
pub fn time_base(num: u64, den: u64) -> Option<Rational>
    requires num { num < 10 ^ 10 }
    requires den { den < 10 ^ 10 }
    ensures { result ≡ base_of num den }
{
    fraction(num as i64, den as i64)
}
