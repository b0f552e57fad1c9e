//! Whole numbers in decimal digits, and rates that two of them write.
ghost use Rattle.std.specs.Prelude.{◌≡◌, ◌<◌, ◌≤◌, ◌^◌, pos, length, IfSome, IsNone};
ghost use Rattle.ff_time.specs.Fraction.{Fraction, IsBase, IsLowestOf};
ghost use Rattle.ff_time.specs.Digits.{digits_from, number_of, ratio_of, IsRate};

use super::Rational;

/// The number that at most ten digits write. None where another byte stands among them; no digits write 0.
pub fn digits(bytes: &[u8]) -> Option<u64>
    requires { length bytes.now ≤ 10 }
    ensures value { result ≡ digits_from 0 bytes.now }
    ensures few { IfSome result (λ n. n < 10 ^ 10) }
{
    let mut value: u64 = 0;
    'digits: for i in 0..bytes.len() {
        if bytes[i] < b'0' || bytes[i] > b'9' {
            return None;
        }
        value = 10 * value + (bytes[i] - b'0') as u64;
    }
    Some(value)
}

/// A whole number of 1 to `most` digits.
pub fn read_number(text: &str, most: usize) -> Option<u64>
    requires { most ≤ 10 }
    ensures value { result ≡ number_of most text.now }
    ensures few { IfSome result (λ n. n < 10 ^ 10) }
{
    let bytes = text.as_bytes();
    if bytes.len() >= 1 && bytes.len() <= most {
        return digits(bytes);
    }
    None
}

// N, or N/D: whole numbers of 1 to 10 digits.
fn ratio(text: &str) -> Option<(u64, u64)>
    ensures value { result ≡ ratio_of text.now }
    ensures few { IfSome result (λ r. (r.0 < 10 ^ 10) × (r.1 < 10 ^ 10)) }
{
    match text.split_once('/') {
        None => match read_number(text, 10) {
            None => None,
            Some(n) => Some((n, 1)),
        },
        Some((first, second)) => match read_number(first, 10) {
            None => None,
            Some(n) => match read_number(second, 10) {
                None => None,
                Some(d) => Some((n, d)),
            },
        },
    }
}

// The fraction in lowest terms, where both numbers are positive and the lowest terms below 2^31.
fn lowest(num: i64, den: i64) -> Option<Rational>
    ensures is { IfSome result (IsLowestOf num den) }
    ensures base { IfSome result IsBase }
    ensures none { IsNone result → (b : Fraction) → IsLowestOf num den b → IsBase b → ⊥ }
{
    match Rational::new(num, den) {
        Ok(base) => Some(base),
        Err(_) => None,
    }
}

// One over n/d in lowest terms, where both are positive and the lowest terms below 2^31.
fn one_over(n: u64, d: u64) -> Option<Rational>
    requires first { n < 10 ^ 10 }
    requires second { d < 10 ^ 10 }
    ensures is { IfSome result (λ b. IsLowestOf (pos d) (pos n) b) }
    ensures base { IfSome result IsBase }
    ensures none { IsNone result → (b : Fraction) → IsLowestOf (pos d) (pos n) b → IsBase b → ⊥ }
{
    lowest(d as i64, n as i64)
}

/// The time base of a rate, which is N or N/D a second: whole numbers of 1 to 10 digits. None where it is no rate, or
/// where its base in lowest terms has a number above 2^31 - 1.
pub fn read_rate(text: &str) -> Option<Rational>
    ensures is { IfSome result (IsRate text.now) }
    ensures none { IsNone result → (base : Fraction) → IsRate text.now base → ⊥ }
{
    match ratio(text) {
        None => None,
        Some((n, d)) => one_over(n, d),
    }
}
