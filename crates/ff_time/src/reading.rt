//! The state machine that reads a duration, one byte at a time.
ghost use Rattle.std.specs.Prelude.{◌≡◌, ◌+◌, ◌*◌, ◌/◌, ◌^◌, ◌<◌, ◌≤◌, ℕ, min, option_map};
ghost use Rattle.ff_time.specs.Reading.{cap, letter_of, Exact, IsSound, IsDecimal, shown, next_of, first_next, second_next, third_next, decimals_next, millionths_of, missing_of, value_of, value_at};

use super::letter::{Letter, classify};

/// How far a duration was read. Counts of digits stop where they tell no more, numbers at one
/// more than the greatest duration.
#[derive(Clone, Copy)]
pub(super) enum Reading {
    /// The first number.
    First {
        digits: u8,
        number: u64,
    },
    /// The number after one colon, and whether the first one may be minutes.
    Second {
        first: u64,
        minutes: bool,
        digits: u8,
        number: u64,
    },
    /// The seconds after two colons.
    Third {
        minutes: u64,
        digits: u8,
        number: u64,
    },
    /// The decimals after the point, and whether a unit may follow.
    Decimals {
        whole: u64,
        units: bool,
        digits: u8,
        millionths: u64,
    },
    /// The first letter of `ms` or `us`.
    Scaled {
        value: u64,
    },
    /// A whole duration.
    Whole {
        value: u64,
    },
}

// One more than the greatest duration.
const BEYOND: u128 = 1_000_000_000_000_001;

fn capped(n: u128) -> u64
    ensures { result ≡ cap n }
{
    n.min(BEYOND) as u64
}

// One more digit.
fn more(number: u64, digit: u8) -> u64
    ensures { result ≡ cap (number * 10 + digit) }
{
    capped(u128::from(number) * 10 + u128::from(digit))
}

// Minutes and seconds, or hours and minutes.
fn sixties(first: u64, second: u64) -> u64
    ensures { result ≡ cap (60 * first + second) }
{
    capped(u128::from(first) * 60 + u128::from(second))
}

// The microseconds of units and millionths of a unit.
fn micros(whole: u64, millionths: u64, unit: u64) -> u64
    requires { unit ≤ 1000000 }
    ensures { result ≡ cap (whole * unit + millionths * unit / 1000000) }
{
    let rest = u128::from(millionths) * u128::from(unit) / 1_000_000;
    capped(u128::from(whole) * u128::from(unit) + rest)
}

fn after_first(digits: u8, number: u64, letter: Letter) -> Option<Reading>
    ensures { (k n : ℕ) → digits ≡ min 7 k → number ≡ cap n
        → result ≡ option_map shown (first_next k n letter) }
{
    match letter {
        Letter::Digit(digit) => Some(Reading::First {
            digits: digits.saturating_add(1).min(7),
            number: more(number, digit),
        }),
        Letter::Colon if 0 < digits && digits <= 6 => Some(Reading::Second {
            first: number,
            minutes: digits <= 2 && number <= 59,
            digits: 0,
            number: 0,
        }),
        Letter::Point if 0 < digits => Some(Reading::Decimals {
            whole: number,
            units: true,
            digits: 0,
            millionths: 0,
        }),
        Letter::S if 0 < digits => Some(Reading::Whole {
            value: micros(number, 0, 1_000_000),
        }),
        Letter::M if 0 < digits => Some(Reading::Scaled {
            value: micros(number, 0, 1_000),
        }),
        Letter::U if 0 < digits => Some(Reading::Scaled { value: number }),
        _ => None,
    }
}

fn after_second(
    first: u64,
    minutes: bool,
    digits: u8,
    number: u64,
    letter: Letter,
) -> Option<Reading>
    ensures { (f : ℕ) → first ≡ cap f
        → result ≡ option_map shown (second_next f minutes digits number letter) }
{
    match letter {
        Letter::Digit(digit) if digits < 2 && more(number, digit) <= 59 => Some(Reading::Second {
            first,
            minutes,
            digits: digits + 1,
            number: more(number, digit),
        }),
        Letter::Colon if 0 < digits => Some(Reading::Third {
            minutes: sixties(first, number),
            digits: 0,
            number: 0,
        }),
        Letter::Point if 0 < digits && minutes => Some(Reading::Decimals {
            whole: sixties(first, number),
            units: false,
            digits: 0,
            millionths: 0,
        }),
        _ => None,
    }
}

fn after_third(minutes: u64, digits: u8, number: u64, letter: Letter) -> Option<Reading>
    ensures { (f : ℕ) → minutes ≡ cap f
        → result ≡ option_map shown (third_next f digits number letter) }
{
    match letter {
        Letter::Digit(digit) if digits < 2 && more(number, digit) <= 59 => Some(Reading::Third {
            minutes,
            digits: digits + 1,
            number: more(number, digit),
        }),
        Letter::Point if 0 < digits => Some(Reading::Decimals {
            whole: sixties(minutes, number),
            units: false,
            digits: 0,
            millionths: 0,
        }),
        _ => None,
    }
}

// One more decimal; those after the sixth are below a millionth.
fn decimal(digits: u8, millionths: u64, digit: u8) -> u64
    ensures { (k m : ℕ) → m < 10 ^ k → digit < 10 → digits ≡ min 6 k
        → millionths ≡ millionths_of k m → result ≡ millionths_of (k + 1) (m * 10 + digit) }
{
    if digits < 6 {
        millionths.saturating_add(u64::from(digit) * 10_u64.pow(5 - u32::from(digits)))
    } else {
        millionths
    }
}

fn after_decimals(
    whole: u64,
    units: bool,
    digits: u8,
    millionths: u64,
    letter: Letter,
) -> Option<Reading>
    ensures { (w k m : ℕ) → m < 10 ^ k → IsDecimal letter → whole ≡ cap w → digits ≡ min 6 k
        → millionths ≡ millionths_of k m
        → result ≡ option_map shown (decimals_next w units k m letter) }
{
    match letter {
        Letter::Digit(digit) => Some(Reading::Decimals {
            whole,
            units,
            digits: digits.saturating_add(1).min(6),
            millionths: decimal(digits, millionths, digit),
        }),
        Letter::S if 0 < digits && units => Some(Reading::Whole {
            value: micros(whole, millionths, 1_000_000),
        }),
        Letter::M if 0 < digits && units => Some(Reading::Scaled {
            value: micros(whole, millionths, 1_000),
        }),
        Letter::U if 0 < digits && units => Some(Reading::Scaled {
            value: micros(whole, millionths, 1),
        }),
        _ => None,
    }
}

impl Reading {
    /// Nothing was read.
    pub(super) const START: Reading = Reading::First {
        digits: 0,
        number: 0,
    };

    /// What is read with one more byte, unless no duration goes on so.
    pub(super) fn next(self, byte: u8) -> Option<Reading>
        ensures { (r : Exact) → IsSound r → self ≡ shown r
            → result ≡ option_map shown (next_of r (letter_of byte)) }
    {
        let letter = classify(byte);
        match self {
            Reading::First { digits, number } => after_first(digits, number, letter),
            Reading::Second {
                first,
                minutes,
                digits,
                number,
            } => after_second(first, minutes, digits, number, letter),
            Reading::Third {
                minutes,
                digits,
                number,
            } => after_third(minutes, digits, number, letter),
            Reading::Decimals {
                whole,
                units,
                digits,
                millionths,
            } => after_decimals(whole, units, digits, millionths, letter),
            Reading::Scaled { value } => match letter {
                Letter::S => Some(Reading::Whole { value }),
                _ => None,
            },
            Reading::Whole { .. } => None,
        }
    }

    /// How many bytes are missing at least.
    pub(super) fn missing(self) -> usize
        ensures count { (r : Exact) → self ≡ shown r → result ≡ missing_of r }
        ensures bound { result ≤ 3 }
    {
        match self {
            Reading::Second {
                minutes: false,
                digits,
                ..
            } => { if digits == 0 { 3 } else { 2 } }
            Reading::First { digits, .. }
            | Reading::Second { digits, .. }
            | Reading::Third { digits, .. }
            | Reading::Decimals { digits, .. } => usize::from(digits == 0),
            Reading::Scaled { .. } => 1,
            Reading::Whole { .. } => 0,
        }
    }

    /// The value, where the string may end here.
    pub(super) fn value(self) -> Option<u64>
        ensures { (r : Exact) → IsSound r → self ≡ shown r
            → result ≡ option_map cap (value_of r) }
    {
        match self {
            Reading::First { digits, number } if 0 < digits => Some(micros(number, 0, 1_000_000)),
            Reading::Second {
                first,
                minutes,
                digits,
                number,
            } if 0 < digits && minutes => Some(micros(sixties(first, number), 0, 1_000_000)),
            Reading::Third {
                minutes,
                digits,
                number,
            } if 0 < digits => Some(micros(sixties(minutes, number), 0, 1_000_000)),
            Reading::Decimals {
                whole,
                digits,
                millionths,
                ..
            } if 0 < digits => Some(micros(whole, millionths, 1_000_000)),
            Reading::Whole { value } => Some(value),
            _ => None,
        }
    }
}
