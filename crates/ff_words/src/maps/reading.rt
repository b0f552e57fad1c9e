//! The state machine that reads a map, one byte at a time.
ghost use Rattle.std.specs.Prelude.{◌≡◌, ◌+◌, ◌*◌, ◌^◌, ◌<◌, IfOk};
ghost use Rattle.std.specs.Option.{ForSome};
ghost use Rattle.ff_lang.specs.Letters.{is_label_byte};
ghost use Rattle.ff_words.specs.maps.Reading.{IsDecimal, IsSound, byte_next, letter_next, label_next, start_next, file_next, separator_next, index_next};
ghost use Rattle.ff_words.specs.maps.Reading.{end_of as map_at_end, of_input as map_of_input};

use crate::maps::letter::{Letter, classify};
use crate::maps::map::{Kind, MapFrom, MapSpec, Pick};
use ff_lang::Text;
use std::alloc::{AllocError, Global};

// How many digits a number, and how many bytes a label, has at most.
const MOST_DIGITS: u8 = 9;

const LONGEST: usize = 64;

/// What was read of a map. A number that may go on has its count of digits and its value so far.
#[derive(Drop)]
pub(super) enum Reading {
    /// Nothing was read.
    Start,
    /// The number of the file.
    File {
        digits: u8,
        file: u32,
    },
    /// The colon after it.
    Separator {
        file: u32,
    },
    /// The number of a stream.
    Index {
        file: u32,
        digits: u8,
        index: u32,
    },
    /// The letter of a kind.
    OfKind {
        file: u32,
        kind: Kind,
    },
    /// The colon after it.
    Second {
        file: u32,
        kind: Kind,
    },
    /// The number among those of the kind.
    Nth {
        file: u32,
        kind: Kind,
        digits: u8,
        nth: u32,
    },
    /// The mark at the end.
    Optional {
        file: u32,
        pick: Pick,
    },
    /// A label that isn't closed.
    Label {
        label: Text,
    },
    /// The bracket after it.
    Closed {
        label: Text,
    },
}

// One more digit of a number.
fn more(digits: u8, number: u32, digit: u8) -> u32
    requires room { digits < 9 }
    requires small { number < 10 ^ digits }
    requires decimal { digit < 10 }
    ensures value { result ≡ number * 10 + digit }
    ensures sound { result < 10 ^ (digits + 1) }
{
    number * 10 + u32::from(digit)
}

fn after_start(alloc: Global, letter: Letter) -> Option<Reading>
    requires { IsDecimal letter }
    ensures next { result ≡ start_next letter }
    ensures sound { ForSome result IsSound }
{
    match letter {
        Letter::Digit(digit) => Some(Reading::File {
            digits: 1,
            file: u32::from(digit),
        }),
        Letter::Bracket => Some(Reading::Label {
            label: Text::new(alloc),
        }),
        _ => None,
    }
}

fn after_file(digits: u8, file: u32, letter: Letter) -> Option<Reading>
    requires decimal { IsDecimal letter }
    requires small { file < 10 ^ digits }
    ensures next { result ≡ file_next digits file letter }
    ensures sound { ForSome result IsSound }
{
    match letter {
        Letter::Digit(digit) if digits < MOST_DIGITS => Some(Reading::File {
            digits: digits + 1,
            file: more(digits, file, digit),
        }),
        Letter::Colon => Some(Reading::Separator { file }),
        Letter::Question => Some(Reading::Optional {
            file,
            pick: Pick::All,
        }),
        _ => None,
    }
}

fn after_separator(file: u32, letter: Letter) -> Option<Reading>
    requires { IsDecimal letter }
    ensures next { result ≡ separator_next file letter }
    ensures sound { ForSome result IsSound }
{
    match letter {
        Letter::Digit(digit) => Some(Reading::Index {
            file,
            digits: 1,
            index: u32::from(digit),
        }),
        Letter::A => Some(Reading::OfKind {
            file,
            kind: Kind::Audio,
        }),
        Letter::V => Some(Reading::OfKind {
            file,
            kind: Kind::Video,
        }),
        _ => None,
    }
}

fn after_index(file: u32, digits: u8, index: u32, letter: Letter) -> Option<Reading>
    requires decimal { IsDecimal letter }
    requires small { index < 10 ^ digits }
    ensures next { result ≡ index_next file digits index letter }
    ensures sound { ForSome result IsSound }
{
    match letter {
        Letter::Digit(digit) if digits < MOST_DIGITS => Some(Reading::Index {
            file,
            digits: digits + 1,
            index: more(digits, index, digit),
        }),
        Letter::Question => Some(Reading::Optional {
            file,
            pick: Pick::Index(index),
        }),
        _ => None,
    }
}

fn after_kind(file: u32, kind: Kind, letter: Letter) -> Option<Reading>
    ensures next { result ≡ letter_next (Reading.OfKind file kind) letter }
    ensures sound { ForSome result IsSound }
{
    match letter {
        Letter::Colon => Some(Reading::Second { file, kind }),
        Letter::Question => Some(Reading::Optional {
            file,
            pick: Pick::Kind(kind),
        }),
        _ => None,
    }
}

fn after_second(file: u32, kind: Kind, letter: Letter) -> Option<Reading>
    requires { IsDecimal letter }
    ensures next { result ≡ letter_next (Reading.Second file kind) letter }
    ensures sound { ForSome result IsSound }
{
    match letter {
        Letter::Digit(digit) => Some(Reading::Nth {
            file,
            kind,
            digits: 1,
            nth: u32::from(digit),
        }),
        _ => None,
    }
}

fn after_nth(file: u32, kind: Kind, digits: u8, nth: u32, letter: Letter) -> Option<Reading>
    requires decimal { IsDecimal letter }
    requires small { nth < 10 ^ digits }
    ensures next { result ≡ letter_next (Reading.Nth file kind digits nth) letter }
    ensures sound { ForSome result IsSound }
{
    match letter {
        Letter::Digit(digit) if digits < MOST_DIGITS => Some(Reading::Nth {
            file,
            kind,
            digits: digits + 1,
            nth: more(digits, nth, digit),
        }),
        Letter::Question => Some(Reading::Optional {
            file,
            pick: Pick::Nth(kind, nth),
        }),
        _ => None,
    }
}

fn after_label(mut label: Text, byte: u8) -> Result<Option<Reading>, AllocError>
    ensures next { IfOk result (λ next. next ≡ label_next label byte) }
    ensures sound { IfOk result (λ next. ForSome next IsSound) }
{
    if is_label(byte) && label.len() < LONGEST {
        label.push(char::from(byte))?;
        Ok(Some(Reading::Label { label }))
    } else if byte == b']' && 0 < label.len() {
        Ok(Some(Reading::Closed { label }))
    } else {
        Ok(None)
    }
}

impl Reading {
    /// What is read with one more byte, unless no map goes on so.
    pub(super) fn next(self, alloc: Global, byte: u8) -> Result<Option<Reading>, AllocError>
        requires { IsSound self }
        ensures next { IfOk result (λ next. next ≡ byte_next self byte) }
        ensures sound { IfOk result (λ next. ForSome next IsSound) }
    {
        let letter = classify(byte);
        match self {
            Reading::Start => Ok(after_start(alloc, letter)),
            Reading::File { digits, file } => Ok(after_file(digits, file, letter)),
            Reading::Separator { file } => Ok(after_separator(file, letter)),
            Reading::Index {
                file,
                digits,
                index,
            } => Ok(after_index(file, digits, index, letter)),
            Reading::OfKind { file, kind } => Ok(after_kind(file, kind, letter)),
            Reading::Second { file, kind } => Ok(after_second(file, kind, letter)),
            Reading::Nth {
                file,
                kind,
                digits,
                nth,
            } => Ok(after_nth(file, kind, digits, nth, letter)),
            Reading::Label { label } => after_label(label, byte),
            Reading::Optional { .. } | Reading::Closed { .. } => Ok(None),
        }
    }

    /// The map, where the string may end here.
    pub(super) fn end(self) -> Option<MapSpec>
        ensures { result ≡ map_at_end self }
    {
        match self {
            Reading::File { digits: _, file } => Some(of_input(file, Pick::All, false)),
            Reading::Index {
                file,
                digits: _,
                index,
            } => Some(of_input(file, Pick::Index(index), false)),
            Reading::OfKind { file, kind } => Some(of_input(file, Pick::Kind(kind), false)),
            Reading::Nth {
                file,
                kind,
                digits: _,
                nth,
            } => Some(of_input(file, Pick::Nth(kind, nth), false)),
            Reading::Optional { file, pick } => Some(of_input(file, pick, true)),
            Reading::Closed { label } => Some(MapSpec {
                from: MapFrom::Label(label),
                optional: false,
            }),
            _ => None,
        }
    }
}

fn of_input(file: u32, pick: Pick, optional: bool) -> MapSpec
    ensures { result ≡ map_of_input file pick optional }
{
    MapSpec {
        from: MapFrom::Input { file, pick },
        optional,
    }
}

// Whether a byte may stand in a label.
#[tactic(auto, unfolding(ff_lang::specs::Letters::is_label_byte, ff_lang::specs::Letters::is_word_byte))]
fn is_label(byte: u8) -> bool
    ensures { result ≡ is_label_byte byte }
{
    let word = (byte >= b'0' && byte <= b'9')
        || (byte >= b'A' && byte <= b'Z')
        || (byte >= b'a' && byte <= b'z')
        || byte == b'_';
    word || byte == b':' || byte == b'.'
}
