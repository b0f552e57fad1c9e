//! How much is said on standard error.
use crate::explain::roles::{Role, role_behind};
use ff_words::Kind;

/// The levels of `-v` by name, each with its number.
static LEVELS: [(&'static str, i64); 9] = [
    ("quiet", -8),
    ("panic", 0),
    ("fatal", 8),
    ("error", 16),
    ("warning", 24),
    ("info", 32),
    ("verbose", 40),
    ("debug", 48),
    ("trace", 56),
];

/// The level at which faults are told, and all above it.
const ERROR: i64 = 16;

/// The level at which progress is told, which is the level where none is asked for.
const INFO: i64 = 32;

// The number of a level by its name or as a whole number.
fn number_of(text: &str) -> Option<i64> {
    for (name, number) in LEVELS.iter() {
        if *name == text {
            return Some(*number);
        }
    }
    text.parse().ok()
}

// The level by the last `-v` that has one.
fn level_of(words: &[String]) -> i64 {
    let mut level = INFO;
    let mut before = None;
    for word in words.iter() {
        let role = role_behind(before, word.as_str());
        if role == Role::Value(Kind::Level)
            && let Some(number) = number_of(word.as_str())
        {
            level = number;
        }
        before = Some(role);
    }
    level
}

// Whether `-nostats` is one of the options.
fn has_no_stats(words: &[String]) -> bool {
    let mut before = None;
    for word in words.iter() {
        let role = role_behind(before, word.as_str());
        if let Role::Named(_, Kind::NoStats) = role {
            return true;
        }
        before = Some(role);
    }
    false
}

/// Whether faults are told in words: not below the level `error`.
pub fn tells_faults(words: &[String]) -> bool {
    level_of(words) >= ERROR
}

/// Whether it is told how far the run is: not with `-nostats`, and not below the level `info`.
pub fn tells_progress(words: &[String]) -> bool {
    level_of(words) >= INFO && !has_no_stats(words)
}
