//! The strings of tables: words, and why a row isn't run to its end.
use std::alloc::AllocError;
use std::io;

/// Why a row isn't run to its end.
#[derive(Clone, Copy)]
pub enum Stop {
    /// A line can't be read.
    Unreadable,
    /// Memory or a device failed.
    Broken,
}

impl From<AllocError> for Stop {
    fn from(_: AllocError) -> Stop {
        Stop::Broken
    }
}

impl From<io::Error> for Stop {
    fn from(_: io::Error) -> Stop {
        Stop::Broken
    }
}

/// The first word of a line, and what stands after one blank.
pub fn halves(line: &str) -> (&str, &str) {
    match line.split_once(' ') {
        Some((word, rest)) => (word, rest),
        None => (line, ""),
    }
}
