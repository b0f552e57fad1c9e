//! The cut that `-ss`, `-t` and `-to` ask for.
ghost use Rattle.std.specs.Prelude.{◌≡◌};
ghost use Rattle.ff_words.specs.Words.{cut_of, start_of, ends_early};

use crate::error::{Fault, WordKind};
use crate::value::Micros;
use ff_time::TimeCut;

/// The end of a cut.
#[derive(Clone, Copy, Debug)]
pub(crate) struct CutEnd {
    /// Where it is.
    pub end: Micros,
    /// Which argument said so.
    pub word: u32,
    /// How many bytes that has.
    pub len: usize,
}

// Where a cut starts: at 0 where no start is given.
fn start_us(start: Option<Micros>) -> u64
    ensures { result ≡ start_of start }
{
    match start {
        Some(micros) => micros.us,
        None => 0,
    }
}

/// The cut from a start on, of the length that is given, or else up to the end that is.
pub(crate) fn cut(start: Option<Micros>, length: Option<Micros>, end: Option<CutEnd>) -> TimeCut
    ensures { result ≡ cut_of start length end }
{
    let start = start_us(start);
    let length = match length {
        Some(micros) => Some(micros.us),
        None => match end {
            Some(told) => Some(told.end.us.saturating_sub(start)),
            None => None,
        },
    };
    TimeCut { start, length }
}

/// What is wrong with a cut that ends where it starts, or before. Where its length is given, its end doesn't count.
pub(crate) fn early_end(
    start: Option<Micros>,
    length: Option<Micros>,
    end: Option<CutEnd>,
) -> Option<Fault>
    ensures { result ≡ ends_early (start_of start) length end }
{
    if length.is_some() {
        return None;
    }
    let told = end?;
    if start_us(start) < told.end.us {
        return None;
    }
    Some(Fault {
        word: told.word,
        kind: WordKind::BadTime { at: told.len },
    })
}
