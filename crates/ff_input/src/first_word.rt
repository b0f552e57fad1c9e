//! The formats that the first bytes of an input tell.
ghost use Rattle.std.specs.Prelude.{◌≡◌, [], ◌∷◌};
ghost use Rattle.ff_reader.specs.Walks.{agrees};
ghost use Rattle.ff_input.specs.FirstWords.{or_else, told_by};

use ff_format::FileFormat;
use ff_reader::agree;

/// What the first bytes of an input tell of its format.
#[derive(Clone, Copy, PartialEq, Eq, Debug)]
pub(crate) enum FirstWord {
    /// The first word of this format is there.
    Named(FileFormat),
    /// They may go on to one.
    Open,
    /// They go on to none.
    Other,
}

impl FirstWord {
    /// What they tell by these words, or else by others.
    pub(crate) fn or(self, other: FirstWord) -> FirstWord
        ensures { result ≡ or_else self other }
    {
        match self {
            FirstWord::Named(format) => FirstWord::Named(format),
            FirstWord::Open => FirstWord::Open,
            FirstWord::Other => other,
        }
    }
}

/// What the bytes tell by a first word of a format.
pub(crate) fn told_by_word(format: FileFormat, word: &[Option<u8>], bytes: &[u8]) -> FirstWord
    ensures { result ≡ told_by (record { word = word.now; format = format }) bytes.now }
{
    if !agree(word, bytes) {
        return FirstWord::Other;
    }
    if word.len() <= bytes.len() {
        return FirstWord::Named(format);
    }
    FirstWord::Open
}
