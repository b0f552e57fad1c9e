//! The state of reading a head whose format may not be known yet.
ghost use Rattle.std.specs.Prelude.{◌≡◌, ◌≤◌, [], if◌then◌else◌, Option, None, Err, length};
ghost use Rattle.ff_reader.specs.Walks.{head_limit};
ghost use Rattle.ff_input.specs.declared.first_word.FirstWord.TheVariants as first_word;
ghost use Rattle.ff_input.specs.Answers.{Answers};
ghost use Rattle.ff_input.specs.FirstWords.{told};
ghost use Rattle.ff_input.specs.Formats.{InputHead, IsHead, first_words, input_head};
ghost use Rattle.ff_input.specs.laws.Places.{Reached, IsReached};

use crate::first_word::FirstWord;
use crate::formats::{AnyWalk, InputHead, start_of, told_by_words};
use crate::head_reader::HeadReader;
use ff_format::FileFormat;
use ff_frame::HeadEnd;

/// How far the head of an input was read.
#[derive(Drop)]
pub enum InputWalk {
    /// No format was given, and the first bytes tell none yet.
    Start,
    /// The input is in no format that is read.
    Other,
    /// In the format that was given or told.
    In(AnyWalk),
}

// Goes on to the walk of an input that begins with these bytes, where none was known.
fn begin(walk: &mut InputWalk, bytes: &[u8])
    ensures reached { (given : Option FileFormat) → IsReached walk.old given bytes.now → IsReached walk.new given bytes.now }
    ensures open { walk.new ≡ InputWalk.Start → told first_words bytes.now ≡ first_word.Open }
{
    if let InputWalk::Start = walk {
        match told_by_words(bytes) {
            FirstWord::Named(format) => *walk = start_of(format),
            FirstWord::Open => {}
            FirstWord::Other => *walk = InputWalk::Other,
        }
    }
}

// The answer where the first bytes tell no format yet.
fn untold(whole: bool) -> Result<InputHead, HeadEnd>
    ensures { result ≡ if whole then Err (HeadEnd.Unsupported 0) else Err HeadEnd.NotYet }
{
    if whole {
        return Err(HeadEnd::Unsupported { offset: 0 });
    }
    Err(HeadEnd::NotYet)
}

impl InputWalk {
    /// Before anything was read of an input in this format, or without one of an input whose first bytes tell it.
    pub fn new(format: Option<FileFormat>) -> InputWalk
        ensures { Reached result format [] }
    {
        match format {
            Some(format) => start_of(format),
            None => InputWalk::Start,
        }
    }

    /// Reads on. The bytes are those that were there before, and perhaps more; of what was read no more than a line is read
    /// again.
    pub fn read(&mut self, bytes: &[u8], whole: bool) -> Result<InputHead, HeadEnd>
        ensures answers { (given : Option FileFormat) → IsReached self.old given bytes.now → Answers (input_head given) IsHead whole bytes.now result }
        ensures goes_on { (given : Option FileFormat) → IsReached self.old given bytes.now → result ≡ Err HeadEnd.NotYet
            → (length bytes.now ≤ head_limit) × Reached self.new given bytes.now }
    {
        begin(self, bytes);
        match self {
            InputWalk::Start => untold(whole),
            InputWalk::Other => Err(HeadEnd::Unsupported { offset: 0 }),
            InputWalk::In(walk) => walk.read(bytes, whole),
        }
    }
}
