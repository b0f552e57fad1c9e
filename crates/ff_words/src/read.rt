//! The reader of a whole command line.
ghost use Rattle.std.specs.Prelude.{◌≡◌, ◌⊎◌, Ok, Err, IsErrOf};
ghost use Rattle.ff_words.specs.laws.Bounds.{IsBounded};
ghost use Rattle.ff_words.specs.laws.Reading.{Answers, as_error};
ghost use Rattle.ff_words.specs.Words.{texts, IsAnswer};
ghost use Rattle.ff_words.specs.declared.error.Fault.{Fault};
ghost use Rattle.ff_words.specs.declared.job.Command.{Command};
ghost use Rattle.ff_words.specs.declared.job.Job.{Job};

use crate::error::WordError;
use crate::job::Command;
use crate::reader::{Reader, next_place};
use std::alloc::Global;

/// The command that the arguments are, or their first fault in order of reading.
pub fn read_words(alloc: Global, words: &[String]) -> Result<Command, WordError>
    ensures answer { Answers (texts words.now) result }
    ensures command { (c : Command) → IsAnswer (texts words.now) (Ok c)
        → (result ≡ Ok c) ⊎ IsErrOf result WordError.NoMemory }
    ensures fault { (f : Fault) → IsAnswer (texts words.now) (Err f)
        → IsErrOf result (as_error f) ⊎ IsErrOf result WordError.NoMemory }
    ensures bounded { (job : Job) → result ≡ Ok (Command.Run job) → IsBounded job }
{
    one_pass(alloc, words)
}

fn one_pass(alloc: Global, words: &[String]) -> Result<Command, WordError>
    ensures { Answers (texts words.now) result }
{
    let mut reader = Reader::new(alloc);
    let mut at = 0;
    'words: while at < words.len() {
        match reader.token(alloc, words, at) {
            Ok(()) => {}
            Err(error) => return Err(error),
        }
        at = next_place(words, at);
    }
    reader.end(words.len())
}
