//! The command line of the run over generated input, and the job that it asks for.
ghost use Rattle.std.specs.Prelude.{◌≡◌, ◌∷◌, [], Some, IfOk, codes};
ghost use Rattle.ff_words.specs.laws.Bounds.{IsBounded};
ghost use Rattle.ff_words.specs.Table.{names};
ghost use Rattle.ff_words.specs.Words.{texts, written};
ghost use Rattle.ff_selfrun.specs.SelfRun.{IsOwnJob};

use ff_words::{Command, Job, WordError, read_words};
use std::alloc::{AllocError, Global};

/// The arguments of the job.
pub static WORDS: [&'static str; 14] = [
    "-i",
    "a.wav",
    "-i",
    "v.y4m",
    "-filter_complex",
    "[1:v]split[p][q];[q]hflip[r];[p][r]hstack[v]",
    "-map",
    "0:a",
    "-map",
    "[v]",
    "-shortest",
    "-f",
    "framehash",
    "out",
];

// Strings as a command takes its arguments.
fn words_from(alloc: Global, list: &[&'static str]) -> Result<Vec<String>, AllocError>
    ensures { IfOk result (λ words. texts words.items ≡ names list.now) }
{
    let mut words = Vec::new(alloc);
    'words: for text in list.iter() {
        words.push(String::from_str(alloc, text)?)?;
    }
    Ok(words)
}

/// The job that the arguments ask for.
pub fn own_job(alloc: Global) -> Result<Job, AllocError>
    ensures job { IfOk result (λ job. IsOwnJob job) }
    ensures bounded { IfOk result (λ job. IsBounded job) }
    ensures output { IfOk result (λ job. written job ≡ Some (codes "out") ∷ []) }
{
    let words = words_from(alloc, &WORDS)?;
    match read_words(alloc, &words) {
        Ok(Command::Run(job)) => Ok(job),
        Ok(Command::Solo(_)) => unreachable!(),
        Err(WordError::At { .. }) => unreachable!(),
        Err(WordError::NoMemory) => Err(AllocError),
    }
}
