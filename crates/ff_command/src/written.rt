//! What a job writes: its outputs, and after them its trace.
ghost use Rattle.std.specs.Prelude.{◌≡◌, IfOk, option_copied};
ghost use Rattle.ff_files.specs.Names.{files_of};
ghost use Rattle.ff_words.specs.Words.{output_file, written};

use ff_files::OutputFile;
use ff_words::{Job, OutputJob};
use std::alloc::{AllocError, Global};

/// What is written, by the name of its file, where it is one.
#[derive(Clone, Copy)]
pub(crate) struct Written<'a> {
    file: Option<&'a str>,
}

impl<'a> OutputFile for Written<'a> {
    ghost file_name = { λ written. option_copied written.file };

    fn file(&self) -> Option<&str> {
        self.file
    }
}

// An output.
fn written_output(output: &OutputJob) -> Written<'_>
    ensures { option_copied result.file ≡ output_file output.now }
{
    if output.format.has_file() {
        Written {
            file: Some(output.name.as_str()),
        }
    } else {
        Written { file: None }
    }
}

// The outputs by number.
fn output_files<'a>(alloc: Global, outputs: &'a [OutputJob]) -> Result<Vec<Written<'a>>, AllocError>
    ensures { IfOk result (λ files. files_of (λ file. option_copied file.file) files.items ≡ files_of output_file outputs.now) }
{
    let mut files = Vec::new(alloc);
    for output in outputs {
        files.push(written_output(output))?;
    }
    Ok(files)
}

/// The outputs by number, and then the trace, if there is one.
pub(crate) fn written_files<'a>(alloc: Global, job: &'a Job) -> Result<Vec<Written<'a>>, AllocError>
    ensures { IfOk result (λ files. files_of (λ file. option_copied file.file) files.items ≡ written job.now) }
{
    let mut files = output_files(alloc, job.outputs.as_slice())?;
    if let Some(trace) = &job.trace {
        files.push(Written {
            file: Some(trace.as_str()),
        })?;
    }
    Ok(files)
}
