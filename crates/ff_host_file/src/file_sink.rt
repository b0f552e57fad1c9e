//! A file that is written.
ghost use Rattle.std.specs.Prelude.{◌≡◌, ◌+◌, ◌≤◌, ℕ, List, None, Some, false, string_bytes};

use crate::cause::Cause;
use crate::file_id::FileId;
use ff_host::{Failed, Sink, SinkError};
use std::io;
use std::io::{BufWriter, Seek, SeekFrom, Write};

/// A file that is written through a buffer. It tells no content, and counts each failure. A write that fails is seen
/// at the latest when the sink is flushed.
#[derive(Drop)]
pub struct FileSink<F: Write + Drop> {
    file: BufWriter<F>,
    name: String,
    /// Which plain file it is, if it is one.
    id: Option<FileId>,
    written: u64,
    faults: u64,
    failed: bool,
    /// Why the first call failed.
    cause: Option<Cause>,
}

impl<F: Write + Drop> FileSink<F> {
    /// A sink over a new file, under the name on which it was created.
    pub fn new(file: BufWriter<F>, name: String, id: Option<FileId>) -> Self
        ensures name { string_bytes result.name ≡ string_bytes name }
        ensures faults { result.faults ≡ 0 }
        ensures failed { result.failed ≡ false }
    {
        FileSink {
            file,
            name,
            id,
            written: 0,
            faults: 0,
            failed: false,
            cause: None,
        }
    }

    /// Why the first call failed, where one did.
    pub fn cause(&self) -> Option<Cause> {
        self.cause
    }

    /// Which plain file it is, if it is one.
    pub fn id(&self) -> Option<FileId> {
        self.id
    }

    /// How often writing failed.
    pub fn faults(&self) -> u64
        ensures { result ≡ self.now.faults }
    {
        self.faults
    }

    /// Writes out what the buffer holds, and answers whether that and all before it was written.
    pub fn finish(&mut self) -> bool
        ensures { self.new.faults ≡ self.old.faults }
    {
        match self.file.flush() {
            Ok(()) => true,
            Err(error) => {
                self.cause = self.cause.or(Some(Cause::System(error)));
                false
            }
        }
    }
}

// Writes over what stands at a place, and goes on at the end.
fn write_over<F: Write + Seek + Drop>(
    file: &mut BufWriter<F>,
    at: u64,
    bytes: &[u8],
) -> io::Result<()> {
    file.seek(SeekFrom::Start(at))?;
    file.write_all(bytes)?;
    file.seek(SeekFrom::End(0))?;
    Ok(())
}

impl<F: Write + Seek + Drop> Sink for FileSink<F> {
    ghost holds = { λ s. None };

    ghost written = { λ s. s.written };

    ghost faults = { λ s. s.faults };

    ghost failed = { λ s. s.failed };

    ghost name = { λ s. Some (string_bytes s.name) };

    fn append(&mut self, bytes: &[u8]) -> Result<(), SinkError> {
        if !self.failed
            && let Some(written) = self.written.checked_add(bytes.len() as u64)
        {
            match self.file.write_all(bytes) {
                Ok(()) => {
                    self.written = written;
                    return Ok(());
                }
                Err(error) => self.cause = Some(Cause::System(error)),
            }
        }
        self.failed = true;
        self.faults = self.faults.saturating_add(1);
        Err(SinkError::Failed)
    }

    fn patch(&mut self, at: u64, bytes: &[u8]) -> Result<(), Failed> {
        if !self.failed {
            match write_over(&mut self.file, at, bytes) {
                Ok(()) => return Ok(()),
                Err(error) => self.cause = Some(Cause::System(error)),
            }
        }
        self.failed = true;
        self.faults = self.faults.saturating_add(1);
        Err(Failed)
    }
}
