//! A file that is read.
ghost use Rattle.std.specs.Prelude.{◌≡◌, ◌+◌, ◌<◌, ◌≤◌, ℕ, List, None, Some, false, IfOk, length, string_bytes};

use crate::cause::Cause;
use crate::file_id::FileId;
use crate::progress::Meter;
use ff_host::{Failed, Source};
use std::io;
use std::io::{BufReader, Eprint, ErrorKind, Read};
use std::time::Clock;

/// A file that is read through a buffer. It tells no content, and counts each failure.
#[derive(Drop)]
pub struct FileSource<F: Read + Drop, R: Drop> {
    file: BufReader<F>,
    name: String,
    /// Which plain file it is, if it is one.
    id: Option<FileId>,
    /// What counts the bytes that are read, if anything does.
    meter: Option<Meter<R>>,
    faults: u64,
    failed: bool,
    /// Why the first read failed.
    cause: Option<Cause>,
}

impl<F: Read + Drop, R: Drop> FileSource<F, R> {
    /// A source over an open file, under the name on which it was opened.
    pub fn new(
        file: BufReader<F>,
        name: String,
        id: Option<FileId>,
        meter: Option<Meter<R>>,
    ) -> Self
        ensures name { string_bytes result.name ≡ string_bytes name }
        ensures faults { result.faults ≡ 0 }
        ensures failed { result.failed ≡ false }
    {
        FileSource {
            file,
            name,
            id,
            meter,
            faults: 0,
            failed: false,
            cause: None,
        }
    }

    /// Why the first read failed, where one did.
    pub fn cause(&self) -> Option<Cause> {
        self.cause
    }

    /// Which plain file it is, if it is one.
    pub fn id(&self) -> Option<FileId> {
        self.id
    }

    /// How often reading failed.
    pub fn faults(&self) -> u64
        ensures { result ≡ self.now.faults }
    {
        self.faults
    }
}

// Reads once, and again where a signal came in between.
fn read_some<F: Read>(file: &mut BufReader<F>, buf: &mut [u8]) -> io::Result<usize>
    ensures { IfOk result (λ count. count ≤ length buf.new) }
{
    for _ in 0..u64::MAX {
        match file.read(buf) {
            Ok(count) => return Ok(count),
            Err(e) if e.kind() == ErrorKind::Interrupted => {}
            Err(e) => return Err(e),
        }
    }
    Err(io::Error::from(ErrorKind::Interrupted))
}

impl<F: Read + Drop, R: Clock + Eprint + Drop> Source for FileSource<F, R> {
    ghost left = { λ s. None };

    ghost faults = { λ s. s.faults };

    ghost failed = { λ s. s.failed };

    ghost name = { λ s. Some (string_bytes s.name) };

    fn read(&mut self, buf: &mut [u8]) -> Result<usize, Failed> {
        if !self.failed {
            match read_some(&mut self.file, buf) {
                Ok(count) => {
                    if let Some(meter) = &self.meter {
                        meter.add(count);
                    }
                    return Ok(count);
                }
                Err(error) => self.cause = Some(Cause::System(error)),
            }
        }
        self.failed = true;
        self.faults = self.faults.saturating_add(1);
        Err(Failed)
    }
}
