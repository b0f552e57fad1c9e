//! The machine's files as a host.
ghost use Rattle.std.specs.Prelude.{◌≡◌, ◌+◌, ◌<◌, ◌≤◌, ℕ, List, Some, None, IsTrue, string_bytes};
ghost use Rattle.ff_host.specs.laws.Tally.{marks_at};

use crate::cause::{Cause, Causes};
use crate::file_id::{FileId, id_of, is_among, let_go, note};
use crate::file_sink::FileSink;
use crate::file_source::FileSource;
use crate::progress::{Meter, Progress};
use ff_host::{Failed, Host, HostError, Marks, Table, make_room, marks_of, set_marks};
use std::alloc::{AllocError, Global};
use std::collections::BTreeMap;
use std::fs;
use std::fs::{OpenFile, OpenOptions};
use std::io::{BufReader, BufWriter, Eprint, ErrorKind};
use std::rt::Files;
use std::time::Clock;

/// How many bytes are read or written at a time.
const BUFFER: usize = 65_536;

/// The machine's files. It tells no content, and counts each failure under the file's name.
///
/// While a plain file is read, no sink is created on it. While one is written, nothing else is opened or created on
/// it, whatever the name. Such a call answers Failed, and the file is left as it is.
#[derive(Drop)]
pub struct FileHost<R: Drop> {
    files: R,
    alloc: Global,
    table: Table,
    sources: u64,
    sinks: u64,
    /// The plain files that are read, and those that are written.
    read: Vec<FileId>,
    written: Vec<FileId>,
    /// The line on standard error that says how far the reading is, where it is asked for.
    progress: Option<Progress<R>>,
    /// Why calls failed.
    causes: Causes,
    /// Whether a sink was ever created.
    has_created: bool,
}

// A file that was opened: which one it is, and how long, where it is a plain one.
struct Opened<F> {
    file: F,
    id: Option<FileId>,
    size: Option<u64>,
}

impl<R: Files + Drop> FileHost<R> {
    /// A host over the machine's files, with nothing open and no faults.
    pub fn new(alloc: Global, files: R) -> Self {
        FileHost {
            files,
            alloc,
            table: BTreeMap::new(alloc),
            sources: 0,
            sinks: 0,
            read: Vec::new(alloc),
            written: Vec::new(alloc),
            progress: None,
            causes: Causes::new(alloc),
            has_created: false,
        }
    }

    /// Why the first call on a file of this name failed, where that is known.
    pub fn cause(&self, name: &str) -> Option<Cause> {
        self.causes.of(name)
    }

    /// Whether a sink was ever created.
    pub fn has_created(&self) -> bool {
        self.has_created
    }
}

impl<R: Files + Drop> FileHost<R> {
    // Opens a file that nothing writes.
    fn open_other(&self, name: &str) -> Result<Opened<R::File>, Cause> {
        let file = fs::open(&self.files, name)?;
        let about = file.metadata()?;
        let id = id_of(&about);
        if is_among(id, self.written.as_slice()) {
            return Err(Cause::InUse);
        }
        let size = id.map(|_| about.len());
        Ok(Opened { file, id, size })
    }

    // Makes a file empty that nothing reads or writes. Standard output keeps what was written there before.
    fn create_other(&self, name: &str) -> Result<(R::File, Option<FileId>), Cause> {
        if let Ok(there) = fs::metadata(&self.files, name) {
            let id = id_of(&there);
            if is_among(id, self.read.as_slice()) || is_among(id, self.written.as_slice()) {
                return Err(Cause::InUse);
            }
        }
        let file = if name == "/dev/stdout" {
            let mut options = OpenOptions::new();
            options.append(true);
            options.open(&self.files, name)?
        } else {
            fs::create(&self.files, name)?
        };
        let id = id_of(&file.metadata()?);
        Ok((file, id))
    }
}

impl<R: Files + Clock + Eprint + Clone + Drop> FileHost<R> {
    /// Says on standard error how far the reading of the inputs is, from the next one that is opened on, until all are closed.
    pub fn show_progress(&mut self) {
        if let Ok(rt) = self.files.clone() {
            self.progress = Progress::new(self.alloc, rt);
        }
    }

    // What counts the bytes of one more input.
    fn meter(&self, size: Option<u64>) -> Option<Meter<R>> {
        match &self.progress {
            Some(progress) => progress.open(size),
            None => None,
        }
    }

    // Takes the line away where no input is left.
    fn clear_at_last(&self) {
        if self.sources == 0
            && let Some(progress) = &self.progress
        {
            progress.clear();
        }
    }
}

// Finds out whether there is memory for a buffer, so that no file is made empty where there is none.
fn look_for_room(alloc: Global) -> Result<(), AllocError> {
    let _room: Vec<u8> = Vec::with_capacity(alloc, BUFFER)?;
    Ok(())
}

impl<R: Files + Clock + Eprint + Clone + Send + Drop> Host for FileHost<R>
where
    R::File: Send,
{
    type Src = FileSource<R::File, R>;

    type Snk = FileSink<R::File>;

    ghost files = { λ h. None };

    ghost in_faults = { λ h name. (marks_at h.table name).in_faults };

    ghost out_faults = { λ h name. (marks_at h.table name).out_faults };

    ghost opened = { λ h name. IsTrue (marks_at h.table name).opened };

    ghost created = { λ h name. IsTrue (marks_at h.table name).created };

    ghost open_sources = { λ h. h.sources };

    ghost open_sinks = { λ h. h.sinks };

    fn exists(&self, name: &str) -> Result<bool, AllocError> {
        // Standard output is no file that is kept.
        if name == "/dev/stdout" {
            return Ok(false);
        }
        match fs::metadata(&self.files, name) {
            Ok(_) => Ok(true),
            Err(error) => match error.kind() {
                ErrorKind::NotFound | ErrorKind::NotADirectory => Ok(false),
                ErrorKind::OutOfMemory => Err(AllocError),
                // What can't be looked at may be there.
                _ => Ok(true),
            },
        }
    }

    fn open_source(&mut self, name: &str) -> Result<FileSource<R::File, R>, HostError> {
        let Some(sources) = self.sources.checked_add(1) else {
            return Err(HostError::NoMemory);
        };
        make_room(&mut self.table, self.alloc, name)?;
        let own_name = String::from_str(self.alloc, name)?;
        self.read.reserve(1)?;
        let was = marks_of(&self.table, name);
        let Opened { file, id, size } = match self.open_other(name) {
            Ok(opened) => opened,
            Err(cause) => {
                let in_faults = was.in_faults.saturating_add(1);
                set_marks(&mut self.table, name, Marks { in_faults, ..was });
                self.causes.note(name, Some(cause));
                return Err(HostError::Failed);
            }
        };
        let Ok(file) = BufReader::with_capacity(self.alloc, BUFFER, file) else {
            return Err(HostError::NoMemory);
        };
        note(&mut self.read, id)?;
        let opened = true;
        set_marks(&mut self.table, name, Marks { opened, ..was });
        self.sources = sources;
        Ok(FileSource::new(file, own_name, id, self.meter(size)))
    }

    fn create_sink(&mut self, name: &str) -> Result<FileSink<R::File>, HostError> {
        let Some(sinks) = self.sinks.checked_add(1) else {
            return Err(HostError::NoMemory);
        };
        make_room(&mut self.table, self.alloc, name)?;
        let own_name = String::from_str(self.alloc, name)?;
        self.written.reserve(1)?;
        look_for_room(self.alloc)?;
        let was = marks_of(&self.table, name);
        let (file, id) = match self.create_other(name) {
            Ok(created) => created,
            Err(cause) => {
                let out_faults = was.out_faults.saturating_add(1);
                set_marks(&mut self.table, name, Marks { out_faults, ..was });
                self.causes.note(name, Some(cause));
                return Err(HostError::Failed);
            }
        };
        let Ok(file) = BufWriter::with_capacity(self.alloc, BUFFER, file) else {
            return Err(HostError::NoMemory);
        };
        note(&mut self.written, id)?;
        let created = true;
        set_marks(&mut self.table, name, Marks { created, ..was });
        self.sinks = sinks;
        self.has_created = true;
        Ok(FileSink::new(file, own_name, id))
    }

    fn close_source(&mut self, name: &str, src: FileSource<R::File, R>) {
        let was = marks_of(&self.table, name);
        let in_faults = was.in_faults.saturating_add(src.faults());
        set_marks(&mut self.table, name, Marks { in_faults, ..was });
        self.sources = self.sources.saturating_sub(1);
        let_go(&mut self.read, src.id());
        self.clear_at_last();
        self.causes.note(name, src.cause());
    }

    fn close_sink(&mut self, name: &str, snk: FileSink<R::File>) -> Result<(), Failed> {
        let mut snk = snk;
        self.sinks = self.sinks.saturating_sub(1);
        let_go(&mut self.written, snk.id());
        let was = marks_of(&self.table, name);
        let out_faults = was.out_faults.saturating_add(snk.faults());
        let is_whole = snk.finish();
        self.causes.note(name, snk.cause());
        if is_whole {
            set_marks(&mut self.table, name, Marks { out_faults, ..was });
            return Ok(());
        }
        let out_faults = out_faults.saturating_add(1);
        set_marks(&mut self.table, name, Marks { out_faults, ..was });
        Err(Failed)
    }
}
