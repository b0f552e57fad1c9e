//! Standard output as the log.
ghost use Rattle.std.specs.Prelude.{◌≡◌, ◌+◌, ℕ, None};

use ff_host::{Failed, Sink, SinkError};
use std::io::Write;

/// A log over a writer, which is flushed at each append. It tells no content, and counts each failure.
#[derive(Drop)]
pub struct LogSink<W> {
    writer: W,
    written: u64,
    faults: u64,
    failed: bool,
}

impl<W: Write + Drop> LogSink<W> {
    /// A log over this writer, to which nothing was written.
    pub fn new(writer: W) -> Self {
        LogSink {
            writer,
            written: 0,
            faults: 0,
            failed: false,
        }
    }
}

impl<W: Write + Drop> Sink for LogSink<W> {
    ghost holds = { λ s. None };

    ghost written = { λ s. s.written };

    ghost faults = { λ s. s.faults };

    ghost failed = { λ s. s.failed };

    ghost name = { λ s. None };

    fn append(&mut self, bytes: &[u8]) -> Result<(), SinkError> {
        if !self.failed
            && let Some(written) = self.written.checked_add(bytes.len() as u64)
            && self.writer.write_all(bytes).is_ok()
            && self.writer.flush().is_ok()
        {
            self.written = written;
            return Ok(());
        }
        self.failed = true;
        self.faults = self.faults.saturating_add(1);
        Err(SinkError::Failed)
    }

    // What was logged stays as it is.
    fn patch(&mut self, _at: u64, _bytes: &[u8]) -> Result<(), Failed> {
        self.failed = true;
        self.faults = self.faults.saturating_add(1);
        Err(Failed)
    }
}
