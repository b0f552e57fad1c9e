//! The progress of reading the inputs, in one line on standard error.
use std::alloc::{AllocError, Global};
use std::io::Eprint;
use std::sync::Arc;
use std::sync::atomic::{AtomicU64, Ordering};
use std::time::{Clock, Instant};

/// How many inputs are counted. A command has at most sixteen.
const MOST: usize = 16;

/// The least time from one line to the next, in milliseconds.
const PAUSE: u64 = 200;

/// How many inputs have a place of their own in the line.
const NAMED: usize = 4;

/// What was read of an input, in bytes.
#[derive(Drop)]
struct Count {
    read: AtomicU64,
    /// How many bytes it has; 0 where nobody knows.
    size: AtomicU64,
}

/// What all sources of a host have read. Each counts by itself, from whatever thread it is read in, and whoever finds the line
/// old writes it anew.
#[derive(Drop)]
struct Counts {
    start: Instant,
    inputs: Vec<Count>,
    /// How many there are.
    opened: AtomicU64,
    /// When the line was written, in milliseconds from the start; 0 before the first.
    shown: AtomicU64,
}

/// A source's part in the line.
#[derive(Drop)]
pub struct Meter<R: Drop> {
    rt: R,
    alloc: Global,
    counts: Arc<Counts, Global>,
    number: usize,
}

/// The line: written anew at most five times a second while the inputs are read, and taken away at the end.
#[derive(Drop)]
pub struct Progress<R: Drop> {
    rt: R,
    alloc: Global,
    counts: Arc<Counts, Global>,
}

// Tenths of a million, as a string.
fn millions(alloc: Global, bytes: u64) -> Result<String, AllocError> {
    let whole = bytes / 1_000_000;
    let tenth = bytes / 100_000 % 10;
    format!(in alloc; "{whole}.{tenth}")
}

// What was read of an input, of how much it has.
fn part(alloc: Global, count: &Count) -> Result<String, AllocError> {
    let read = millions(alloc, count.read.load(Ordering::SeqCst))?;
    match count.size.load(Ordering::SeqCst) {
        0 => Ok(read),
        size => {
            let all = millions(alloc, size)?;
            format!(in alloc; "{read} of {all}")
        }
    }
}

/// What was read, and how much there is, in bytes; nothing where that of one input isn't known.
#[derive(Clone, Copy)]
struct Total {
    read: u64,
    size: Option<u64>,
}

impl Counts {
    fn new(alloc: Global, clock: &impl Clock) -> Option<Counts> {
        let mut inputs = Vec::with_capacity(alloc, MOST).ok()?;
        for _ in 0..MOST {
            let count = Count {
                read: AtomicU64::new(0),
                size: AtomicU64::new(0),
            };
            inputs.push(count).ok()?;
        }
        Some(Counts {
            start: Instant::now(clock).ok()?,
            inputs,
            opened: AtomicU64::new(0),
            shown: AtomicU64::new(0),
        })
    }

    // The inputs that there are.
    fn all(&self) -> &[Count] {
        let opened = self.opened.load(Ordering::SeqCst) as usize;
        let inputs = self.inputs.as_slice();
        if opened < inputs.len() {
            &inputs[..opened]
        } else {
            inputs
        }
    }

    fn total(&self) -> Total {
        let mut read = 0u64;
        let mut size = Some(0u64);
        for count in self.all() {
            read = read.saturating_add(count.read.load(Ordering::SeqCst));
            size = match (size, count.size.load(Ordering::SeqCst)) {
                (Some(sum), more) if more != 0 => Some(sum.saturating_add(more)),
                _ => None,
            };
        }
        Total { read, size }
    }

    // `read 1.2 of 3.4, 0.5 of 0.5 MB, 20.1 MB/s, 1 s left`, after so many milliseconds.
    fn line(&self, alloc: Global, time: u64) -> Result<String, AllocError> {
        let mut line = String::from_str(alloc, "read ")?;
        for (number, count) in self.all().iter().enumerate() {
            if number == NAMED {
                line.push_str(", ..")?;
                break;
            }
            if number != 0 {
                line.push_str(", ")?;
            }
            line.push_str(part(alloc, count)?.as_str())?;
        }
        let total = self.total();
        let rate = (total.read / (time / 100 + 1)).saturating_mul(10);
        let each = millions(alloc, rate)?;
        line.push_str(format!(in alloc; " MB, {each} MB/s")?.as_str())?;
        if let Some(size) = total.size
            && rate != 0
        {
            let left = size.saturating_sub(total.read) / rate;
            line.push_str(format!(in alloc; ", {left} s left")?.as_str())?;
        }
        Ok(line)
    }

    // The time since the start, where the line is that old that it may be written anew; no other thread is told so then.
    fn due(&self, clock: &impl Clock) -> Option<u64> {
        let time = u64::try_from(self.start.elapsed(clock).ok()?.as_millis()).ok()?;
        let shown = self.shown.load(Ordering::SeqCst);
        if time < shown.saturating_add(PAUSE) {
            return None;
        }
        match self
            .shown
            .compare_exchange(shown, time, Ordering::SeqCst, Ordering::SeqCst)
        {
            Ok(_) => Some(time),
            Err(_) => None,
        }
    }
}

impl<R: Clock + Eprint + Drop> Meter<R> {
    /// So many bytes more were read.
    pub fn add(&self, bytes: usize) {
        if let Some(count) = self.counts.inputs.get(self.number) {
            count.read.fetch_add(bytes as u64, Ordering::SeqCst);
        }
        let Some(time) = self.counts.due(&self.rt) else {
            return;
        };
        if let Ok(line) = self.counts.line(self.alloc, time) {
            let _ = self.rt.eprint(format_args!("\r{line}\x1b[K"));
        }
    }
}

impl<R: Clock + Eprint + Clone + Drop> Progress<R> {
    /// A line of no input yet. None where there is no memory or no clock for it.
    pub fn new(alloc: Global, rt: R) -> Option<Progress<R>> {
        let counts = Counts::new(alloc, &rt)?;
        let counts = Arc::new(alloc, counts).ok()?;
        Some(Progress { rt, alloc, counts })
    }

    /// One more input, of so many bytes where that is known.
    pub fn open(&self, size: Option<u64>) -> Option<Meter<R>> {
        let number = self.counts.opened.fetch_add(1, Ordering::SeqCst) as usize;
        let count = self.counts.inputs.get(number)?;
        count.size.store(size.unwrap_or(0), Ordering::SeqCst);
        Some(Meter {
            rt: self.rt.clone().ok()?,
            alloc: self.alloc,
            counts: Arc::try_clone(&self.counts).ok()?,
            number,
        })
    }

    /// Takes the line away, if it was written.
    pub fn clear(&self) {
        if self.counts.shown.swap(0, Ordering::SeqCst) != 0 {
            let _ = self.rt.eprint("\r\x1b[K");
        }
    }
}
