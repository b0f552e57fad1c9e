//! The meeting of two sources that wait for each other.
ghost use Rattle.std.specs.Prelude.{◌≤◌};

use std::alloc::{AllocError, Global};
use std::sync::Arc;
use std::sync::atomic::{AtomicBool, Ordering};
use std::thread::yield_now;

/// So many turns of one load and one yield a read waits at most.
pub(crate) const TURNS: u32 = 10_000_000;

/// One of the two ends of a meeting: whether it has come to it, and whether the other has.
#[derive(Drop)]
pub(crate) struct Meeting {
    own: Arc<AtomicBool>,
    other: Arc<AtomicBool>,
}

impl Meeting {
    /// The ends of a new meeting, to which neither has come.
    pub(crate) fn pair(alloc: Global) -> Result<(Meeting, Meeting), AllocError> {
        let one = Arc::new(alloc, AtomicBool::new(false))?;
        let two = Arc::new(alloc, AtomicBool::new(false))?;
        let first = Meeting {
            own: Arc::try_clone(&one)?,
            other: Arc::try_clone(&two)?,
        };
        let second = Meeting {
            own: two,
            other: one,
        };
        Ok((first, second))
    }

    /// The same end again.
    pub(crate) fn again(&self) -> Result<Meeting, AllocError> {
        Ok(Meeting {
            own: Arc::try_clone(&self.own)?,
            other: Arc::try_clone(&self.other)?,
        })
    }

    /// Comes to the meeting and waits for the other end. It answers after how many turns that had come, or all turns
    /// where it had in none.
    pub(crate) fn wait(&self) -> u32
        ensures { result ≤ TURNS }
    {
        self.own.store(true, Ordering::SeqCst);
        for turn in 0..TURNS {
            if self.other.load(Ordering::SeqCst) {
                return turn;
            }
            yield_now();
        }
        TURNS
    }
}
