//! The rest of a worker that has nothing to do. It never yields. On a busy machine a yield gives the processor away
//! for a whole slice of another program. A sleep from which it is woken doesn't.

/// After so many turns that moved nothing a worker whose link is full no longer spins. It has time, since its
/// receiver has the whole link to take from.
pub const SPINS_FOR_ROOM: u32 = 2;

/// One with nothing to take holds up all that come after it.
pub const SPINS_FOR_ITEMS: u32 = 50;

// The first sleeps of a rest are short, and the others long. A neighbour rings where there is something to do. So a
// long sleep holds up only a ring that came while its worker was changing.
const SHORT_SLEEPS: u32 = 8;

const SHORT: u64 = 1;

const LONG: u64 = 32;

/// What a worker does after a turn that moved nothing.
#[derive(Drop)]
pub enum Step {
    /// It tries again at once.
    Spin,
    /// It asks to be woken, and tries once more.
    Ask,
    /// It sleeps until it is woken, for at most so many milliseconds.
    Sleep(u64),
}

/// The rest of a worker between two turns. A turn that moved something ends it.
#[derive(Drop)]
pub struct Rest {
    idle: u32,
    asked: bool,
}

impl Rest {
    /// The rest of a worker whose last turn moved something.
    pub fn new() -> Rest {
        Rest {
            idle: 0,
            asked: false,
        }
    }

    /// A turn moved something. It says whether the worker has asked to be woken.
    pub fn end(&mut self) -> bool {
        let asked = self.asked;
        self.idle = 0;
        self.asked = false;
        asked
    }

    /// A turn moved nothing: after so many spins it asks to be woken and sleeps, by turns. The first sleeps are short.
    pub fn next(&mut self, spins: u32) -> Step {
        let idle = self.idle;
        self.idle = idle.saturating_add(1);
        if idle < spins {
            return Step::Spin;
        }
        let steps = idle - spins;
        if steps % 2 == 0 {
            self.asked = true;
            return Step::Ask;
        }
        Step::Sleep(if steps / 2 < SHORT_SLEEPS {
            SHORT
        } else {
            LONG
        })
    }
}
