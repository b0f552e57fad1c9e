//! A source in memory that waits for another one at an offset.
ghost use Rattle.std.specs.Prelude.{◌≡◌, ◌+◌, ◌<◌, ◌≤◌, ◌⊎◌, [], ◌++◌, length, take, drop, min, false, Some, IfOk, IsOk, OnOk, OnErr, IsTrue, string_bytes};
ghost use Rattle.ff_host.specs.Causes.{added, HasCause};
ghost use Rattle.ff_host.specs.laws.memory.MeetEnds.{new_meeting, most_turns, GoesOn, gave, failed_alone};

use crate::memory::meeting::{Meeting, TURNS};
use crate::memory::plan::one_more;
use crate::memory::quiet_source::QuietSource;
use crate::{Failed, Source};
use std::marker::Model;

/// A source in memory whose first read that begins at or past an offset waits until the other one's has begun.
///
/// It waits for at most 10,000,000 turns of one load and one yield, and fails where these run out.
#[derive(Drop)]
pub struct MeetSource {
    inner: QuietSource,
    meeting: Meeting,
    at: u64,
    offset: u64,
    met: bool,
    turns: u32,
    faults: u64,
    failed: bool,
}

impl Model for MeetSource {
    ghost use Rattle.ff_host.specs.laws.memory.MeetEnds.{MeetReading};

    ghost Value = { MeetReading };

    ghost view = { λ s. record {
      name = s.inner.name;
      left = s.inner.left;
      at = s.at;
      offset = s.offset;
      met = s.met;
      turns = s.turns;
      faults = s.faults;
      failed = s.failed;
    } };
}

impl MeetSource {
    /// A source over this one, which waits at this offset.
    pub(crate) fn new(inner: QuietSource, meeting: Meeting, offset: u64) -> MeetSource
        ensures { result ≡ new_meeting inner.name inner.left offset }
    {
        MeetSource {
            inner,
            meeting,
            at: 0,
            offset,
            met: false,
            turns: 0,
            faults: 0,
            failed: false,
        }
    }

    /// How often reading failed.
    pub(crate) fn faults(&self) -> u64
        ensures { result ≡ self.now.faults }
    {
        self.faults
    }

    /// The source without its meeting.
    pub(crate) fn into_inner(self) -> QuietSource
        ensures { result ≡ record { name = self.name; left = self.left } }
    {
        self.inner
    }

    // Whether a read may go on: none has failed, and it begins before the offset or the other source has come to its own.
    fn goes_on(&mut self) -> bool
        ensures goes_on { self.old.failed ≡ false → GoesOn self.old → IsTrue result }
        ensures ok { IsTrue result → (self.old.failed ≡ false) × GoesOn self.new }
        ensures after { IsTrue result → self.new ≡ record self.old { met = self.new.met; turns = self.new.turns } }
        ensures err { result ≡ false → IsTrue self.old.failed ⊎ (self.new.turns ≡ most_turns) }
        ensures after_err { result ≡ false → self.new ≡ record self.old { turns = self.new.turns } }
    {
        if self.failed {
            return false;
        }
        if self.met || self.at < self.offset {
            return true;
        }
        self.turns = self.meeting.wait();
        self.met = self.turns < TURNS;
        self.met
    }

    fn fail(&mut self) -> Failed
        ensures after { self.new ≡ failed_alone self.old.turns self.old }
        ensures later { self.old.faults ≤ self.new.faults }
    {
        self.failed = true;
        self.faults = one_more(self.faults);
        Failed
    }
}

impl Source for MeetSource {
    ghost left = { λ s. Some s.left };

    ghost faults = { λ s. s.faults };

    ghost failed = { λ s. s.failed };

    ghost name = { λ s. Some s.name };

    // It never fails before the offset, nor where the two have met. It fails where the turns ran out, and from then on,
    // and else fills the buffer as far as the bytes reach.
    fn read(&mut self, buf: &mut [u8]) -> Result<usize, Failed>
        requires { 0 < length buf.old }
        ensures goes_on { self.old.failed ≡ false → GoesOn self.old → IsOk result }
        ensures meets { OnOk result ((self.old.failed ≡ false) × ((self.old.at < self.old.offset) ⊎ IsTrue self.new.met)) }
        ensures turns { OnErr result (IsTrue self.old.failed ⊎ (self.new.turns ≡ most_turns)) }
        ensures count { IfOk result (λ n. n ≡ min (length buf.old) (length self.old.left)) }
        ensures given { IfOk result (λ n. buf.new ≡ take n self.old.left ++ drop n buf.old) }
        ensures after { IfOk result (λ n. self.new ≡ gave n self.new.met self.new.turns self.old) }
        ensures err { OnErr result (self.new ≡ failed_alone self.new.turns self.old) }
        ensures cause { HasCause self.old.faults self.new.faults result }
        ensures buffer { OnErr result (buf.new ≡ buf.old) }
    {
        if !self.goes_on() {
            return Err(self.fail());
        }
        let count = self.inner.read(buf)?;
        self.at = self.at.saturating_add(count as u64);
        Ok(count)
    }
}
