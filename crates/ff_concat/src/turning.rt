//! How an output goes on to its next segment.
ghost use Rattle.std.specs.Prelude.{◌≡◌, ◌<◌, ◌+◌, ◌*◌, ◌^◌, length};
ghost use Rattle.std.specs.List.{All};
ghost use Rattle.ff_concat.specs.laws.Moves.{GoesOn};
ghost use Rattle.ff_concat.specs.laws.Standing.{IsPassed};

use crate::reach::Reach;
use crate::segment::latest;
use crate::times::begin_of;
use crate::track::Track;

impl Track {
    // Goes on to the next segment, which begins at the latest end of the current one.
    fn turn(&mut self, ticks: &[u128], reaches: &[Reach], number: usize)
        requires there { self.old.current < length self.old.backlogs.items }
        requires inputs { length reaches.now ≡ length self.old.backlogs.items * length ticks.now }
        requires stream { number < length ticks.now }
        requires small { All (λ tick. tick < 2 ^ 62) ticks.now }
        requires passed { IsPassed self.old reaches.now (length ticks.now) number }
        ensures goes_on { GoesOn self.old self.new ticks.now number reaches.now }
        ensures next { self.new.current ≡ self.old.current + 1 }
    {
        let first = self.current * ticks.len();
        let end = self.by + reaches[first + number].end;
        let begin = self.begin.saturating_add(latest(ticks, reaches, first));
        let by = begin_of(self.tick, begin);
        self.current += 1;
        self.end = end;
        self.begin = begin;
        self.by = by;
    }

    /// Goes on to the first segment of which something is still to be given or to come, or past the last.
    pub(crate) fn turn_on(&mut self, ticks: &[u128], reaches: &[Reach], number: usize)
        requires inputs { length reaches.now ≡ length self.old.backlogs.items * length ticks.now }
        requires stream { number < length ticks.now }
        requires small { All (λ tick. tick < 2 ^ 62) ticks.now }
        ensures goes_on { GoesOn self.old self.new ticks.now number reaches.now }
        ensures not { self.new.current < length self.new.backlogs.items → IsPassed self.new reaches.now (length ticks.now) number → ⊥ }
    {
        'turns: while self.is_passed(reaches, ticks.len(), number) {
            self.turn(ticks, reaches, number);
        }
    }
}
