//! How an output keeps what waits for it.
ghost use Rattle.std.specs.Prelude.{◌≡◌, ◌<◌, ◌||◌, length, true, false, [], OnOk, OnErr, IfErr, IfSome, IsNone};
ghost use Rattle.ff_filter.specs.Views.{closes};
ghost use Rattle.ff_concat.specs.laws.Moves.{Kept, IsUnchanged, Taken};
ghost use Rattle.ff_concat.specs.laws.Late.{first_late};
ghost use Rattle.ff_concat.specs.laws.Queues.{queue_at};

use crate::shifts::least_shift;
use crate::track::Track;
use ff_stream::{Item, Refused};

impl Track {
    /// Whether nothing more is to be given.
    pub(crate) fn is_done(&self) -> bool
        ensures { result ≡ (self.now.stopped || self.now.ended) }
    {
        self.stopped | self.ended
    }

    /// Keeps an item of a segment. For want of memory it comes back, and nothing has changed.
    pub(crate) fn keep(&mut self, segment: usize, item: Item) -> Result<(), Refused>
        requires goes_on { closes item ≡ false }
        requires there { segment < length self.old.backlogs.items }
        ensures kept { OnOk result (Kept self.old self.new segment item) }
        ensures refused { IfErr result (λ r. r.item ≡ item) }
        ensures unchanged { OnErr result (IsUnchanged self.old self.new) }
    {
        let least = least_shift(&self.head, &item);
        match self.backlogs[segment].push(item, least) {
            Ok(()) => Ok(()),
            Err(refused) => Err(refused),
        }
    }

    /// Whether the next item of the current segment ends too late.
    pub(crate) fn is_next_late(&self) -> bool
        requires { self.now.current < length self.now.backlogs.items }
        ensures { result ≡ first_late self.now.head self.now.by (queue_at self.now.backlogs.items self.now.current) }
    {
        self.backlogs[self.current].is_first_late(&self.head, self.by)
    }

    /// Takes out the next item of the current segment, which doesn't end too late.
    pub(crate) fn take_next(&mut self) -> Option<Item>
        requires there { self.old.current < length self.old.backlogs.items }
        requires in_time { first_late self.old.head self.old.by (queue_at self.old.backlogs.items self.old.current) ≡ false }
        ensures some { IfSome result (Taken self.old self.new) }
        ensures none { IsNone result → IsUnchanged self.old self.new × (queue_at self.new.backlogs.items self.new.current ≡ []) }
    {
        match self.backlogs[self.current].pop() {
            Some(item) => Some(item),
            None => None,
        }
    }

    /// It isn't wanted any more, and nothing waits for it.
    pub(crate) fn stop(&mut self)
        ensures head { self.new.head ≡ self.old.head }
        ensures backlogs { length self.new.backlogs.items ≡ length self.old.backlogs.items }
        ensures ended { self.new.ended ≡ self.old.ended }
        ensures stopped { self.new.stopped ≡ true }
    {
        self.stopped = true;
        'segments: for segment in 0..self.backlogs.len() {
            self.backlogs[segment].clear();
        }
    }
}
