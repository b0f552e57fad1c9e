//! The machine of framesync as a filter.
ghost use Rattle.std.specs.Prelude.{◌≡◌, ◌||◌, ◌↔◌, ◌<◌, ◌≤◌, ◌^◌, ◌+◌, List, length, map, IsTrue, IfOk, OnOk, OnErr, IfErr, Ok, Some, None, true, false};
ghost use Rattle.ff_stream.specs.declared.item.Item.{Item as AnItem};
ghost use Rattle.ff_stream.specs.declared.item.Item.TheVariants.{Video};
ghost use Rattle.ff_stream.specs.declared.item.Lane.TheVariants.{Frames};
ghost use Rattle.ff_filter.specs.Views.{Fed, Same, Gave, Waits, Stopped, IsSpent};
ghost use Rattle.ff_fsync.specs.Synced.{pictures};
ghost use Rattle.ff_fsync.specs.Sides.{side_at, shown_as, sync_view, sync_spent, is_done as is_done_by};
ghost use Rattle.ff_fsync.specs.laws.SideLaws.{sync-grows, sync-hides, sync-settles, sync-quiet, sync-spent_only, sync-shut_spent, sync-done_spent};
ghost use Rattle.ff_fsync.specs.laws.Syncs.{sides_of, sides_sound, standing_of, timing_of, IsDue, NoneFrom, AreLed, AreEmptied, KeepsNothing, seen};

use crate::framesync::Framesync;
use crate::lending::{lend, restore};
use crate::stack::Stack;
use ff_filter::{After, Filter};
use ff_frame::VFrame;
use ff_stream::{Item, Refused};
use std::alloc::AllocError;

impl<S: Stack> Framesync<S> {
    // Lets the frames of each input go before the last one by the time of what is due.
    fn trim(&mut self, time: u64)
        requires due { IsDue (timing_of self.old.shortest self.old.inputs.items) self.old.from (standing_of self.old.head self.old.inputs.items) time }
        ensures led { AreLed self.old.head self.old.inputs.items self.new.inputs.items time (length self.old.inputs.items) }
        ensures stack { self.new.stack ≡ self.old.stack }
        ensures head { self.new.head ≡ self.old.head }
        ensures shortest { self.new.shortest ≡ self.old.shortest }
        ensures from { self.new.from ≡ self.old.from }
        ensures ended { self.new.ended ≡ self.old.ended }
        ensures stopped { self.new.stopped ≡ self.old.stopped }
    {
        'inputs: for p in 0..self.inputs.len() {
            self.inputs[p].trim(time);
        }
    }
}

impl<S: Stack> Framesync<S> {
    /// Lets all frames go that wait.
    pub(crate) fn let_go(&mut self)
        ensures cleared { KeepsNothing self.new }
        ensures emptied { AreEmptied self.old.head self.old.inputs.items self.new.inputs.items (length self.old.inputs.items) }
        ensures stack { self.new.stack ≡ self.old.stack }
        ensures head { self.new.head ≡ self.old.head }
        ensures shortest { self.new.shortest ≡ self.old.shortest }
        ensures from { self.new.from ≡ self.old.from }
        ensures ended { self.new.ended ≡ self.old.ended }
        ensures stopped { self.new.stopped ≡ self.old.stopped }
        ensures over { self.old.ended ≡ true → Same (seen (S.shows self.old.stack) self.old) (seen (S.shows self.new.stack) self.new) }
    {
        'inputs: for p in 0..self.inputs.len() {
            self.inputs[p].clear();
        }
    }

    // Where the output has ended, lets all go.
    fn settle(&mut self)
        ensures same { Same (seen (S.shows self.old.stack) self.old) (seen (S.shows self.new.stack) self.new) }
        ensures cleared { self.new.ended ≡ true → KeepsNothing self.new }
    {
        if self.ended {
            self.let_go();
        }
    }

    // Lets an item go that nobody wants; that the input closes is noted.
    fn pass_over(&mut self, port: usize, item: Item)
        requires there { port < length self.old.inputs.items }
        requires unwanted { (self.old.ended || self.old.stopped) ≡ true }
        requires open { (seen (S.shows self.old.stack) self.old).shut port ≡ false }
        ensures fed { Fed (seen (S.shows self.old.stack) self.old) (seen (S.shows self.new.stack) self.new) port item }
        ensures kept { KeepsNothing self.old → KeepsNothing self.new }
    {
        self.inputs[port].pass_over(item);
    }
}

impl<S: Stack> Framesync<S> {
    // The closing item, where nothing is due any more.
    fn close(&mut self) -> Option<Item>
        requires none { NoneFrom self.old.head self.old.shortest self.old.inputs.items self.old.from }
        requires going { self.old.ended ≡ false }
        ensures gives { (x : AnItem) → result ≡ Some x → Gave (sync_view (S.shows self.old.stack) self.old.shortest (Frames self.old.head) self.old.from (sides_of self.old.inputs.items) self.old.ended self.old.stopped) (sync_view (S.shows self.new.stack) self.new.shortest (Frames self.new.head) self.new.from (sides_of self.new.inputs.items) self.new.ended self.new.stopped) 0 x }
        ensures waits { result ≡ None → Waits (sync_view (S.shows self.old.stack) self.old.shortest (Frames self.old.head) self.old.from (sides_of self.old.inputs.items) self.old.ended self.old.stopped) (sync_view (S.shows self.new.stack) self.new.shortest (Frames self.new.head) self.new.from (sides_of self.new.inputs.items) self.new.ended self.new.stopped) 0 }
    {
        match self.mark() {
            After::More => None,
            After::Whole => {
                self.ended = true;
                Some(Item::End)
            }
            After::Broke => {
                self.ended = true;
                Some(Item::Broken)
            }
        }
    }

    // Whether the output is closed by what came so far.
    fn is_done(&self) -> bool
        ensures { result ≡ is_done_by self.now.shortest (Frames self.now.head) (sides_of self.now.inputs.items) }
    {
        match self.mark() {
            After::More => false,
            After::Whole => true,
            After::Broke => true,
        }
    }

    // What is shown at the time of what is due.
    fn show(&mut self, time: u64) -> Result<VFrame, AllocError>
        requires due { IsDue (timing_of self.old.shortest self.old.inputs.items) self.old.from (standing_of self.old.head self.old.inputs.items) time }
        requires near { time < 2 ^ 63 }
        ensures same { Same (sync_view (S.shows self.old.stack) self.old.shortest (Frames self.old.head) self.old.from (sides_of self.old.inputs.items) self.old.ended self.old.stopped) (sync_view (S.shows self.new.stack) self.new.shortest (Frames self.new.head) self.new.from (sides_of self.new.inputs.items) self.new.ended self.new.stopped) }
        ensures due { IsDue (timing_of self.new.shortest self.new.inputs.items) self.new.from (standing_of self.new.head self.new.inputs.items) time }
        ensures shows { IfOk result (λ f. shown_as (S.shows self.new.stack) time (pictures (timing_of self.new.shortest self.new.inputs.items) (standing_of self.new.head self.new.inputs.items) time) ≡ Video f) }
        ensures ended { self.new.ended ≡ self.old.ended }
        ensures stopped { self.new.stopped ≡ self.old.stopped }
    {
        self.trim(time);
        let pictures = match lend(&mut self.inputs, self.alloc) {
            Err(error) => return Err(error),
            Ok(pictures) => pictures,
        };
        let shown = self.stack.show(time, pictures.as_slice());
        restore(&mut self.inputs, pictures);
        shown
    }

    // The next item, where the output isn't closed.
    fn pull_on(&mut self) -> Result<Option<Item>, AllocError>
        requires going { self.old.ended ≡ false }
        requires wanted { self.old.stopped ≡ false }
        ensures gives { (x : AnItem) → result ≡ Ok (Some x) → Gave (sync_view (S.shows self.old.stack) self.old.shortest (Frames self.old.head) self.old.from (sides_of self.old.inputs.items) self.old.ended self.old.stopped) (sync_view (S.shows self.new.stack) self.new.shortest (Frames self.new.head) self.new.from (sides_of self.new.inputs.items) self.new.ended self.new.stopped) 0 x }
        ensures waits { result ≡ Ok None → Waits (sync_view (S.shows self.old.stack) self.old.shortest (Frames self.old.head) self.old.from (sides_of self.old.inputs.items) self.old.ended self.old.stopped) (sync_view (S.shows self.new.stack) self.new.shortest (Frames self.new.head) self.new.from (sides_of self.new.inputs.items) self.new.ended self.new.stopped) 0 }
        ensures unchanged { OnErr result (Same (sync_view (S.shows self.old.stack) self.old.shortest (Frames self.old.head) self.old.from (sides_of self.old.inputs.items) self.old.ended self.old.stopped) (sync_view (S.shows self.new.stack) self.new.shortest (Frames self.new.head) self.new.from (sides_of self.new.inputs.items) self.new.ended self.new.stopped)) }
    {
        let Some(time) = self.due(self.from) else {
            return Ok(self.close());
        };
        match self.show(time) {
            Err(error) => Err(error),
            Ok(frame) => {
                self.from = time + 1;
                Ok(Some(Item::Video(frame)))
            }
        }
    }
}

impl<S: Stack> Filter for Framesync<S> {
    ghost view = { λ m. sync_view (S.shows m.stack) m.shortest (Frames m.head) m.from (sides_of m.inputs.items) m.ended m.stopped };

    ghost spends = { λ m p. sync_spent m.shortest (Frames m.head) (sides_of m.inputs.items) m.ended m.stopped p };

    fn inputs(&self) -> usize {
        self.inputs.len()
    }

    fn outputs(&self) -> usize {
        1
    }

    fn is_shut(&self, port: usize) -> bool {
        self.inputs[port].is_shut()
    }

    fn is_stopped(&self, _port: usize) -> bool {
        self.stopped
    }

    fn feed(&mut self, port: usize, item: Item) -> Result<(), Refused>
        requires there { port < length (seen (S.shows self.old.stack) self.old).ins }
        requires open_before { (seen (S.shows self.old.stack) self.old).shut port ≡ false }
        ensures fed { OnOk result (Fed (seen (S.shows self.old.stack) self.old) (seen (S.shows self.new.stack) self.new) port item) }
        ensures refused { IfErr result (λ r. r.item ≡ item) }
        ensures unchanged { OnErr result (Same (seen (S.shows self.old.stack) self.old) (seen (S.shows self.new.stack) self.new)) }
        ensures cleared { (self.old.ended || self.old.stopped) ≡ true → KeepsNothing self.old → KeepsNothing self.new }
    {
        if self.ended | self.stopped {
            self.pass_over(port, item);
            return Ok(());
        }
        match self.inputs[port].feed(item) {
            Ok(()) => Ok(()),
            Err(refused) => Err(refused),
        }
    }

    fn pull(&mut self, _port: usize) -> Result<Option<Item>, AllocError>
        requires there { _port < length (seen (S.shows self.old.stack) self.old).outs }
        requires wanted { (seen (S.shows self.old.stack) self.old).stopped _port ≡ false }
        ensures gives { (x : AnItem) → result ≡ Ok (Some x) → Gave (seen (S.shows self.old.stack) self.old) (seen (S.shows self.new.stack) self.new) _port x }
        ensures waits { result ≡ Ok None → Waits (seen (S.shows self.old.stack) self.old) (seen (S.shows self.new.stack) self.new) _port }
        ensures unchanged { OnErr result (Same (seen (S.shows self.old.stack) self.old) (seen (S.shows self.new.stack) self.new)) }
        ensures cleared { (self.old.ended ≡ true → KeepsNothing self.old) → self.new.ended ≡ true → KeepsNothing self.new }
    {
        if self.ended {
            return Ok(None);
        }
        match self.pull_on() {
            Err(error) => Err(error),
            Ok(given) => {
                self.settle();
                Ok(given)
            }
        }
    }

    fn stop(&mut self, _port: usize)
        requires there { _port < length (seen (S.shows self.old.stack) self.old).outs }
        ensures stopped { Stopped (seen (S.shows self.old.stack) self.old) (seen (S.shows self.new.stack) self.new) _port }
        ensures cleared { KeepsNothing self.new }
    {
        self.let_go();
        self.stopped = true;
    }

    fn spent(&self, port: usize) -> bool {
        let shut = self.inputs[port].is_shut();
        let done = self.is_done();
        self.stopped | (self.ended | (shut | done))
    }

    ghost grows = { λ m. sync-grows (S.shows m.stack) m.shortest (Frames m.head) m.from (sides_of m.inputs.items) (sides_sound (Frames m.head) m.inputs.items) m.ended m.stopped };

    ghost hides = { λ m. sync-hides (S.shows m.stack) m.shortest (Frames m.head) m.from (sides_of m.inputs.items) (sides_sound (Frames m.head) m.inputs.items) m.ended m.stopped };

    ghost settles = { λ m. sync-settles (S.shows m.stack) m.shortest (Frames m.head) m.from (sides_of m.inputs.items) (sides_sound (Frames m.head) m.inputs.items) m.ended m.stopped };

    ghost quiet = { λ m q e ext. sync-quiet (S.shows m.stack) m.shortest (Frames m.head) m.from (sides_of m.inputs.items) (sides_sound (Frames m.head) m.inputs.items) m.ended m.stopped q e ext };

    ghost spent_only = { λ m p lt e. sync-spent_only (S.shows m.stack) m.shortest (Frames m.head) m.from (sides_of m.inputs.items) (sides_sound (Frames m.head) m.inputs.items) m.ended m.stopped p e };

    ghost shut_spent = { λ m p lt e. sync-shut_spent (S.shows m.stack) m.shortest (Frames m.head) m.from (sides_of m.inputs.items) (sides_sound (Frames m.head) m.inputs.items) m.ended m.stopped p e };

    ghost done_spent = { λ m p lt z d. sync-done_spent (S.shows m.stack) m.shortest (Frames m.head) m.from (sides_of m.inputs.items) (sides_sound (Frames m.head) m.inputs.items) m.ended m.stopped p d };
}
