//! The machine of a function that gives at most one item for each.
ghost use Rattle.std.specs.Prelude.{◌≡◌, ◌↔◌, ◌||◌, [], not, OnOk, OnErr, IfErr, IsTrue, Some, true, false};
ghost use Rattle.ff_filter.specs.Views.{closes, Fed, Same, IsSpent};
ghost use Rattle.ff_filter.specs.Made.{stepper_view, is_over, steps_spent, closing};
ghost use Rattle.ff_filter.specs.laws.StepperLaws.{stepper-grows, stepper-hides, stepper-settles, stepper-quiet, stepper-spent, stepper-shut, stepper-done};

use crate::after::{After, closing_of};
use crate::filter::Filter;
use crate::outlet::Outlet;
use crate::step::Step;
use ff_stream::{Item, Refused, discard};
use std::alloc::{AllocError, Global};

/// The machine of a function that gives at most one item for each.
#[derive(Drop)]
pub struct Stepper<T> {
    /// The function.
    pub step: T,
    /// What waits to be pulled.
    pub outlet: Outlet,
    /// How the output stands after what waits.
    pub after: After,
    /// Whether the input has closed.
    pub shut: bool,
    pub ghost closed: { (not shut || is_over after) ≡ true },
}

impl<T: Step> Stepper<T> {
    /// Nothing was fed yet; the output stands so from the start.
    pub fn new(alloc: Global, step: T, after: After) -> Stepper<T>
        ensures view { stepper_view (T.lane_in result.step) (T.lane_out result.step) (T.runs result.step)
            result.outlet.queue.items result.outlet.ended result.outlet.stopped result.after result.shut
            ≡ stepper_view (T.lane_in step) (T.lane_out step) (T.runs step) [] false false after false }
        ensures step { result.step ≡ step }
    {
        Stepper {
            step,
            outlet: Outlet::new(alloc),
            after,
            shut: false,
        }
    }

    // The input closes so; an output that is over already stays as it is.
    fn close(&mut self, item: Item, after: After)
        requires says { closing item ≡ Some after }
        requires unshut { self.old.shut ≡ false }
        ensures fed { Fed
            (stepper_view (T.lane_in self.old.step) (T.lane_out self.old.step) (T.runs self.old.step)
            self.old.outlet.queue.items self.old.outlet.ended self.old.outlet.stopped self.old.after self.old.shut)
            (stepper_view (T.lane_in self.new.step) (T.lane_out self.new.step) (T.runs self.new.step)
            self.new.outlet.queue.items self.new.outlet.ended self.new.outlet.stopped self.new.after self.new.shut) 0 item }
    {
        discard(item);
        if self.after == After::More {
            self.after = after;
        }
        self.shut = true;
    }

    // Makes what is to be made of an item that closes nothing; where nobody wants more, nothing.
    fn step_on(&mut self, item: Item) -> Result<(), Refused>
        requires goes_on { closes item ≡ false }
        requires unshut { self.old.shut ≡ false }
        ensures idle { self.old.outlet.stopped ≡ true → self.new.step ≡ self.old.step }
        ensures fed { OnOk result (Fed
            (stepper_view (T.lane_in self.old.step) (T.lane_out self.old.step) (T.runs self.old.step)
            self.old.outlet.queue.items self.old.outlet.ended self.old.outlet.stopped self.old.after self.old.shut)
            (stepper_view (T.lane_in self.new.step) (T.lane_out self.new.step) (T.runs self.new.step)
            self.new.outlet.queue.items self.new.outlet.ended self.new.outlet.stopped self.new.after self.new.shut) 0 item) }
        ensures refused { IfErr result (λ r. r.item ≡ item) }
        ensures unchanged { OnErr result (Same
            (stepper_view (T.lane_in self.old.step) (T.lane_out self.old.step) (T.runs self.old.step)
            self.old.outlet.queue.items self.old.outlet.ended self.old.outlet.stopped self.old.after self.old.shut)
            (stepper_view (T.lane_in self.new.step) (T.lane_out self.new.step) (T.runs self.new.step)
            self.new.outlet.queue.items self.new.outlet.ended self.new.outlet.stopped self.new.after self.new.shut)) }
    {
        if self.outlet.stopped | self.after.is_over() {
            discard(item);
            return Ok(());
        }
        if self.outlet.reserve().is_err() {
            return Err(Refused { item });
        }
        match self.step.step(item) {
            Ok(given) => {
                self.after = given.after;
                self.outlet.put_any(given.item);
                Ok(())
            }
            Err(refused) => Err(refused),
        }
    }

    /// Whether nothing more of the input can matter. That is exactly where it has closed, or where the output isn't
    /// wanted or is closed by what was fed.
    pub fn is_spent(&self) -> bool
        ensures exact { IsTrue result ↔ IsSpent
            (stepper_view (T.lane_in self.now.step) (T.lane_out self.now.step) (T.runs self.now.step)
            self.now.outlet.queue.items self.now.outlet.ended self.now.outlet.stopped self.now.after self.now.shut) 0 }
        ensures is { result ≡ steps_spent self.now.after self.now.outlet.ended self.now.outlet.stopped }
    {
        self.outlet.is_done() | self.after.is_over()
    }
}

impl<T: Step> Filter for Stepper<T> {
    ghost view = { λ m. stepper_view (T.lane_in m.step) (T.lane_out m.step) (T.runs m.step) m.outlet.queue.items m.outlet.ended m.outlet.stopped m.after m.shut };

    ghost spends = { λ m p. steps_spent m.after m.outlet.ended m.outlet.stopped };

    fn inputs(&self) -> usize {
        1
    }

    fn outputs(&self) -> usize {
        1
    }

    fn is_shut(&self, _port: usize) -> bool {
        self.shut
    }

    fn is_stopped(&self, _port: usize) -> bool {
        self.outlet.stopped
    }

    fn feed(&mut self, _port: usize, item: Item) -> Result<(), Refused> {
        match closing_of(&item) {
            Some(after) => {
                self.close(item, after);
                Ok(())
            }
            None => self.step_on(item),
        }
    }

    fn pull(&mut self, _port: usize) -> Result<Option<Item>, AllocError> {
        Ok(self.outlet.take(self.after))
    }

    fn stop(&mut self, _port: usize) {
        self.outlet.stop();
    }

    fn spent(&self, _port: usize) -> bool {
        self.is_spent()
    }

    ghost grows = { λ m. stepper-grows (T.lane_in m.step) (T.lane_out m.step) (T.runs m.step) m.outlet.queue.items m.outlet.ended m.outlet.stopped m.after m.shut
        (T.below m.step) };

    ghost hides = { λ m. stepper-hides (T.lane_in m.step) (T.lane_out m.step) (T.runs m.step) m.outlet.queue.items m.outlet.ended m.outlet.stopped m.after m.shut
        (T.calm m.step) };

    ghost settles = { λ m. stepper-settles (T.lane_in m.step) (T.lane_out m.step) (T.runs m.step)
        m.outlet.queue.items m.outlet.ended m.outlet.stopped m.after m.shut m.closed (T.settles m.step) };

    ghost quiet = { λ m q. stepper-quiet (T.runs m.step) m.outlet.queue.items m.outlet.ended m.after };

    ghost spent_only = { λ m p lt e. stepper-spent (T.lane_in m.step) (T.lane_out m.step) (T.runs m.step)
        m.outlet.queue.items m.outlet.ended m.outlet.stopped m.after m.shut p e };

    ghost shut_spent = { λ m p lt e. stepper-shut m.after m.outlet.ended m.outlet.stopped m.shut m.closed e };

    ghost done_spent = { λ m p lt z d. stepper-done (T.lane_in m.step) (T.lane_out m.step) (T.runs m.step)
        m.outlet.queue.items m.outlet.ended m.outlet.stopped m.after m.shut d };
}
