//! The state of the output after what was fed: open, whole or broken.
ghost use Rattle.std.specs.Prelude.{◌≡◌, ◌<◌, ◌≤◌, ◌&&◌, ◌||◌, not, length, true, false};
ghost use Rattle.ff_filter.specs.Made.{mark_after};
ghost use Rattle.ff_fsync.specs.Ranges.{all_to, any_to};
ghost use Rattle.ff_fsync.specs.Synced.{reached, allows, outlasts, may_come as may_come_at, ends_with as ends_with_of, synced_mark, is_complete as complete_of, goes_on as goes_on_of};
ghost use Rattle.ff_fsync.specs.laws.Syncs.{standing_of, timing_of, ended_if, is_lost as is_lost_by, IsBound};
ghost use Rattle.ff_stream.specs.Stream.{is_open, is_whole, is_broken};

use crate::framesync::Framesync;
use crate::stack::Stack;
use ff_filter::After;

impl<S: Stack> Framesync<S> {
    // Whether each input is whole; of an open one, whether that counts as if it were.
    fn all_ended(&self, ended: bool) -> bool
        ensures { result ≡ all_to (length self.now.inputs.items) (λ p. is_whole (ended_if ended (standing_of self.now.head self.now.inputs.items) p).mark) }
    {
        'inputs: for p in 0..self.inputs.len() {
            if !self.inputs[p].has_ended(ended) {
                return false;
            }
        }
        true
    }

    // Whether each input is whole, or has come as far as to below a time.
    fn all_outlast(&self, port: usize, ended: bool) -> bool
        requires { port < length self.now.inputs.items }
        ensures { result ≡ all_to (length self.now.inputs.items) (λ q. is_whole (ended_if ended (standing_of self.now.head self.now.inputs.items) q).mark || outlasts (timing_of self.now.shortest self.now.inputs.items) (ended_if ended (standing_of self.now.head self.now.inputs.items)) port q) }
    {
        let next = self.inputs[port].next;
        'inputs: for q in 0..self.inputs.len() {
            if !(self.inputs[q].outlasts(next, ended)) {
                return false;
            }
        }
        true
    }

    // Whether the output ends with an input.
    fn ends_with(&self, port: usize, ended: bool) -> bool
        requires { port < length self.now.inputs.items }
        ensures { result ≡ ends_with_of (timing_of self.now.shortest self.now.inputs.items) (ended_if ended (standing_of self.now.head self.now.inputs.items)) port }
    {
        self.inputs[port].may_end(ended, self.shortest) && self.all_outlast(port, ended)
    }

    // Whether the output is whole; where so asked, as if each open input had ended.
    fn is_complete(&self, ended: bool) -> bool
        ensures { result ≡ complete_of (timing_of self.now.shortest self.now.inputs.items) (ended_if ended (standing_of self.now.head self.now.inputs.items)) }
    {
        if self.all_ended(ended) {
            return true;
        }
        'inputs: for p in 0..self.inputs.len() {
            if self.ends_with(p, ended) {
                return true;
            }
        }
        false
    }

    // Whether an input broke off.
    fn is_lost(&self) -> bool
        ensures { result ≡ is_lost_by self.now.head self.now.inputs.items }
    {
        'inputs: for p in 0..self.inputs.len() {
            if self.inputs[p].is_broken() {
                return true;
            }
        }
        false
    }

    // Whether an open input hasn't come to a time.
    fn some_behind(&self, time: u64) -> bool
        ensures { result ≡ any_to (length self.now.inputs.items) (λ p. is_open (standing_of self.now.head self.now.inputs.items p).mark && not (reached (timing_of self.now.shortest self.now.inputs.items) (standing_of self.now.head self.now.inputs.items) time p)) }
    {
        'inputs: for p in 0..self.inputs.len() {
            if self.inputs[p].is_behind(time) {
                return true;
            }
        }
        false
    }

    // Whether no input is a hindrance to something further at a time.
    fn all_allow(&self, time: u64) -> bool
        ensures { result ≡ all_to (length self.now.inputs.items) (allows (timing_of self.now.shortest self.now.inputs.items) (standing_of self.now.head self.now.inputs.items) time) }
    {
        'inputs: for p in 0..self.inputs.len() {
            if !self.inputs[p].allows(time, self.shortest) {
                return false;
            }
        }
        true
    }

    // The time from which on some input binds what is still to be shown.
    fn bound(&self) -> u64
        ensures { IsBound self.now.head self.now.shortest self.now.inputs.items (length self.now.inputs.items) result }
    {
        let mut bound: u64 = 18446744073709551615;
        'inputs: for p in 0..self.inputs.len() {
            bound = self.inputs[p].bound(bound, self.shortest);
        }
        bound
    }

    // Whether the output, of which an input broke off, may become whole, or something further be shown.
    fn goes_on(&self) -> bool
        requires lost { is_lost_by self.now.head self.now.inputs.items ≡ true }
        ensures { result ≡ goes_on_of (timing_of self.now.shortest self.now.inputs.items) (standing_of self.now.head self.now.inputs.items) }
    {
        if self.is_complete(true) {
            return true;
        }
        let bound = self.bound();
        if bound == 0 {
            return false;
        }
        let time = bound - 1;
        self.some_behind(time) && self.all_allow(time)
    }

    /// How the output stands after what is shown of all that came.
    pub fn mark(&self) -> After
        ensures { mark_after result ≡ synced_mark (timing_of self.now.shortest self.now.inputs.items) (standing_of self.now.head self.now.inputs.items) }
    {
        if self.is_complete(false) {
            return After::Whole;
        }
        if !self.is_lost() {
            return After::More;
        }
        if self.goes_on() {
            return After::More;
        }
        After::Broke
    }
}
