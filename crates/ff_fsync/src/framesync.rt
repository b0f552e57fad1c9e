//! The state of framesync, and the time of what it shows next.
ghost use Rattle.std.specs.Prelude.{◌≡◌, ◌↔◌, ◌<◌, ◌≤◌, ◌^◌, ◌+◌, ℕ, Bool, ◌&&◌, ◌||◌, not, cond, nat_lt, List, length, IsTrue, IsNone, IfSome, IfOk, OnOk, OnErr, IfErr, Ok, Some, None, true, false};
ghost use Rattle.ff_stream.specs.declared.item.Item.{Item};
ghost use Rattle.ff_stream.specs.declared.item.Lane.TheVariants.{Frames};
ghost use Rattle.ff_filter.specs.Made.{is_over, mark_after};
ghost use Rattle.ff_filter.specs.Views.{Fed, Same, Gave, Waits, IsSpent};
ghost use Rattle.ff_fsync.specs.Ranges.{all_to};
ghost use Rattle.ff_fsync.specs.Synced.{begun, is_known, is_shown, pictures as pictures_at, synced_mark, is_complete as complete_of, goes_on as goes_on_of};
ghost use Rattle.ff_fsync.specs.Sides.{side_at, shown_as, sync_view, sync_spent, frames_of};
ghost use Rattle.ff_fsync.specs.laws.Syncs.{sides_of, sides_sound, standing_of, timing_of, IsStart, NoneFrom, LeastOf, IsDue, sooner_of};

use crate::input::Input;
use crate::stack::Stack;
use ff_filter::{After, Filter};
use ff_frame::{StreamHead, VFrame};
use ff_stream::{Item, Refused};
use std::alloc::{AllocError, Global};

/// The machine of framesync: it shows something of the frames of its inputs at each time at which one of them starts a
/// frame.
#[derive(Drop)]
pub struct Framesync<S: Stack> {
    /// What is shown.
    pub stack: S,
    /// The head of the output.
    pub head: StreamHead,
    /// The inputs.
    pub inputs: Vec<Input>,
    /// Whether the output ends where the first input does.
    pub shortest: bool,
    /// The time from which on something is still to be shown.
    pub from: u64,
    /// Whether the closing item was given.
    pub ended: bool,
    /// Whether the output isn't wanted any more.
    pub stopped: bool,
    /// Where memory comes from.
    pub alloc: Global,
}

impl<S: Stack> Framesync<S> {
    // The first time, not before one, from which on each input has begun; None where one has no frame yet.
    fn start(&self, from: u64) -> Option<u64>
        ensures none { IsNone result → NoneFrom self.now.head self.now.shortest self.now.inputs.items from }
        ensures start { IfSome result (λ lo. IsStart self.now.head self.now.shortest self.now.inputs.items from lo (length self.now.inputs.items)) }
    {
        let mut lo = from;
        'inputs: for p in 0..self.inputs.len() {
            match self.inputs[p].start() {
                None => return None,
                Some(start) => lo = later(lo, start),
            }
        }
        Some(lo)
    }

    // The first time from one on at which an input starts a frame.
    fn least(&self, lo: u64) -> Option<u64>
        ensures { LeastOf self.now.head self.now.shortest self.now.inputs.items lo (length self.now.inputs.items) result }
    {
        let mut least: Option<u64> = None;
        'inputs: for p in 0..self.inputs.len() {
            least = sooner(least, self.inputs[p].start_from(lo));
        }
        least
    }

    // Whether of each input it is known which frame is the last by a time.
    fn is_known(&self, time: u64) -> bool
        ensures { result ≡ all_to (length self.now.inputs.items) (is_known (timing_of self.now.shortest self.now.inputs.items) (standing_of self.now.head self.now.inputs.items) time) }
    {
        'inputs: for p in 0..self.inputs.len() {
            if !self.inputs[p].is_known(time, self.shortest) {
                return false;
            }
        }
        true
    }

    /// The time of what is to be shown first from a time on.
    pub fn due(&self, from: u64) -> Option<u64>
        ensures none { IsNone result → NoneFrom self.now.head self.now.shortest self.now.inputs.items from }
        ensures due { IfSome result (λ t. IsDue (timing_of self.now.shortest self.now.inputs.items) from (standing_of self.now.head self.now.inputs.items) t) }
        ensures near { IfSome result (λ t. t < 2 ^ 63) }
    {
        let Some(lo) = self.start(from) else {
            return None;
        };
        if !self.is_known(lo) {
            return None;
        }
        let Some(time) = self.least(lo) else {
            return None;
        };
        if !self.is_known(time) {
            return None;
        }
        Some(time)
    }
}

// The later of two times.
fn later(a: u64, b: u64) -> u64
    ensures { result ≡ cond (nat_lt a b) b a }
{
    if a < b { b } else { a }
}

// The sooner of two times.
fn sooner(a: Option<u64>, b: Option<u64>) -> Option<u64>
    ensures { result ≡ sooner_of a b }
{
    match a {
        None => b,
        Some(x) => match b {
            None => Some(x),
            Some(y) => if y < x { Some(y) } else { Some(x) },
        },
    }
}
