//! The machine of `hstack` and `vstack`, within the limits of every stream.
ghost use Rattle.std.specs.Prelude.{◌≡◌, ◌↔◌, ◌<◌, ◌^◌, nat_le, cond, [], ◌∷◌, length, IsTrue};
ghost use Rattle.ff_stream.specs.declared.item.Lane.TheVariants.{Frames};
ghost use Rattle.ff_stream.specs.Times.{ticks};
ghost use Rattle.ff_filter.specs.Views.{View, Gave, IsSpent};
ghost use Rattle.ff_fsync.specs.laws.Inputs.{items_of, last_by};
ghost use Rattle.ff_fsync.specs.Sides.{frames_of};
ghost use Rattle.ff_fsync.specs.Synced.{pictures};
ghost use Rattle.ff_fsync.specs.laws.Syncs.{timing_of, standing_of, IsDue};
ghost use Rattle.ff_fsync.specs.stacks.Bases.{units_at};
ghost use Rattle.ff_fsync.specs.stacks.Shapes.{lasts as lasts_at};
ghost use Rattle.ff_fsync.specs.laws.stacks.Limits.{limits_view, limits-grows, limits-hides, limits-settles, limits-quiet};
ghost use Rattle.ff_fsync.specs.laws.stacks.Stacked.{seen, sync_seen, is_cut as is_cut_of, stack_spent};
ghost use Rattle.ff_fsync.specs.laws.stacks.StackedLaws.{sync_grows, sync_hides, sync_settles};
ghost use Rattle.ff_fsync.specs.laws.stacks.StackedLaws.{sync_quiet, stacked-spent_only, stacked-shut_spent, stacked-done_spent};

use crate::stacks::bases::{at_times, item_in, times};
use crate::stacks::limits::is_long;
use crate::stacks::stacked::Stacked;
use crate::stacks::stacking::lasts_of;
use ff_filter::{Filter, ticks_of};
use ff_frame::VFrame;
use ff_stream::{Item, Refused, discard, end_ticks};
use std::alloc::AllocError;
use std::collections::VecDeque;

// The same, where this is the next frame of the first input.
fn lasts_on(lasts: u64, picture: &VFrame, time: u64) -> u64
    requires time { time < 2 ^ 63 }
    requires near { lasts < 2 ^ 63 }
    ensures is { result ≡ cond (nat_le (ticks picture.now.pts) time) (lasts_at time (picture.now ∷ [])) lasts }
    ensures near { result < 2 ^ 63 }
{
    if ticks_of(picture.pts) <= time {
        lasts_of(time, picture)
    } else {
        lasts
    }
}

// How long what is made of frames of which those of the first input are these is shown at a time.
fn lasts_by(queue: &VecDeque<VFrame>, time: u64) -> u64
    requires { time < 2 ^ 63 }
    ensures is { result ≡ lasts_at time (frames_of (last_by (items_of queue.now.items) time)) }
    ensures near { result < 2 ^ 63 }
{
    let mut lasts: u64 = 1;
    'pictures: for i in 0..queue.len() {
        lasts = lasts_on(lasts, &queue[i], time);
    }
    lasts
}

impl Stacked {
    // How many units of the output's base are in one of an input's.
    fn units_of(&self, port: usize) -> u64
        ensures { result ≡ units_at self.now.units.items port }
    {
        if port < self.units.len() {
            self.units[port]
        } else {
            1
        }
    }

    // How long what is due at a time is shown.
    fn lasts(&self, from: u64, time: u64) -> u64
        requires due { IsDue (timing_of self.now.sync.shortest self.now.sync.inputs.items) from
            (standing_of self.now.sync.head self.now.sync.inputs.items) time }
        requires near { time < 2 ^ 63 }
        ensures is { result ≡ lasts_at time (frames_of (pictures (timing_of self.now.sync.shortest self.now.sync.inputs.items)
            (standing_of self.now.sync.head self.now.sync.inputs.items) time)) }
        ensures near { result < 2 ^ 63 }
    {
        if self.sync.inputs.is_empty() {
            return 1;
        }
        lasts_by(&self.sync.inputs[0].queue, time)
    }

    // Whether of what is due one frame passes a limit.
    fn is_cut(&self) -> bool
        ensures { result ≡ is_cut_of self.now }
    {
        let mut from = self.sync.from;
        let mut before = self.before;
        loop {
            match self.sync.due(from) {
                None => return false,
                Some(time) => {
                    let end = time + self.lasts(from, time);
                    if is_long(&self.sync.head, before, end as u128) {
                        return true;
                    }
                    from = time + 1;
                    before += 1;
                }
            }
        }
    }

    // The item, where it passes no limit; else the output breaks off.
    fn pass(&mut self, item: Item) -> Item
        ensures { (v : View) → length v.outs ≡ 1 → Gave v (sync_seen self.old) 0 item
            → Gave (limits_view (Frames self.old.sync.head) self.old.before v) (seen self.new) 0 result }
    {
        if item.closes() {
            return item;
        }
        if is_long(&self.sync.head, self.before, end_ticks(&item)) {
            discard(item);
            self.sync.ended = true;
            self.sync.let_go();
            return Item::Broken;
        }
        self.before += 1;
        item
    }

    /// Whether nothing more of an input can matter. That is exactly where it has closed, or where the output isn't
    /// wanted or is closed by what was fed.
    pub fn is_spent(&self, port: usize) -> bool
        requires there { port < length (seen self.now).ins }
        ensures exact { IsTrue result ↔ IsSpent (seen self.now) port }
        ensures is { result ≡ stack_spent self.now port }
    {
        let spent = self.sync.spent(port);
        spent | self.is_cut()
    }
}

impl Filter for Stacked {
    ghost view = { λ m. seen m };

    ghost spends = { λ m p. stack_spent m p };

    fn inputs(&self) -> usize {
        self.sync.inputs()
    }

    fn outputs(&self) -> usize {
        1
    }

    fn is_shut(&self, port: usize) -> bool {
        self.sync.is_shut(port)
    }

    fn is_stopped(&self, port: usize) -> bool {
        self.sync.is_stopped(port)
    }

    fn feed(&mut self, port: usize, item: Item) -> Result<(), Refused> {
        let times = times(&item);
        let units = self.units_of(port);
        match self.sync.feed(port, item_in(units, item)) {
            Ok(()) => Ok(()),
            Err(refused) => Err(Refused {
                item: at_times(times, refused.item),
            }),
        }
    }

    fn pull(&mut self, port: usize) -> Result<Option<Item>, AllocError> {
        match self.sync.pull(port) {
            Err(error) => Err(error),
            Ok(None) => Ok(None),
            Ok(Some(item)) => Ok(Some(self.pass(item))),
        }
    }

    fn stop(&mut self, port: usize) {
        self.sync.stop(port);
    }

    fn spent(&self, port: usize) -> bool {
        self.is_spent(port)
    }

    ghost grows = { λ m. limits-grows (Frames m.sync.head) m.before (sync_seen m) (sync_grows m) };

    ghost hides = { λ m. limits-hides (Frames m.sync.head) m.before (sync_seen m) (sync_hides m) };

    ghost settles = { λ m. limits-settles (Frames m.sync.head) m.before (sync_seen m) (sync_settles m) };

    ghost quiet = { λ m q e ext. limits-quiet (Frames m.sync.head) m.before (sync_seen m) q ext (sync_quiet m q e ext) };

    ghost spent_only = { λ m p lt e. stacked-spent_only m p e };

    ghost shut_spent = { λ m p lt e. stacked-shut_spent m p e };

    ghost done_spent = { λ m p lt z d. stacked-done_spent m p d };
}
