//! An input of framesync, with the frames that may still be shown.
ghost use Rattle.std.specs.Prelude.{◌≡◌, ◌<◌, ◌≤◌, ◌^◌, ℕ, ◌||◌, ◌&&◌, not, min, nat_lt, [], true, false, length, nat_le, IfErr, IfSome, IsNone, OnOk, OnErr};
ghost use Rattle.std.specs.VecDeque.{deque_len, deque_capacity};
ghost use Rattle.ff_stream.specs.declared.item.Lane.TheVariants.{Frames};
ghost use Rattle.ff_stream.specs.Stream.{is_whole as whole_mark, is_open as open_mark, is_broken as broken_mark};
ghost use Rattle.ff_filter.specs.Joins.{Flow, before};
ghost use Rattle.ff_filter.specs.Made.{is_over, mark_after};
ghost use Rattle.ff_filter.specs.Views.{closes};
ghost use Rattle.ff_fsync.specs.Synced.{is_empty as none_waits};
ghost use Rattle.ff_fsync.specs.Sides.{coming, no_side, fills_to, frames_of};
ghost use Rattle.ff_fsync.specs.laws.Inputs.{items_of, side_by, emptied, begun_by, reaches, Trims, IsNextIn, IsLastBy, whole_if, second_by as second_starts_by, led_by, given_back};

use crate::time::time_among;
use ff_filter::{After, closing_of};
use ff_frame::{Bytes, StreamHead, VFrame};
use ff_stream::{Item, Refused, discard};
use std::alloc::{AllocError, Global};
use std::collections::VecDeque;
use std::mem::replace;

/// An input of video, which keeps what may still be shown: the last frame that was shown, and those after it.
#[derive(Drop)]
pub struct Input {
    /// The head of its stream.
    pub head: StreamHead,
    /// The frames, at rising times.
    pub queue: VecDeque<VFrame>,
    /// How the stream stands after them.
    pub after: After,
    /// The time from which on the next frame may start.
    pub next: u64,
    pub ghost filled: { fills_to 0 (items_of queue.items) next ≡ true },
    pub ghost near: { next ≤ 2 ^ 63 },
}

impl Input {
    /// Nothing came yet.
    pub fn new(alloc: Global, head: StreamHead) -> Input
        ensures { side_by result.head result.queue.items result.after result.next ≡ no_side (Frames head) }
    {
        Input {
            head,
            queue: VecDeque::new(alloc),
            after: After::More,
            next: 0,
        }
    }

    /// Whether the closing item came.
    pub fn is_shut(&self) -> bool
        ensures { result ≡ is_over self.now.after }
    {
        self.after.is_over()
    }

    /// Whether all has come.
    pub fn is_whole(&self) -> bool
        ensures { result ≡ whole_mark (mark_after self.now.after) }
    {
        self.after == After::Whole
    }

    /// Whether no frame came.
    pub fn is_empty(&self) -> bool
        ensures { result ≡ none_waits (items_of self.now.queue.items) }
    {
        self.queue.is_empty()
    }

    /// Makes room for one frame more.
    pub fn reserve(&mut self) -> Result<(), AllocError>
        ensures queue { self.new.queue.items ≡ self.old.queue.items }
        ensures head { self.new.head ≡ self.old.head }
        ensures after { self.new.after ≡ self.old.after }
        ensures next { self.new.next ≡ self.old.next }
        ensures room { OnOk result (deque_len self.new.queue < deque_capacity self.new.queue) }
    {
        self.queue.reserve(1)
    }

    // Takes a frame in, where it starts after those before; another is let go.
    fn take_frame(&mut self, frame: VFrame)
        requires room { deque_len self.old.queue < deque_capacity self.old.queue }
        requires open { self.old.after ≡ After.More }
        ensures taken { (t : Flow) → coming (side_by self.new.head self.new.queue.items self.new.after self.new.next) t ≡ coming (side_by self.old.head self.old.queue.items self.old.after self.old.next) (before (Item.Video frame) t) }
        ensures after { self.new.after ≡ After.More }
        ensures head { self.new.head ≡ self.old.head }
    {
        let start = time_among(&frame);
        if start < self.next {
            discard(Item::Video(frame));
            return;
        }
        self.queue.push_back_reserved(frame);
        self.next = start + 1;
    }

    /// Takes an item in. What isn't a frame that starts after those before is let go.
    pub fn take_in(&mut self, item: Item)
        requires room { deque_len self.old.queue < deque_capacity self.old.queue }
        requires going { is_over self.old.after ≡ false }
        ensures taken { (t : Flow) → coming (side_by self.new.head self.new.queue.items self.new.after self.new.next) t ≡ coming (side_by self.old.head self.old.queue.items self.old.after self.old.next) (before item t) }
        ensures shut { is_over self.new.after ≡ closes item }
        ensures head { self.new.head ≡ self.old.head }
    {
        match item {
            Item::Video(frame) => self.take_frame(frame),
            Item::End => self.after = After::Whole,
            Item::Broken => self.after = After::Broke,
            Item::Audio(frame) => discard(Item::Audio(frame)),
            Item::Packet(packet) => discard(Item::Packet(packet)),
            Item::Trailer(totals) => discard(Item::Trailer(totals)),
        }
    }

    /// Takes an item in. For want of memory it comes back, and nothing has changed.
    pub fn feed(&mut self, item: Item) -> Result<(), Refused>
        requires going { is_over self.old.after ≡ false }
        ensures taken { OnOk result ((t : Flow) → coming (side_by self.new.head self.new.queue.items self.new.after self.new.next) t ≡ coming (side_by self.old.head self.old.queue.items self.old.after self.old.next) (before item t)) }
        ensures shut { OnOk result (is_over self.new.after ≡ closes item) }
        ensures refused { IfErr result (λ r. r.item ≡ item) }
        ensures unchanged { OnErr result (side_by self.new.head self.new.queue.items self.new.after self.new.next ≡ side_by self.old.head self.old.queue.items self.old.after self.old.next) }
        ensures head { self.new.head ≡ self.old.head }
    {
        if self.reserve().is_err() {
            return Err(Refused { item });
        }
        self.take_in(item);
        Ok(())
    }

    /// Lets all its frames go.
    pub(crate) fn clear(&mut self)
        ensures side { side_by self.new.head self.new.queue.items self.new.after self.new.next ≡ emptied (side_by self.old.head self.old.queue.items self.old.after self.old.next) }
    {
        self.queue.clear();
        self.next = 0;
    }

    /// Lets an item go that nobody wants; that the stream closes is noted.
    pub(crate) fn pass_over(&mut self, item: Item)
        requires going { is_over self.old.after ≡ false }
        ensures shut { is_over self.new.after ≡ closes item }
        ensures queue { self.new.queue.items ≡ self.old.queue.items }
        ensures head { self.new.head ≡ self.old.head }
    {
        if let Some(after) = closing_of(&item) {
            self.after = after;
        }
        discard(item);
    }

    /// Whether some frame starts at or after a time.
    pub fn reaches(&self, time: u64) -> bool
        ensures { result ≡ reaches (items_of self.now.queue.items) time }
    {
        time < self.next
    }

    /// Whether it is known which of its frames is the last by a time, and may be shown. That is where one starts at
    /// or after it, or where all have come and the output doesn't end with them.
    pub fn is_known(&self, time: u64, shortest: bool) -> bool
        ensures { result ≡ (reaches (items_of self.now.queue.items) time || (whole_mark (mark_after self.now.after) && not shortest)) }
    {
        self.reaches(time) || self.is_whole() && !shortest
    }

    /// Whether all has come; of an open input, whether that counts as if it had.
    pub fn has_ended(&self, ended: bool) -> bool
        ensures { result ≡ whole_if ended (mark_after self.now.after) }
    {
        match self.after {
            After::More => ended,
            After::Whole => true,
            After::Broke => false,
        }
    }

    /// Whether all has come, or of an open input that counts as if it had; or it has come to below a time.
    pub fn outlasts(&self, next: u64, ended: bool) -> bool
        ensures { result ≡ (whole_if ended (mark_after self.now.after) || nat_le next self.now.next) }
    {
        self.has_ended(ended) || next <= self.next
    }

    /// Whether the output may end with it. Then all has come, or counts as if it had, and it has no frame, or the
    /// output ends where it does.
    pub fn may_end(&self, ended: bool, shortest: bool) -> bool
        ensures { result ≡ (whole_if ended (mark_after self.now.after) && (shortest || none_waits (items_of self.now.queue.items))) }
    {
        self.has_ended(ended) && (shortest || self.is_empty())
    }

    /// Whether it broke off.
    pub fn is_broken(&self) -> bool
        ensures { result ≡ broken_mark (mark_after self.now.after) }
    {
        self.after == After::Broke
    }

    /// Whether it is open, and hasn't come to a time.
    pub fn is_behind(&self, time: u64) -> bool
        ensures { result ≡ (open_mark (mark_after self.now.after) && not (reaches (items_of self.now.queue.items) time)) }
    {
        self.after == After::More && !self.reaches(time)
    }

    /// Whether its first frame starts by a time.
    pub fn begins_by(&self, time: u64) -> bool
        ensures { result ≡ begun_by (items_of self.now.queue.items) time }
    {
        match self.start() {
            None => false,
            Some(start) => start <= time,
        }
    }

    /// Whether it is no hindrance to something further at a time. Then it has begun and is known there, or it is open
    /// and has begun by then or has no frame yet.
    pub fn allows(&self, time: u64, shortest: bool) -> bool
        ensures { result ≡ ((begun_by (items_of self.now.queue.items) time && (reaches (items_of self.now.queue.items) time || (whole_mark (mark_after self.now.after) && not shortest))) || (open_mark (mark_after self.now.after) && (none_waits (items_of self.now.queue.items) || begun_by (items_of self.now.queue.items) time))) }
    {
        let begun = self.begins_by(time);
        begun && self.is_known(time, shortest)
            || self.after == After::More && (self.is_empty() || begun)
    }

    /// The sooner of a time and the one from which on it binds what is still to be shown, if it does.
    pub fn bound(&self, bound: u64, shortest: bool) -> u64
        ensures bound { (t : ℕ) → nat_lt t result ≡ (nat_lt t bound && (open_mark (mark_after self.now.after) || (reaches (items_of self.now.queue.items) t || (whole_mark (mark_after self.now.after) && not shortest)))) }
        ensures no_later { result ≤ bound }
    {
        match self.after {
            After::More => bound,
            After::Whole => {
                if shortest {
                    least_of(bound, self.next)
                } else {
                    bound
                }
            }
            After::Broke => least_of(bound, self.next),
        }
    }

    /// When its first frame starts.
    pub fn start(&self) -> Option<u64>
        ensures none { IsNone result → self.now.queue.items ≡ [] }
        ensures begun { IfSome result (λ s. (u : ℕ) → begun_by (items_of self.now.queue.items) u ≡ nat_le s u) }
        ensures near { IfSome result (λ s. s < 2 ^ 63) }
    {
        match self.queue.front() {
            None => None,
            Some(frame) => Some(time_among(frame)),
        }
    }

    /// When the first of its frames starts that doesn't start before a time.
    pub fn start_from(&self, lo: u64) -> Option<u64>
        ensures next { IsNextIn (items_of self.now.queue.items) lo result }
        ensures near { IfSome result (λ t. t < 2 ^ 63) }
    {
        'pictures: for i in 0..self.queue.len() {
            let start = time_among(&self.queue[i]);
            if start >= lo {
                return Some(start);
            }
        }
        None
    }

    // Whether its second frame starts by a time.
    fn second_by(&self, time: u64) -> bool
        ensures { result ≡ second_starts_by self.now.queue.items time }
    {
        match self.queue.get(1) {
            None => false,
            Some(frame) => time_among(frame) <= time,
        }
    }

    /// Lets its frames go before the last one by a time.
    pub(crate) fn trim(&mut self, time: u64)
        requires begun { begun_by (items_of self.old.queue.items) time ≡ true }
        ensures trims { Trims time (side_by self.old.head self.old.queue.items self.old.after self.old.next) (side_by self.new.head self.new.queue.items self.new.after self.new.next) }
        ensures last { IsLastBy self.new.queue.items time }
    {
        'pictures: while self.second_by(time) {
            if let Some(frame) = self.queue.pop_front() {
                discard(Item::Video(frame));
            }
        }
    }

    /// Hands out its first frame, and keeps its place by one without planes.
    pub(crate) fn lend(&mut self, alloc: Global) -> VFrame
        requires some { 0 < length self.old.queue.items }
        ensures { given_back result (side_by self.new.head self.new.queue.items self.new.after self.new.next)
            ≡ side_by self.old.head self.old.queue.items self.old.after self.old.next }
    {
        let place = bare(alloc, &self.queue[0]);
        replace(&mut self.queue[0], place)
    }

    /// Takes its first frame back.
    pub(crate) fn take_back(&mut self, picture: VFrame)
        requires fills { fills_to 0 (led_by picture (items_of self.old.queue.items)) self.old.next ≡ true }
        ensures { side_by self.new.head self.new.queue.items self.new.after self.new.next
            ≡ given_back picture (side_by self.old.head self.old.queue.items self.old.after self.old.next) }
    {
        match self.queue.front_mut() {
            None => discard(Item::Video(picture)),
            Some(first) => *first = picture,
        }
    }
}

// A frame at the same time, without planes.
fn bare(alloc: Global, picture: &VFrame) -> VFrame
    ensures { result.pts ≡ picture.now.pts }
{
    VFrame {
        pts: picture.pts,
        duration: picture.duration,
        format: picture.format,
        width: picture.width,
        height: picture.height,
        planes: Bytes::new(Vec::new(alloc)),
    }
}

// The lesser of two times.
fn least_of(a: u64, b: u64) -> u64
    ensures { result ≡ min a b }
{
    if a < b { a } else { b }
}
