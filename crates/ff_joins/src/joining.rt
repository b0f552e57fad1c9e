//! The steps by which `join` makes frames of the sample frames that wait.
ghost use Rattle.std.specs.Prelude.{◌≡◌, ◌↔◌, ◌≤◌, ◌<◌, ◌*◌, ◌^◌, ◌||◌, IsTrue, ℤ, List, length, false, true, Some, None, Ok, OnOk, OnErr, IfOk, IfErr, IfSome};
ghost use Rattle.ff_stream.specs.declared.item.Item.{Item as AnItem};
ghost use Rattle.ff_stream.specs.declared.item.Lane.TheVariants.{Frames};
ghost use Rattle.ff_stream.specs.Ports.{nothing};
ghost use Rattle.ff_stream.specs.Times.{start_of as start_of_item};
ghost use Rattle.ff_stream.specs.Within.{passes_limits, some_pass};
ghost use Rattle.ff_stream.specs.Stream.{has_closed};
ghost use Rattle.ff_filter.specs.declared.after.After.TheVariants.{More};
ghost use Rattle.ff_filter.specs.Made.{is_over as is_over_by};
ghost use Rattle.ff_filter.specs.Views.{Same, Fed, Gave, Waits, IsSpent};
ghost use Rattle.ff_joins.specs.laws.Lots.{lots, start_after, has_started_by};
ghost use Rattle.ff_joins.specs.laws.JoinSeen.{join_seen, join_spent, fed_mark, is_decided as is_decided_by};
ghost use Rattle.ff_joins.specs.laws.JoinCuts.{frame_length, frame_end, is_late as is_late_by, next_frames};
ghost use Rattle.ff_joins.specs.laws.JoinDrawing.{due, frame_start, frame_with, HaveAll, IsNextFrame, StandsSo, IsLast};

use crate::interleaving::first_rows;
use crate::join::Join;
use crate::join_options::{channels, rate_and_bits};
use crate::rows::{any_stands, fewest, skip_rows, width};
use ff_filter::{After, closing_of};
use ff_frame::AFrame;
use ff_stream::{Item, Refused, discard, ends_past, is_long, ticks_from, time_base};
use std::alloc::AllocError;

// The sample frames of a frame, but for the last one.
const WHOLE_FRAME: usize = 1024;

// The most frames that a stream has.
const MOST_FRAMES: u128 = 1 << 40;

// The last time that there is.
const LAST_TICK: i128 = 9_223_372_036_854_775_807;

// When an item starts; what has no time starts at 0.
fn start_of(item: &Item) -> i64
    ensures { result ≡ start_of_item item.now }
{
    match item {
        Item::Audio(frame) => frame.pts,
        Item::Video(frame) => frame.pts,
        Item::Packet(packet) => packet.pts,
        Item::Trailer(_) | Item::End | Item::Broken => 0,
    }
}

// The start of the first item of the first input, where one that starts then comes on an input.
fn first_with(first: Option<i64>, port: usize, start: i64) -> Option<i64>
    ensures { result ≡ has_started_by first port start }
{
    if port == 0 && first.is_none() {
        Some(start)
    } else {
        first
    }
}

impl Join {
    // When the first item of the first input starts.
    fn start(&self) -> i64
        ensures { result ≡ start_after self.now.first nothing }
    {
        match self.first {
            None => 0,
            Some(start) => start,
        }
    }

    // When the next frame starts. None where that is so late that the frame passes a limit.
    fn next_start(&self) -> Option<i64>
        ensures some { IfSome result (λ z. z ≡ frame_start self.now) }
        ensures none { result ≡ None → (xs : List ℤ) → passes_limits (Frames self.now.head) self.now.given (frame_with self.now xs) ≡ true }
    {
        let base = time_base(&self.head);
        let _den = base.den();
        let start = self.start() as i128 + 1024 * (self.given as i128);
        if start > LAST_TICK {
            None
        } else {
            Some(start as i64)
        }
    }

    // The frame of the first so many sample frames of each input, which starts then.
    fn frame(&self, start: i64, count: usize) -> Result<Item, AllocError>
        requires all { HaveAll self.now count }
        requires few { count ≤ 1024 }
        requires start { start ≡ frame_start self.now }
        ensures { IfOk result (λ x. x ≡ due self.now count) }
    {
        let all = channels(&self.head);
        let samples = first_rows(self.alloc, self.inlets.as_slice(), count)?;
        let (rate, bits) = rate_and_bits(&self.head);
        Ok(Item::Audio(AFrame {
            pts: start,
            rate,
            bits,
            channels: all,
            samples,
        }))
    }

    // Gives the frame of so many sample frames, after which the output stands so; or breaks off, where the frame passes a limit.
    fn give(&mut self, count: usize, after: After) -> Result<Item, AllocError>
        requires all { HaveAll self.old count }
        requires few { count ≤ 1024 }
        requires next { IsNextFrame self.old count after }
        requires more { self.old.after ≡ More }
        requires open { self.old.ended ≡ false }
        ensures gives { IfOk result (λ x. Gave (join_seen self.old) (join_seen self.new) 0 x) }
        ensures unchanged { OnErr result (Same (join_seen self.old) (join_seen self.new)) }
    {
        let start = match self.next_start() {
            None => return Ok(self.close(Item::Broken)),
            Some(start) => start,
        };
        let item = self.frame(start, count)?;
        if is_long(&self.head, self.given, &item) {
            discard(item);
            return Ok(self.close(Item::Broken));
        }
        skip_rows(&mut self.inlets, count);
        self.given += 1;
        self.after = after;
        Ok(item)
    }

    // How the output stands after the fewest sample frames that wait on one of the inputs.
    fn standing(&self, count: usize) -> After
        ensures { StandsSo self.now count result }
    {
        let inlets = self.inlets.as_slice();
        if any_stands(inlets, count, After::Whole) {
            After::Whole
        } else if any_stands(inlets, count, After::More) {
            After::More
        } else {
            After::Broke
        }
    }

    // Gives the closing item.
    fn close(&mut self, item: Item) -> Item
        requires last { IsLast self.old item }
        requires open { self.old.ended ≡ false }
        ensures { Gave (join_seen self.old) (join_seen self.new) 0 result }
    {
        self.ended = true;
        item
    }

    // The next frame, or the closing item.
    fn take_frame(&mut self) -> Result<Option<Item>, AllocError>
        requires more { self.old.after ≡ More }
        requires open { self.old.ended ≡ false }
        ensures gives { (x : AnItem) → result ≡ Ok (Some x) → Gave (join_seen self.old) (join_seen self.new) 0 x }
        ensures waits { result ≡ Ok None → Waits (join_seen self.old) (join_seen self.new) 0 }
        ensures unchanged { OnErr result (Same (join_seen self.old) (join_seen self.new)) }
    {
        let count = fewest(self.inlets.as_slice());
        if count >= WHOLE_FRAME {
            return Ok(Some(self.give(WHOLE_FRAME, After::More)?));
        }
        match self.standing(count) {
            After::More => Ok(None),
            After::Broke => Ok(Some(self.close(Item::Broken))),
            After::Whole => {
                if count == 0 {
                    Ok(Some(self.close(Item::End)))
                } else {
                    Ok(Some(self.give(count, After::Whole)?))
                }
            }
        }
    }

    /// The next item of the output that is wanted, or the closing one. None where nothing is due.
    pub fn take(&mut self) -> Result<Option<Item>, AllocError>
        ensures gives { (x : AnItem) → result ≡ Ok (Some x) → Gave (join_seen self.old) (join_seen self.new) 0 x }
        ensures waits { result ≡ Ok None → Waits (join_seen self.old) (join_seen self.new) 0 }
        ensures unchanged { OnErr result (Same (join_seen self.old) (join_seen self.new)) }
    {
        if self.ended {
            return Ok(None);
        }
        match self.after {
            After::Whole => Ok(Some(self.close(Item::End))),
            After::Broke => Ok(Some(self.close(Item::Broken))),
            After::More => self.take_frame(),
        }
    }

    // Takes in what comes when nothing more is wanted: only that an input closes.
    fn pass_over(&mut self, port: usize, item: Item)
        requires there { port < length self.old.inlets.items }
        requires open { is_over_by (lots self.old.inlets.items port).after ≡ false }
        requires done { (self.old.stopped || (self.old.ended || is_over_by self.old.after)) ≡ true }
        ensures { Fed (join_seen self.old) (join_seen self.new) port item }
    {
        match closing_of(&item) {
            None => discard(item),
            Some(after) => {
                discard(item);
                self.inlets[port].close(after);
            }
        }
    }

    // Keeps what comes on an input.
    fn keep(&mut self, port: usize, item: Item) -> Result<(), Refused>
        requires there { port < length self.old.inlets.items }
        requires open { is_over_by (lots self.old.inlets.items port).after ≡ false }
        ensures fed { OnOk result (Fed (join_seen self.old) (join_seen self.new) port item) }
        ensures refused { IfErr result (λ r. r.item ≡ item) }
        ensures unchanged { OnErr result (Same (join_seen self.old) (join_seen self.new)) }
    {
        let first = first_with(self.first, port, start_of(&item));
        match self.inlets[port].take_in(item) {
            Ok(()) => {
                self.first = first;
                Ok(())
            }
            Err(refused) => Err(refused),
        }
    }

    /// Takes an item in. For want of memory it comes back, and nothing has changed.
    pub fn take_in(&mut self, port: usize, item: Item) -> Result<(), Refused>
        requires there { port < length self.old.inlets.items }
        requires open { is_over_by (lots self.old.inlets.items port).after ≡ false }
        ensures fed { OnOk result (Fed (join_seen self.old) (join_seen self.new) port item) }
        ensures refused { IfErr result (λ r. r.item ≡ item) }
        ensures unchanged { OnErr result (Same (join_seen self.old) (join_seen self.new)) }
    {
        if self.stopped | (self.ended | self.after.is_over()) {
            self.pass_over(port, item);
            return Ok(());
        }
        self.keep(port, item)
    }

    // How many ticks a frame of 1,024 sample frames is long.
    fn frame_long(&self) -> u128
        ensures is { result ≡ frame_length self.now }
        ensures near { result ≤ 2 ^ 83 }
    {
        let all = channels(&self.head) as u128;
        let samples = 1024 * width(self.inlets.as_slice());
        if all == 0 { 0 } else { samples / all }
    }

    // When the frame of this number ends, in ticks from 0.
    fn frame_ticks(&self, number: u128) -> u128
        requires { number ≤ 2 ^ 66 }
        ensures is { result ≡ frame_end self.now number }
        ensures near { result ≤ 2 ^ 90 }
    {
        let long = self.frame_long() as i128;
        ticks_from(self.start() as i128 + (1024 * number) as i128 + long)
    }

    // Whether the frame of this number passes a limit.
    fn is_late(&self, number: u128) -> bool
        requires { number ≤ 2 ^ 66 }
        ensures { result ≡ is_late_by self.now number }
    {
        (MOST_FRAMES <= number) | ends_past(&self.head, self.frame_ticks(number))
    }

    // Whether one of the next frames, which are so many, passes a limit.
    fn is_cut(&self, frames: usize) -> bool
        requires { HaveAll self.now (frames * 1024) }
        ensures { result ≡ some_pass (passes_limits (Frames self.now.head)) self.now.given (next_frames self.now frames) }
    {
        if frames == 0 {
            return false;
        }
        self.is_late(self.given as u128 + (frames - 1) as u128)
    }

    // Whether what was fed closes the output, where the closing item isn't known yet.
    fn is_fed_out(&self) -> bool
        ensures { result ≡ has_closed (fed_mark self.now) }
    {
        let count = fewest(self.inlets.as_slice());
        let standing = self.standing(count);
        if standing.is_over() {
            return true;
        }
        self.is_cut(count / WHOLE_FRAME)
    }

    // Whether the output is closed by what was fed.
    fn is_decided(&self) -> bool
        ensures { result ≡ is_decided_by self.now }
    {
        self.after.is_over() || self.is_fed_out()
    }

    /// Whether nothing more of an input can matter. That is exactly where it has closed, or where the output isn't
    /// wanted or is closed by what was fed.
    pub fn is_spent(&self, port: usize) -> bool
        requires { port < length self.now.inlets.items }
        ensures exact { IsTrue result ↔ IsSpent (join_seen self.now) port }
        ensures is { result ≡ join_spent self.now port }
    {
        let shut = self.inlets[port].after.is_over();
        let decided = self.is_decided();
        shut | (self.stopped | (self.ended | decided))
    }
}
