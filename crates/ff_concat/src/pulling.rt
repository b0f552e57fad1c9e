//! How an output gives its items.
ghost use Rattle.std.specs.Prelude.{◌≡◌, ◌<◌, ◌+◌, ◌*◌, ◌^◌, length, true, false, Ok, Some, None, OnErr, [], ◌∷◌};
ghost use Rattle.std.specs.List.{All};
ghost use Rattle.ff_stream.specs.declared.item.Item.{Item as AnItem};
ghost use Rattle.ff_filter.specs.Options.{is_sound};
ghost use Rattle.ff_filter.specs.Views.{closes};
ghost use Rattle.ff_concat.specs.laws.Moves.{GoesOn, Gave, Waits, Told};
ghost use Rattle.ff_concat.specs.Silences.{filled};
ghost use Rattle.ff_concat.specs.laws.Standing.{IsPassed};

use crate::reach::Reach;
use crate::silence::silent_frame;
use crate::times::later;
use crate::track::Track;
use ff_filter::After;
use ff_frame::StreamHead;
use ff_stream::{Item, discard, is_long};
use std::alloc::{AllocError, Global};

/// The most sample frames of a frame of zeros.
const MOST: u128 = 1024;

impl Track {
    // The item, or the closing one in its place where it passes a limit.
    fn give(&mut self, item: Item) -> Item
        requires goes_on { closes item ≡ false }
        requires open { self.old.ended ≡ false }
        ensures told { Told self.old self.new item result }
    {
        if is_long(&self.head, self.before, &item) {
            discard(item);
            self.ended = true;
            return Item::Broken;
        }
        self.before += 1;
        item
    }

    // The next frame of the zeros that are still to be given before the current segment.
    fn silence(&self, alloc: Global) -> Result<Option<Item>, AllocError>
        ensures some { (x : AnItem) → result ≡ Ok (Some x) → (closes x ≡ false) × (self.now.end < self.now.by)
            × (filled self.now.head self.now.end self.now.by ≡ x ∷ filled self.now.head (self.now.end + 1024) self.now.by) }
        ensures none { result ≡ Ok None → filled self.now.head self.now.end self.now.by ≡ [] }
        ensures err { OnErr result (is_sound self.now.head ≡ true) }
    {
        match self.head {
            StreamHead::Video { .. } => Ok(None),
            StreamHead::Audio {
                rate,
                bits,
                channels,
                ..
            } => {
                if self.by <= self.end {
                    return Ok(None);
                }
                let count = (self.by - self.end).min(MOST) as usize;
                match silent_frame(alloc, rate, bits, channels, self.end as u64, count) {
                    Ok(frame) => Ok(Some(frame)),
                    Err(error) => Err(error),
                }
            }
        }
    }

    // The next item of the current segment, before which no zeros are to be given, or a break where no more can come.
    fn next(&mut self, reaches: &[Reach], ticks: &[u128], number: usize) -> Option<Item>
        requires open { self.old.ended ≡ false }
        requires there { self.old.current < length self.old.backlogs.items }
        requires inputs { length reaches.now ≡ length self.old.backlogs.items * length ticks.now }
        requires stream { number < length ticks.now }
        requires no_zeros { filled self.old.head self.old.end self.old.by ≡ [] }
        requires not { IsPassed self.old reaches.now (length ticks.now) number → ⊥ }
        ensures gives { (x : AnItem) → result ≡ Some x → Gave self.old self.new ticks.now number reaches.now x }
        ensures waits { result ≡ None → Waits self.old self.new ticks.now number reaches.now }
    {
        if self.is_next_late() {
            self.ended = true;
            return Some(Item::Broken);
        }
        match self.take_next() {
            Some(item) => {
                let item = later(item, self.by);
                Some(self.give(item))
            }
            None => match self.standing(reaches, ticks.len(), number) {
                After::Broke => {
                    self.ended = true;
                    Some(Item::Broken)
                }
                After::More | After::Whole => None,
            },
        }
    }

    // The next item, or the closing one, where the current segment isn't passed.
    fn draw(
        &mut self,
        alloc: Global,
        reaches: &[Reach],
        ticks: &[u128],
        number: usize,
    ) -> Result<Option<Item>, AllocError>
        requires open { self.old.ended ≡ false }
        requires inputs { length reaches.now ≡ length self.old.backlogs.items * length ticks.now }
        requires stream { number < length ticks.now }
        requires not { self.old.current < length self.old.backlogs.items → IsPassed self.old reaches.now (length ticks.now) number → ⊥ }
        ensures gives { (x : AnItem) → result ≡ Ok (Some x) → Gave self.old self.new ticks.now number reaches.now x }
        ensures waits { result ≡ Ok None → Waits self.old self.new ticks.now number reaches.now }
        ensures unchanged { OnErr result (GoesOn self.old self.new ticks.now number reaches.now) }
    {
        if self.current == self.backlogs.len() {
            self.ended = true;
            return Ok(Some(Item::End));
        }
        match self.silence(alloc) {
            Err(error) => Err(error),
            Ok(None) => Ok(self.next(reaches, ticks, number)),
            Ok(Some(frame)) => {
                self.end += MOST;
                Ok(Some(self.give(frame)))
            }
        }
    }

    /// The next item, or the closing one. None where nothing is due.
    pub fn pull(
        &mut self,
        alloc: Global,
        reaches: &[Reach],
        ticks: &[u128],
        number: usize,
    ) -> Result<Option<Item>, AllocError>
        requires inputs { length reaches.now ≡ length self.old.backlogs.items * length ticks.now }
        requires stream { number < length ticks.now }
        requires small { All (λ tick. tick < 2 ^ 62) ticks.now }
        ensures gives { (x : AnItem) → result ≡ Ok (Some x) → Gave self.old self.new ticks.now number reaches.now x }
        ensures waits { result ≡ Ok None → Waits self.old self.new ticks.now number reaches.now }
        ensures unchanged { OnErr result (GoesOn self.old self.new ticks.now number reaches.now) }
    {
        if self.ended {
            return Ok(None);
        }
        self.turn_on(ticks, reaches, number);
        self.draw(alloc, reaches, ticks, number)
    }
}
