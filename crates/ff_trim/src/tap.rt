//! One output of a filter, with its cut.
ghost use Rattle.std.specs.Prelude.{◌≡◌, Ok, OnErr, None, Some, is_some, false, true};
ghost use Rattle.ff_filter.specs.Views.{closes};
ghost use Rattle.ff_stream.specs.declared.item.Item.{Item as AnItem};
ghost use Rattle.ff_filter.specs.Joins.{Flow};
ghost use Rattle.ff_filter.specs.Made.{is_over as is_over_by};
ghost use Rattle.ff_filter.specs.laws.Held.{held_closes};
ghost use Rattle.ff_trim.specs.Cuts.{is_empty, starts_over};

use crate::counted::{FirstOf, OutputCut};
use ff_filter::{After, Given, Step, closing_of};
use ff_frame::StreamHead;
use ff_stream::{Item, discard};
use std::alloc::AllocError;

/// What one step towards an output came to.
#[derive(Drop)]
pub enum Turn {
    /// An item is due.
    Gave(Item),
    /// Nothing is due.
    Waits,
    /// It goes on.
    On,
}

/// One output of a filter, with a cut after it.
#[derive(Drop)]
pub struct Tap {
    /// The cut.
    pub cut: FirstOf,
    /// An item that waits before the cut, since there was no memory for it.
    pub held: Option<Item>,
    /// How the output stands after what was given.
    pub after: After,
    /// Whether the closing item was given.
    pub ended: bool,
    /// Whether the output isn't wanted any more.
    pub stopped: bool,
    pub ghost held_open: { held_closes held ≡ false },
}

// Whether the length is given as 0.
fn has_no_length(length: Option<u64>) -> bool
    ensures { result ≡ is_empty length }
{
    match length {
        Some(0) => true,
        Some(_) => false,
        None => false,
    }
}

// Whether the number of frames is.
fn has_no_frames(frames: Option<u32>) -> bool
    ensures { result ≡ is_empty frames }
{
    match frames {
        Some(0) => true,
        Some(_) => false,
        None => false,
    }
}

// With a length of 0, or without a frame, the output ends before anything comes.
fn at_once(cut: OutputCut) -> After
    ensures { result ≡ starts_over cut }
{
    if has_no_length(cut.time.length) || has_no_frames(cut.frames) {
        After::Whole
    } else {
        After::More
    }
}

impl Tap {
    ghost use Rattle.ff_trim.specs.laws.Taps.{way_of, IsNewWay, IsPut, IsKept, IsResumed, IsKeptStill, IsShut, IsLeft};

    /// An output of this head, to which nothing came.
    pub fn new(head: &StreamHead, cut: OutputCut) -> Tap
        ensures { IsNewWay head.now cut (way_of result) }
    {
        Tap {
            cut: FirstOf::of(head, cut),
            held: None,
            after: at_once(cut),
            ended: false,
            stopped: false,
        }
    }

    /// Whether it stands closed after what was given.
    pub fn is_over(&self) -> bool
        ensures { result ≡ is_over_by self.now.after }
    {
        self.after.is_over()
    }

    /// Whether an item waits before the cut.
    pub fn holds(&self) -> bool
        ensures { result ≡ is_some self.now.held }
    {
        self.held.is_some()
    }

    // Takes an item that closes nothing to the cut.
    fn step_on(&mut self, item: Item) -> Result<Turn, AllocError>
        requires going { self.old.ended ≡ false }
        requires more { self.old.after ≡ After.More }
        requires free { self.old.held ≡ None }
        requires goes_on { closes item ≡ false }
        ensures on { result ≡ Ok Turn.On → IsPut (way_of self.old) (way_of self.new) item None }
        ensures gave { (y : AnItem) → result ≡ Ok (Turn.Gave y) → IsPut (way_of self.old) (way_of self.new) item (Some y) }
        ensures due { result ≡ Ok Turn.Waits → ⊥ }
        ensures kept { OnErr result (IsKept (way_of self.old) (way_of self.new) item) }
    {
        match self.cut.step(item) {
            Ok(Given { item, after }) => {
                self.after = after;
                match item {
                    Some(made) => Ok(Turn::Gave(made)),
                    None => Ok(Turn::On),
                }
            }
            Err(refused) => {
                self.held = Some(refused.item);
                Err(AllocError)
            }
        }
    }

    /// Takes an item to the cut. One for which there is no memory waits before it.
    pub fn put(&mut self, item: Item) -> Result<Turn, AllocError>
        requires going { self.old.ended ≡ false }
        requires more { self.old.after ≡ After.More }
        requires free { self.old.held ≡ None }
        ensures on { result ≡ Ok Turn.On → IsPut (way_of self.old) (way_of self.new) item None }
        ensures gave { (y : AnItem) → result ≡ Ok (Turn.Gave y) → IsPut (way_of self.old) (way_of self.new) item (Some y) }
        ensures due { result ≡ Ok Turn.Waits → ⊥ }
        ensures kept { OnErr result (IsKept (way_of self.old) (way_of self.new) item) }
    {
        match closing_of(&item) {
            Some(after) => {
                discard(item);
                self.after = after;
                Ok(Turn::On)
            }
            None => self.step_on(item),
        }
    }

    /// Takes the item that waits to the cut once more.
    pub fn resume(&mut self) -> Result<Turn, AllocError>
        requires going { self.old.ended ≡ false }
        requires more { self.old.after ≡ After.More }
        requires held { is_some self.old.held ≡ true }
        ensures on { result ≡ Ok Turn.On → IsResumed (way_of self.old) (way_of self.new) None }
        ensures gave { (y : AnItem) → result ≡ Ok (Turn.Gave y) → IsResumed (way_of self.old) (way_of self.new) (Some y) }
        ensures due { result ≡ Ok Turn.Waits → ⊥ }
        ensures kept { OnErr result (IsKeptStill (way_of self.old) (way_of self.new)) }
    {
        match self.held.take() {
            Some(item) => self.step_on(item),
            None => unreachable!(),
        }
    }

    /// Gives the closing item.
    pub fn close(&mut self) -> Item
        requires going { self.old.ended ≡ false }
        requires over { is_over_by self.old.after ≡ true }
        ensures { IsShut (way_of self.old) (way_of self.new) result }
    {
        self.ended = true;
        match self.after {
            After::More => unreachable!(),
            After::Whole => Item::End,
            After::Broke => Item::Broken,
        }
    }

    /// The output isn't wanted any more.
    pub fn stop(&mut self)
        ensures { IsLeft (way_of self.old) (way_of self.new) }
    {
        self.stopped = true;
    }
}
