//! The machine of `fps`, which gives frames at an even rate.
ghost use Rattle.std.specs.Prelude.{◌≡◌, length, ◌<◌, ◌≤◌, ◌^◌, ◌⊎◌, ◌↔◌, OnOk, OnErr, Some, None, Ok, IfErr, IsTrue, ◌||◌, true, false};
ghost use Rattle.ff_stream.specs.declared.item.Item.{Item as AnItem};
ghost use Rattle.ff_stream.specs.declared.item.Lane.TheVariants.{Frames};
ghost use Rattle.ff_frame.specs.declared.video.VFrame.{VFrame as AFrame};
ghost use Rattle.ff_stream.specs.Within.{passes_limits};
ghost use Rattle.ff_stream.specs.Stream.{has_closed};
ghost use Rattle.ff_filter.specs.Views.{Fed, Gave, Waits, Same, Stopped, IsSpent};
ghost use Rattle.ff_filter.specs.Made.{is_over};
ghost use Rattle.ff_vfilter.specs.Rates.{number_of, shown};
ghost use Rattle.ff_vfilter.specs.laws.RateViews.{limit_of, work_left};
ghost use Rattle.ff_vfilter.specs.laws.RateSeen.{seen, fed_mark, rate_spent, KeepsNothing};
ghost use Rattle.ff_vfilter.specs.laws.RateCuts.{span_of, span_ahead, is_late as is_late_by, is_cut as is_cut_by};

use crate::showing::{Ahead, Showing};
use crate::span::Span;
use ff_filter::{Filter, Inlet, Next, closing_of};
use ff_frame::{StreamHead, VFrame};
use ff_stream::{Item, MOST_ITEMS, Refused, discard, ends_past};
use std::alloc::{AllocError, Global};
use std::mem::replace;

/// Gives frames at an even rate, within the limits of every stream.
#[derive(Drop)]
pub struct Rate {
    /// Where the memory of copies comes from.
    pub alloc: Global,
    /// The head of its input.
    pub head: StreamHead,
    /// The head of its output.
    pub given: StreamHead,
    /// The frame that is shown, and how far.
    pub showing: Showing,
    /// What waits on its input.
    pub input: Inlet,
    /// Whether the closing item was given.
    pub ended: bool,
    /// Whether the output isn't wanted any more.
    pub stopped: bool,
}

/// What one step of the work came to.
#[derive(Drop)]
pub enum Work {
    /// It went on, and gave nothing.
    On,
    /// It gave this.
    Gave(Item),
    /// Nothing is due.
    Waits,
}

// Whether a frame of this number passes a limit, where so many were given before it.
fn is_late(given: &StreamHead, before: u128, number: u64) -> bool
    requires { before < 2 ^ 65 }
    ensures { result ≡ is_late_by given.now before number }
{
    let end = number as u128 + 1;
    (MOST_ITEMS as u128 <= before) | ends_past(given, end)
}

// The same of the frame itself.
fn is_long(given: &StreamHead, before: u64, number: u64) -> bool
    requires { number < 2 ^ 62 }
    ensures { (f : AFrame) → result ≡ passes_limits (Frames given.now) before (shown number f) }
{
    is_late(given, before as u128, number)
}

// Whether a frame of these numbers passes a limit, where so many were given before the first: the last of them does.
fn is_cut(given: &StreamHead, before: u64, span: Option<Span>) -> bool
    ensures { result ≡ is_cut_by given.now before span }
{
    match span {
        None => false,
        Some(span) => {
            if span.next <= span.first {
                return false;
            }
            let others = span.next - span.first - 1;
            is_late(given, before as u128 + others as u128, span.next - 1)
        }
    }
}

impl Rate {
    // The next frame, where one is due; the closing item where it would pass a limit.
    fn give(&mut self) -> Result<Option<Item>, AllocError>
        requires { self.old.ended ≡ false }
        ensures gave { (x : AnItem) → result ≡ Ok (Some x) → Gave (seen self.old) (seen self.new) 0 x }
        ensures same { result ≡ Ok None → self.new ≡ self.old }
        ensures none { result ≡ Ok None
            → (self.old.showing.picture ≡ None)
            ⊎ (limit_of self.old.showing.scale self.old.showing.picture self.old.showing.ahead ≤ self.old.showing.number) }
        ensures unchanged { OnErr result (Same (seen self.old) (seen self.new)) }
    {
        let limit = self.showing.limit();
        let number = self.showing.number;
        if self.showing.picture.is_none() || limit <= number {
            return Ok(None);
        }
        if is_long(&self.given, self.showing.before, number) {
            self.ended = true;
            return Ok(Some(Item::Broken));
        }
        match self.showing.picture.take() {
            None => Ok(None),
            Some(frame) => {
                if number + 1 == limit {
                    return Ok(Some(self.showing.show_last(frame)));
                }
                match self.showing.show_one(self.alloc, frame) {
                    Ok(item) => Ok(Some(item)),
                    Err(error) => Err(error),
                }
            }
        }
    }

    // Looks at what comes next; false where that isn't known.
    fn look(&mut self) -> bool
        requires { self.old.showing.ahead ≡ Ahead.Unknown }
        ensures same { Same (seen self.old) (seen self.new) }
        ensures less { result ≡ true
            → work_left self.new.input.queue.items self.new.showing.ahead < work_left self.old.input.queue.items self.old.showing.ahead }
        ensures ended { self.new.ended ≡ self.old.ended }
        ensures waits { result ≡ false → Waits (seen self.old) (seen self.new) 0 }
    {
        match self.input.next() {
            Next::Data(Item::Video(frame)) => {
                self.showing.ahead = Ahead::Picture(frame);
                true
            }
            Next::Data(item) => {
                discard(item);
                true
            }
            Next::Whole => {
                self.showing.ahead = Ahead::Whole;
                true
            }
            Next::Lost => {
                self.showing.ahead = Ahead::Lost;
                true
            }
            Next::Unknown => false,
        }
    }

    // Shows the frame that comes next.
    fn take_up(&mut self, frame: VFrame)
        requires unknown { self.old.showing.ahead ≡ Ahead.Unknown }
        requires due { (self.old.showing.picture ≡ None) ⊎ (number_of self.old.showing.scale frame ≤ self.old.showing.number) }
        ensures same { Same (seen (record self.old { showing = record self.old.showing { ahead = Ahead.Picture frame } })) (seen self.new) }
        ensures less { work_left self.new.input.queue.items self.new.showing.ahead < work_left self.old.input.queue.items (Ahead.Picture frame) }
        ensures ended { self.new.ended ≡ self.old.ended }
    {
        if self.showing.picture.is_none() {
            self.showing.number = self.showing.scale.number_of(&frame);
        }
        self.showing.picture = Some(frame);
    }

    // The numbers that are shown of what was fed, as far as is known.
    fn span(&self) -> Option<Span>
        ensures { result ≡ span_of self.now.showing.scale (span_ahead self.now.showing) self.now.input.queue.items }
    {
        let mut span = self.showing.span();
        'items: for i in 0..self.input.queue.len() {
            span = Span::with_item(self.showing.scale, span, &self.input.queue[i]);
        }
        span
    }

    // Whether what was fed closes the output, where more may come.
    fn is_fed_out(&self) -> bool
        requires open { is_over self.now.input.after ≡ false }
        ensures { result ≡ has_closed (fed_mark self.now) }
    {
        if self.showing.ahead.is_end() {
            return true;
        }
        is_cut(&self.given, self.showing.before, self.span())
    }

    /// Whether nothing more of the input can matter. That is exactly where it has closed, or where the output isn't
    /// wanted or is closed by what was fed.
    pub fn is_spent(&self) -> bool
        ensures exact { IsTrue result ↔ IsSpent (seen self.now) 0 }
        ensures is { result ≡ rate_spent self.now }
    {
        if self.input.is_shut() | (self.stopped | self.ended) {
            return true;
        }
        self.is_fed_out()
    }

    // Lets all go that waits, is shown or was looked at.
    fn let_go(&mut self)
        ensures cleared { KeepsNothing self.new }
        ensures over { self.old.ended ≡ true → Same (seen self.old) (seen self.new) }
        ensures unwanted { Stopped (seen self.old) (seen (record self.new { stopped = true })) 0 }
        ensures ended { self.new.ended ≡ self.old.ended }
    {
        self.input.queue.clear();
        self.showing.picture = None;
        self.showing.ahead = Ahead::Unknown;
    }

    // Where the output has ended, lets all go.
    fn settle(&mut self)
        ensures same { Same (seen self.old) (seen self.new) }
        ensures cleared { self.new.ended ≡ true → KeepsNothing self.new }
    {
        if self.ended {
            self.let_go();
        }
    }

    // Lets an item go that nobody wants; that the input closes is noted.
    fn pass_over(&mut self, item: Item)
        requires unwanted { (self.old.ended || self.old.stopped) ≡ true }
        requires open { is_over self.old.input.after ≡ false }
        ensures fed { Fed (seen self.old) (seen self.new) 0 item }
        ensures kept { KeepsNothing self.old → KeepsNothing self.new }
    {
        if let Some(after) = closing_of(&item) {
            self.input.after = after;
        }
        discard(item);
    }

    // Goes on until a frame is due, or nothing is known.
    fn step(&mut self) -> Result<Work, AllocError>
        requires { self.old.ended ≡ false }
        ensures same { result ≡ Ok Work.On → Same (seen self.old) (seen self.new) }
        ensures less { result ≡ Ok Work.On
            → work_left self.new.input.queue.items self.new.showing.ahead < work_left self.old.input.queue.items self.old.showing.ahead }
        ensures on { result ≡ Ok Work.On → self.new.ended ≡ false }
        ensures gave { (x : AnItem) → result ≡ Ok (Work.Gave x) → Gave (seen self.old) (seen self.new) 0 x }
        ensures waits { result ≡ Ok Work.Waits → Waits (seen self.old) (seen self.new) 0 }
        ensures unchanged { OnErr result (Same (seen self.old) (seen self.new)) }
    {
        match self.give() {
            Err(error) => return Err(error),
            Ok(Some(item)) => return Ok(Work::Gave(item)),
            Ok(None) => {}
        }
        match replace(&mut self.showing.ahead, Ahead::Unknown) {
            Ahead::Unknown => {
                if self.look() {
                    Ok(Work::On)
                } else {
                    Ok(Work::Waits)
                }
            }
            Ahead::Picture(frame) => {
                self.take_up(frame);
                Ok(Work::On)
            }
            Ahead::Whole => {
                self.showing.ahead = Ahead::Whole;
                self.ended = true;
                Ok(Work::Gave(Item::End))
            }
            Ahead::Lost => {
                self.showing.ahead = Ahead::Lost;
                self.ended = true;
                Ok(Work::Gave(Item::Broken))
            }
        }
    }
}

impl Filter for Rate {
    ghost use Rattle.ff_vfilter.specs.laws.RateLaws.{rate-grows, rate-hides, rate-settles, rate-quiet};
    ghost use Rattle.ff_vfilter.specs.laws.RateSpent.{rate-spent_only, rate-shut_spent, rate-done_spent};

    ghost view = { λ m. seen m };

    ghost spends = { λ m p. rate_spent m };

    fn inputs(&self) -> usize {
        1
    }

    fn outputs(&self) -> usize {
        1
    }

    fn is_shut(&self, _port: usize) -> bool {
        self.input.is_shut()
    }

    fn is_stopped(&self, _port: usize) -> bool {
        self.stopped
    }

    fn feed(&mut self, _port: usize, item: Item) -> Result<(), Refused>
        requires there { _port < length (seen self.old).ins }
        requires open_before { (seen self.old).shut _port ≡ false }
        ensures fed { OnOk result (Fed (seen self.old) (seen self.new) _port item) }
        ensures refused { IfErr result (λ r. r.item ≡ item) }
        ensures unchanged { OnErr result (Same (seen self.old) (seen self.new)) }
        ensures cleared { (self.old.ended || self.old.stopped) ≡ true → KeepsNothing self.old → KeepsNothing self.new }
    {
        if self.ended | self.stopped {
            self.pass_over(item);
            return Ok(());
        }
        if self.input.reserve().is_err() {
            return Err(Refused { item });
        }
        self.input.take_in(item);
        Ok(())
    }

    fn pull(&mut self, _port: usize) -> Result<Option<Item>, AllocError>
        requires there { _port < length (seen self.old).outs }
        requires wanted { (seen self.old).stopped _port ≡ false }
        ensures gives { (x : AnItem) → result ≡ Ok (Some x) → Gave (seen self.old) (seen self.new) _port x }
        ensures waits { result ≡ Ok None → Waits (seen self.old) (seen self.new) _port }
        ensures unchanged { OnErr result (Same (seen self.old) (seen self.new)) }
        ensures cleared { (self.old.ended ≡ true → KeepsNothing self.old) → self.new.ended ≡ true → KeepsNothing self.new }
    {
        if self.ended {
            return Ok(None);
        }
        loop {
            match self.step() {
                Err(error) => return Err(error),
                Ok(Work::Gave(item)) => {
                    self.settle();
                    return Ok(Some(item));
                }
                Ok(Work::Waits) => return Ok(None),
                Ok(Work::On) => {}
            }
        }
    }

    fn stop(&mut self, _port: usize)
        requires there { _port < length (seen self.old).outs }
        ensures stopped { Stopped (seen self.old) (seen self.new) _port }
        ensures cleared { KeepsNothing self.new }
    {
        self.let_go();
        self.stopped = true;
    }

    fn spent(&self, _port: usize) -> bool {
        self.is_spent()
    }

    ghost grows = { λ m. rate-grows m.head m.given m.showing m.input.queue.items m.input.after m.ended m.stopped };

    ghost hides = { λ m. rate-hides m.head m.given m.showing m.input.queue.items m.input.after m.ended m.stopped };

    ghost settles = { λ m. rate-settles m.head m.given m.showing m.input.queue.items m.input.after m.ended m.stopped };

    ghost quiet = { λ m q e ext. rate-quiet m.head m.given m.showing m.input.queue.items m.input.after m.ended m.stopped q e ext };

    ghost spent_only = { λ m p lt e. rate-spent_only m p e };

    ghost shut_spent = { λ m p lt e. rate-shut_spent m e };

    ghost done_spent = { λ m p lt z d. rate-done_spent m d };
}
