//! The frame that `fps` shows, and the one that comes next.
ghost use Rattle.std.specs.Prelude.{◌≡◌, ◌<◌, ◌≤◌, ◌^◌, ◌+◌, Some, IfOk, OnErr};
ghost use Rattle.ff_vfilter.specs.Rates.{shown};
ghost use Rattle.ff_vfilter.specs.laws.RateViews.{limit_of, Shown};
ghost use Rattle.ff_vfilter.specs.laws.RateCuts.{span_ahead, is_end as is_end_of};

use crate::scale::Scale;
use crate::span::Span;
use ff_frame::VFrame;
use ff_stream::Item;
use std::alloc::{AllocError, Global};

/// What comes next on the input, looked at and not yet used.
#[derive(Drop)]
pub enum Ahead {
    /// Nothing was looked at.
    Unknown,
    /// This frame.
    Picture(VFrame),
    /// Nothing more: all has come.
    Whole,
    /// Nothing more: the rest was lost.
    Lost,
}

impl Ahead {
    /// Whether it is known how the input ends.
    pub fn is_end(&self) -> bool
        ensures { result ≡ is_end_of self.now }
    {
        match self {
            Ahead::Unknown | Ahead::Picture(_) => false,
            Ahead::Whole | Ahead::Lost => true,
        }
    }
}

/// The frame that is shown, and how far.
#[derive(Drop)]
pub struct Showing {
    /// How times become numbers.
    pub scale: Scale,
    /// The frame that is shown, if there is one.
    pub picture: Option<VFrame>,
    /// The number that is shown next.
    pub number: u64,
    /// How many were given.
    pub before: u64,
    /// What comes next.
    pub ahead: Ahead,
}

// The frame as this number.
fn numbered(mut frame: VFrame, number: u64) -> Item
    requires { number ≤ 2 ^ 62 }
    ensures { result ≡ shown number frame }
{
    frame.pts = number as i64;
    frame.duration = 1;
    Item::Video(frame)
}

impl Showing {
    /// Below which number the frame is shown, as far as is known.
    pub fn limit(&self) -> u64
        ensures is { result ≡ limit_of self.now.scale self.now.picture self.now.ahead }
        ensures few { result ≤ 2 ^ 62 }
    {
        match &self.ahead {
            Ahead::Unknown | Ahead::Lost => 0,
            Ahead::Picture(frame) => self.scale.number_of(frame),
            Ahead::Whole => match &self.picture {
                None => 0,
                Some(frame) => self.scale.end_number(frame),
            },
        }
    }

    /// The numbers that are shown of the frame and of the one that comes next, as far as is known.
    pub fn span(&self) -> Option<Span>
        ensures { result ≡ span_ahead self.now }
    {
        let span = match &self.picture {
            None => None,
            Some(_) => Some(Span {
                first: self.number,
                next: self.number,
            }),
        };
        match &self.ahead {
            Ahead::Picture(frame) => Some(Span::with_number(span, self.scale.number_of(frame))),
            Ahead::Unknown | Ahead::Whole | Ahead::Lost => span,
        }
    }

    /// The frame as the next number, which is the last that it has; the frame itself.
    pub fn show_last(&mut self, frame: VFrame) -> Item
        requires last { self.old.number + 1 ≡ limit_of self.old.scale (Some frame) self.old.ahead }
        requires few { self.old.number < 2 ^ 62 }
        requires counted { self.old.before < 2 ^ 40 }
        ensures shown { Shown (record self.old { picture = Some frame }) self.new frame result }
    {
        let number = self.number;
        self.picture = None;
        self.number += 1;
        self.before += 1;
        numbered(frame, number)
    }

    /// The frame as the next number, of several; a copy.
    pub fn show_one(&mut self, alloc: Global, frame: VFrame) -> Result<Item, AllocError>
        requires due { self.old.number < limit_of self.old.scale (Some frame) self.old.ahead }
        requires few { self.old.number < 2 ^ 62 }
        requires counted { self.old.before < 2 ^ 40 }
        ensures shown { IfOk result (λ x. Shown (record self.old { picture = Some frame }) self.new frame x) }
        ensures unchanged { OnErr result (self.new ≡ record self.old { picture = Some frame }) }
    {
        match frame.try_copy(alloc) {
            Err(error) => {
                self.picture = Some(frame);
                Err(error)
            }
            Ok(copy) => {
                let number = self.number;
                self.picture = Some(frame);
                self.number += 1;
                self.before += 1;
                Ok(numbered(copy, number))
            }
        }
    }
}
