//! The frame numbers of the output of `fps` at which a frame of its input is shown.
ghost use Rattle.std.specs.Prelude.{◌≡◌};
ghost use Rattle.ff_vfilter.specs.laws.RateCuts.{span_to, span_by};

use crate::scale::Scale;
use ff_stream::Item;

/// The numbers that are shown of some frames.
#[derive(Clone, Copy, Debug)]
pub struct Span {
    /// The first of them.
    pub first: u64,
    /// The one after the last of them.
    pub next: u64,
}

impl Span {
    /// The numbers that are shown once a frame of this number comes; from that on where it is the first.
    pub fn with_number(span: Option<Span>, number: u64) -> Span
        ensures { result ≡ span_to span number }
    {
        match span {
            None => Span {
                first: number,
                next: number,
            },
            Some(span) => Span {
                first: span.first,
                next: span.next.max(number),
            },
        }
    }

    /// The numbers that are shown once an item comes: frames alone count.
    pub fn with_item(scale: Scale, span: Option<Span>, item: &Item) -> Option<Span>
        ensures { result ≡ span_by scale span item.now }
    {
        match item {
            Item::Video(frame) => Some(Span::with_number(span, scale.number_of(frame))),
            Item::Audio(_) | Item::Packet(_) | Item::Trailer(_) | Item::End | Item::Broken => span,
        }
    }
}
