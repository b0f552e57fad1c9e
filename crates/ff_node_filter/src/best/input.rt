//! The end of the last item of an input, by which inputs are compared.
ghost use Rattle.std.specs.Prelude.{◌≡◌, ◌<◌, ◌/◌, ◌^◌, pos, ◌*◌, ◌*ℤ◌, None, false, IfSome};
ghost use Rattle.std.specs.Option.{ForSome};
ghost use Rattle.ff_frame.specs.Heads.{base_of_head};
ghost use Rattle.ff_node_filter.specs.best.Bests.{is_earlier as is_earlier_of};
ghost use Rattle.ff_node_filter.specs.laws.best.Ends.{IsNear, ends_at, end_behind, closed_behind};

use ff_frame::StreamHead;
use ff_stream::{Item, shared, time_base};
use ff_time::Rational;

/// What is known of an input.
#[derive(Drop)]
pub(crate) struct Input {
    /// The time base of its stream.
    pub(crate) tb: Rational,
    /// When its last item ends, in ticks of that; None where nothing came.
    pub(crate) end: Option<i128>,
    /// Whether it has closed.
    pub(crate) closed: bool,
    pub(crate) ghost near: { ForSome end IsNear },
}

/// When an item ends, in ticks; None where it closes its stream.
pub(crate) fn end_of_item(item: &Item) -> Option<i128>
    ensures is { result ≡ ends_at item.now }
    ensures near { IfSome result IsNear }
{
    match item {
        Item::Audio(frame) => {
            let count = shared(frame.samples.as_slice().len(), frame.channels as usize);
            Some(frame.pts as i128 + count as i128)
        }
        Item::Video(frame) => Some(frame.pts as i128 + frame.duration as i128),
        Item::Packet(packet) => Some(packet.pts as i128 + packet.duration as i128),
        Item::Trailer(_) => Some(0),
        Item::End | Item::Broken => None,
    }
}

// What the ticks of one time base are counted by beside those of another.
fn weight(tb: Rational, beside: Rational) -> u128
    ensures is { result ≡ tb.num * beside.den }
    ensures small { result < 2 ^ 62 }
{
    (tb.num() as u128) * (beside.den() as u128)
}

// An end, by what its ticks are counted by.
fn scaled(end: i128, scale: u128) -> i128
    requires near { IsNear end }
    requires small { scale < 2 ^ 62 }
    ensures { result ≡ end *ℤ pos scale }
{
    end * scale as i128
}

impl Input {
    /// Nothing came yet of a stream of this head.
    pub(crate) fn new(head: &StreamHead) -> Input
        ensures tb { result.tb ≡ base_of_head head.now }
        ensures end { result.end ≡ None }
        ensures closed { result.closed ≡ false }
    {
        Input {
            tb: time_base(head),
            end: None,
            closed: false,
        }
    }

    /// Takes in what it was fed: when the item ends, or that it closes the input.
    pub(crate) fn note(&mut self, end: Option<i128>)
        requires { IfSome end IsNear }
        ensures tb { self.new.tb ≡ self.old.tb }
        ensures end { self.new.end ≡ end_behind end self.old.end }
        ensures closed { self.new.closed ≡ closed_behind end self.old.closed }
    {
        match end {
            Some(_) => self.end = end,
            None => self.closed = true,
        }
    }

    /// Whether its last item ends before that of another, as exact times.
    pub(crate) fn is_earlier(&self, other: &Input) -> bool
        ensures { result ≡ is_earlier_of self.now.end self.now.tb other.now.end other.now.tb }
    {
        let Some(other_end) = other.end else {
            return false;
        };
        let Some(end) = self.end else {
            return true;
        };
        scaled(end, weight(self.tb, other.tb))
            .cmp(&scaled(other_end, weight(other.tb, self.tb)))
            .is_lt()
    }
}
