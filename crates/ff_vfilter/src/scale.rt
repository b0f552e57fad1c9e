//! Times of the input of `fps` as frame numbers of its output.
ghost use Rattle.std.specs.Prelude.{◌≡◌, ◌<◌, ◌≤◌, ◌*◌, ◌^◌, ◌+ℤ◌, ◌<ℤ◌, pos};
ghost use Rattle.ff_stream.specs.Times.{ticks};
ghost use Rattle.ff_time.specs.Fraction.{IsBase};
ghost use Rattle.ff_vfilter.specs.Rates.{nearest as nearest_to, in_pictures as pictures_in, number_of as own_number, end_number as last_number};

use ff_filter::ticks_of;
use ff_frame::VFrame;
use ff_time::Rational;

/// The time base of the frames that come, and that of those that are given at an even rate, of which each lasts a tick.
#[derive(Clone, Copy, Debug)]
pub struct Scale {
    /// The time base of the frames that come.
    pub from: Rational,
    /// The time base of those that are given.
    pub to: Rational,
}

// Both numbers of a time base, with room for products.
fn parts(tb: Rational) -> (u128, u128)
    ensures num { result.0 ≡ tb.num }
    ensures den { result.1 ≡ tb.den }
    ensures base { IsBase tb }
{
    (tb.num() as u128, tb.den() as u128)
}

// p / q to the nearest whole number, halves upwards.
fn nearest(p: u128, q: u128) -> u128
    requires some { 0 < q }
    requires num { p < 2 ^ 126 }
    requires den { q < 2 ^ 62 }
    ensures { result ≡ nearest_to p q }
{
    (2 * p + q) / (2 * q)
}

// When a frame ends.
fn end_of(frame: &VFrame) -> i128
    ensures is { result ≡ frame.now.pts +ℤ frame.now.duration }
    ensures near { result <ℤ pos (2 ^ 64) }
{
    frame.pts as i128 + frame.duration as i128
}

// The same in ticks from 0; what lies before 0 counts as 0.
fn end_ticks(frame: &VFrame) -> u128
    ensures is { result ≡ ticks (frame.now.pts +ℤ frame.now.duration) }
    ensures near { result < 2 ^ 64 }
{
    let end = end_of(frame);
    if end < 0 { 0 } else { end as u128 }
}

impl Scale {
    // So many ticks, as a number of frames.
    #[tactic(auto, using(crate::proofs::Scaling::product_below))]
    fn in_pictures(self, ticks: u128) -> u64
        requires { ticks < 2 ^ 64 }
        ensures is { result ≡ pictures_in self ticks }
        ensures few { result ≤ 2 ^ 62 }
    {
        let (from_num, from_den) = parts(self.from);
        let (to_num, to_den) = parts(self.to);
        let scale = from_num * to_den;
        let unit = from_den * to_num;
        nearest(ticks * scale, unit).min(1 << 62) as u64
    }

    /// A frame's own number.
    pub fn number_of(self, frame: &VFrame) -> u64
        ensures is { result ≡ own_number self frame.now }
        ensures few { result ≤ 2 ^ 62 }
    {
        self.in_pictures(ticks_of(frame.pts) as u128)
    }

    /// The number at a frame's end.
    pub fn end_number(self, frame: &VFrame) -> u64
        ensures is { result ≡ last_number self frame.now }
        ensures few { result ≤ 2 ^ 62 }
    {
        self.in_pictures(end_ticks(frame))
    }
}
