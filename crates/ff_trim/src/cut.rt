//! The cut of one stream, with the start taken from all times.
ghost use Rattle.std.specs.Prelude.{◌≡◌, ◌+◌, ◌-◌, ◌<◌, ◌≤◌, ◌^◌, pos, refl, option_map, Option, IfSome, None, Some, false};
ghost use Rattle.std.specs.Option.{ForSome};
ghost use Rattle.ff_frame.specs.Heads.{base_of_head};
ghost use Rattle.ff_stream.specs.declared.item.Lane.TheVariants.{Frames};
ghost use Rattle.ff_stream.specs.Times.{ticks};
ghost use Rattle.ff_filter.specs.Joins.{Flow};
ghost use Rattle.ff_filter.specs.Views.{closes};
ghost use Rattle.ff_filter.specs.Shifts.{earlier as earlier_by};
ghost use Rattle.ff_trim.specs.Cuts.{ticks_at, start_in, stop_in, range_in, kept};

use ff_afilter::ATrim;
use ff_filter::{Given, Pass, Range, Step, earlier};
use ff_frame::StreamHead;
use ff_stream::{Item, Refused, time_base};
use ff_time::TimeCut;
use ff_vfilter::Trim;

/// A cut of one stream: what lies within a range of times, with the start taken from all times.
#[derive(Drop)]
pub enum Cut {
    /// Nothing is cut.
    Uncut(Pass),
    /// Audio, and where the cut starts, in ticks.
    Sound(ATrim, u64),
    /// Video, and where the cut starts, in ticks.
    Pictures(Trim, u64),
}

// What is given, so many ticks earlier.
fn given_earlier(given: Given, by: u64) -> Given
    requires goes_on { IfSome given.item (λ y. closes y ≡ false) }
    ensures item { result.item ≡ option_map (earlier_by by) given.item }
    ensures after { result.after ≡ given.after }
    ensures goes_on { IfSome result.item (λ y. closes y ≡ false) }
{
    let after = given.after;
    match given.item {
        None => Given { item: None, after },
        Some(item) => Given {
            item: Some(earlier(item, by)),
            after,
        },
    }
}

// So many microseconds in ticks of a stream.
fn ticks_in(us: u64, head: &StreamHead) -> u64
    requires near { us ≤ 10 ^ 15 }
    ensures is { result ≡ ticks_at (base_of_head head.now) us }
    ensures near { result < 2 ^ 63 }
{
    Range::ceiling(us, time_base(head))
}

// Where a cut of this length ends that starts there.
fn stop_behind(start: u64, length: Option<u64>, head: &StreamHead) -> Option<u64>
    requires near { start < 2 ^ 63 }
    requires length_near { ForSome length (λ us. us ≤ 10 ^ 15) }
    ensures { result ≡ option_map (λ us. start + ticks_at (base_of_head head.now) us) length }
{
    match length {
        None => None,
        Some(us) => Some(start + ticks_in(us, head)),
    }
}

// The range of a cut in ticks of a stream.
fn range_of(head: &StreamHead, cut: TimeCut) -> Range
    ensures { result ≡ range_in (base_of_head head.now) cut }
{
    let start = ticks_in(cut.start, head);
    Range {
        start,
        stop: stop_behind(start, cut.length, head),
    }
}

impl Cut {
    ghost use Rattle.ff_trim.specs.laws.Taps.{runs_of, lane_of};

    /// The cut of a stream of this head. That one of length 0 ends before anything comes is its output's to say (`Tap`).
    pub fn of(head: &StreamHead, cut: TimeCut) -> Cut
        ensures lane { lane_of result ≡ Frames head.now }
        ensures runs { (s : Flow) → runs_of result s ≡ kept head.now cut s }
    {
        if (cut.start == 0) & cut.length.is_none() {
            return Cut::Uncut(Pass { head: *head });
        }
        let range = range_of(head, cut);
        match *head {
            StreamHead::Audio { .. } => Cut::Sound(ATrim { head: *head, range }, range.start),
            StreamHead::Video { .. } => Cut::Pictures(Trim { head: *head, range }, range.start),
        }
    }
}

impl Step for Cut {
    ghost use Rattle.ff_trim.specs.laws.Taps.{runs_of, lane_of};
    ghost use Rattle.ff_trim.specs.laws.CutLaws.{runs-below, runs-calm, runs-settles, runs-waits, runs-ends, runs-breaks};

    ghost lane_in = { λ m. lane_of m };

    ghost lane_out = { λ m. lane_of m };

    ghost runs = { λ m s. runs_of m s };

    fn step(&mut self, item: Item) -> Result<Given, Refused> {
        match self {
            Cut::Uncut(pass) => pass.step(item),
            Cut::Sound(trim, start) => match trim.step(item) {
                Ok(given) => Ok(given_earlier(given, *start)),
                Err(refused) => Err(refused),
            },
            Cut::Pictures(trim, start) => match trim.step(item) {
                Ok(given) => Ok(given_earlier(given, *start)),
                Err(refused) => Err(refused),
            },
        }
    }

    ghost waits = { runs-waits };

    ghost below = { runs-below };

    ghost calm = { runs-calm };

    ghost settles = { runs-settles };

    ghost ends = { runs-ends };

    ghost breaks = { runs-breaks };
}
