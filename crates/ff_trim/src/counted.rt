//! The cut of a stream of an output: in time, and then by the number of frames.
ghost use Rattle.std.specs.Prelude.{◌≡◌, ◌≤◌, IfSome, false};
ghost use Rattle.std.specs.Option.{ForSome};
ghost use Rattle.ff_frame.specs.Heads.{base_of_head};
ghost use Rattle.ff_stream.specs.declared.item.Lane.TheVariants.{Frames};
ghost use Rattle.ff_filter.specs.Joins.{Flow, joined};
ghost use Rattle.ff_filter.specs.Made.{made_of};
ghost use Rattle.ff_filter.specs.Views.{closes};
ghost use Rattle.ff_trim.specs.Cuts.{counted as counted_by, is_empty, kept};

use crate::cut::Cut;
use ff_filter::{After, Given, Step};
use ff_frame::StreamHead;
use ff_stream::{Item, Refused};
use ff_time::TimeCut;

/// The cut of a stream of an output.
#[derive(Clone, Copy, Debug)]
pub struct OutputCut {
    /// The cut in time.
    pub time: TimeCut,
    /// How many frames the stream has at most behind it; without a number all stay.
    pub frames: Option<u32>,
}

/// A cut in time that ends its stream whole with the last frame of so many.
#[derive(Drop)]
pub struct FirstOf {
    /// The cut in time.
    pub cut: Cut,
    /// How many frames it still gives; without a number all.
    pub left: Option<u32>,
    pub ghost some: { ForSome left (λ n. 1 ≤ n) },
}

// The number of frames to count down from. A stream of none ends before anything comes, which is its output's to say.
fn some_frames(frames: Option<u32>) -> Option<u32>
    ensures some { ForSome result (λ n. 1 ≤ n) }
    ensures same { is_empty frames ≡ false → result ≡ frames }
{
    match frames {
        Some(0) => None,
        Some(number) => Some(number),
        None => None,
    }
}

impl FirstOf {
    ghost use Rattle.ff_trim.specs.laws.Taps.{lane_of, runs_first};

    /// The cut of a stream of this head.
    pub fn of(head: &StreamHead, cut: OutputCut) -> FirstOf
        ensures lane { lane_of result.cut ≡ Frames head.now }
        ensures runs { (s : Flow) → is_empty cut.frames ≡ false → runs_first result s ≡ counted_by cut.frames (kept head.now cut.time s) }
    {
        FirstOf {
            cut: Cut::of(head, cut.time),
            left: some_frames(cut.frames),
        }
    }

    // What is left of what the cut in time gives.
    fn count(&mut self, given: Given) -> Given
        requires goes_on { IfSome given.item (λ y. closes y ≡ false) }
        ensures cut { self.new.cut ≡ self.old.cut }
        ensures made { (r : Flow) → counted_by self.old.left (joined (made_of given.item given.after) r)
            ≡ joined (made_of result.item result.after) (counted_by self.new.left r) }
        ensures goes_on { IfSome result.item (λ y. closes y ≡ false) }
    {
        let after = given.after;
        let Some(item) = given.item else {
            return Given { item: None, after };
        };
        match self.left {
            Some(1) => Given {
                item: Some(item),
                after: After::Whole,
            },
            Some(left) => {
                self.left = Some(left - 1);
                Given {
                    item: Some(item),
                    after,
                }
            }
            None => Given {
                item: Some(item),
                after,
            },
        }
    }
}

impl Step for FirstOf {
    ghost use Rattle.ff_trim.specs.laws.Taps.{lane_of, runs_first};
    ghost use Rattle.ff_trim.specs.laws.CountLaws.{first-below, first-calm, first-settles, first-waits, first-ends, first-breaks};

    ghost lane_in = { λ m. lane_of m.cut };

    ghost lane_out = { λ m. lane_of m.cut };

    ghost runs = { λ m s. runs_first m s };

    fn step(&mut self, item: Item) -> Result<Given, Refused> {
        match self.cut.step(item) {
            Ok(given) => Ok(self.count(given)),
            Err(refused) => Err(refused),
        }
    }

    ghost waits = { first-waits };

    ghost below = { first-below };

    ghost calm = { first-calm };

    ghost settles = { first-settles };

    ghost ends = { first-ends };

    ghost breaks = { first-breaks };
}
