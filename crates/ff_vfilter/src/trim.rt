//! The frames within a range of times.
ghost use Rattle.std.specs.Prelude.{◌≡◌, IfSome, false};
ghost use Rattle.ff_stream.specs.declared.item.Lane.TheVariants.{Frames};
ghost use Rattle.ff_filter.specs.Joins.{Flow, before, joined};
ghost use Rattle.ff_filter.specs.Made.{made_of};
ghost use Rattle.ff_filter.specs.Views.{closes};

use ff_filter::{After, Given, Range, Step, start_of_item};
use ff_frame::StreamHead;
use ff_stream::{Item, Refused};

/// The frames from a start to below an end. The output ends at the first frame at or past the end.
#[derive(Drop)]
pub struct Trim {
    /// The head of its input and of its output.
    pub head: StreamHead,
    /// The times that it keeps.
    pub range: Range,
}

impl Trim {
    ghost use Rattle.ff_vfilter.specs.Trims.{trimmed};

    /// What it makes of an item that closes nothing.
    pub fn given(&self, item: Item) -> Given
        requires goes_on { closes item ≡ false }
        ensures made { (t : Flow) → trimmed self.now.range (before item t) ≡ joined (made_of result.item result.after) (trimmed self.now.range t) }
        ensures data { IfSome result.item (λ y. closes y ≡ false) }
    {
        let time = start_of_item(&item);
        if self.range.is_past(time) {
            return Given {
                item: None,
                after: After::Whole,
            };
        }
        if self.range.start <= time {
            return Given {
                item: Some(item),
                after: After::More,
            };
        }
        Given {
            item: None,
            after: After::More,
        }
    }
}

impl Step for Trim {
    ghost use Rattle.ff_vfilter.specs.Trims.{trimmed};
    ghost use Rattle.ff_vfilter.specs.laws.TrimLaws.{trimmed-below, trimmed-calm, trimmed-settles, trimmed-bare};
    ghost use Rattle.ff_stream.specs.Stream.{still_open, whole, broken};

    ghost lane_in = { λ m. Frames m.head };

    ghost lane_out = { λ m. Frames m.head };

    ghost runs = { λ m s. trimmed m.range s };

    fn step(&mut self, item: Item) -> Result<Given, Refused> {
        Ok(self.given(item))
    }

    ghost waits = { λ m. trimmed-bare m.range still_open };

    ghost below = { λ m r s h. trimmed-below m.range r s h };

    ghost calm = { λ m r. trimmed-calm m.range r };

    ghost settles = { λ m r c. trimmed-settles m.range r c };

    ghost ends = { λ m. trimmed-bare m.range whole };

    ghost breaks = { λ m. trimmed-bare m.range broken };
}
