//! The audio within a range of times.
ghost use Rattle.std.specs.Prelude.{◌≡◌, ◌+◌, ◌-◌, ◌*◌, ◌/◌, ◌<◌, ◌≤◌, ◌^◌, pos, length, IfSome, Some, false};
ghost use Rattle.ff_stream.specs.declared.item.Item.{Item};
ghost use Rattle.ff_stream.specs.declared.item.Item.TheVariants.{Audio};
ghost use Rattle.ff_stream.specs.declared.item.Lane.TheVariants.{Frames};
ghost use Rattle.ff_stream.specs.Times.{ticks};
ghost use Rattle.ff_filter.specs.Views.{closes};
ghost use Rattle.ff_filter.specs.Made.{listed_option};
ghost use Rattle.ff_filter.specs.Ranges.{is_past};

use ff_filter::{After, Given, Range, Step, ticks_of};
use ff_frame::{AFrame, StreamHead};
use ff_stream::{Item, Refused, shared};

/// The audio from a start to below an end, cut at the sample frame. The output ends with the first frame that ends
/// at or past the end.
#[derive(Drop)]
pub struct ATrim {
    /// The head of its input and of its output.
    pub head: StreamHead,
    /// The times that it keeps.
    pub range: Range,
}

// Whether what starts there with so many sample frames ends at or past the stop.
fn ends_past_stop(stop: Option<u64>, start: u64, count: u64) -> bool
    ensures { result ≡ is_past stop (start + count) }
{
    match stop {
        None => false,
        Some(stop) => stop as u128 <= start as u128 + count as u128,
    }
}

impl ATrim {
    ghost use Rattle.ff_afilter.specs.Trims.{before_stop as below_stop, part, kept, ends_past, after_if};

    // Of so many sample frames from a start on, the number of those that start before the stop.
    fn before_stop(stop: Option<u64>, start: u64, count: u64) -> u64
        ensures is { result ≡ below_stop stop start count }
        ensures few { result ≤ count }
    {
        match stop {
            None => count,
            Some(stop) => count.min(stop.saturating_sub(start)),
        }
    }

    // The frame from sample frame number `skip` to below number `until`, if there is one.
    #[tactic(auto, using(crate::proofs::Cutting::samples_there))]
    fn part_of(mut frame: AFrame, skip: u64, until: u64) -> Option<Item>
        requires there { until ≤ length frame.samples / frame.channels }
        requires near { ticks frame.pts + skip < 2 ^ 63 }
        ensures is { listed_option result ≡ part frame skip until }
        ensures goes_on { IfSome result (λ y. closes y ≡ false) }
    {
        if until <= skip {
            return None;
        }
        let channels = frame.channels as usize;
        let count = until - skip;
        frame.pts = (ticks_of(frame.pts) + skip) as i64;
        frame
            .samples
            .keep(skip as usize * channels, count as usize * channels);
        Some(Item::Audio(frame))
    }

    /// What is kept of a frame, and how the output stands after it.
    pub fn cut(&self, frame: AFrame) -> Given
        ensures item { listed_option result.item ≡ kept self.now.range (Audio frame) }
        ensures after { result.after ≡ after_if (ends_past self.now.range (Audio frame)) }
        ensures goes_on { IfSome result.item (λ y. closes y ≡ false) }
    {
        let start = ticks_of(frame.pts);
        let count = shared(frame.samples.as_slice().len(), frame.channels as usize) as u64;
        let until = ATrim::before_stop(self.range.stop, start, count);
        let skip = self.range.start.saturating_sub(start);
        let after = if ends_past_stop(self.range.stop, start, count) {
            After::Whole
        } else {
            After::More
        };
        Given {
            item: ATrim::part_of(frame, skip, until),
            after,
        }
    }
}

impl Step for ATrim {
    ghost use Rattle.ff_afilter.specs.Trims.{sound_trimmed};
    ghost use Rattle.ff_afilter.specs.laws.TrimLaws.{trimmed-below, trimmed-calm, trimmed-settles, trimmed-bare};
    ghost use Rattle.ff_stream.specs.Stream.{still_open, whole, broken};

    ghost lane_in = { λ m. Frames m.head };

    ghost lane_out = { λ m. Frames m.head };

    ghost runs = { λ m s. sound_trimmed m.range s };

    fn step(&mut self, item: Item) -> Result<Given, Refused> {
        match item {
            Item::Audio(frame) => Ok(self.cut(frame)),
            Item::Video(frame) => Ok(ATrim::passed(Item::Video(frame))),
            Item::Packet(packet) => Ok(ATrim::passed(Item::Packet(packet))),
            Item::Trailer(totals) => Ok(ATrim::passed(Item::Trailer(totals))),
            Item::End => Ok(ATrim::passed(Item::End)),
            Item::Broken => Ok(ATrim::passed(Item::Broken)),
        }
    }

    ghost waits = { λ m. trimmed-bare m.range still_open };

    ghost below = { λ m r s h. trimmed-below m.range r s h };

    ghost calm = { λ m r. trimmed-calm m.range r };

    ghost settles = { λ m r c. trimmed-settles m.range r c };

    ghost ends = { λ m. trimmed-bare m.range whole };

    ghost breaks = { λ m. trimmed-bare m.range broken };
}

impl ATrim {
    ghost use Rattle.ff_filter.specs.declared.after.After.TheVariants.{More};

    /// An item that isn't audio stays as it is.
    pub fn passed(item: Item) -> Given
        ensures item { result.item ≡ Some item }
        ensures after { result.after ≡ More }
    {
        Given {
            item: Some(item),
            after: After::More,
        }
    }
}
