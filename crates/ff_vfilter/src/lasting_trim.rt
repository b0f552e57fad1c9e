//! The filter `trim` as its arguments say it: a trim, or one that lasts from its first frame on.
ghost use Rattle.std.specs.Prelude.{◌≡◌, ◌<◌, ◌^◌, IfOk, IfErr, Some};
ghost use Rattle.ff_stream.specs.declared.item.Lane.TheVariants.{Frames};
ghost use Rattle.ff_filter.specs.Shifts.{start_ticks};

use crate::trim::Trim;
use ff_filter::{
    After, Filter, Given, Limited, Range, Step, Stepper, TrimSettings, lasting_stop, machine_of,
    ticks_of, video_settings,
};
use ff_frame::{ConfigError, StreamHead};
use ff_lang::Arg;
use ff_stream::{Item, Refused};
use std::alloc::Global;

/// `trim`: the frames from a start to below an end. With a duration the end is the later of its own and so many ticks
/// from the first frame kept on, and while none was kept there is no end.
#[derive(Drop)]
pub struct LastingTrim {
    /// The trim.
    pub trim: Trim,
    /// How many ticks it lasts from the first frame kept on. 0 where there is no duration, or its end is known.
    pub lasting: u64,
    pub ghost near: { lasting < 2 ^ 63 },
}

// When an item starts, in ticks from 0; what lies before 0 counts as 0.
fn time_of(item: &Item) -> u64
    ensures is { result ≡ start_ticks item.now }
    ensures near { result < 2 ^ 63 }
{
    match item {
        Item::Audio(frame) => ticks_of(frame.pts),
        Item::Video(frame) => ticks_of(frame.pts),
        Item::Packet(packet) => ticks_of(packet.pts),
        Item::Trailer(_) | Item::End | Item::Broken => 0,
    }
}

impl Step for LastingTrim {
    ghost use Rattle.ff_vfilter.specs.Trims.{lasting_trimmed};
    ghost use Rattle.ff_vfilter.specs.laws.LastingLaws.{lasting-below, lasting-calm, lasting-settles, lasting-bare};
    ghost use Rattle.ff_stream.specs.Stream.{still_open, whole, broken};

    ghost lane_in = { λ m. Frames m.trim.head };

    ghost lane_out = { λ m. Frames m.trim.head };

    ghost runs = { λ m s. lasting_trimmed m.trim.range m.lasting s };

    fn step(&mut self, item: Item) -> Result<Given, Refused> {
        if self.lasting == 0 {
            return Ok(self.trim.given(item));
        }
        let time = time_of(&item);
        if time < self.trim.range.start {
            return Ok(Given {
                item: None,
                after: After::More,
            });
        }
        let stop = lasting_stop(self.trim.range.stop, time, self.lasting);
        self.trim.range.stop = Some(stop);
        self.lasting = 0;
        Ok(Given {
            item: Some(item),
            after: After::More,
        })
    }

    ghost waits = { λ m. lasting-bare m.trim.range m.lasting still_open };

    ghost below = { λ m r s h. lasting-below m.trim.range m.lasting r s h };

    ghost calm = { λ m r. lasting-calm m.trim.range m.lasting r };

    ghost settles = { λ m r c. lasting-settles m.trim.range m.lasting r c };

    ghost ends = { λ m. lasting-bare m.trim.range m.lasting whole };

    ghost breaks = { λ m. lasting-bare m.trim.range m.lasting broken };
}

impl LastingTrim {
    ghost use Rattle.ff_filter.specs.Options.{IsMade, IsRefused};
    ghost use Rattle.ff_vfilter.specs.Trims.{IsTrim, trim_view, at_once as over_at_once};

    // Where the end is at 0 and there is no duration, the output ends before anything comes.
    fn at_once(lasting: u64, stop: Option<u64>) -> After
        ensures { result ≡ over_at_once lasting stop }
    {
        if lasting > 0 {
            return After::More;
        }
        match stop {
            Some(0) => After::Whole,
            Some(_) => After::More,
            None => After::More,
        }
    }

    /// The filter by its arguments and the head of its input; the head of its output beside it. The options are `start`,
    /// which is 0 where it isn't given, and `end`, in this order of places, and `duration`, by its name alone, which is
    /// none at 0: durations. It refuses in this order: `Pads`, `Kind`, `UnknownOption` and `BadOption` by argument.
    pub fn configure(
        alloc: Global,
        args: &[Arg],
        heads: &[StreamHead],
    ) -> Result<(Stepper<Limited<LastingTrim>>, Vec<StreamHead>), ConfigError>
        ensures made { IfOk result (λ r. IsMade (IsTrim args.now heads.now) trim_view (λ m. m.trim.head)
            (⟦<Stepper<Limited<LastingTrim>> as Filter>⟧.view r.0) r.1.items) }
        ensures refused { IfErr result (IsRefused (IsTrim args.now heads.now)) }
    {
        match video_settings(TrimSettings::ALL, args, heads) {
            Err(error) => Err(error),
            Ok((head, settings)) => {
                let range = Range::of(settings.range, &head);
                let lasting = settings.ticks(&head);
                let after = LastingTrim::at_once(lasting, range.stop);
                let trim = Trim { head, range };
                machine_of(alloc, LastingTrim { trim, lasting }, &head, after)
            }
        }
    }
}
