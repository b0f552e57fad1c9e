//! The filter `atrim` as its arguments say it: a trim of audio, or one that lasts from its first sample on.
ghost use Rattle.std.specs.Prelude.{◌≡◌, ◌<◌, ◌^◌, IfOk, IfErr, Some, false};
ghost use Rattle.ff_stream.specs.declared.item.Item.TheVariants.{Audio};
ghost use Rattle.ff_stream.specs.declared.item.Lane.TheVariants.{Frames};

use crate::atrim::ATrim;
use ff_filter::{
    After, Filter, Given, Limited, Range, Step, Stepper, TrimSettings, lasting_stop, machine_of,
    sound_settings, ticks_of,
};
use ff_frame::{AFrame, ConfigError, StreamHead};
use ff_lang::Arg;
use ff_stream::{Item, Refused, shared};
use std::alloc::Global;

/// `atrim`: the audio from a start to below an end, cut at the sample frame. With a duration the end is the later of its
/// own and so many ticks from the first sample kept on, and while none was kept there is no end.
#[derive(Drop)]
pub struct LastingATrim {
    /// The trim.
    pub trim: ATrim,
    /// How many ticks it lasts from the first sample kept on. 0 where there is no duration, or its end is known.
    pub lasting: u64,
    pub ghost near: { lasting < 2 ^ 63 },
}

impl LastingATrim {
    ghost use Rattle.std.specs.Prelude.{IfSome};
    ghost use Rattle.ff_filter.specs.Joins.{Flow, before, joined};
    ghost use Rattle.ff_filter.specs.Made.{made_of};
    ghost use Rattle.ff_filter.specs.Views.{closes};
    ghost use Rattle.ff_afilter.specs.Trims.{ends_after as ends_after_time, sound_lasting};

    // Whether a frame ends after a time.
    fn ends_after(time: u64, frame: &AFrame) -> bool
        ensures { result ≡ ends_after_time time (Audio frame.now) }
    {
        let count = shared(frame.samples.as_slice().len(), frame.channels as usize);
        (time as u128) < ticks_of(frame.pts) as u128 + count as u128
    }

    // What is kept of a frame, and how the output stands after it.
    fn cut(&mut self, frame: AFrame) -> Given
        ensures head { self.new.trim.head ≡ self.old.trim.head }
        ensures made { (t : Flow) → sound_lasting self.old.trim.range self.old.lasting (before (Audio frame) t) ≡ joined (made_of result.item result.after) (sound_lasting self.new.trim.range self.new.lasting t) }
        ensures data { IfSome result.item (λ y. closes y ≡ false) }
    {
        if self.lasting == 0 {
            return self.trim.cut(frame);
        }
        let start = self.trim.range.start;
        if !LastingATrim::ends_after(start, &frame) {
            return Given {
                item: None,
                after: After::More,
            };
        }
        let first = start.max(ticks_of(frame.pts));
        let stop = lasting_stop(self.trim.range.stop, first, self.lasting);
        self.trim.range.stop = Some(stop);
        self.lasting = 0;
        self.trim.cut(frame)
    }
}

impl Step for LastingATrim {
    ghost use Rattle.ff_afilter.specs.Trims.{sound_lasting};
    ghost use Rattle.ff_afilter.specs.laws.LastingLaws.{lasting-below, lasting-calm, lasting-settles, lasting-bare};
    ghost use Rattle.ff_stream.specs.Stream.{still_open, whole, broken};

    ghost lane_in = { λ m. Frames m.trim.head };

    ghost lane_out = { λ m. Frames m.trim.head };

    ghost runs = { λ m s. sound_lasting m.trim.range m.lasting s };

    fn step(&mut self, item: Item) -> Result<Given, Refused> {
        match item {
            Item::Audio(frame) => Ok(self.cut(frame)),
            Item::Video(frame) => Ok(ATrim::passed(Item::Video(frame))),
            Item::Packet(packet) => Ok(ATrim::passed(Item::Packet(packet))),
            Item::Trailer(totals) => Ok(ATrim::passed(Item::Trailer(totals))),
            Item::End => Ok(ATrim::passed(Item::End)),
            Item::Broken => Ok(ATrim::passed(Item::Broken)),
        }
    }

    ghost waits = { λ m. lasting-bare m.trim.range m.lasting still_open };

    ghost below = { λ m r s h. lasting-below m.trim.range m.lasting r s h };

    ghost calm = { λ m r. lasting-calm m.trim.range m.lasting r };

    ghost settles = { λ m r c. lasting-settles m.trim.range m.lasting r c };

    ghost ends = { λ m. lasting-bare m.trim.range m.lasting whole };

    ghost breaks = { λ m. lasting-bare m.trim.range m.lasting broken };
}

impl LastingATrim {
    ghost use Rattle.ff_filter.specs.Options.{IsMade, IsRefused};
    ghost use Rattle.ff_afilter.specs.Trims.{IsATrim, atrim_view, at_once as over_at_once};

    // Where the end is at 0 and there is no duration, the output ends before anything comes.
    fn at_once(lasting: u64, stop: Option<u64>) -> After
        ensures { result ≡ over_at_once lasting stop }
    {
        if lasting > 0 {
            return After::More;
        }
        match stop {
            Some(0) => After::Whole,
            Some(_) => After::More,
            None => After::More,
        }
    }

    /// The filter by its arguments and the head of its input; the head of its output beside it. The options are `start`,
    /// which is 0 where it isn't given, and `end`, in this order of places, and `duration`, by its name alone, which is
    /// none at 0: durations. It refuses in this order: `Pads`, `Kind`, `UnknownOption` and `BadOption` by argument.
    pub fn configure(
        alloc: Global,
        args: &[Arg],
        heads: &[StreamHead],
    ) -> Result<(Stepper<Limited<LastingATrim>>, Vec<StreamHead>), ConfigError>
        ensures made { IfOk result (λ r. IsMade (IsATrim args.now heads.now) atrim_view (λ m. m.trim.head) (⟦<Stepper<Limited<LastingATrim>> as Filter>⟧.view r.0) r.1.items) }
        ensures refused { IfErr result (IsRefused (IsATrim args.now heads.now)) }
    {
        match sound_settings(TrimSettings::ALL, args, heads) {
            Err(error) => Err(error),
            Ok((head, settings)) => {
                let range = Range::of(settings.range, &head);
                let lasting = settings.ticks(&head);
                let after = LastingATrim::at_once(lasting, range.stop);
                let trim = ATrim { head, range };
                machine_of(alloc, LastingATrim { trim, lasting }, &head, after)
            }
        }
    }
}
