//! What the arguments of `trim` and `atrim` say.
ghost use Rattle.std.specs.Prelude.{◌≤◌, ◌<◌, ◌^◌};
ghost use Rattle.ff_frame.specs.Heads.{base_of_head};
ghost use Rattle.ff_filter.specs.Ranges.{IsCeiling};

use crate::{Range, RangeSettings, Settings, read_time};
use ff_frame::StreamHead;
use ff_stream::time_base;

/// What the arguments of `trim` and `atrim` say, in microseconds.
#[derive(Clone, Copy, Debug)]
pub struct TrimSettings {
    /// The range of times.
    pub range: RangeSettings,
    /// How long it lasts from the first item kept on. 0 is no duration.
    pub lasting: u64,
    pub ghost lasting_near: { lasting ≤ 10 ^ 15 },
}

impl TrimSettings {
    /// All times from 0 on, and no duration.
    pub const ALL: TrimSettings = TrimSettings {
        range: RangeSettings::ALL,
        lasting: 0,
    };

    /// The duration in ticks of a stream.
    pub fn ticks(self, head: &StreamHead) -> u64
        ensures is { IsCeiling self.lasting (base_of_head head.now) result }
        ensures near { result < 2 ^ 63 }
    {
        Range::ceiling(self.lasting, time_base(head))
    }
}

impl Settings for TrimSettings {
    ghost use Rattle.ff_filter.specs.lasting.Lastings.{trim_manual};

    ghost manual = { trim_manual };

    fn option(key: &str) -> Option<usize> {
        if key == "start" {
            Some(0)
        } else if key == "end" {
            Some(1)
        } else if key == "duration" {
            Some(2)
        } else {
            None
        }
    }

    fn places() -> usize {
        2
    }

    fn set(self, option: usize, value: &str) -> Option<TrimSettings> {
        if option < 2 {
            return match self.range.set(option, value) {
                None => None,
                Some(range) => Some(TrimSettings {
                    range,
                    lasting: self.lasting,
                }),
            };
        }
        match read_time(value) {
            None => None,
            Some(us) => Some(TrimSettings {
                range: self.range,
                lasting: us,
            }),
        }
    }
}
