//! The range of times of `trim` and `atrim`.
ghost use Rattle.std.specs.Prelude.{◌≡◌, ◌<◌, ◌≤◌, ◌^◌, None, Some};
ghost use Rattle.std.specs.Option.{ForSome};

use crate::options::{Settings, read_time};
use ff_frame::StreamHead;
use ff_stream::time_base;
use ff_time::{Rational, ceil_units};

/// A range of times as the arguments say it, in microseconds.
#[derive(Clone, Copy, Debug)]
pub struct RangeSettings {
    /// Where it begins.
    pub start: u64,
    /// Where it stops, if it does.
    pub stop: Option<u64>,
    pub ghost start_near: { start ≤ 10 ^ 15 },
    pub ghost stop_near: { ForSome stop (λ us. us ≤ 10 ^ 15) },
}

/// A range of times in ticks: from `start` to below `stop`.
#[derive(Clone, Copy, Debug)]
pub struct Range {
    /// Where it begins.
    pub start: u64,
    /// Where it stops, if it does.
    pub stop: Option<u64>,
    pub ghost near: { start < 2 ^ 63 },
}

impl RangeSettings {
    /// All times from 0 on.
    pub const ALL: RangeSettings = RangeSettings {
        start: 0,
        stop: None,
    };
}

impl Settings for RangeSettings {
    ghost use Rattle.ff_filter.specs.Ranges.{range_manual};

    ghost manual = { range_manual };

    fn option(key: &str) -> Option<usize> {
        if key == "start" {
            Some(0)
        } else if key == "end" {
            Some(1)
        } else {
            None
        }
    }

    fn places() -> usize {
        2
    }

    fn set(self, option: usize, value: &str) -> Option<RangeSettings> {
        match read_time(value) {
            None => None,
            Some(us) => {
                if option == 0 {
                    Some(RangeSettings {
                        start: us,
                        stop: self.stop,
                    })
                } else {
                    Some(RangeSettings {
                        start: self.start,
                        stop: Some(us),
                    })
                }
            }
        }
    }
}

impl Range {
    ghost use Rattle.ff_frame.specs.Heads.{base_of_head};
    ghost use Rattle.ff_filter.specs.Ranges.{IsRange, IsStop, IsCeiling, is_past as past};

    /// The least number of ticks that is at least so many microseconds.
    pub fn ceiling(us: u64, tb: Rational) -> u64
        requires near { us ≤ 10 ^ 15 }
        ensures is { IsCeiling us tb result }
        ensures near { result < 2 ^ 63 }
    {
        let ticks = ceil_units(us, tb);
        if ticks < 0 { 0 } else { ticks as u64 }
    }

    fn stop_in_ticks(stop: Option<u64>, tb: Rational) -> Option<u64>
        requires near { ForSome stop (λ us. us ≤ 10 ^ 15) }
        ensures { IsStop stop tb result }
    {
        match stop {
            None => None,
            Some(us) => Some(Range::ceiling(us, tb)),
        }
    }

    /// The range in ticks of a stream.
    pub fn of(settings: RangeSettings, head: &StreamHead) -> Range
        ensures { IsRange settings (base_of_head head.now) result }
    {
        let tb = time_base(head);
        Range {
            start: Range::ceiling(settings.start, tb),
            stop: Range::stop_in_ticks(settings.stop, tb),
        }
    }

    /// Whether a time is at or past the stop.
    pub fn is_past(&self, time: u64) -> bool
        ensures { result ≡ past self.now.stop time }
    {
        match self.stop {
            None => false,
            Some(stop) => stop <= time,
        }
    }
}
