//! Where a range stops that lasts from the first item kept on.
ghost use Rattle.std.specs.Prelude.{◌≡◌, ◌+◌, ◌<◌, ◌^◌};
ghost use Rattle.ff_filter.specs.lasting.Lastings.{later_of};

/// Where a range stops that lasts so many ticks from a time on: the later of both, where it has a stop of its own.
pub fn lasting_stop(stop: Option<u64>, first: u64, ticks: u64) -> u64
    requires first_near { first < 2 ^ 63 }
    requires ticks_near { ticks < 2 ^ 63 }
    ensures { result ≡ later_of stop (first + ticks) }
{
    match stop {
        None => first + ticks,
        Some(stop) => stop.max(first + ticks),
    }
}
