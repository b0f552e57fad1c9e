//! The time at which a frame starts, in the time base of all inputs.
ghost use Rattle.std.specs.Prelude.{◌≡◌, ◌<◌, ◌^◌};
ghost use Rattle.ff_stream.specs.Times.{ticks};

use ff_filter::ticks_of;
use ff_frame::VFrame;

/// When a frame starts, among those of all inputs: in ticks of the time base that they share.
pub(crate) fn time_among(frame: &VFrame) -> u64
    ensures is { result ≡ ticks frame.now.pts }
    ensures near { result < 2 ^ 63 }
{
    ticks_of(frame.pts)
}
