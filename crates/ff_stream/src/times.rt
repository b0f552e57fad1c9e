//! When an item ends, and the time base in which its stream says so.
ghost use Rattle.std.specs.Prelude.{◌≡◌, ◌≤◌, ◌/◌, ◌^◌, ◌≤ℤ◌, pos, negsuc};
ghost use Rattle.ff_frame.specs.Heads.{base_of_head};
ghost use Rattle.ff_stream.specs.Times.{end_of, ticks, end_ticks as end_of_ticks, with_base as head_in_base};

use crate::item::Item;
use ff_frame::StreamHead;
use ff_time::Rational;

/// The time base of a stream of this head.
pub fn time_base(head: &StreamHead) -> Rational
    ensures { result ≡ base_of_head head.now }
{
    match *head {
        StreamHead::Audio { tb, .. } => tb,
        StreamHead::Video { tb, .. } => tb,
    }
}

/// The head of the same frames with their times in another base.
pub fn with_base(base: Rational, head: &StreamHead) -> StreamHead
    ensures { result ≡ head_in_base base head.now }
{
    match *head {
        StreamHead::Audio {
            rate,
            bits,
            channels,
            codec,
            ..
        } => StreamHead::Audio {
            tb: base,
            rate,
            bits,
            channels,
            codec,
        },
        StreamHead::Video {
            format,
            width,
            height,
            sar_num,
            sar_den,
            ..
        } => StreamHead::Video {
            tb: base,
            format,
            width,
            height,
            sar_num,
            sar_den,
        },
    }
}

/// So many samples, shared out to so many channels; none where there is no channel.
pub fn shared(samples: usize, channels: usize) -> usize
    ensures { result ≡ samples / channels }
{
    if channels == 0 { 0 } else { samples / channels }
}

/// A time in ticks from 0; what lies before 0 counts as 0.
pub fn ticks_from(time: i128) -> u128
    ensures { result ≡ ticks time }
{
    if time < 0 { 0 } else { time as u128 }
}

/// When an item ends, in ticks.
pub fn end_of_item(item: &Item) -> i128
    ensures end { result ≡ end_of item.now }
    ensures small { result ≤ℤ pos (2 ^ 65) }
    ensures large { negsuc (2 ^ 65) ≤ℤ result }
{
    match item {
        Item::Audio(frame) => {
            let count = shared(frame.samples.as_slice().len(), frame.channels as usize);
            frame.pts as i128 + count as i128
        }
        Item::Video(frame) => frame.pts as i128 + frame.duration as i128,
        Item::Packet(packet) => packet.pts as i128 + packet.duration as i128,
        Item::Trailer(_) | Item::End | Item::Broken => 0,
    }
}

/// When an item ends, in ticks from 0; what lies before 0 counts as 0.
pub fn end_ticks(item: &Item) -> u128
    ensures is { result ≡ end_of_ticks item.now }
    ensures near { result ≤ 2 ^ 65 }
{
    ticks_from(end_of_item(item))
}
