//! Whether something that came of an output passes a limit, also where it still waits.
ghost use Rattle.std.specs.Prelude.{◌≡◌, ◌<◌, ◌≤◌, ◌+◌, ◌*◌, ◌^◌, ◌||◌, false, length, map};
ghost use Rattle.std.specs.List.{All};
ghost use Rattle.ff_stream.specs.declared.item.Lane.TheVariants.{Frames};
ghost use Rattle.ff_stream.specs.Within.{some_pass, passes_limits};
ghost use Rattle.ff_filter.specs.Joins.{silence};
ghost use Rattle.ff_filter.specs.Made.{mark_after};
ghost use Rattle.ff_concat.specs.Concats.{later};
ghost use Rattle.ff_concat.specs.Silences.{filled};
ghost use Rattle.ff_concat.specs.Tails.{together as together_by};
ghost use Rattle.ff_concat.specs.laws.Cuts.{goes_on};
ghost use Rattle.ff_concat.specs.laws.Late.{channel_count};
ghost use Rattle.ff_concat.specs.laws.Queues.{queue_at};
ghost use Rattle.ff_concat.specs.laws.Tracks.{after_at, tails, cut_from, is_done};

use crate::reach::Reach;
use crate::segment::{latest, together};
use crate::times::begin_of;
use crate::track::Track;
use ff_filter::After;
use ff_frame::StreamHead;
use ff_stream::{MOST_ITEMS, ends_past, shared};

// Whether the stream of this number and with it its whole segment, of so many streams from one on, is whole.
fn are_whole(reaches: &[Reach], first: usize, width: usize, number: usize) -> bool
    requires there { first + width ≤ length reaches.now }
    requires stream { number < width }
    ensures { result ≡ goes_on (mark_after (after_at reaches.now (first + number))) (together_by width first (tails reaches.now silence)) }
{
    match reaches[first + number].after {
        After::More | After::Broke => false,
        After::Whole => match together(reaches, first, width) {
            After::Whole => true,
            After::More | After::Broke => false,
        },
    }
}

// How many frames of zeros fill a stream of this head from one time to another.
fn frames_between(head: &StreamHead, from: u128, to: u128) -> u128
    requires { to < 2 ^ 63 }
    ensures is { result ≡ length (filled head.now from to) }
    ensures near { result < 2 ^ 63 }
{
    match *head {
        StreamHead::Video { .. } => 0,
        StreamHead::Audio { .. } => to.saturating_sub(from).div_ceil(1024),
    }
}

// How many channels a stream of this head has.
fn channels_of(head: &StreamHead) -> usize
    ensures is { result ≡ channel_count head.now }
    ensures few { result < 2 ^ 8 }
{
    match *head {
        StreamHead::Video { .. } => 0,
        StreamHead::Audio { channels, .. } => channels as usize,
    }
}

// Whether one of the frames of zeros from one time to another passes a limit, where so many items stand before them.
fn zeros_pass(head: &StreamHead, before: u128, from: u128, to: u128) -> bool
    requires before { before ≤ 2 ^ 64 }
    requires to { to < 2 ^ 63 }
    ensures { result ≡ some_pass (passes_limits (Frames head.now)) before (filled head.now from to) }
{
    let count = frames_between(head, from, to);
    if count == 0 {
        return false;
    }
    let start = from + 1024 * (count - 1);
    let channels = channels_of(head);
    let long = shared((to - start) as usize * channels, channels);
    (MOST_ITEMS as u128) < before + count || ends_past(head, start + long as u128)
}

impl Track {
    // Whether one of the items that wait of a segment passes a limit, where they are so many ticks later, and so many items
    // stand before them.
    fn items_pass(&self, segment: usize, before: u128, by: u128) -> bool
        requires open { (self.now.stopped || self.now.ended) ≡ false }
        requires from { self.now.current ≤ segment }
        requires there { segment < length self.now.backlogs.items }
        requires before { before ≤ 2 ^ 64 }
        requires by { by ≤ 9223372036854775807 }
        requires here { segment ≡ self.now.current → by ≡ self.now.by }
        ensures { result ≡ some_pass (passes_limits (Frames self.now.head)) before (map (later by) (queue_at self.now.backlogs.items segment)) }
    {
        let backlog = &self.backlogs[segment];
        let count = backlog.len();
        if count == 0 {
            return false;
        }
        (MOST_ITEMS as u128) < before + count as u128 || backlog.least <= by
    }

    // Whether an item that came of the current segment or of one behind it passes a limit, or one of the zeros between.
    fn is_cut(&self, ticks: &[u128], reaches: &[Reach], number: usize) -> bool
        requires open { (self.now.stopped || self.now.ended) ≡ false }
        requires inputs { length reaches.now ≡ length self.now.backlogs.items * length ticks.now }
        requires stream { number < length ticks.now }
        requires small { All (λ tick. tick < 2 ^ 62) ticks.now }
        ensures { result ≡ cut_from ticks.now number self.now reaches.now self.now.before self.now.current self.now.begin self.now.end }
    {
        let mut before = self.before as u128;
        let mut begin = self.begin;
        let mut end = self.end;
        'segments: for segment in self.current..self.backlogs.len() {
            let by = begin_of(self.tick, begin);
            if zeros_pass(&self.head, before, end, by) {
                return true;
            }
            let filled = before + frames_between(&self.head, end, by);
            if self.items_pass(segment, filled, by) {
                return true;
            }
            let first = segment * ticks.len();
            if !are_whole(reaches, first, ticks.len(), number) {
                return false;
            }
            before = filled + self.backlogs[segment].len() as u128;
            begin = begin.saturating_add(latest(ticks, reaches, first));
            end = by + reaches[first + number].end;
        }
        false
    }

    /// Whether nothing more is to come of the output: it isn't wanted, or was closed, or what came so far closes it.
    pub(crate) fn is_over(&self, ticks: &[u128], reaches: &[Reach], number: usize) -> bool
        requires inputs { length reaches.now ≡ length self.now.backlogs.items * length ticks.now }
        requires stream { number < length ticks.now }
        requires small { All (λ tick. tick < 2 ^ 62) ticks.now }
        ensures { result ≡ is_done ticks.now self.now reaches.now number }
    {
        if self.stopped | self.ended {
            return true;
        }
        self.is_cut(ticks, reaches, number) || self.is_closed(reaches, ticks.len(), number)
    }
}
