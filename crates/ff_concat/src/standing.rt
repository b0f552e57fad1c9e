//! How an output stands of which nothing waits in its current segment.
ghost use Rattle.std.specs.Prelude.{◌&&◌, ◌≡◌, ◌<◌, ◌+◌, ◌*◌, length, true, false, []};
ghost use Rattle.ff_filter.specs.Options.{is_video};
ghost use Rattle.ff_concat.specs.Silences.{filled};
ghost use Rattle.ff_concat.specs.laws.Tracks.{closed_from};
ghost use Rattle.ff_concat.specs.laws.Standing.{lost_from, StandsAs, IsPassed};

use crate::backlog::Backlog;
use crate::reach::Reach;
use crate::segment::together;
use crate::track::Track;
use ff_filter::After;
use ff_frame::StreamHead;

// Whether a stream is of video.
fn is_of_video(head: &StreamHead) -> bool
    ensures { result ≡ is_video head.now }
{
    match *head {
        StreamHead::Audio { .. } => false,
        StreamHead::Video { .. } => true,
    }
}

// Whether of the segments from this one on no item of stream number `number` can come: a break stands before the
// first. A segment has `width` streams.
fn is_lost(
    backlogs: &Vec<Backlog>,
    reaches: &[Reach],
    width: usize,
    number: usize,
    from: usize,
) -> bool
    requires inputs { length reaches.now ≡ length backlogs.now.items * width }
    requires stream { number < width }
    ensures { result ≡ lost_from backlogs.now.items reaches.now width number from }
{
    'segments: for segment in from..backlogs.len() {
        if !backlogs[segment].is_empty() {
            return false;
        }
        match reaches[segment * width + number].after {
            After::More => return false,
            After::Broke => return true,
            After::Whole => match together(reaches, segment * width, width) {
                After::Broke => return true,
                After::Whole | After::More => {}
            },
        }
    }
    false
}

impl Track {
    // Whether zeros are still to be given before the current segment.
    fn is_silent(&self) -> bool
        ensures none { result ≡ false → filled self.now.head self.now.end self.now.by ≡ [] }
        ensures some { filled self.now.head self.now.end self.now.by ≡ [] → result ≡ false }
    {
        !is_of_video(&self.head) && self.end < self.by
    }

    // Whether no more can come behind this segment, of which a stream is open.
    fn is_lost_behind(&self, reaches: &[Reach], width: usize, number: usize, segment: usize) -> bool
        requires there { segment < length self.now.backlogs.items }
        requires inputs { length reaches.now ≡ length self.now.backlogs.items * width }
        requires stream { number < width }
        ensures { result ≡ (is_video self.now.head && lost_from self.now.backlogs.items reaches.now width number (segment + 1)) }
    {
        let video = is_of_video(&self.head);
        let lost = is_lost(&self.backlogs, reaches, width, number, segment + 1);
        video && lost
    }

    /// How the output stands where nothing waits of its current segment: `More` where nothing comes yet, `Whole` where
    /// the next segment can begin, `Broke` where no more can come.
    pub(crate) fn standing(&self, reaches: &[Reach], width: usize, number: usize) -> After
        requires there { self.now.current < length self.now.backlogs.items }
        requires inputs { length reaches.now ≡ length self.now.backlogs.items * width }
        requires stream { number < width }
        ensures { StandsAs result self.now reaches.now width number }
    {
        let first = self.current * width;
        match reaches[first + number].after {
            After::More => After::More,
            After::Broke => After::Broke,
            After::Whole => match together(reaches, first, width) {
                After::Whole => After::Whole,
                After::Broke => After::Broke,
                After::More => {
                    if self.is_lost_behind(reaches, width, number, self.current) {
                        After::Broke
                    } else {
                        After::More
                    }
                }
            },
        }
    }

    /// Whether all of the current segment was given, and each of its streams is whole.
    pub(crate) fn is_passed(&self, reaches: &[Reach], width: usize, number: usize) -> bool
        requires inputs { length reaches.now ≡ length self.now.backlogs.items * width }
        requires stream { number < width }
        ensures there { result ≡ true → self.now.current < length self.now.backlogs.items }
        ensures passed { result ≡ true → IsPassed self.now reaches.now width number }
        ensures not { result ≡ false → self.now.current < length self.now.backlogs.items → IsPassed self.now reaches.now width number → ⊥ }
    {
        if self.current == self.backlogs.len() {
            return false;
        }
        if self.is_silent() {
            return false;
        }
        if !self.backlogs[self.current].is_empty() {
            return false;
        }
        match self.standing(reaches, width, number) {
            After::Whole => true,
            After::More | After::Broke => false,
        }
    }

    /// Whether what came so far closes the output, but for the limits.
    pub(crate) fn is_closed(&self, reaches: &[Reach], width: usize, number: usize) -> bool
        requires inputs { length reaches.now ≡ length self.now.backlogs.items * width }
        requires stream { number < width }
        ensures { result ≡ closed_from self.now reaches.now width number self.now.current }
    {
        'segments: for segment in self.current..self.backlogs.len() {
            match reaches[segment * width + number].after {
                After::More => return false,
                After::Broke => return true,
                After::Whole => match together(reaches, segment * width, width) {
                    After::Broke => return true,
                    After::More => return self.is_lost_behind(reaches, width, number, segment),
                    After::Whole => {}
                },
            }
        }
        true
    }
}
