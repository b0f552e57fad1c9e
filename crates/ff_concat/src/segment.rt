//! How the streams of a segment stand together, and where the segment ends.
ghost use Rattle.std.specs.Prelude.{◌≡◌, ◌<◌, ◌≤◌, ◌+◌, ◌^◌, length};
ghost use Rattle.std.specs.List.{All};
ghost use Rattle.ff_filter.specs.Joins.{silence};
ghost use Rattle.ff_filter.specs.Made.{mark_after};
ghost use Rattle.ff_concat.specs.Tails.{both as both_marks, together as together_by, latest as latest_by};
ghost use Rattle.ff_concat.specs.laws.Tracks.{tails};

use crate::reach::Reach;
use ff_filter::After;

// How two streams stand together.
fn both(first: After, second: After) -> After
    ensures { mark_after result ≡ both_marks (mark_after first) (mark_after second) }
{
    match first {
        After::Broke => After::Broke,
        After::Whole => second,
        After::More => match second {
            After::Broke => After::Broke,
            After::Whole | After::More => After::More,
        },
    }
}

/// How so many inputs from one on stand together: broken where one is, and whole where all are.
pub fn together(reaches: &[Reach], first: usize, count: usize) -> After
    requires { first + count ≤ length reaches.now }
    ensures { mark_after result ≡ together_by count first (tails reaches.now silence) }
{
    let mut after = After::Whole;
    'streams: for k in 0..count {
        after = both(after, reaches[first + k].after);
    }
    after
}

/// The latest end of so many inputs from one on, in a unit of which a tick of each has as many as the list says.
pub fn latest(ticks: &[u128], reaches: &[Reach], first: usize) -> u128
    requires there { first + length ticks.now ≤ length reaches.now }
    requires small { All (λ tick. tick < 2 ^ 62) ticks.now }
    ensures { result ≡ latest_by ticks.now (length ticks.now) first (tails reaches.now silence) }
{
    let mut latest: u128 = 0;
    'streams: for k in 0..ticks.len() {
        latest = latest.max(reaches[first + k].end * ticks[k]);
    }
    latest
}
