//! The machine of `concat`.
ghost use Rattle.std.specs.Prelude.{◌≡◌, ◌<◌, ◌*◌, ◌^◌, length};
ghost use Rattle.std.specs.List.{All};
ghost use Rattle.ff_concat.specs.declared.track.Track.{Track as ATrack};

use crate::reach::Reach;
use crate::track::Track;
use std::alloc::Global;

/// `concat`: segments of video, of audio or of both, one after another. Input k * w + q is stream q of segment k, where
/// w streams make a segment.
#[derive(Drop)]
pub struct Concat {
    /// How many units of time a tick of each stream of a segment has.
    pub ticks: Vec<u128>,
    /// How many segments there are.
    pub segments: usize,
    /// How far each input has come.
    pub reaches: Vec<Reach>,
    /// The outputs.
    pub tracks: Vec<Track>,
    /// Where the memory of zeros comes from.
    pub alloc: Global,
    pub ghost outputs: { length ticks.items ≡ length tracks.items },
    pub ghost inputs: { length reaches.items ≡ segments * length tracks.items },
    pub ghost small: { All (λ tick. tick < 2 ^ 62) ticks.items },
    pub ghost each: { All (λ (t : ATrack). length t.backlogs.items ≡ segments) tracks.items },
}
