//! The arguments of `concat`.
ghost use Rattle.std.specs.Prelude.{◌≡◌, ◌≤◌, ◌+◌, Some};
ghost use Rattle.ff_concat.specs.Arguments.{one_if, too_many as too_many_of, allowed as allowed_of};
ghost use Rattle.ff_concat.specs.Arguments.{set_segments, set_video, set_audio, concat_set};

use crate::settings::ConcatSettings;
use ff_filter::{Settings, ranged};

// How many streams a segment has.
pub(crate) fn streams(video: bool, audio: bool) -> usize
    ensures is { result ≡ one_if video + one_if audio }
    ensures few { result ≤ 2 }
{
    match (video, audio) {
        (true, true) => 2,
        (true, false) | (false, true) => 1,
        (false, false) => 0,
    }
}

// Whether there are more inputs than a filter may have.
pub(crate) fn too_many(segments: usize, video: bool, audio: bool) -> bool
    ensures { result ≡ too_many_of segments video audio }
{
    16 < segments.saturating_mul(streams(video, audio))
}

// The settings, unless no kind is asked for behind the last argument that says so, or too many inputs behind the last
// of all.
fn allowed(settings: ConcatSettings) -> Option<ConcatSettings>
    ensures { result ≡ allowed_of settings }
{
    if settings.kinds_left == 0 && !(settings.video || settings.audio) {
        return None;
    }
    if settings.left == 0 && too_many(settings.segments, settings.video, settings.audio) {
        return None;
    }
    Some(settings)
}

impl ConcatSettings {
    // With so many segments.
    fn with_segments(self, number: u64) -> Option<ConcatSettings>
        requires { number ≤ 16 }
        ensures { result ≡ set_segments self (Some number) }
    {
        allowed(ConcatSettings {
            segments: number as usize,
            video: self.video,
            audio: self.audio,
            kinds_left: self.kinds_left,
            left: self.left.saturating_sub(1),
        })
    }

    // With video or without.
    fn with_video(self, number: u64) -> Option<ConcatSettings>
        ensures { result ≡ set_video self (Some number) }
    {
        allowed(ConcatSettings {
            segments: self.segments,
            video: number == 1,
            audio: self.audio,
            kinds_left: self.kinds_left.saturating_sub(1),
            left: self.left.saturating_sub(1),
        })
    }

    // With audio or without.
    fn with_audio(self, number: u64) -> Option<ConcatSettings>
        ensures { result ≡ set_audio self (Some number) }
    {
        allowed(ConcatSettings {
            segments: self.segments,
            video: self.video,
            audio: number == 1,
            kinds_left: self.kinds_left.saturating_sub(1),
            left: self.left.saturating_sub(1),
        })
    }

    // The settings with this value of an option.
    fn with(self, option: usize, value: &str) -> Option<ConcatSettings>
        ensures { result ≡ concat_set self option value.now }
    {
        if option == 0 {
            return match ranged(value, 2, 16) {
                None => None,
                Some(number) => self.with_segments(number),
            };
        }
        match ranged(value, 0, 1) {
            None => None,
            Some(number) => {
                if option == 1 {
                    self.with_video(number)
                } else {
                    self.with_audio(number)
                }
            }
        }
    }
}

impl Settings for ConcatSettings {
    ghost use Rattle.ff_concat.specs.Arguments.{concat_manual};

    ghost manual = { concat_manual };

    fn option(key: &str) -> Option<usize> {
        if key == "n" {
            Some(0)
        } else if key == "v" {
            Some(1)
        } else if key == "a" {
            Some(2)
        } else {
            None
        }
    }

    fn places() -> usize {
        3
    }

    fn set(self, option: usize, value: &str) -> Option<ConcatSettings> {
        self.with(option, value)
    }
}
