//! The reading of a filter's arguments, and the checks of its input's head.
ghost use Rattle.std.specs.Prelude.{◌≡◌, ◌↔◌, ◌<◌, ◌≤◌, ◌^◌, ℕ, length, IfSome, IsNone, Some, false};
ghost use Rattle.ff_filter.specs.Options.{Manual, named, option_of as option_at, AreRead, ranged as ranged_of, IsTime, only_head, is_sound, is_video, AreSet};

use ff_frame::{ConfigError, StreamHead};
use ff_lang::Arg;
use ff_time::{read_duration, read_number};

/// The settings of a filter, as its arguments make them.
pub trait Settings: Copy {
    /// The options, their names, places and values.
    ghost manual: { Manual Self };

    /// The number of the option of this name.
    fn option(key: &str) -> Option<usize>
        ensures { result ≡ named manual.names key.now };

    /// How many options may be given by place.
    fn places() -> usize
        ensures { result ≡ manual.places };

    /// The settings with this value of an option. None where it isn't taken.
    fn set(self, option: usize, value: &str) -> Option<Self>
        ensures set { IfSome result (λ s. manual.Sets self option value.now s) }
        ensures not_taken { IsNone result → (s : Self) → manual.Sets self option value.now s → ⊥ };
}

/// The option that an argument gives, of so many that were given by place; none where it has no such option.
pub fn option_of<S: Settings>(arg: &Arg, keyed: bool, place: usize) -> Option<usize>
    ensures { result ≡ option_at S.manual keyed place arg.now.key }
{
    match &arg.key {
        Some(key) => S::option(key.as_str()),
        None => {
            if place < S::places() && !keyed {
                Some(place)
            } else {
                None
            }
        }
    }
}

/// What the arguments make of these settings. The first one at fault refuses all: `UnknownOption` is for a key that
/// the filter doesn't have, too many arguments by place, or one without a key after one with a key. `BadOption` is
/// for a value that the option doesn't take.
pub fn read_args<S: Settings>(settings: S, args: &[Arg]) -> Result<S, ConfigError>
    ensures read { AreRead S.manual false 0 settings args.now result }
{
    let mut settings = settings;
    let mut keyed = false;
    'each: for place in 0..args.len() {
        let arg = &args[place];
        match option_of::<S>(arg, keyed, place) {
            None => return Err(ConfigError::UnknownOption),
            Some(option) => match settings.set(option, arg.value.as_str()) {
                None => return Err(ConfigError::BadOption),
                Some(next) => settings = next,
            },
        }
        keyed = keyed | arg.key.is_some();
    }
    Ok(settings)
}

/// A whole number of 1 to 5 digits from `least` to `most`.
pub fn ranged(text: &str, least: u64, most: u64) -> Option<u64>
    ensures value { result ≡ ranged_of least most text.now }
    ensures within { IfSome result (λ n. (least ≤ n) × (n ≤ most)) }
{
    match read_number(text, 5) {
        None => None,
        Some(number) => {
            if least <= number && number <= most {
                Some(number)
            } else {
                None
            }
        }
    }
}

/// A time in microseconds, at most 10^15 of them.
pub fn read_time(text: &str) -> Option<u64>
    ensures value { (us : ℕ) → (result ≡ Some us) ↔ IsTime text.now us }
    ensures near { IfSome result (λ us. us ≤ 10 ^ 15) }
{
    match read_duration(text.as_bytes()) {
        Ok(us) => Some(us),
        Err(_) => None,
    }
}

// The head of the only input, which has to be video. `Pads` where there isn't one input, `Kind` where it is audio.
fn only_video(heads: &[StreamHead]) -> Result<StreamHead, ConfigError>
    ensures { result ≡ only_head is_video heads.now }
{
    match heads {
        [head] => match head {
            StreamHead::Video { .. } => Ok(*head),
            StreamHead::Audio { .. } => Err(ConfigError::Kind),
        },
        _ => Err(ConfigError::Pads),
    }
}

// The head of the only input, which has to be audio. `Pads` where there isn't one input, `Kind` where it is video.
fn only_sound(heads: &[StreamHead]) -> Result<StreamHead, ConfigError>
    ensures { result ≡ only_head is_sound heads.now }
{
    match heads {
        [head] => match head {
            StreamHead::Audio { .. } => Ok(*head),
            StreamHead::Video { .. } => Err(ConfigError::Kind),
        },
        _ => Err(ConfigError::Pads),
    }
}

/// The head of the only input, which has to be video, and the settings that the arguments make. `Pads` where there isn't
/// one input, then `Kind` where it is audio, then as `read_args`.
pub fn video_settings<S: Settings>(
    settings: S,
    args: &[Arg],
    heads: &[StreamHead],
) -> Result<(StreamHead, S), ConfigError>
    ensures { AreSet is_video S.manual settings args.now heads.now result }
{
    match only_video(heads) {
        Err(error) => Err(error),
        Ok(head) => match read_args(settings, args) {
            Err(error) => Err(error),
            Ok(settings) => Ok((head, settings)),
        },
    }
}

/// The head of the only input, which has to be audio, and the settings that the arguments make. `Pads` where there isn't
/// one input, then `Kind` where it is video, then as `read_args`.
pub fn sound_settings<S: Settings>(
    settings: S,
    args: &[Arg],
    heads: &[StreamHead],
) -> Result<(StreamHead, S), ConfigError>
    ensures { AreSet is_sound S.manual settings args.now heads.now result }
{
    match only_sound(heads) {
        Err(error) => Err(error),
        Ok(head) => match read_args(settings, args) {
            Err(error) => Err(error),
            Ok(settings) => Ok((head, settings)),
        },
    }
}
