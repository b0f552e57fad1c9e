//! The arguments of `anullsrc`.
ghost use Rattle.std.specs.Prelude.{◌≡◌, IfSome, IsNone, ℕ};
ghost use Rattle.ff_source.specs.Bases.{one_over as over};
ghost use Rattle.ff_source.specs.SilenceOptions.{IsRate, MakesSilence};

use crate::length::Length;
use crate::made::Made;
use crate::silence::{Silence, read_channels};
use ff_filter::Settings;
use ff_frame::ConfigError;
use ff_time::{Rational, read_number};

/// The settings of `anullsrc`.
#[derive(Clone, Copy, Debug)]
pub struct SilenceSettings {
    /// Channels.
    pub channels: u8,
    /// The time base, which is one over the sample frames a second.
    pub base: Rational,
    /// How long it lasts, where that is given.
    pub duration: Option<Length>,
}

// The time base of a rate: a whole number from 1 to 2^31 - 1, of 1 to 10 digits.
fn base(text: &str) -> Option<Rational>
    ensures is { IfSome result (λ base. (rate : ℕ) × IsRate text.now rate × (base ≡ over rate)) }
    ensures none { IsNone result → (rate : ℕ) → IsRate text.now rate → ⊥ }
{
    match read_number(text, 10) {
        None => None,
        Some(rate) => {
            if rate < 1 || rate >= 1 << 31 {
                return None;
            }
            Some(Rational::one_over(rate as u32))
        }
    }
}

impl SilenceSettings {
    ghost use Rattle.ff_source.specs.SilenceOptions.{silence_default, SetsSilence};

    /// Two channels, 44,100 sample frames a second, and no duration.
    pub(crate) fn new() -> SilenceSettings
        ensures { result ≡ silence_default }
    {
        SilenceSettings {
            channels: 2,
            base: Rational::one_over(44100),
            duration: None,
        }
    }

    // The settings with this layout.
    fn with_layout(self, value: &str) -> Option<SilenceSettings>
        ensures set { IfSome result (λ t. SetsSilence self 0 value.now t) }
        ensures none { IsNone result → (t : SilenceSettings) → SetsSilence self 0 value.now t → ⊥ }
    {
        match read_channels(value) {
            None => None,
            Some(channels) => Some(SilenceSettings {
                channels,
                base: self.base,
                duration: self.duration,
            }),
        }
    }

    // The settings with this rate.
    fn with_rate(self, value: &str) -> Option<SilenceSettings>
        ensures set { IfSome result (λ t. SetsSilence self 1 value.now t) }
        ensures none { IsNone result → (t : SilenceSettings) → SetsSilence self 1 value.now t → ⊥ }
    {
        match base(value) {
            None => None,
            Some(base) => Some(SilenceSettings {
                channels: self.channels,
                base,
                duration: self.duration,
            }),
        }
    }

    // The settings with this duration.
    fn with_duration(self, value: &str) -> Option<SilenceSettings>
        ensures set { IfSome result (λ t. SetsSilence self 2 value.now t) }
        ensures none { IsNone result → (t : SilenceSettings) → SetsSilence self 2 value.now t → ⊥ }
    {
        match Length::read(value) {
            None => None,
            Some(length) => Some(SilenceSettings {
                channels: self.channels,
                base: self.base,
                duration: Some(length),
            }),
        }
    }
}

impl Settings for SilenceSettings {
    ghost use Rattle.ff_source.specs.SilenceOptions.{silence_manual};

    ghost manual = { silence_manual };

    fn option(key: &str) -> Option<usize> {
        if key == "cl" || key == "channel_layout" {
            Some(0)
        } else if key == "r" || key == "sample_rate" {
            Some(1)
        } else if key == "d" || key == "duration" {
            Some(2)
        } else {
            None
        }
    }

    fn places() -> usize {
        3
    }

    fn set(self, option: usize, value: &str) -> Option<SilenceSettings> {
        if option == 0 {
            return self.with_layout(value);
        }
        if option == 1 {
            return self.with_rate(value);
        }
        self.with_duration(value)
    }
}

/// The silence that settings make, where it lasts so long. `BadOption` where no duration is given.
pub(crate) fn make_silence(
    settings: &SilenceSettings,
    duration: Option<Length>,
) -> Result<Made, ConfigError>
    ensures { MakesSilence settings.now duration result }
{
    match duration {
        None => Err(ConfigError::BadOption),
        Some(length) => Ok(Made::Silence(Silence {
            base: settings.base,
            channels: settings.channels,
            count: length.ticks(settings.base),
        })),
    }
}
