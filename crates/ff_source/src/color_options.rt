//! The arguments of `color`.
ghost use Rattle.std.specs.Prelude.{◌≡◌, ◌<◌, ◌^◌, IfSome, IsNone};
ghost use Rattle.ff_source.specs.ColorOptions.{made_color, MakesColor};

use crate::color::{Color, Pictures};
use crate::length::Length;
use crate::made::Made;
use ff_filter::Settings;
use ff_frame::{ConfigError, is_side, read_sides};
use ff_time::{Rational, read_rate};

/// The settings of `color`.
#[derive(Clone, Copy, Debug)]
pub struct ColorSettings {
    /// The colour.
    pub color: Color,
    /// Columns.
    pub width: u64,
    /// Rows.
    pub height: u64,
    /// The time base, which is one over the pictures a second.
    pub base: Rational,
    /// How long it lasts, where that is given.
    pub duration: Option<Length>,
}

impl ColorSettings {
    ghost use Rattle.ff_source.specs.ColorOptions.{color_default, SetsColor};

    /// Black, 320 by 240, 25 a second, and no duration.
    pub(crate) fn new() -> ColorSettings
        ensures { result ≡ color_default }
    {
        ColorSettings {
            color: Color::Black,
            width: 320,
            height: 240,
            base: Rational::one_over(25),
            duration: None,
        }
    }

    // The settings with this colour.
    fn with_color(self, value: &str) -> Option<ColorSettings>
        ensures set { IfSome result (λ t. SetsColor self 0 value.now t) }
        ensures none { IsNone result → (t : ColorSettings) → SetsColor self 0 value.now t → ⊥ }
    {
        match Color::read(value) {
            None => None,
            Some(color) => Some(ColorSettings {
                color,
                width: self.width,
                height: self.height,
                base: self.base,
                duration: self.duration,
            }),
        }
    }

    // The settings with this size.
    fn with_size(self, value: &str) -> Option<ColorSettings>
        ensures set { IfSome result (λ t. SetsColor self 1 value.now t) }
        ensures none { IsNone result → (t : ColorSettings) → SetsColor self 1 value.now t → ⊥ }
    {
        match read_sides(value) {
            None => None,
            Some((width, height)) => Some(ColorSettings {
                color: self.color,
                width,
                height,
                base: self.base,
                duration: self.duration,
            }),
        }
    }

    // The settings with this rate.
    fn with_rate(self, value: &str) -> Option<ColorSettings>
        ensures set { IfSome result (λ t. SetsColor self 2 value.now t) }
        ensures none { IsNone result → (t : ColorSettings) → SetsColor self 2 value.now t → ⊥ }
    {
        match read_rate(value) {
            None => None,
            Some(base) => Some(ColorSettings {
                color: self.color,
                width: self.width,
                height: self.height,
                base,
                duration: self.duration,
            }),
        }
    }

    // The settings with this duration.
    fn with_duration(self, value: &str) -> Option<ColorSettings>
        ensures set { IfSome result (λ t. SetsColor self 3 value.now t) }
        ensures none { IsNone result → (t : ColorSettings) → SetsColor self 3 value.now t → ⊥ }
    {
        match Length::read(value) {
            None => None,
            Some(length) => Some(ColorSettings {
                color: self.color,
                width: self.width,
                height: self.height,
                base: self.base,
                duration: Some(length),
            }),
        }
    }
}

impl Settings for ColorSettings {
    ghost use Rattle.ff_source.specs.ColorOptions.{color_manual};

    ghost manual = { color_manual };

    fn option(key: &str) -> Option<usize> {
        if key == "c" || key == "color" {
            Some(0)
        } else if key == "s" || key == "size" {
            Some(1)
        } else if key == "r" || key == "rate" {
            Some(2)
        } else if key == "d" || key == "duration" {
            Some(3)
        } else {
            None
        }
    }

    fn places() -> usize {
        4
    }

    fn set(self, option: usize, value: &str) -> Option<ColorSettings> {
        if option == 0 {
            return self.with_color(value);
        }
        if option == 1 {
            return self.with_size(value);
        }
        if option == 2 {
            return self.with_rate(value);
        }
        self.with_duration(value)
    }
}

// So many pictures. `BadSize` where a size is 0 or above 16,384.
fn sized(settings: &ColorSettings, count: u64) -> Result<Made, ConfigError>
    ensures { result ≡ made_color settings.now count }
{
    if is_side(settings.width) && is_side(settings.height) {
        Ok(Made::Pictures(Pictures {
            color: settings.color,
            width: settings.width as u32,
            height: settings.height as u32,
            base: settings.base,
            count,
        }))
    } else {
        Err(ConfigError::BadSize)
    }
}

/// The pictures that settings make, where they last so long. `BadOption` where no duration is given, then `BadSize`
/// where a size is 0 or above 16,384.
pub(crate) fn make_color(
    settings: &ColorSettings,
    duration: Option<Length>,
) -> Result<Made, ConfigError>
    ensures { MakesColor settings.now duration result }
{
    match duration {
        None => Err(ConfigError::BadOption),
        Some(length) => sized(settings, length.ticks(settings.base)),
    }
}
