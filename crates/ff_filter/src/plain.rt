//! The settings of filters with no option, and of `setpts` and `asetpts`.
ghost use Rattle.std.specs.Prelude.{◌≡◌};

use crate::options::Settings;

/// The settings of a filter without options.
#[derive(Clone, Copy, Debug)]
pub struct NoSettings {}

impl Settings for NoSettings {
    ghost use Rattle.ff_filter.specs.Plain.{no_manual};

    ghost manual = { no_manual };

    fn option(_key: &str) -> Option<usize> {
        None
    }

    fn places() -> usize {
        0
    }

    fn set(self, _option: usize, _value: &str) -> Option<NoSettings> {
        None
    }
}

/// The settings of `setpts` and `asetpts`.
#[derive(Clone, Copy, Debug)]
pub struct ExprSettings {
    /// Whether the expression was given.
    pub given: bool,
}

impl Settings for ExprSettings {
    ghost use Rattle.ff_filter.specs.Plain.{expr_manual};

    ghost manual = { expr_manual };

    fn option(key: &str) -> Option<usize> {
        if key == "expr" { Some(0) } else { None }
    }

    fn places() -> usize {
        1
    }

    fn set(self, _option: usize, value: &str) -> Option<ExprSettings> {
        if value == "PTS-STARTPTS" {
            Some(ExprSettings { given: true })
        } else {
            None
        }
    }
}
