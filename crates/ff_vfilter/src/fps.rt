//! The filter `fps`, by its arguments and the head of its input.
ghost use Rattle.std.specs.Prelude.{◌≡◌, ◌<◌, ◌^◌, ◌∷◌, [], pos, None, Some, ℕ, IfSome, IsNone, IfOk, IfErr};
ghost use Rattle.ff_time.specs.Fraction.{Fraction};
ghost use Rattle.ff_frame.specs.declared.config.ConfigError.TheVariants.{NoMemory};
ghost use Rattle.ff_vfilter.specs.FpsOptions.{fps_head, fps_view};

use crate::rate::Rate;
use crate::scale::Scale;
use crate::showing::{Ahead, Showing};
use ff_filter::{Filter, Inlet, Settings, video_settings};
use ff_frame::{ConfigError, StreamHead};
use ff_lang::Arg;
use ff_stream::{time_base, with_base};
use ff_time::{Rational, read_rate};
use std::alloc::Global;

/// The settings of `fps`.
#[derive(Clone, Copy, Debug)]
pub struct FpsSettings {
    /// The time base of the output, which is one over the frames a second.
    pub base: Rational,
}

impl Settings for FpsSettings {
    ghost use Rattle.ff_vfilter.specs.FpsOptions.{fps_manual};

    ghost manual = { fps_manual };

    fn option(key: &str) -> Option<usize> {
        if key == "fps" { Some(0) } else { None }
    }

    fn places() -> usize {
        1
    }

    fn set(self, _option: usize, value: &str) -> Option<FpsSettings> {
        match read_rate(value) {
            None => None,
            Some(base) => Some(FpsSettings { base }),
        }
    }
}

// The machine to which nothing was done.
fn rate_of(alloc: Global, head: &StreamHead, base: Rational) -> Rate
    ensures { ⟦<Rate as Filter>⟧.view result ≡ fps_view (head.now, base) }
{
    Rate {
        alloc,
        head: *head,
        given: with_base(base, head),
        showing: Showing {
            scale: Scale {
                from: time_base(head),
                to: base,
            },
            picture: None,
            number: 0,
            before: 0,
            ahead: Ahead::Unknown,
        },
        input: Inlet::new(alloc),
        ended: false,
        stopped: false,
    }
}

// The machine and the head of its output. `NoMemory` where there was none.
fn rate_and_head(
    alloc: Global,
    head: &StreamHead,
    base: Rational,
) -> Result<(Rate, Vec<StreamHead>), ConfigError>
    ensures view { IfOk result (λ r. ⟦<Rate as Filter>⟧.view r.0 ≡ fps_view (head.now, base)) }
    ensures heads { IfOk result (λ r. r.1.items ≡ fps_head (head.now, base) ∷ []) }
    ensures err { IfErr result (λ e. e ≡ NoMemory) }
{
    let machine = rate_of(alloc, head, base);
    let mut heads = Vec::new(alloc);
    match heads.push(with_base(base, head)) {
        Ok(()) => Ok((machine, heads)),
        Err(_) => Err(ConfigError::NoMemory),
    }
}

/// `fps`: frames at an even rate. Number n shows the last frame whose own time, rounded to a number, is at most n.
pub struct Fps {}

impl Fps {
    ghost use Rattle.ff_filter.specs.Options.{IsMade, IsRefused};
    ghost use Rattle.ff_vfilter.specs.FpsOptions.{IsFps};

    /// The filter by its arguments and the head of its input, and the head of its output. The time base of that is
    /// one over the frames a second. The option `fps`, which may be given by place, is N or N/D, whole numbers of 1
    /// to 10 digits. It is 25 where it isn't given. It refuses in this order: `Pads`, `Kind`, `UnknownOption` and
    /// `BadOption` by argument.
    pub fn configure(
        alloc: Global,
        args: &[Arg],
        heads: &[StreamHead],
    ) -> Result<(Rate, Vec<StreamHead>), ConfigError>
        ensures made { IfOk result (λ r. IsMade (IsFps args.now heads.now) fps_view fps_head (⟦<Rate as Filter>⟧.view r.0) r.1.items) }
        ensures refused { IfErr result (IsRefused (IsFps args.now heads.now)) }
    {
        let settings = FpsSettings {
            base: Rational::one_over(25),
        };
        match video_settings(settings, args, heads) {
            Err(error) => Err(error),
            Ok((head, settings)) => rate_and_head(alloc, &head, settings.base),
        }
    }
}
