//! The filter `asplit`.
ghost use Rattle.std.specs.Prelude.{IfOk, IfErr};
ghost use Rattle.ff_filter.specs.Options.{is_sound, IsRefused};
ghost use Rattle.ff_filter.specs.laws.spread.Many.{AreMade};
ghost use Rattle.ff_filter.specs.spread.Splits.{IsSplit, split_view, split_heads};

use ff_filter::{Copies, Filter, SplitSettings, Spreader, copies_of, sound_settings};
use ff_frame::{ConfigError, StreamHead};
use ff_lang::Arg;
use std::alloc::Global;

/// `asplit`: the same stream on each of several outputs.
pub struct ASplit {}

impl ASplit {
    /// The filter by its arguments and the head of its input; the heads of its outputs beside it. The option `outputs`,
    /// which may be given by place, is a whole number of 1 to 16, and 2 where it isn't given. It refuses in this order:
    /// `Pads`, `Kind`, `UnknownOption` and `BadOption` by argument.
    pub fn configure(
        alloc: Global,
        args: &[Arg],
        heads: &[StreamHead],
    ) -> Result<(Spreader<Copies>, Vec<StreamHead>), ConfigError>
        ensures made { IfOk result (λ r. AreMade (IsSplit is_sound args.now heads.now) split_view split_heads
            (⟦<Spreader<Copies> as Filter>⟧.view r.0) r.1.items) }
        ensures refused { IfErr result (IsRefused (IsSplit is_sound args.now heads.now)) }
    {
        match sound_settings(SplitSettings { outputs: 2 }, args, heads) {
            Err(error) => Err(error),
            Ok((head, settings)) => copies_of(alloc, &head, settings.outputs),
        }
    }
}
