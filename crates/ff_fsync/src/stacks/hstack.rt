//! The filter `hstack`.
ghost use Rattle.std.specs.Prelude.{IfOk, IfErr};
ghost use Rattle.ff_filter.specs.Options.{IsMade, IsRefused};
ghost use Rattle.ff_fsync.specs.declared.stacks.shape.Direction.TheVariants.{Beside};
ghost use Rattle.ff_fsync.specs.stacks.Stacks.{IsStack, stack_view, head_of};

use crate::stacks::configured::stack_for;
use crate::stacks::shape::Direction;
use crate::stacks::stacked::Stacked;
use ff_filter::Filter;
use ff_frame::{ConfigError, StreamHead};
use ff_lang::Arg;
use std::alloc::Global;

/// `hstack`: the frames of several inputs side by side.
pub struct HStack {}

impl HStack {
    /// The filter by its arguments and the heads of its inputs; the head of its output beside it. The options, in
    /// this order of places, are `inputs` and `shortest`. `inputs` is a whole number of 2 to 16, and 2 where it isn't
    /// given. `shortest` is 0 or 1, and 0 where it isn't given. It refuses in this order: `Pads` where there aren't
    /// so many inputs, `Kind` where one is audio, `UnknownOption` and `BadOption` by argument. Then come `Mismatch`
    /// where the inputs have no common base, or formats or heights differ, and `BadSize`. The widths then come to more than 16,384, or one
    /// but the last is odd where two columns share a sample of Cb.
    pub fn configure(
        alloc: Global,
        args: &[Arg],
        heads: &[StreamHead],
    ) -> Result<(Stacked, Vec<StreamHead>), ConfigError>
        ensures made { IfOk result (λ r. IsMade (IsStack Beside args.now heads.now) stack_view head_of (⟦<Stacked as Filter>⟧.view r.0) r.1.items) }
        ensures refused { IfErr result (IsRefused (IsStack Beside args.now heads.now)) }
    {
        stack_for(Direction::Beside, alloc, args, heads)
    }
}
