//! The filter `setpts`.
ghost use Rattle.std.specs.Prelude.{IfOk, IfErr};
ghost use Rattle.ff_filter.specs.Options.{is_video, IsMade, IsRefused};
ghost use Rattle.ff_filter.specs.Plain.{IsRebase, rebase_view};

use ff_filter::{
    After, ExprSettings, Filter, Limited, Rebase, Stepper, machine_of, video_settings,
};
use ff_frame::{ConfigError, StreamHead};
use ff_lang::Arg;
use std::alloc::Global;

/// `setpts=PTS-STARTPTS`: the time of the first frame is taken from each.
pub struct SetPts {}

impl SetPts {
    /// The filter by its arguments and the head of its input; the head of its output beside it. The option `expr`, which
    /// may be given by place, has to be given, and its only value is `PTS-STARTPTS`. It refuses in this order: `Pads`,
    /// `Kind`, `UnknownOption` and `BadOption` by argument, `BadOption` where the expression is missing.
    pub fn configure(
        alloc: Global,
        args: &[Arg],
        heads: &[StreamHead],
    ) -> Result<(Stepper<Limited<Rebase>>, Vec<StreamHead>), ConfigError>
        ensures made { IfOk result (λ r. IsMade (IsRebase is_video args.now heads.now) rebase_view (λ m. m.head)
            (⟦<Stepper<Limited<Rebase>> as Filter>⟧.view r.0) r.1.items) }
        ensures refused { IfErr result (IsRefused (IsRebase is_video args.now heads.now)) }
    {
        match video_settings(ExprSettings { given: false }, args, heads) {
            Err(error) => Err(error),
            Ok((head, settings)) => {
                if !settings.given {
                    return Err(ConfigError::BadOption);
                }
                let step = Rebase { head, first: None };
                machine_of(alloc, step, &head, After::More)
            }
        }
    }
}
