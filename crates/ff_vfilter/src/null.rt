//! The filter `null`.
ghost use Rattle.std.specs.Prelude.{IfOk, IfErr};
ghost use Rattle.ff_filter.specs.Options.{is_video, IsMade, IsRefused};
ghost use Rattle.ff_filter.specs.Plain.{IsPass, pass_view};

use ff_filter::{After, Filter, Limited, NoSettings, Pass, Stepper, machine_of, video_settings};
use ff_frame::{ConfigError, StreamHead};
use ff_lang::Arg;
use std::alloc::Global;

/// `null`: the same stream.
pub struct Null {}

impl Null {
    /// The filter by its arguments, of which it takes none, and the head of its input; the head of its output beside it.
    /// It refuses in this order: `Pads`, `Kind`, `UnknownOption` of the first argument.
    pub fn configure(
        alloc: Global,
        args: &[Arg],
        heads: &[StreamHead],
    ) -> Result<(Stepper<Limited<Pass>>, Vec<StreamHead>), ConfigError>
        ensures made { IfOk result (λ r. IsMade (IsPass is_video args.now heads.now) pass_view (λ m. m.head) (⟦<Stepper<Limited<Pass>> as Filter>⟧.view r.0) r.1.items) }
        ensures refused { IfErr result (IsRefused (IsPass is_video args.now heads.now)) }
    {
        match video_settings(NoSettings {}, args, heads) {
            Err(error) => Err(error),
            Ok((head, _settings)) => machine_of(alloc, Pass { head }, &head, After::More),
        }
    }
}
