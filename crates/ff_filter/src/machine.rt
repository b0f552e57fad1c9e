//! The machine of a function of one stream, within the limits.
ghost use Rattle.std.specs.Prelude.{◌≡◌, ◌∷◌, [], IfOk, IfErr};
ghost use Rattle.ff_stream.specs.declared.item.Lane.TheVariants.{Frames};
ghost use Rattle.ff_frame.specs.declared.config.ConfigError.TheVariants.{NoMemory};
ghost use Rattle.ff_filter.specs.Singles.{single_view};

use crate::after::After;
use crate::filter::Filter;
use crate::limited::Limited;
use crate::step::Step;
use crate::stepper::Stepper;
use ff_frame::{ConfigError, StreamHead};
use std::alloc::Global;

/// The machine of a function of one stream that gives at most one item for each, within the limits of its output.
pub type Single<T> = Stepper<Limited<T>>;

/// The machine of a function that was fed nothing, and the head of its output. `NoMemory` where there was none.
pub fn machine_of<T: Step + Drop>(
    alloc: Global,
    step: T,
    head: &StreamHead,
    after: After,
) -> Result<(Stepper<Limited<T>>, Vec<StreamHead>), ConfigError>
    requires frames { T.lane_out step ≡ Frames head.now }
    ensures view { IfOk result (λ r. ⟦<Stepper<Limited<T>> as Filter>⟧.view r.0 ≡ single_view (T.lane_in step) head.now (T.runs step) after) }
    ensures heads { IfOk result (λ r. r.1.items ≡ head.now ∷ []) }
    ensures err { IfErr result (λ e. e ≡ NoMemory) }
{
    let limited = Limited {
        inner: step,
        head: *head,
        before: 0,
    };
    let machine = Stepper::new(alloc, limited, after);
    let mut heads = Vec::new(alloc);
    match heads.push(*head) {
        Ok(()) => Ok((machine, heads)),
        Err(_) => Err(ConfigError::NoMemory),
    }
}
