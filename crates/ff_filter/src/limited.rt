//! The limits of every stream, put on a function of one stream.
ghost use Rattle.std.specs.Prelude.{◌≡◌, ◌≤◌, ◌^◌};
ghost use Rattle.ff_stream.specs.Within.{passes_limits};
ghost use Rattle.ff_stream.specs.declared.item.Lane.TheVariants.{Frames};
ghost use Rattle.ff_filter.specs.Views.{closes};
ghost use Rattle.ff_filter.specs.laws.Runs.{run_below, run_calm, run_settles, no_more};
ghost use Rattle.ff_filter.specs.laws.Limits.{limit_step, limited};
ghost use Rattle.ff_filter.specs.laws.LimitLaws.{limited-waits, limited-ends, limited-breaks, limited-below, limited-calm, limited-settles};

use crate::after::After;
use crate::step::{Given, Step};
use ff_frame::StreamHead;
use ff_stream::{Item, Refused, is_long};

/// A function of one stream, cut at the limits of every stream. Its output breaks off before item number 2^40,
/// counted from 0, and before an item that ends past 1,000,000,000 seconds.
#[derive(Drop)]
pub struct Limited<A: Step> {
    /// The function.
    pub inner: A,
    /// The head of its output.
    pub head: StreamHead,
    /// How many items it gave.
    pub before: u64,
    pub ghost few: { before ≤ 2 ^ 40 },
    pub ghost frames: { A.lane_out inner ≡ Frames head },
}

impl<A: Step> Step for Limited<A> {
    ghost lane_in = { λ m. A.lane_in m.inner };

    ghost lane_out = { λ m. A.lane_out m.inner };

    ghost runs = { λ m s. limited (passes_limits (Frames m.head)) m.before (A.runs m.inner s) };

    fn step(&mut self, item: Item) -> Result<Given, Refused> {
        match self.inner.step(item) {
            Err(refused) => Err(refused),
            Ok(Given { item, after }) => match item {
                None => Ok(Given { item: None, after }),
                Some(made) => {
                    if is_long(&self.head, self.before, &made) {
                        return Ok(Given {
                            item: None,
                            after: After::Broke,
                        });
                    }
                    self.before += 1;
                    Ok(Given {
                        item: Some(made),
                        after,
                    })
                }
            },
        }
    }

    ghost waits = { λ m. limited-waits (passes_limits (Frames m.head)) m.before (A.runs m.inner) (A.waits m.inner) };

    ghost ends = { λ m. limited-ends (passes_limits (Frames m.head)) m.before (A.runs m.inner) (A.ends m.inner) };

    ghost breaks = { λ m. limited-breaks (passes_limits (Frames m.head)) m.before (A.runs m.inner) (A.breaks m.inner) };

    ghost below = { λ m. limited-below (passes_limits (Frames m.head)) m.before (A.runs m.inner) (A.below m.inner) };

    ghost calm = { λ m. limited-calm (passes_limits (Frames m.head)) m.before (A.runs m.inner) (A.calm m.inner) };

    ghost settles = { λ m. limited-settles (passes_limits (Frames m.head)) m.before (A.runs m.inner) (A.settles m.inner) };
}
