//! The function that gives each item as it came.
ghost use Rattle.std.specs.Prelude.{◌≡◌, refl, false};
ghost use Rattle.ff_stream.specs.declared.item.Lane.TheVariants.{Frames};
ghost use Rattle.ff_stream.specs.Stream.{opened};
ghost use Rattle.ff_stream.specs.laws.Order.{below_self};

use crate::after::After;
use crate::step::{Given, Step};
use ff_frame::StreamHead;
use ff_stream::{Item, Refused};

/// Gives each item as it came.
#[derive(Drop)]
pub struct Pass {
    /// The head of its input and of its output.
    pub head: StreamHead,
}

impl Step for Pass {
    ghost lane_in = { λ m. Frames m.head };

    ghost lane_out = { λ m. Frames m.head };

    ghost runs = { λ m s. s };

    fn step(&mut self, item: Item) -> Result<Given, Refused> {
        Ok(Given {
            item: Some(item),
            after: After::More,
        })
    }

    ghost waits = { λ m. refl };

    ghost below = { λ m r s h. h };

    ghost calm = { λ m r. below_self (opened r) };

    ghost settles = { λ m r c. c };

    ghost ends = { λ m. refl };

    ghost breaks = { λ m. refl };
}
