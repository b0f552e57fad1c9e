//! The state of `hstack` and `vstack`.
ghost use Rattle.std.specs.Prelude.{◌≤◌, ◌^◌};

use crate::Framesync;
use crate::stacks::stacking::Stacking;

/// Shows the frames of several inputs stacked, within the limits of every stream.
#[derive(Drop)]
pub struct Stacked {
    /// Of each input, how many units of the output's base are in one of its own.
    pub units: Vec<u64>,
    /// The frames of each time, stacked.
    pub sync: Framesync<Stacking>,
    /// How many frames it gave.
    pub before: u64,
    pub ghost few: { before ≤ 2 ^ 40 },
}
