//! The video frames of several inputs, side by side or one below the other.
//!
//! ```text
//!   input 0  ──a────────b──────────c───────►
//!   input 1  ─────x─────────y──────────────►        HStack   a│x   b│x   b│y   c│y
//!            ─────┬─────┬───┬──────┬───────►
//!                 ax    bx  by     cy               VStack   a above x, and so on
//! ```
//!
//! Which frames are shown together, and when, is framesync's (`ff_fsync`); how the planes of a stack lie is
//! `ff_planes`'. `specs/stacks/Shapes` says what a frame of the stack is. `specs/stacks/Stacks` says which stack
//! arguments and heads make, or why they are refused. `specs/laws/stacks/Stacked` says how its machine is seen, within the
//! limits of every stream. `specs/stacks/Bases` says what the common base of the inputs is, in whose units they come to
//! framesync.

mod bases;
mod configured;
mod heads;
mod hstack;
mod laws;
mod limits;
mod machine;
mod options;
mod plan;
mod shape;
mod stacked;
mod stacking;
mod vstack;

pub use hstack::HStack;
pub use laws::{
    common_bases_keep_times, equal_bases_keep_times, stacks_keep_valid_streams,
    stacks_of_two_pixels, stacks_of_valid_streams,
};
pub use options::{StackSettings, count_inputs};
pub use plan::Plan;
pub use shape::{Direction, Shape};
pub use stacked::Stacked;
pub use stacking::Stacking;
pub use vstack::VStack;
