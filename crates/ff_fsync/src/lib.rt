//! Filters of several inputs.
//!
//! ```text
//!   input 0  ──a────────b──────────c───────►
//!   input 1  ─────x─────────y──────────────►        shown: at each time at which an input starts a frame, of each
//!            ─────┬─────┬───┬──────┬───────►        the last one by then, once it is known which one that is
//!                 ax    bx  by     cy
//! ```
//!
//! Framesync is one part for any number of inputs: `specs/Synced` says on whole streams at which times something is shown, of
//! which frames, and when the output is whole or broken. Its machine keeps of each input the frame that is shown and
//! those after it. What is shown of the frames is said by a `Stack`.
//!
//! `stacks`: The frames of several inputs, side by side or one below the other.
#![tactic(auto)]

mod framesync;
mod input;
mod laws;
mod lending;
mod machine;
mod marking;
mod stack;
mod stacks;
mod time;

pub use framesync::Framesync;
pub use input::Input;
pub use laws::framesync_keeps_the_broken_rule;
pub use stack::Stack;
pub use stacks::{
    Direction, HStack, Plan, Shape, StackSettings, Stacked, Stacking, VStack, count_inputs,
    stacks_keep_valid_streams, stacks_of_two_pixels, stacks_of_valid_streams,
};
