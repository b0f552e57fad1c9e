//! A machine that tells which of its inputs is the best one.
//!
//! ```text
//!   input 0    ├──a0──┼──a1──┤
//!   input 1    ├─b0─┤              best: what it has ends earliest
//! ```
//!
//! A scheduler walks through a graph by its best input, towards the source whose packet the graph waits for. Of the
//! inputs that haven't closed it is the one whose last item ends earliest, compared exactly over their time bases. An
//! input without an item goes before each that has one, and of several the lowest is the best. Where all have closed
//! it stays.

mod choosing;
mod input;
mod laws;
mod lead;
mod leading;

pub use laws::{best_inputs_worked_out, events_of_the_best_input, the_best_input_is_the_first};
pub use leading::Leading;
