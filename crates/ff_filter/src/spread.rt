//! Filters of one input and several outputs.
//!
//! ```text
//!                    ┌─► what output 0 gets of each item
//!   items ──►│ Share ├─► what output 1 gets of it
//!                    └─► ..
//! ```
//!
//! A `Share` says what each output gets of an item, always one item. Its machine makes that anew for each output that
//! is wanted but the last, which gets the item itself, turned into its own. An output that was stopped costs nothing.
//! Where there is no memory for one of them, none gets anything and the item is given back.

mod copies;
mod outlets;
mod share;
mod spreader;

pub use copies::{Copies, SplitSettings, copies_of, same_heads};
pub use share::Share;
pub use spreader::Spreader;
