//! An order of things in which each comes after those that feed it.
//!
//! ```text
//!   0 ◄── 2 ◄── 1        0, 2, 1: of those whose feeders were all taken, the lowest is taken next
//!   3 ◄─► 4              no order: each waits for the other
//! ```

mod laws;
mod taking;

pub use laws::{loops_have_no_order, order_is_lowest, order_is_one};
pub(crate) use taking::in_order;
pub use taking::order;
