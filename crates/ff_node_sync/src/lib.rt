//! The streams of one output, each up to the end of the shortest, or as they are.
//!
//! ```text
//!   stream 0, whole     ├──a0──┼──a1──┤           ends at T
//!   stream 1            ├─b0─┼─b1─┼─b2─┼─b3─►     b0 to b2 are kept: they start before T. b3 isn't, and stream 1 is whole
//! ```
//!
//! An item is kept once each other stream has one that ends after its start, compared exactly. So it is kept as soon
//! as that is known, and whatever the streams' time bases. Frames aren't cut. Where the streams are to be given as
//! they are, each goes through by itself; in either case all of them are one node.
#![tactic(auto)]

mod end;
mod joint;
mod laws;
mod moves;
mod shortest;
mod side;
mod straight;

pub use joint::{Joint, joint_machine};
pub use laws::{
    shortened_streams_are_lawful, shortened_streams_end_with_the_shortest,
    shortened_streams_keep_the_broken_rule, straight_streams_are_lawful,
};
pub use shortest::Shortest;
pub use side::Side;
pub use straight::Straight;
