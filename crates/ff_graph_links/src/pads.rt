//! A filtergraph as it is drawn: which output pad feeds which input pad.
//!
//! ```text
//!   [0:v] split [a][b]; [b] hflip [r]; [a][r] hstack      by labels, wherever they stand
//!   scale , pad , crop                                   and in a chain, in order, where there is no label
//! ```
//!
//! How many pads a filter has is told; what its labels and its place in its chain make of them is said here. An input pad that no
//! filter of the graph feeds is open: something from outside comes there.

mod drawn;
mod feeding;
mod opening;
mod sourcing;

pub use drawn::{Drawn, Pad, giver};
pub use feeding::feeders;
pub use opening::open_inputs;
pub use sourcing::sources;
