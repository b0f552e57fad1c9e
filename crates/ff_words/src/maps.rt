//! Stream choices: the strings that are maps, the streams that a map names, and the choice without one.
//!
//! A map such as `1:a:0?` names streams of an input, `[label]` an output of a graph. `specs/maps/Grammar` says which
//! strings are maps, and which map each stands for. `read_map` reads exactly those, and says of any other string
//! where it leaves the grammar. `specs/maps/Choice` says over whole lists of heads which streams a map names, and which
//! are the best of their kind.

mod choice;
mod error;
mod laws;
mod letter;
mod map;
mod read;
mod reading;
mod selecting;
mod streams;

pub use choice::best_streams;
pub use error::MapError;
pub use laws::maps_have_one_meaning;
pub use map::{Kind, MapFrom, MapSpec, Pick};
pub use read::read_map;
pub use selecting::select;
pub use streams::{Stream, StreamRef};
