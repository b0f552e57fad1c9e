//! Source filters: streams of frames that are made, and read from no file.
//!
//! ```text
//!   name, arguments ──► GenSource::configure ──► the head of its stream, and the source
//!                                                 next │ next │ .. │ None
//! ```
//!
//! `color` gives pictures of one colour, `anullsrc` silence. Each is a list of frames by numbers alone, which
//! `specs/Colors` and `specs/Silences` have. No frame is made before it is asked for.
#![tactic(auto)]

mod color;
mod color_options;
mod laws;
mod length;
mod made;
mod silence;
mod silence_options;
mod source;

pub use color::{Color, Pictures};
pub use color_options::ColorSettings;
pub use laws::{small_sources, sources_by_their_arguments, sources_give_valid_streams};
pub use length::Length;
pub use made::{Made, made_by};
pub use silence::Silence;
pub use silence_options::SilenceSettings;
pub use source::GenSource;
