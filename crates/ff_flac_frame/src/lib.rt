//! FLAC frames, from their bytes (RFC 9639, section 9).
//!
//! `specs/Frame` says what a frame is, by readers on the list of an input's bits, one for each part of the grammar.
//! Each has three answers: a value, more bits may make one, no bits will. `specs/laws/Facts` says what holds of each
//! frame. `frame_at` reads the frame that begins some bytes, and `frame_size_at` only how long it is: that one keeps
//! no residual.
//!
//! `specs/Prediction` says how a sample is predicted from those before it. By a fixed predictor, and by a linear one
//! that looks back two samples at most, `frame_at` restores samples in the loop that reads residuals. There the
//! processor waits for the place of the next code, and works on a sample meanwhile. `specs/Restored` says what a
//! subframe says of such samples. By a longer predictor `restore_linear` does it afterwards, which can be in another
//! thread.
#![tactic(auto)]

mod end;
mod field;
mod fixed;
mod frame;
mod header;
mod laws;
mod linear;
mod number;
mod passing;
mod predictor;
mod reading;
mod residual;
mod rule;
mod sequence;
mod size;
mod stream;
mod subframe;

pub use end::FrameEnd;
pub use fixed::{is_in_depth, last_of, next_fixed};
pub use frame::{FlacFrame, frame_at};
pub use laws::{
    frames_are_apart, frames_are_in_shape, frames_are_their_bytes, subframe_types_are_the_table,
    what_follows_is_no_matter,
};
pub use linear::{restore_linear, widened};
pub use sequence::Sequence;
pub use size::{FrameSize, frame_size_at};
pub use stream::FlacStream;
pub use subframe::{SubKind, Subframe};
