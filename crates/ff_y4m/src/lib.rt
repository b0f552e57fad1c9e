//! YUV4MPEG2 (yuv4mpeg(5)): heads, and the packets of the frames after them.
//!
//! A file is a line of parameters, and then frames: each a line that begins with `FRAME`, and the planes Y, Cb and
//! Cr. `specs/Lines` says where a line ends, `specs/Parameters` what a parameter says. `specs/Heads` says what the
//! head of a whole input is, and which first bytes decide it. `specs/Packets` says which frames follow the head and
//! where they break off, `specs/laws/Units` what may still come of some bytes. `specs/Cuts` says how a cut's state is tied
//! to what it was fed and gave, and `specs/Layout` how a file is written.
#![tactic(auto)]

mod cut;
mod frame;
mod head;
mod header;
mod laws;
mod line;
mod number;
mod parameters;
mod read;
mod writer;

pub use cut::Y4mCut;
pub use head::Y4mHead;
pub use header::y4m_header;
pub use laws::{
    finished_pictures_are_yuv4mpeg2, frames_are_decided, rates_are_in_lowest_terms,
    what_is_written_is_read_again, written_frames_are_read_again,
};
pub use number::time_base;
pub use read::read_head;
pub use writer::Y4mWriter;
