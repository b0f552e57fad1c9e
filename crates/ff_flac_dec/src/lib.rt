//! FLAC reading (RFC 9639): heads, and the samples that a frame stands for.
//!
//! `specs/Tags` says what may stand before `fLaC`, `specs/Blocks` what one metadata block does to the reading of a head.
//! `specs/Heads` says what the head of a whole input is, and which first bytes decide it. `specs/Streams` says what a head
//! tells of the frames. `specs/Values` says which samples a subframe stands for, `specs/Channels` which channels a frame
//! has. `specs/Packets` says which packets an input has, `specs/Trailers` which tags may stand behind the last.
//! `specs/laws/Units` says what it means that a frame is whole, or isn't yet. `specs/Cuts` says how a cut's state is tied
//! to what it was fed and gave. A cut can send the frames that it has read to a decoder (`frame_channel`), so that these
//! aren't read once more.
#![tactic(auto)]

mod block;
mod channel;
mod cut;
mod depth;
mod end;
mod fixed;
mod frame;
mod front;
mod hand_over;
mod head;
mod interleave;
mod laws;
mod linear;
mod sound;
mod stereo;
mod tag;
mod trailer;
mod walk;

pub use cut::FlacCut;
pub use end::DecodeEnd;
pub use frame::frame_at;
pub use hand_over::{FrameReceiver, FrameSender, frame_channel};
pub use head::{FlacHead, HeadState};
pub use laws::{streaminfo_is_its_fields, units_are_exact};
pub use sound::decode;
pub use walk::{Flac, FlacWalk, TaggedWalk, read_head};
