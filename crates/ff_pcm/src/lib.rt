//! Linear PCM and raw video: from the bytes of packets to samples and back, and samples of other depths.
//!
//! Samples of 8, 16, 24 or 32 bits are signed or not, in either order of bytes, as the row of their codec says.
//! `specs/Samples` says by place value which samples some bytes stand for; decoding and encoding are the two directions
//! of that one relation. A packet of raw video is the planes of one frame as they stand (`specs/laws/Raw`).
//!
//! `body`: The packets of a body of linear PCM, as several containers have it.
#![tactic(auto)]

mod body;
mod decode;
mod depth;
mod encode;
mod endian;
mod fits;
mod laws;
mod numbers;
mod raw;
mod sample;
mod values;

pub use body::{PcmCut, PcmHead};
pub use decode::{depth_of, pcm_decode, size_of_sample};
pub use depth::depth_change;
pub use encode::{pcm_encode, pcm_encode_into, room_for};
pub use fits::{has_blocks, is_audio};
pub use laws::{
    encoding_gives_decoded_bytes_back, encoding_gives_planes_back,
    more_bits_and_back_change_nothing, samples_have_one_form, samples_tell_their_bytes,
};
pub use raw::{raw_decode, raw_encode};
