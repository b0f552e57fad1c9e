//! Inputs that are made and not read: audio and video of any number of seconds, as whole files.
//!
//! [`gen_wav`] and [`gen_y4m`] give the bytes of a WAV file and of a YUV4MPEG2 file, as functions of the seconds
//! alone (`specs/generated/Generated`). A program shows with them, without any file, that it writes what it is to
//! write.

mod pictures;
mod sound;

pub use pictures::gen_y4m;
pub use sound::gen_wav;
