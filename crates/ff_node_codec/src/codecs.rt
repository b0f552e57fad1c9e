//! The decoders of the packets of a stream and the encoders of its frames, one for one, as pure state.
//!
//! ```text
//! packet ──► Decoder ──► frame, with the packet's times        frame ──► Encoder ──► packet, with the frame's times
//! ```
//!
//! `Decoder` and `Encoder` say what a codec is to whoever runs it. That is which items it takes, what it makes of
//! each, and that this fits the lane and keeps the times. A codec has a file here and a variant of `AnyDecoder` and
//! `AnyEncoder`. The codecs are linear PCM, FLAC, which is read here alone, and raw video, whose planes are moved.
//! `specs/codecs/Decoding` and `specs/codecs/Encoding` have what they make.

mod any;
mod choice;
mod decoder;
mod encoder;
mod flac;
mod pcm;
mod raw;

pub use any::{AnyDecoder, AnyEncoder};
pub use choice::{decoder_of, encoder_of};
pub use decoder::Decoder;
pub use encoder::Encoder;
pub use flac::{FlacDecoder, flac_frames_are_their_packets};
pub use pcm::{PcmDecoder, PcmEncoder};
pub use raw::{RawDecoder, RawEncoder};
