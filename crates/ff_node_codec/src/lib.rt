//! Decoding and encoding as machines of a network, over any codec.
//!
//! ```text
//!                  ┌──► frames            frames ──► Enc ──► packets
//! packets ──► Dec ─┼──► frames
//!                  └──► frames
//! ```
//!
//! [`Dec`] gives what a cut leaves of the frame of each packet on each of its outputs. A frame is decoded and cut
//! once, copied for all outputs that are still wanted but the last, and moved to that. A packet that has no frame
//! breaks the outputs off, with the fault that the input is damaged there. Once the cut is over they are whole, and
//! nothing more is asked of the input. [`Enc`] gives the packet of each frame. Which codec it is they know by the
//! traits of ff_node_codec alone. `specs/Making` says what is made of a stream, and `Decoding` and `Encoding` what
//! the two mean. `Spreads` says what a machine of one input and some outputs keeps. From that every law of a machine
//! follows once for both.
//!
//! `codecs`: The decoders of the packets of a stream and the encoders of its frames, one for one, as pure state.
#![tactic(auto)]

mod codecs;
mod coding;
mod cut;
mod dec;
mod enc;
mod outs;
mod ready;
mod spread;
mod step;

pub use codecs::{
    AnyDecoder, AnyEncoder, Decoder, Encoder, FlacDecoder, PcmDecoder, PcmEncoder, RawDecoder,
    RawEncoder, decoder_of, encoder_of, flac_frames_are_their_packets,
};
pub use coding::{
    coding_is_on_each_output, coding_keeps_the_broken_rule, damage_behind_a_cut_is_no_fault,
    decoding_ends_at_damage, decoding_is_by_packets, decoding_passes_no_limit,
    decoding_without_a_cut, encoding_passes_no_limit, plain_packets_are_undamaged,
};
pub use dec::Dec;
pub use enc::Enc;
