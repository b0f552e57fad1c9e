//! Laws of decoding and encoding. Each is a function that does nothing: its clauses hold of all values.
ghost use Rattle.std.specs.Prelude.{◌≡◌, ◌≤◌, ◌<◌, ◌*◌, ℕ, ℤ, List, All, length};
ghost use Rattle.ff_frame.specs.Codecs.{IsPcmCodec, sample_bytes};
ghost use Rattle.ff_frame.specs.declared.audio.AFrame.{AFrame};
ghost use Rattle.ff_frame.specs.declared.head.Codec.{Codec};
ghost use Rattle.ff_frame.specs.declared.head.StreamHead.{StreamHead};
ghost use Rattle.ff_frame.specs.declared.packet.Pkt.{Pkt};
ghost use Rattle.ff_frame.specs.declared.video.VFrame.{VFrame};
ghost use Rattle.ff_pcm.specs.Bytes.{bytes_of};
ghost use Rattle.ff_pcm.specs.Depth.{at_depth};
ghost use Rattle.ff_pcm.specs.laws.Raw.{IsFrameIn};
ghost use Rattle.ff_pcm.specs.Samples.{samples_of, StandFor};

/// The samples tell the bytes: no other bytes of the same PCM codec stand for them.
pub fn samples_tell_their_bytes()
    ensures { (codec : Codec) (a b : List ℕ) (samples : List ℤ) → IsPcmCodec codec → All (λ x. x < 256) a → All (λ x. x < 256) b → StandFor codec a samples → StandFor codec b samples → a ≡ b }
{}

/// Bytes of whole samples, decoded and encoded with the same PCM codec, are those bytes.
pub fn encoding_gives_decoded_bytes_back()
    ensures { (codec : Codec) (bytes again : List ℕ) (count : ℕ) → IsPcmCodec codec → length bytes ≡ sample_bytes codec * count → All (λ x. x < 256) bytes → All (λ x. x < 256) again
        → StandFor codec again (samples_of codec bytes) → again ≡ bytes }
{}

/// A frame at a higher depth, and back at its own, is that frame.
pub fn more_bits_and_back_change_nothing()
    ensures { (frame : AFrame) (bits : ℕ) → frame.bits ≤ bits → at_depth frame.bits (at_depth bits frame) ≡ frame }
{}

/// The planes of the frame in a packet of raw video are that packet's bytes.
pub fn encoding_gives_planes_back()
    ensures { (head : StreamHead) (packet : Pkt) (frame : VFrame) → IsFrameIn head packet frame → frame.planes ≡ packet.bytes }
{}

/// The bytes of a PCM codec that stand for samples are these, and no others do.
pub fn samples_have_one_form()
    ensures { (codec : Codec) (bytes : List ℕ) (samples : List ℤ) → IsPcmCodec codec → All (λ x. x < 256) bytes → StandFor codec bytes samples → bytes ≡ bytes_of codec samples }
{}
