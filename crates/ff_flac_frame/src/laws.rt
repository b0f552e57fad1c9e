//! Laws of the grammar. Each function does nothing, and its contract is the law.

ghost use Rattle.std.specs.Prelude.{◌≡◌, ◌<◌, ℕ, List, ◌++◌, take};
ghost use Rattle.ff_flac_frame.specs.declared.stream.FlacStream.{FlacStream};
ghost use Rattle.ff_flac_frame.specs.Frame.{Frame, IsStream, Begins};
ghost use Rattle.ff_flac_frame.specs.laws.Facts.{IsFrame};
ghost use Rattle.ff_flac_frame.specs.laws.Types.{IsType};

/// Bytes begin with one frame at most, and it has one length.
pub fn frames_are_apart()
    ensures { (s : FlacStream) (bytes : List ℕ) (f g : Frame) (m n : ℕ) → Begins s bytes f m → Begins s bytes g n → (m ≡ n) × (f ≡ g) }
{}

/// A frame that begins bytes begins them whatever follows.
pub fn what_follows_is_no_matter()
    ensures { (s : FlacStream) → IsStream s → (bytes more : List ℕ) (f : Frame) (n : ℕ) → Begins s bytes f n → Begins s (bytes ++ more) f n }
{}

/// A frame that begins bytes is all of so many of them, whatever follows.
pub fn frames_are_their_bytes()
    ensures { (s : FlacStream) → IsStream s → (bytes : List ℕ) (f : Frame) (n : ℕ) → Begins s bytes f n → Begins s (take n bytes) f n }
{}

/// A frame's subframes are as many as the stream has channels. They have as many samples and residuals as its block
/// asks, each within its range.
pub fn frames_are_in_shape()
    ensures { (s : FlacStream) → IsStream s → (bytes : List ℕ) (f : Frame) (n : ℕ) → Begins s bytes f n → IsFrame s f }
{}

/// The codes of subframe types are read as the standard's table has them (RFC 9639, section 9.2.1).
pub fn subframe_types_are_the_table()
    ensures { (block code : ℕ) → code < 64 → IsType block code }
{}
