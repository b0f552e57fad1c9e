//! Laws of the definitions of this crate. Each function does nothing, and its contract is the law.

ghost use Rattle.std.specs.Prelude.{◌≤◌, ℕ, List, length};
ghost use Rattle.ff_flac_frame.specs.declared.stream.FlacStream.{FlacStream};
ghost use Rattle.ff_flac_frame.specs.Frame.{IsStream, IsBytes};
ghost use Rattle.ff_flac_dec.specs.laws.Info.{IsInfo};
ghost use Rattle.ff_flac_dec.specs.laws.Units.{IsExact};

/// A cut answers NotYet only where no frame is there and some continuation makes one. It answers Broken before the
/// input's end only where none does. So what bytes begin with, as the packets are defined by it, is exact.
pub fn units_are_exact()
    ensures { (s : FlacStream) → IsStream s → (bytes : List ℕ) → IsExact s bytes }
{}

/// The rate, the channels and the depth that are taken from a block with STREAMINFO are its fields. The standard
/// lists them by their widths (RFC 9639, section 8.2).
pub fn streaminfo_is_its_fields()
    ensures { (bytes : List ℕ) → IsBytes bytes → 38 ≤ length bytes → IsInfo bytes }
{}
