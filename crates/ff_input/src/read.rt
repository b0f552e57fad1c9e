//! The reader of the head of an input, in whichever format it is.
ghost use Rattle.std.specs.Prelude.{◌≡◌, ◌↔◌, List, ◌++◌, ℕ, false, IfOk};
ghost use Rattle.ff_reader.specs.Heads.{answered, IsOpen};
ghost use Rattle.ff_input.specs.Formats.{IsHead, input_head};

use crate::formats::InputHead;
use crate::walk::InputWalk;
use ff_format::FileFormat;
use ff_frame::HeadEnd;

/// The head of an input that begins with these bytes, and where `whole` ends with them. It is read in this format, or
/// without one in the format whose first word the input has. Unsupported at 0 where it has that of none, and in a
/// format that isn't read; else what the format says of it. Where it is read in pieces, [`InputWalk`] goes on from
/// where it was.
pub fn read_input_head(
    format: Option<FileFormat>,
    bytes: &[u8],
    whole: bool,
) -> Result<InputHead, HeadEnd>
    // Not yet exactly where the input goes on, and some bytes decide otherwise than others.
    ensures not_yet { (result ≡ Err HeadEnd.NotYet) ↔ ((whole ≡ false) × IsOpen (input_head format) bytes.now) }
    // Any other answer is the head of the input,
    ensures decided { (result ≡ Err HeadEnd.NotYet → ⊥) → result ≡ answered (input_head format bytes.now) }
    // and a head is a sound one,
    ensures sound { IfOk result IsHead }
    // whatever follows.
    ensures stays { (result ≡ Err HeadEnd.NotYet → ⊥) → whole ≡ false
        → (more : List ℕ) → input_head format (bytes.now ++ more) ≡ input_head format bytes.now }
{
    let mut walk = InputWalk::new(format);
    walk.read(bytes, whole)
}
