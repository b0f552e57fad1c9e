//! AU as a format whose head is read unit by unit: its one unit is the fields after the mark.
ghost use Rattle.std.specs.Prelude.{◌≡◌, ◌↔◌, List, ◌++◌, ℕ, false, IfOk, ⊤};
ghost use Rattle.ff_pcm.specs.body.Packets.{IsHead};
ghost use Rattle.ff_au.specs.Heads.{grammar as au_grammar, head, answered, IsOpen};
ghost use Rattle.ff_au.specs.laws.HeadLaws.{is_lawful, is_kept};

use crate::fields::fields_at;
use crate::head::{AuHead, FieldsStep};
use ff_frame::HeadEnd;
use ff_pcm::PcmCut;
use ff_reader::{HeadFormat, HeadWalk};

/// What an input begins with: `.snd`.
const MAGIC: [Option<u8>; 4] = [Some(b'.'), Some(b's'), Some(b'n'), Some(b'd')];

/// AU, as far as its head is read: its fields, and the annotation after them.
#[derive(Clone, Copy, Debug)]
pub struct Au;

impl HeadFormat for Au {
    type Head = AuHead;

    type State = ();

    ghost grammar = { au_grammar };

    ghost is_known = { λ known. ⊤ };

    ghost is_sound = { IsHead };

    fn magic() -> &'static [Option<u8>] {
        &MAGIC
    }

    fn start() {}

    fn unit_at(_state: (), at: u64, bytes: &[u8]) -> FieldsStep {
        fields_at(at, bytes)
    }

    ghost lawful = { is_lawful };

    ghost begins = { tt };

    ghost keeps = { is_kept };
}

/// How far a head was read.
pub type AuWalk = HeadWalk<Au>;

/// The packets of an AU's body, from pieces of any size.
pub type AuCut = PcmCut;

/// The head of an input that begins with these bytes, and where `whole` ends with them. The first fault in this order
/// decides: Unsupported at 0 where the first bytes aren't `.snd`, and Damaged at the input's length where it has fewer
/// than 24 bytes. A data offset below 24 is Damaged at 4, and one above 2^28 Unsupported there. Unsupported at 12 is an
/// encoding outside 2 to 5, at 16 a rate outside 1 to 2^31 - 1, at 20 other than 1 to 8 channels. Damaged at its length is
/// an input that ends before the data offset.
pub fn read_head(bytes: &[u8], whole: bool) -> Result<AuHead, HeadEnd>
    // Not yet exactly where the input goes on, and some bytes decide otherwise than others.
    ensures not_yet { (result ≡ Err HeadEnd.NotYet) ↔ ((whole ≡ false) × IsOpen bytes.now) }
    // Any other answer is the head of the input,
    ensures decided { (result ≡ Err HeadEnd.NotYet → ⊥) → result ≡ answered (head bytes.now) }
    // and a head is a sound one,
    ensures sound { IfOk result IsHead }
    // whatever follows.
    ensures stays { (result ≡ Err HeadEnd.NotYet → ⊥) → whole ≡ false
        → (more : List ℕ) → head (bytes.now ++ more) ≡ head bytes.now }
{
    ff_reader::read_head::<Au>(bytes, whole)
}
