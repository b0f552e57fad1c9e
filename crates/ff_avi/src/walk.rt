//! AVI as a format whose head is read chunk by chunk.
ghost use Rattle.std.specs.Prelude.{◌≡◌, ◌↔◌, List, ◌++◌, ℕ, Err, false, IfOk};
ghost use Rattle.ff_avi.specs.Heads.{grammar as avi_grammar, head, answered, IsOpen};
ghost use Rattle.ff_avi.specs.Sound.{IsHead, IsKnown};
ghost use Rattle.ff_avi.specs.laws.HeadLaws.{is_lawful, begins_known};
ghost use Rattle.ff_avi.specs.laws.SoundLaws.{is_kept};

use crate::head::{AviHead, AviState, AviStep};
use crate::list::unit_at;
use ff_frame::HeadEnd;
use ff_reader::{HeadFormat, HeadWalk};

/// `RIFF`, four bytes that aren't compared, and `AVI `.
const MAGIC: [Option<u8>; 12] = [
    Some(b'R'),
    Some(b'I'),
    Some(b'F'),
    Some(b'F'),
    None,
    None,
    None,
    None,
    Some(b'A'),
    Some(b'V'),
    Some(b'I'),
    Some(b' '),
];

/// AVI, as far as its head is read: the chunks and lists before the data.
#[derive(Clone, Copy, Debug)]
pub struct Avi;

impl HeadFormat for Avi {
    type Head = AviHead;

    type State = AviState;

    ghost grammar = { avi_grammar };

    ghost is_known = { IsKnown };

    ghost is_sound = { IsHead };

    fn magic() -> &'static [Option<u8>] {
        &MAGIC
    }

    fn start() -> AviState {
        AviState {
            first: None,
            second: None,
            left: 0,
        }
    }

    fn unit_at(known: AviState, at: u64, bytes: &[u8]) -> AviStep {
        unit_at(known, at, bytes)
    }

    ghost lawful = { is_lawful };

    ghost begins = { begins_known };

    ghost keeps = { is_kept };
}

/// How far a head was read.
pub type AviWalk = HeadWalk<Avi>;

/// The head of an input that begins with these bytes, and where `whole` ends with them (AVI RIFF File Reference). The first
/// fault in the order of reading decides. Unsupported at 0 where the first bytes aren't `RIFF`, a size and `AVI `.
/// Damaged at the list of a stream that doesn't begin with `strh`, of 56 bytes at least, and `strf`. Unsupported at the kind of
/// a stream that is neither pictures nor sound, or a second of its kind, and at the scale or rate that is 0 or 2^31 and more in
/// lowest terms. Damaged at an `strf` of pictures below 40 bytes, Unsupported at columns, rows or a compression that aren't
/// read (1 to 16,384; `I420` or `IYUV`). An `strf` of sound is as a WAV's `fmt `. Damaged at a list `movi` before which
/// there is no stream, and at the input's length where it ends too early. Unsupported at 2^28 where the head isn't complete
/// within so many bytes.
pub fn read_head(bytes: &[u8], whole: bool) -> Result<AviHead, HeadEnd>
    // Not yet exactly where the input goes on, and some bytes decide otherwise than others.
    ensures not_yet { (result ≡ Err HeadEnd.NotYet) ↔ ((whole ≡ false) × IsOpen bytes.now) }
    // Any other answer is the head of the input,
    ensures decided { (result ≡ Err HeadEnd.NotYet → ⊥) → result ≡ answered (head bytes.now) }
    // and a head is a sound one,
    ensures sound { IfOk result IsHead }
    // whatever follows.
    ensures stays { (result ≡ Err HeadEnd.NotYet → ⊥) → whole ≡ false
        → (more : List ℕ) → head (bytes.now ++ more) ≡ head bytes.now }
{
    ff_reader::read_head::<Avi>(bytes, whole)
}
