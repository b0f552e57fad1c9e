//! The reading of a head chunk by chunk, in either form of WAV.
ghost use Rattle.std.specs.Prelude.{◌≡◌, ◌↔◌, ◌≤◌, List, [], ◌∷◌, ◌++◌, ℕ, Some, None, Err, length, false, IfOk, codes, map};
ghost use Rattle.ff_pcm.specs.body.Packets.{IsHead};
ghost use Rattle.ff_reader.specs.Heads.{answered, IsOpen};
ghost use Rattle.ff_reader.specs.Walks.{head_limit};
ghost use Rattle.ff_wav.specs.Heads.{riff_grammar, rf64_grammar, is_rf64, head, answer, IsReached};
ghost use Rattle.ff_wav.specs.laws.HeadLaws.{riff_lawful, rf64_lawful};
ghost use Rattle.ff_wav.specs.laws.SoundLaws.{IsKnown, is_kept};

use crate::chunk::unit_at;
use crate::head::{WavHead, WavState, WavStep};
use ff_frame::HeadEnd;
use ff_pcm::PcmCut;
use ff_reader::{HeadFormat, HeadWalk};

/// `RIFF`, four bytes that aren't compared, and `WAVE`.
const RIFF_WAVE: [Option<u8>; 12] = [
    Some(b'R'),
    Some(b'I'),
    Some(b'F'),
    Some(b'F'),
    None,
    None,
    None,
    None,
    Some(b'W'),
    Some(b'A'),
    Some(b'V'),
    Some(b'E'),
];

/// `RF64`, four bytes that aren't compared, and `WAVE`.
const RF64_WAVE: [Option<u8>; 12] = [
    Some(b'R'),
    Some(b'F'),
    Some(b'6'),
    Some(b'4'),
    None,
    None,
    None,
    None,
    Some(b'W'),
    Some(b'A'),
    Some(b'V'),
    Some(b'E'),
];

/// WAV with sizes of 32 bits (RIFF WAVE).
#[derive(Clone, Copy, Debug)]
pub struct RiffWave;

impl HeadFormat for RiffWave {
    type Head = WavHead;

    type State = WavState;

    ghost grammar = { riff_grammar };

    ghost is_known = { IsKnown };

    ghost is_sound = { IsHead };

    fn magic() -> &'static [Option<u8>] {
        &RIFF_WAVE
    }

    fn start() -> WavState {
        Some((None, None))
    }

    fn unit_at(state: WavState, at: u64, bytes: &[u8]) -> WavStep {
        unit_at(state, at, bytes)
    }

    ghost lawful = { riff_lawful };

    ghost begins = { tt };

    ghost keeps = { is_kept };
}

/// WAV with sizes of 64 bits in its first chunk (EBU Tech 3306).
#[derive(Clone, Copy, Debug)]
pub struct Rf64Wave;

impl HeadFormat for Rf64Wave {
    type Head = WavHead;

    type State = WavState;

    ghost grammar = { rf64_grammar };

    ghost is_known = { IsKnown };

    ghost is_sound = { IsHead };

    fn magic() -> &'static [Option<u8>] {
        &RF64_WAVE
    }

    fn start() -> WavState {
        None
    }

    fn unit_at(state: WavState, at: u64, bytes: &[u8]) -> WavStep {
        unit_at(state, at, bytes)
    }

    ghost lawful = { rf64_lawful };

    ghost begins = { tt };

    ghost keeps = { is_kept };
}

// Whether the first two bytes are those of `RF64`, as far as they are there.
fn begins_rf64(bytes: &[u8]) -> bool
    ensures { result ≡ is_rf64 bytes.now }
{
    if bytes.len() == 0 {
        return true;
    }
    if bytes.len() == 1 {
        return bytes[0] == b'R';
    }
    bytes[0] == b'R' && bytes[1] == b'F'
}

/// What each form of WAV has of its own.
#[derive(Drop)]
pub struct BothForms<A, B> {
    riff: A,
    rf64: B,
}

/// How far a head was read, in the form that its first bytes tell.
pub type WavWalk = BothForms<HeadWalk<RiffWave>, HeadWalk<Rf64Wave>>;

impl BothForms<HeadWalk<RiffWave>, HeadWalk<Rf64Wave>> {
    /// Before anything was read.
    pub fn new() -> WavWalk
        ensures { IsReached result [] }
    {
        BothForms {
            riff: HeadWalk::new(),
            rf64: HeadWalk::new(),
        }
    }

    /// Reads on. The bytes are those that were there before, and perhaps more; only the new chunks are looked at.
    pub fn read(&mut self, bytes: &[u8], whole: bool) -> Result<WavHead, HeadEnd>
        ensures exact { IsReached self.old bytes.now → result ≡ answer whole bytes.now }
        ensures goes_on { IsReached self.old bytes.now → result ≡ Err HeadEnd.NotYet
            → (length bytes.now ≤ head_limit) × IsReached self.new bytes.now }
    {
        if begins_rf64(bytes) {
            return self.rf64.read(bytes, whole);
        }
        self.riff.read(bytes, whole)
    }
}

/// The packets of a WAV's body, from pieces of any size.
pub type WavCut = PcmCut;

/// The head of an input that begins with these bytes, and where `whole` ends with them (RIFF WAVE, EBU Tech 3306). The
/// first fault in the order of reading decides: Unsupported at 0 where the first bytes aren't `RIFF` or `RF64`, a size
/// and `WAVE`. Unsupported at a field of `fmt ` that isn't read (integer PCM of 8, 16, 24 or 32 bits, 1 to 8 channels).
/// Damaged at a chunk that is too short or out of place, as the first after `RF64` that isn't `ds64`, and at the
/// input's length where it ends too early. Unsupported at 2^28 where the head isn't complete within so many bytes.
pub fn read_head(bytes: &[u8], whole: bool) -> Result<WavHead, HeadEnd>
    // Not yet exactly where the input goes on, and some bytes decide otherwise than others.
    ensures not_yet { (result ≡ Err HeadEnd.NotYet) ↔ ((whole ≡ false) × IsOpen head bytes.now) }
    // Any other answer is the head of the input,
    ensures decided { (result ≡ Err HeadEnd.NotYet → ⊥) → result ≡ answered (head bytes.now) }
    // and a head is a sound one,
    ensures sound { IfOk result IsHead }
    // whatever follows.
    ensures stays { (result ≡ Err HeadEnd.NotYet → ⊥) → whole ≡ false
        → (more : List ℕ) → head (bytes.now ++ more) ≡ head bytes.now }
{
    let mut walk = WavWalk::new();
    walk.read(bytes, whole)
}
