//! FLAC as a format whose head is read tag by tag and block by block.
ghost use Rattle.std.specs.Prelude.{◌≡◌, ◌↔◌, ◌≤◌, List, [], ◌++◌, ℕ, true, false, Err, length, IfOk};
ghost use Rattle.ff_reader.specs.Walks.{head_limit};
ghost use Rattle.ff_flac_dec.specs.Heads.{grammar as flac_grammar, IsKnown, head, early, answer, answered, IsOpen, IsReached};
ghost use Rattle.ff_flac_dec.specs.Streams.{IsHead};
ghost use Rattle.ff_flac_dec.specs.laws.HeadLaws.{is_lawful};
ghost use Rattle.ff_flac_dec.specs.laws.SoundLaws.{is_kept};

use crate::block::block_at;
use crate::head::{BlockStep, FlacHead, HeadState};
use crate::tag::{is_named, tag_at};
use ff_frame::HeadEnd;
use ff_reader::{HeadFormat, HeadWalk};

/// FLAC, as far as its head is read: tag by tag, and then metadata block by metadata block, of which the first says the
/// stream's head.
#[derive(Clone, Copy, Debug)]
pub struct Flac;

impl HeadFormat for Flac {
    type Head = FlacHead;

    type State = HeadState;

    ghost grammar = { flac_grammar };

    ghost is_known = { IsKnown };

    ghost is_sound = { IsHead };

    fn magic() -> &'static [Option<u8>] {
        &[]
    }

    fn start() -> HeadState {
        HeadState::Tags
    }

    fn unit_at(state: HeadState, at: u64, bytes: &[u8]) -> BlockStep {
        match state {
            HeadState::Tags => tag_at(bytes),
            HeadState::Blocks(format) => block_at(format, at, bytes),
        }
    }

    ghost lawful = { is_lawful };

    ghost begins = { tt };

    ghost keeps = { is_kept };
}

/// A walk over the tags and metadata blocks of a head.
#[derive(Drop)]
pub struct TaggedWalk<W> {
    /// Over tags and metadata blocks.
    pub units: W,
}

/// How far a head was read: where the next tag or metadata block begins, and the stream's head, which the first block says.
pub type FlacWalk = TaggedWalk<HeadWalk<Flac>>;

fn is_open(found: &Result<FlacHead, HeadEnd>) -> bool
    ensures { result ≡ true ↔ found.now ≡ Err HeadEnd.NotYet }
{
    matches!(found, Err(HeadEnd::NotYet))
}

// The answer of an input that ends with these bytes, before its head is decided.
fn ended(bytes: &[u8]) -> HeadEnd
    ensures { Err result ≡ answered (early bytes.now) }
{
    if !is_named(bytes) {
        return HeadEnd::Unsupported { offset: 0 };
    }
    HeadEnd::Damaged {
        offset: bytes.len() as u64,
    }
}

impl TaggedWalk<HeadWalk<Flac>> {
    /// Before anything was read.
    pub fn new() -> FlacWalk
        ensures { IsReached result [] }
    {
        TaggedWalk {
            units: HeadWalk::new(),
        }
    }

    /// Reads on. The bytes are those that were there before, and perhaps more; only the new tags and blocks are looked at.
    pub fn read(&mut self, bytes: &[u8], whole: bool) -> Result<FlacHead, HeadEnd>
        ensures exact { IsReached self.old bytes.now → result ≡ answer whole bytes.now }
        ensures goes_on { IsReached self.old bytes.now → result ≡ Err HeadEnd.NotYet
            → (length bytes.now ≤ head_limit) × IsReached self.new bytes.now }
    {
        let found = self.units.read(bytes, false);
        if whole && is_open(&found) {
            return Err(ended(bytes));
        }
        found
    }
}

/// The head of an input that begins with these bytes, and where `whole` ends with them (RFC 9639, sections 6 and 8).
/// The first fault in the order of reading decides: Unsupported at 0 where it doesn't begin with `fLaC`, or with ID3v2
/// tags and then `fLaC`. From `fLaC` on, Damaged at 4 where the first metadata block isn't STREAMINFO with its 34
/// bytes, Unsupported at 18 where the rate is 0, and at 20 where a sample has fewer than 4 bits or more than 24.
/// Damaged at a block of type 127 and at a second STREAMINFO. Damaged at the input's length where it ends before the
/// last block does. Unsupported at 2^28 where tags and head aren't complete within so many bytes.
pub fn read_head(bytes: &[u8], whole: bool) -> Result<FlacHead, HeadEnd>
    // Not yet exactly where the input goes on, and some bytes decide otherwise than others.
    ensures not_yet { (result ≡ Err HeadEnd.NotYet) ↔ ((whole ≡ false) × IsOpen bytes.now) }
    // Any other answer is the head of the input,
    ensures decided { (result ≡ Err HeadEnd.NotYet → ⊥) → result ≡ answered (head bytes.now) }
    // and a head is a sound one,
    ensures sound { IfOk result IsHead }
    // whatever follows.
    ensures stays { (result ≡ Err HeadEnd.NotYet → ⊥) → whole ≡ false
        → (more : List ℕ) → head (bytes.now ++ more) ≡ head bytes.now }
{
    let mut walk = FlacWalk::new();
    walk.read(bytes, whole)
}
