//! The tags before `fLaC` (ID3v2).
ghost use Rattle.std.specs.Prelude.{◌≡◌, ◌≤◌, ◌<◌, ◌^◌, ℕ, length};
ghost use Rattle.ff_reader.specs.declared.step.Step.TheVariants.{Skip};
ghost use Rattle.ff_flac_dec.specs.declared.head.HeadState.{HeadState};
ghost use Rattle.ff_flac_dec.specs.Tags.{magic, tag_magic, are_low, is_low, size_in, footer_in, tag, is_named as has_name};

use crate::head::{BlockStep, HeadState};
use crate::walk::Flac;
use ff_lists::from_place;
use ff_reader::{HeadFault, Step, agree};

/// What the metadata blocks stand behind.
const MAGIC: [Option<u8>; 4] = [Some(b'f'), Some(b'L'), Some(b'a'), Some(b'C')];

/// What a tag begins with.
const TAG_MAGIC: [Option<u8>; 3] = [Some(b'I'), Some(b'D'), Some(b'3')];

/// The 10 bytes that a tag begins with.
const TAG_START: [Option<u8>; 10] = [
    Some(b'I'),
    Some(b'D'),
    Some(b'3'),
    None,
    None,
    None,
    None,
    None,
    None,
    None,
];

fn low_at(place: usize, bytes: &[u8]) -> bool
    ensures { result ≡ is_low place bytes.now }
{
    place >= bytes.len() || bytes[place] < 128
}

fn all_low(bytes: &[u8]) -> bool
    ensures { result ≡ are_low bytes.now }
{
    low_at(6, bytes) && low_at(7, bytes) && low_at(8, bytes) && low_at(9, bytes)
}

fn size_at(bytes: &[u8]) -> u32
    requires long { 10 ≤ length bytes.now }
    ensures value { result ≡ size_in bytes.now }
    ensures bound { result < 2 ^ 30 }
{
    2097152 * bytes[6] as u32 + 16384 * bytes[7] as u32 + 128 * bytes[8] as u32 + bytes[9] as u32
}

fn footer_at(bytes: &[u8]) -> u32
    requires { 10 ≤ length bytes.now }
    ensures value { result ≡ footer_in bytes.now }
    ensures bound { result ≤ 10 }
{
    if bytes[5] / 16 % 2 == 1 {
        return 10;
    }
    0
}

/// What stands there before the metadata blocks: `fLaC`, or a tag, which is passed over.
#[tactic(auto, unfolding(crate::specs::Tags::tag))]
pub(crate) fn tag_at(bytes: &[u8]) -> BlockStep
    ensures value { result ≡ tag bytes.now }
    ensures small { (count : ℕ) (next : HeadState) → result ≡ Skip count next → count ≤ 2 ^ 33 }
{
    if agree(&MAGIC, bytes) {
        if bytes.len() < 4 {
            return Step::Wait;
        }
        return Step::Skip(3, HeadState::Blocks(None));
    }
    if !(agree(&TAG_START, bytes) && all_low(bytes)) {
        return Step::Decide(Err(HeadFault::Unsupported { offset: 0 }));
    }
    if bytes.len() < 10 {
        return Step::Wait;
    }
    Step::Skip(
        9 + size_at(bytes) as u64 + footer_at(bytes) as u64,
        HeadState::Tags,
    )
}

impl Flac {
    /// What the metadata blocks stand behind, and an input without tags begins with.
    pub fn name() -> &'static [Option<u8>]
        ensures { result.now ≡ magic }
    {
        &MAGIC
    }

    /// What an input with tags begins with.
    pub fn tag_name() -> &'static [Option<u8>]
        ensures { result.now ≡ tag_magic }
    {
        &TAG_MAGIC
    }
}

/// Whether `fLaC` is there, behind tags that are whole.
pub(crate) fn is_named(bytes: &[u8]) -> bool
    ensures { result ≡ has_name bytes.now }
{
    let mut at = 0;
    'tags: while at < bytes.len() {
        match tag_at(from_place(bytes, at)) {
            Step::Skip(size, HeadState::Tags) => at = at + 1 + size as usize,
            Step::Skip(_, HeadState::Blocks(_)) => return true,
            Step::Wait => return false,
            Step::Decide(_) => return false,
        }
    }
    false
}
