//! The reader of heads, unit by unit, for any format.
ghost use Rattle.std.specs.Prelude.{◌≡◌, ◌≤◌, ◌^◌, ◌↔◌, List, [], ◌∷◌, ◌++◌, ℕ, Err, None, length, false, IfOk};
ghost use Rattle.ff_reader.specs.Heads.{answered, IsOpen};
ghost use Rattle.ff_reader.specs.Walks.{agrees, walked, reading, head_limit, head_by, answer_by, Reached, IsReached};

use crate::fault::{HeadFault, answer_in};
use crate::format::HeadFormat;
use crate::step::Step;
use ff_frame::HeadEnd;
use ff_lists::{from_place, front};

/// A head is complete within so many bytes.
const LIMIT: usize = 1 << 28;

fn fits(wanted: Option<u8>, byte: u8) -> bool
    ensures { result ≡ agrees (wanted ∷ []) (byte ∷ []) }
{
    match wanted {
        Some(n) => byte == n,
        None => true,
    }
}

/// Whether the bytes agree with these, as far as both go.
pub fn agree(wanted: &[Option<u8>], bytes: &[u8]) -> bool
    ensures { result ≡ agrees wanted.now bytes.now }
{
    let count = bytes.len().min(wanted.len());
    'bytes: for i in 0..count {
        if !fits(wanted[i], bytes[i]) {
            return false;
        }
    }
    true
}

/// How far a head was read.
#[derive(Drop)]
pub struct HeadWalk<F: HeadFormat> {
    /// Where the next unit begins.
    pub at: usize,
    /// What is known there.
    pub state: F::State,
}

// Goes on over the units.
fn go_on<F: HeadFormat>(walk: &mut HeadWalk<F>, bytes: &[u8]) -> Option<Result<F::Head, HeadFault>>
    requires { length bytes.now ≤ 2 ^ 28 }
    ensures found { Reached F.grammar walk.old.at walk.old.state bytes.now → result ≡ walked F.grammar bytes.now }
    ensures reached { Reached F.grammar walk.old.at walk.old.state bytes.now
        → Reached F.grammar walk.new.at walk.new.state bytes.now }
{
    'units: while walk.at < bytes.len() {
        match F::unit_at(walk.state, walk.at as u64, from_place(bytes, walk.at)) {
            Step::Wait => return None,
            Step::Decide(found) => return Some(found),
            Step::Skip(size, next) => {
                walk.at = walk.at + 1 + size as usize;
                walk.state = next;
            }
        }
    }
    None
}

// What the bytes decide, which go on where the walk stands.
fn decide<F: HeadFormat>(walk: &mut HeadWalk<F>, bytes: &[u8]) -> Option<Result<F::Head, HeadFault>>
    ensures value { IsReached F.grammar walk.old.at walk.old.state bytes.now → result ≡ reading F.grammar head_limit bytes.now }
    ensures goes_on { IsReached F.grammar walk.old.at walk.old.state bytes.now → result ≡ None
        → (length bytes.now ≤ head_limit) × Reached F.grammar walk.new.at walk.new.state bytes.now }
{
    if !agree(F::magic(), bytes) {
        return Some(Err(HeadFault::Unsupported { offset: 0 }));
    }
    if let Some(found) = go_on(walk, front(bytes, LIMIT)) {
        return Some(found);
    }
    if bytes.len() < LIMIT {
        return None;
    }
    Some(Err(HeadFault::Unsupported {
        offset: LIMIT as u64,
    }))
}

impl<F: HeadFormat> HeadWalk<F> {
    /// Before anything was read.
    pub fn new() -> HeadWalk<F>
        ensures { Reached F.grammar result.at result.state [] }
    {
        HeadWalk {
            at: F::magic().len(),
            state: F::start(),
        }
    }

    /// Reads on. The bytes are those that were there before, and perhaps more; only the new units are looked at.
    pub fn read(&mut self, bytes: &[u8], whole: bool) -> Result<F::Head, HeadEnd>
        ensures exact { IsReached F.grammar self.old.at self.old.state bytes.now → result ≡ answer_by F.grammar whole bytes.now }
        ensures goes_on { IsReached F.grammar self.old.at self.old.state bytes.now → result ≡ Err HeadEnd.NotYet
            → (length bytes.now ≤ head_limit) × Reached F.grammar self.new.at self.new.state bytes.now }
    {
        let found = decide(self, bytes);
        answer_in(found, F::magic().len(), bytes, whole)
    }
}

/// The head of an input that begins with these bytes, and where `whole` ends with them. The first fault in the order
/// of reading decides: Unsupported at 0 where the first bytes aren't the format's, then what a unit says. Damaged at
/// the input's length where it ends too early. Unsupported at 2^28 where the head isn't complete within so many
/// bytes.
pub fn read_head<F: HeadFormat>(bytes: &[u8], whole: bool) -> Result<F::Head, HeadEnd>
    // Not yet exactly where the input goes on, and some bytes decide otherwise than others.
    ensures not_yet { (result ≡ Err HeadEnd.NotYet) ↔ ((whole ≡ false) × IsOpen (head_by F.grammar) bytes.now) }
    // Any other answer is the head of the input,
    ensures decided { (result ≡ Err HeadEnd.NotYet → ⊥) → result ≡ answered (head_by F.grammar bytes.now) }
    // and a head is a sound one,
    ensures sound { IfOk result F.is_sound }
    // whatever follows.
    ensures stays { (result ≡ Err HeadEnd.NotYet → ⊥) → whole ≡ false
        → (more : List ℕ) → head_by F.grammar (bytes.now ++ more) ≡ head_by F.grammar bytes.now }
{
    let mut walk = HeadWalk::<F>::new();
    walk.read(bytes, whole)
}
