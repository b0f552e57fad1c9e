//! The reader of the head of an input file.
ghost use Rattle.std.specs.Prelude.{◌≡◌, ◌<◌, ◌≤◌, ◌^◌, List, [], ℕ, length, vec_len, Ok, Err, IfOk, OnOk, IfErr, IfSome};
ghost use Rattle.std.specs.Io.KnownBytes.{Consumes};
ghost use Rattle.ff_reader.specs.Heads.{Found};
ghost use Rattle.ff_files.specs.Heads.{Answers, GoOn};
ghost use Rattle.ff_files.specs.laws.Inputs.{EndsHead};
ghost use Rattle.ff_files.specs.declared.head.InputEnd.TheVariants.{Failed, NoMemory};

use crate::named::Named;
use ff_frame::HeadEnd;
use ff_host::Source;
use std::alloc::{AllocError, Global};

/// How many bytes are asked for at a time until the head is decided.
const PIECE: usize = 4_096;

/// An input as a run names it, and how its head is read.
pub trait InputFile: Named {
    /// What comes before the packets.
    type Head: Drop;

    /// How far a head was read.
    type Walk: Drop;

    /// The head of the input whose bytes these are, or its fault.
    ghost head: { Self → List ℕ → Found Self.Head };

    /// What is true of every head that is read.
    ghost is_sound: { Self.Head → Type 0 };

    /// The walk has read these bytes, which don't decide the head.
    ghost reached: { Self → Self.Walk → List ℕ → Type 0 };

    /// A walk before any byte.
    fn begin(&self) -> Self::Walk
        ensures { reached self.now result [] };

    /// Reads on. The bytes are those that were read before, and perhaps more; `whole` says that the input ends with them.
    fn read_head(
        &self,
        walk: &mut Self::Walk,
        bytes: &[u8],
        whole: bool,
    ) -> Result<Self::Head, HeadEnd>
        requires { GoOn (reached self.now walk.old) bytes.now }
        ensures answers { Answers (head self.now) whole bytes.now result }
        ensures sound { IfOk result is_sound }
        ensures goes_on { result ≡ Err HeadEnd.NotYet → (length bytes.now ≤ 2 ^ 28) × reached self.now walk.new bytes.now };
}

/// Why an input has no head.
#[derive(Clone, Copy, Debug, PartialEq, Eq)]
pub enum InputEnd {
    /// Opening or reading failed.
    Failed,
    /// The head breaks its format at this offset in bytes.
    Damaged { offset: u64 },
    /// The head is of a kind that isn't read, found at this offset in bytes.
    Unsupported { offset: u64 },
    /// There was no memory.
    NoMemory,
}

impl From<ff_host::Failed> for InputEnd {
    ghost from_gives = { λ _ e. e ≡ Failed };

    fn from(_: ff_host::Failed) -> Self {
        InputEnd::Failed
    }
}

impl From<AllocError> for InputEnd {
    ghost from_gives = { λ _ e. e ≡ NoMemory };

    fn from(_: AllocError) -> Self {
        InputEnd::NoMemory
    }
}

/// The head of an input, and the bytes that were read with it.
#[derive(Drop)]
pub struct Begin<H: Drop> {
    /// The head.
    pub head: H,
    /// All bytes that were read, from the first one on.
    pub bytes: Vec<u8>,
}

// A buffer of so many bytes.
fn zeros(alloc: Global, count: usize) -> Result<Vec<u8>, AllocError>
    ensures { IfOk result (λ v. vec_len v ≡ count) }
{
    vec![in alloc; 0; count]
}

// The head of what a source has left, read through a buffer.
fn read_pieces<I: InputFile, S: Source>(
    alloc: Global,
    input: &I,
    src: &mut S,
    buffer: &mut [u8],
) -> Result<Begin<I::Head>, InputEnd>
    requires { length buffer.old ≡ 4_096 }
    ensures sound { IfOk result (λ begin. I.is_sound begin.head) }
    ensures head { IfOk result (λ begin. IfSome (S.left src.old) (λ all. I.head input.now all ≡ Ok begin.head)) }
    ensures bytes { IfOk result (λ begin. Consumes (S.left src.old) (S.left src.new) begin.bytes.items) }
    ensures ok_faults { OnOk result (S.faults src.new ≡ S.faults src.old) }
    ensures err { IfErr result (λ end. EndsHead (I.head input.now) end (S.faults src.old) (S.faults src.new) (S.left src.old)) }
    ensures name { S.name src.new ≡ S.name src.old }
{
    let mut bytes = Vec::new(alloc);
    let mut walk = input.begin();
    'pieces: loop {
        let count = src.read(buffer)?;
        bytes.extend_from_slice(&buffer[..count])?;
        match input.read_head(&mut walk, &bytes, count == 0) {
            Ok(head) => return Ok(Begin { head, bytes }),
            Err(HeadEnd::NotYet) => {}
            Err(HeadEnd::Damaged { offset }) => return Err(InputEnd::Damaged { offset }),
            Err(HeadEnd::Unsupported { offset }) => return Err(InputEnd::Unsupported { offset }),
            Err(HeadEnd::NoMemory) => return Err(InputEnd::NoMemory),
        }
    }
}

/// The head of what a source has left, and the bytes that were read with it. It is read in pieces of 4,096 bytes
/// until it is decided.
///
/// Refused for a fault of reading, for a head that is damaged or of a kind that isn't read, and for want of memory.
pub fn read_begin<I: InputFile, S: Source>(
    alloc: Global,
    input: &I,
    src: &mut S,
) -> Result<Begin<I::Head>, InputEnd>
    ensures sound { IfOk result (λ begin. I.is_sound begin.head) }
    ensures head { IfOk result (λ begin. IfSome (S.left src.old) (λ all. I.head input.now all ≡ Ok begin.head)) }
    ensures bytes { IfOk result (λ begin. Consumes (S.left src.old) (S.left src.new) begin.bytes.items) }
    ensures ok_faults { OnOk result (S.faults src.new ≡ S.faults src.old) }
    ensures err { IfErr result (λ end. EndsHead (I.head input.now) end (S.faults src.old) (S.faults src.new) (S.left src.old)) }
    ensures name { S.name src.new ≡ S.name src.old }
{
    let mut buffer = zeros(alloc, PIECE)?;
    read_pieces(alloc, input, src, &mut buffer)
}
