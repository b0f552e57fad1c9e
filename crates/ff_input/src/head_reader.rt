//! The trait of a head that is being read.
ghost use Rattle.std.specs.Prelude.{◌≡◌, ◌≤◌, List, ℕ, Err, length};
ghost use Rattle.ff_input.specs.Answers.{as_answer};
ghost use Rattle.ff_input.specs.declared.one_of.OneOf.TheVariants.{First, Other};

use crate::one_of::OneOf;
use ff_frame::HeadEnd;
use ff_reader::{HeadFormat, HeadWalk};

/// How far a head was read, and the reading of the rest.
pub trait HeadReader {
    ghost use Rattle.ff_reader.specs.Heads.{Found};
    ghost use Rattle.ff_reader.specs.Walks.{head_limit};
    ghost use Rattle.ff_input.specs.Answers.{Answers, IsBehind};

    /// What comes before the packets.
    type Head;

    /// The head of a whole input in its format.
    ghost head: { Self → List ℕ → Found Self.Head };

    /// What is true of every head that is read.
    ghost is_sound: { Self.Head → Type 0 };

    /// It has read this prefix of an input.
    ghost reached: { Self → List ℕ → Type 0 };

    /// Reads on. The bytes are those that were there before, and perhaps more.
    fn read(&mut self, bytes: &[u8], whole: bool) -> Result<Self::Head, HeadEnd>
        ensures answers { IsBehind (reached self.old) bytes.now → Answers (head self.old) is_sound whole bytes.now result }
        ensures goes_on { IsBehind (reached self.old) bytes.now → result ≡ Err HeadEnd.NotYet
            → (length bytes.now ≤ head_limit) × reached self.new bytes.now }
        ensures same { head self.new ≡ head self.old };
}

impl<F: HeadFormat> HeadReader for HeadWalk<F> {
    ghost use Rattle.ff_reader.specs.Walks.{head_by};
    ghost use Rattle.ff_input.specs.Answers.{units_reached};

    type Head = F::Head;

    ghost head = { λ walk. head_by F.grammar };

    ghost is_sound = { F.is_sound };

    ghost reached = { units_reached F.grammar };

    fn read(&mut self, bytes: &[u8], whole: bool) -> Result<F::Head, HeadEnd> {
        HeadWalk::read(self, bytes, whole)
    }
}

// An answer of the first of two formats, and one of the other, as that of either.
fn first_of<A, B>(found: Result<A, HeadEnd>) -> Result<OneOf<A, B>, HeadEnd>
    ensures { result ≡ as_answer First found }
{
    match found {
        Ok(head) => Ok(OneOf::First(head)),
        Err(end) => Err(end),
    }
}

fn other_of<A, B>(found: Result<B, HeadEnd>) -> Result<OneOf<A, B>, HeadEnd>
    ensures { result ≡ as_answer Other found }
{
    match found {
        Ok(head) => Ok(OneOf::Other(head)),
        Err(end) => Err(end),
    }
}

impl<A: HeadReader, B: HeadReader> HeadReader for OneOf<A, B> {
    ghost use Rattle.ff_input.specs.Either.{IsEither};
    ghost use Rattle.ff_input.specs.Answers.{either_head, either_reached};

    type Head = OneOf<A::Head, B::Head>;

    ghost head = { either_head A.head B.head };

    ghost is_sound = { IsEither A.is_sound B.is_sound };

    ghost reached = { either_reached A.reached B.reached };

    fn read(&mut self, bytes: &[u8], whole: bool) -> Result<OneOf<A::Head, B::Head>, HeadEnd> {
        match self {
            OneOf::First(walk) => first_of(walk.read(bytes, whole)),
            OneOf::Other(walk) => other_of(walk.read(bytes, whole)),
        }
    }
}
