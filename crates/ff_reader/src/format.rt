//! The trait of a format whose head is read unit by unit.
ghost use Rattle.std.specs.Prelude.{◌≡◌, ◌<◌, ◌≤◌, ◌^◌, ℕ};
ghost use Rattle.ff_reader.specs.Walks.{Grammar, IsGrammar, Keeps};
ghost use Rattle.ff_reader.specs.declared.step.Step.TheVariants.{Skip};

use crate::step::Step;

/// A format whose head is read unit by unit: its grammar, and the code that reads one unit.
pub trait HeadFormat {
    /// What a whole head says.
    type Head: Drop;

    /// What the units so far say.
    type State: Copy;

    /// How its heads are read.
    ghost grammar: { Grammar Self.Head Self.State };

    /// What is true wherever a unit begins.
    ghost is_known: { Self.State → Type 0 };

    /// What is true of every head that is read.
    ghost is_sound: { Self.Head → Type 0 };

    /// What an input begins with; None: any byte.
    fn magic() -> &'static [Option<u8>]
        ensures { result.now ≡ grammar.magic };

    /// What is known before the first unit.
    fn start() -> Self::State
        ensures { result ≡ grammar.start };

    /// What the unit does that begins the bytes, at this offset of the input.
    fn unit_at(state: Self::State, at: u64, bytes: &[u8]) -> Step<Self::Head, Self::State>
        requires { at < 2 ^ 32 }
        ensures value { result ≡ grammar.unit state at bytes.now }
        ensures small { (size : ℕ) (next : Self.State) → result ≡ Skip size next → size ≤ 2 ^ 33 };

    /// Its first bytes are bytes, and what a unit does it does whatever follows.
    ghost lawful: { IsGrammar grammar };

    /// What is known at the start,
    ghost begins: { is_known grammar.start };

    /// is known after each unit, and a head is a sound one.
    ghost keeps: { Keeps is_known is_sound grammar.unit };
}
