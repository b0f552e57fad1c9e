//! The trait of a source, from which bytes are read.
ghost use Rattle.std.specs.Prelude.{◌≡◌, ◌<◌, List, ℕ, Bool, length, Option, OnOk, OnErr, IsErr, IsTrue};
ghost use Rattle.std.specs.Io.{ReadsAtMost};
ghost use Rattle.std.specs.Io.KnownBytes.{ReadConsumes};
ghost use Rattle.ff_host.specs.Causes.{HasCause};

/// The outside failed, and the count of faults of what was called rose.
#[derive(Clone, Copy, Debug, PartialEq, Eq)]
pub struct Failed;

/// Where bytes come from.
///
/// A count of faults stops at 2^64 - 1, and one that stands there is read as risen.
pub trait Source {
    /// The bytes that are still to come, where the source tells them.
    ghost left: { Self → Option (List ℕ) };

    /// How often it failed: a count that never falls.
    ghost faults: { Self → ℕ };

    /// Whether it has failed, and so fails from then on.
    ghost failed: { Self → Bool };

    /// The name on which a host opened it, if one did.
    ghost name: { Self → Option (List ℕ) };

    /// Reads into a prefix of the buffer, and answers how many bytes: 0 only at the end.
    ///
    /// After `Failed` nothing was read, and what the buffer holds is open. A read that succeeds is no fault.
    fn read(&mut self, buf: &mut [u8]) -> Result<usize, Failed>
        requires { 0 < length buf.old }
        ensures bound { ReadsAtMost result buf.new }
        ensures bytes { ReadConsumes (left self.old) (left self.new) result buf.new }
        ensures cause { HasCause (faults self.old) (faults self.new) result }
        ensures stays_failed { IsTrue (failed self.old) → IsErr result }
        ensures fails { OnErr result (IsTrue (failed self.new)) }
        ensures ok_faults { OnOk result (faults self.new ≡ faults self.old) }
        ensures ok_failed { OnOk result (failed self.new ≡ failed self.old) }
        ensures name { name self.new ≡ name self.old };
}
