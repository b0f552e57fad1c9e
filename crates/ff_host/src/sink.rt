//! The trait of a sink, where bytes are written.
ghost use Rattle.std.specs.Prelude.{◌≡◌, ◌+◌, ◌≤◌, List, ℕ, Bool, length, Option, OnOk, OnErr, IsErr, IsErrOf, IsTrue};
ghost use Rattle.std.specs.Io.KnownBytes.{Appends, Keeps};
ghost use Rattle.ff_host.specs.Causes.{HasCause, HasCauseOf};
ghost use Rattle.ff_lists.specs.Appends.{AppendsPrefix};
ghost use Rattle.ff_host.specs.Files.{Patches};
ghost use Rattle.ff_host.specs.declared.sink.SinkError.TheVariants.{NoMemory};

use crate::source::Failed;
use std::alloc::AllocError;

/// Why bytes were not appended.
#[derive(Clone, Copy, Debug, PartialEq, Eq)]
pub enum SinkError {
    /// The outside failed, and the sink's count of faults rose.
    Failed,
    /// There was no memory for them.
    NoMemory,
}

impl From<AllocError> for SinkError {
    ghost from_gives = { λ _ e. e ≡ NoMemory };

    fn from(_: AllocError) -> Self {
        SinkError::NoMemory
    }
}

/// Where bytes go.
///
/// A count of faults stops at 2^64 - 1, and one that stands there is read as risen.
pub trait Sink {
    /// The bytes that it holds, where the sink tells them.
    ghost holds: { Self → Option (List ℕ) };

    /// How many bytes were written: a patch stays below it.
    ghost written: { Self → ℕ };

    /// How often it failed: a count that never falls.
    ghost faults: { Self → ℕ };

    /// Whether it has failed, and so fails from then on.
    ghost failed: { Self → Bool };

    /// The name on which a host created it, if one did.
    ghost name: { Self → Option (List ℕ) };

    /// Adds the bytes at the end.
    ///
    /// A failure may leave a prefix of them there. Want of memory changes nothing. An append that succeeds is no fault.
    fn append(&mut self, bytes: &[u8]) -> Result<(), SinkError>
        ensures ok { OnOk result (Appends (holds self.old) (holds self.new) bytes.now) }
        ensures written { OnOk result (written self.new ≡ written self.old + length bytes.now) }
        ensures not_less { written self.old ≤ written self.new }

        ensures failed { IsErrOf result SinkError.Failed → AppendsPrefix (holds self.old) (holds self.new) bytes.now }
        ensures cause { HasCauseOf SinkError.Failed (faults self.old) (faults self.new) result }
        ensures stays_failed { IsTrue (failed self.old) → IsErrOf result SinkError.Failed }
        ensures fails { IsErrOf result SinkError.Failed → IsTrue (failed self.new) }
        ensures ok_faults { OnOk result (faults self.new ≡ faults self.old) }
        ensures ok_failed { OnOk result (failed self.new ≡ failed self.old) }

        ensures no_memory { IsErrOf result SinkError.NoMemory → Keeps (holds self.old) (holds self.new) }
        ensures no_memory_written { IsErrOf result SinkError.NoMemory → written self.new ≡ written self.old }
        ensures no_memory_faults { IsErrOf result SinkError.NoMemory → faults self.new ≡ faults self.old }
        ensures no_memory_failed { IsErrOf result SinkError.NoMemory → failed self.new ≡ failed self.old }

        ensures name { name self.new ≡ name self.old };

    /// Writes over what stands from a place on, in place. A failure replaces nothing. A patch that succeeds is no fault.
    fn patch(&mut self, at: u64, bytes: &[u8]) -> Result<(), Failed>
        requires { at + length bytes.now ≤ written self.old }
        ensures ok { OnOk result (Patches (holds self.old) (holds self.new) at bytes.now) }
        ensures err { OnErr result (Keeps (holds self.old) (holds self.new)) }
        ensures written { written self.new ≡ written self.old }
        ensures cause { HasCause (faults self.old) (faults self.new) result }
        ensures stays_failed { IsTrue (failed self.old) → IsErr result }
        ensures fails { OnErr result (IsTrue (failed self.new)) }
        ensures ok_faults { OnOk result (faults self.new ≡ faults self.old) }
        ensures ok_failed { OnOk result (failed self.new ≡ failed self.old) }
        ensures name { name self.new ≡ name self.old };
}
