//! The trait of a host, which opens sources and creates sinks by name.
ghost use Rattle.std.specs.Prelude.{◌≡◌, ◌-◌, List, [], ℕ, false, Option, Some, IfOk, OnOk, OnErr, IsErrOf};
ghost use Rattle.ff_host.specs.Causes.{HasCause, HasCauseOf, added, SameElsewhere, SameCounts};
ghost use Rattle.ff_host.specs.Files.{Files, KeepsFiles, PutsFile, GivesFile, HoldsNothing, TellsOf};
ghost use Rattle.ff_host.specs.laws.Opens.{CountsOpening};
ghost use Rattle.ff_host.specs.declared.host.HostError.TheVariants.{NoMemory};

use crate::sink::Sink;
use crate::source::{Failed, Source};
use std::alloc::AllocError;

/// Why a name was not opened or created.
#[derive(Clone, Copy, Debug, PartialEq, Eq)]
pub enum HostError {
    /// The outside failed, and the count of that name and direction rose.
    Failed,
    /// There was no memory for it.
    NoMemory,
}

impl From<AllocError> for HostError {
    ghost from_gives = { λ _ e. e ≡ NoMemory };

    fn from(_: AllocError) -> Self {
        HostError::NoMemory
    }
}

/// What opens sources and creates sinks by name, takes them back, and says which files are there.
///
/// Faults are counted by name and direction. A count stops at 2^64 - 1, and one that stands there is read as risen.
///
/// What was opened and not given back is counted too, exactly. Where that count stands at 2^64 - 1, opening is
/// refused for want of memory, since there is no room to count it.
pub trait Host {
    /// What `open_source` gives.
    type Src: Source + Send + Drop;

    /// What `create_sink` gives.
    type Snk: Sink + Send + Drop;

    /// The files by name, where the host tells them.
    ghost files: { Self → Option Files };

    /// How often reading under a name failed: a count that never falls.
    ghost in_faults: { Self → List ℕ → ℕ };

    /// How often writing under a name failed: a count that never falls.
    ghost out_faults: { Self → List ℕ → ℕ };

    /// The names on which `open_source` answered Ok: under these a source may be closed.
    ghost opened: { Self → List ℕ → Type 0 };

    /// The names on which `create_sink` answered Ok: under these a sink may be closed.
    ghost created: { Self → List ℕ → Type 0 };

    /// How many of the sources that it opened were not given back.
    ghost open_sources: { Self → ℕ };

    /// How many of the sinks that it created were not given back.
    ghost open_sinks: { Self → ℕ };

    /// Whether a file of this name is there, an empty one too. Nothing is opened.
    fn exists(&self, name: &str) -> Result<bool, AllocError>
        ensures told { IfOk result (λ there. TellsOf (files self.now) name.now there) };

    /// A source of the file, or of nothing where the name is not there, that has never failed. It makes the room that
    /// closing needs.
    ///
    /// Want of memory changes nothing, and an opening that succeeds is no fault. Want of memory is also the answer where the count of open sources can't rise any more.
    fn open_source(&mut self, name: &str) -> Result<Self::Src, HostError>
        ensures source { IfOk result (λ src.
            (Self.Src.name src ≡ Some name.now) × GivesFile (files self.old) name.now (Self.Src.left src)) }
        ensures unfailed { IfOk result (λ src. (Self.Src.faults src ≡ 0) × (Self.Src.failed src ≡ false)) }
        ensures files { KeepsFiles (files self.old) (files self.new) }

        ensures cause { HasCauseOf HostError.Failed (in_faults self.old name.now) (in_faults self.new name.now) result }
        ensures no_memory { IsErrOf result HostError.NoMemory → in_faults self.new name.now ≡ in_faults self.old name.now }
        ensures ok_faults { OnOk result (in_faults self.new name.now ≡ in_faults self.old name.now) }
        ensures in_others { SameElsewhere name.now (in_faults self.old) (in_faults self.new) }
        ensures out { SameCounts (out_faults self.old) (out_faults self.new) }

        ensures opened { OnOk result (opened self.new name.now) }
        ensures still_opened { (other : List ℕ) → opened self.old other → opened self.new other }
        ensures still_created { (other : List ℕ) → created self.old other → created self.new other }

        ensures open_sources { CountsOpening (open_sources self.old) (open_sources self.new) result }
        ensures open_sinks { open_sinks self.new ≡ open_sinks self.old };

    /// Makes the file empty, also where it was there, and gives a sink that holds nothing and has never failed. It makes
    /// the room that closing needs.
    ///
    /// After a refusal the files are as they were. Want of memory changes nothing, and a creating that succeeds is no
    /// fault. Want of memory is also the answer where the count of open sinks can't rise any more.
    fn create_sink(&mut self, name: &str) -> Result<Self::Snk, HostError>
        ensures sink { IfOk result (λ snk.
            (Self.Snk.name snk ≡ Some name.now) × HoldsNothing (files self.old) (Self.Snk.holds snk)) }
        ensures unfailed { IfOk result (λ snk. (Self.Snk.faults snk ≡ 0) × (Self.Snk.failed snk ≡ false)) }
        ensures ok { OnOk result (PutsFile (files self.old) (files self.new) name.now (Some [])) }
        ensures err { OnErr result (KeepsFiles (files self.old) (files self.new)) }

        ensures cause { HasCauseOf HostError.Failed (out_faults self.old name.now) (out_faults self.new name.now) result }
        ensures no_memory { IsErrOf result HostError.NoMemory → out_faults self.new name.now ≡ out_faults self.old name.now }
        ensures ok_faults { OnOk result (out_faults self.new name.now ≡ out_faults self.old name.now) }
        ensures out_others { SameElsewhere name.now (out_faults self.old) (out_faults self.new) }
        ensures ins { SameCounts (in_faults self.old) (in_faults self.new) }

        ensures created { OnOk result (created self.new name.now) }
        ensures still_opened { (other : List ℕ) → opened self.old other → opened self.new other }
        ensures still_created { (other : List ℕ) → created self.old other → created self.new other }

        ensures open_sources { open_sources self.new ≡ open_sources self.old }
        ensures open_sinks { CountsOpening (open_sinks self.old) (open_sinks self.new) result };

    /// Takes a source back. Its faults are added to those of reading under the name.
    fn close_source(&mut self, name: &str, src: Self::Src)
        requires own { Self.Src.name src ≡ Some name.now }
        requires opened { opened self.old name.now }
        ensures files { KeepsFiles (files self.old) (files self.new) }

        ensures adds { in_faults self.new name.now ≡ added (in_faults self.old name.now) (Self.Src.faults src) }
        ensures none { Self.Src.faults src ≡ 0 → in_faults self.new name.now ≡ in_faults self.old name.now }
        ensures in_others { SameElsewhere name.now (in_faults self.old) (in_faults self.new) }
        ensures out { SameCounts (out_faults self.old) (out_faults self.new) }

        ensures still_opened { (other : List ℕ) → opened self.old other → opened self.new other }
        ensures still_created { (other : List ℕ) → created self.old other → created self.new other }

        ensures open_sources { open_sources self.new ≡ open_sources self.old - 1 }
        ensures open_sinks { open_sinks self.new ≡ open_sinks self.old };

    /// Takes a sink back, and puts what it holds into the file, also at an `Err`. Its faults are added to those of
    /// writing under the name, and a failure of the closing itself comes on top.
    fn close_sink(&mut self, name: &str, snk: Self::Snk) -> Result<(), Failed>
        requires own { Self.Snk.name snk ≡ Some name.now }
        requires created { created self.old name.now }
        ensures files { PutsFile (files self.old) (files self.new) name.now (Self.Snk.holds snk) }

        ensures adds { OnOk result
            (out_faults self.new name.now ≡ added (out_faults self.old name.now) (Self.Snk.faults snk)) }
        ensures none { OnOk result (Self.Snk.faults snk ≡ 0 → out_faults self.new name.now ≡ out_faults self.old name.now) }
        ensures cause { HasCause (added (out_faults self.old name.now) (Self.Snk.faults snk))
            (out_faults self.new name.now) result }
        ensures out_others { SameElsewhere name.now (out_faults self.old) (out_faults self.new) }
        ensures ins { SameCounts (in_faults self.old) (in_faults self.new) }

        ensures still_opened { (other : List ℕ) → opened self.old other → opened self.new other }
        ensures still_created { (other : List ℕ) → created self.old other → created self.new other }

        ensures open_sources { open_sources self.new ≡ open_sources self.old }
        ensures open_sinks { open_sinks self.new ≡ open_sinks self.old - 1 };
}
