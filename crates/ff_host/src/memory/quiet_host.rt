//! A host in memory that never fails.
ghost use Rattle.std.specs.Prelude.{◌≡◌, ◌-◌, ℕ, List, [], Some, Ok, IfOk, OnOk, OnErr, IsErrOf, IsOk, IsSome, is_some, ⊤};
ghost use Rattle.std.specs.Option.{option_map};
ghost use Rattle.ff_host.specs.Files.{bytes_at, KeepsFiles, PutsFile};
ghost use Rattle.ff_host.specs.laws.memory.Given.{given};
ghost use Rattle.ff_host.specs.laws.Opens.{CountsOpening};
ghost use Rattle.ff_host.specs.laws.memory.QuietHost.{quiet_files, quiet_sources, quiet_sinks, one_source_more, one_source_less};

use crate::memory::contents::{
    Contents, bytes_under, contents_of, copy_under, make_empty, put_bytes,
};
use crate::memory::quiet_sink::QuietSink;
use crate::memory::quiet_source::QuietSource;
use crate::{Failed, Host, HostError};
use std::alloc::{AllocError, Global};

/// A host in memory that never fails: its counts are 0, and a name that is not there opens as an empty source.
#[derive(Drop)]
pub struct QuietHost {
    alloc: Global,
    files: Contents,
    sources: u64,
    sinks: u64,
}

impl QuietHost {
    /// A host of these files: of two with one name, the first.
    pub fn new(alloc: Global, files: Vec<(String, Vec<u8>)>) -> Result<QuietHost, AllocError>
        ensures { IfOk result (λ host. (name : List ℕ) → quiet_files host name ≡ given files.items name) }
    {
        Ok(QuietHost {
            alloc,
            files: contents_of(alloc, files)?,
            sources: 0,
            sinks: 0,
        })
    }

    /// The bytes of a file, or None exactly where the name is not there.
    pub fn file(&self, name: &str) -> Option<&[u8]>
        ensures { option_map (λ bytes. bytes.now) result ≡ quiet_files self.now name.now }
    {
        bytes_under(&self.files, name)
    }

    /// Takes a sink back, and puts what it holds in the place of the bytes of a file that is there.
    pub(crate) fn put(&mut self, name: &str, snk: QuietSink)
        requires { IsSome (quiet_files self.old name.now) }
        ensures files { PutsFile (Some (quiet_files self.old)) (Some (quiet_files self.new)) name.now (Some snk.holds) }
        ensures sources { quiet_sources self.new ≡ quiet_sources self.old }
        ensures sinks { quiet_sinks self.new ≡ quiet_sinks self.old - 1 }
    {
        put_bytes(&mut self.files, name, snk.into_bytes());
        self.sinks = self.sinks.saturating_sub(1);
    }
}

impl Host for QuietHost {
    type Src = QuietSource;

    type Snk = QuietSink;

    ghost files = { λ h. Some (quiet_files h) };

    ghost in_faults = { λ _ _. 0 };

    ghost out_faults = { λ _ _. 0 };

    ghost opened = { λ _ _. ⊤ };

    ghost created = { λ h name. IsSome (quiet_files h name) };

    ghost open_sources = { quiet_sources };

    ghost open_sinks = { quiet_sinks };

    fn exists(&self, name: &str) -> Result<bool, AllocError>
        ensures { result ≡ Ok (is_some (quiet_files self.now name.now)) }
    {
        Ok(self.file(name).is_some())
    }

    fn open_source(&mut self, name: &str) -> Result<QuietSource, HostError>
        ensures never { IsErrOf result HostError.Failed → ⊥ }
        ensures source { IfOk result (λ src. src ≡ record { name = name.now; left = bytes_at (quiet_files self.old) name.now }) }
        ensures after { OnOk result (self.new ≡ one_source_more self.old) }
        ensures refused { OnErr result (self.new ≡ self.old) }
    {
        let Some(sources) = self.sources.checked_add(1) else {
            return Err(HostError::NoMemory);
        };
        let bytes = copy_under(self.alloc, &self.files, name)?;
        let name = String::from_str(self.alloc, name)?;
        self.sources = sources;
        Ok(QuietSource::new(name, bytes))
    }

    fn create_sink(&mut self, name: &str) -> Result<QuietSink, HostError>
        ensures never { IsErrOf result HostError.Failed → ⊥ }
        ensures sink { IfOk result (λ snk. snk ≡ record { name = name.now; holds = [] }) }
        ensures ok { OnOk result (PutsFile (Some (quiet_files self.old)) (Some (quiet_files self.new)) name.now (Some [])) }
        ensures err { OnErr result (KeepsFiles (Some (quiet_files self.old)) (Some (quiet_files self.new))) }
        ensures open_sources { quiet_sources self.new ≡ quiet_sources self.old }
        ensures open_sinks { CountsOpening (quiet_sinks self.old) (quiet_sinks self.new) result }
    {
        let Some(sinks) = self.sinks.checked_add(1) else {
            return Err(HostError::NoMemory);
        };
        let own_name = String::from_str(self.alloc, name)?;
        make_empty(&mut self.files, self.alloc, name)?;
        self.sinks = sinks;
        Ok(QuietSink::new(self.alloc, own_name))
    }

    fn close_source(&mut self, _: &str, _: QuietSource)
        ensures after { self.new ≡ one_source_less self.old }
    {
        self.sources = self.sources.saturating_sub(1);
    }

    fn close_sink(&mut self, name: &str, snk: QuietSink) -> Result<(), Failed>
        requires { IsSome (quiet_files self.old name.now) }
        ensures never { IsOk result }
        ensures files { PutsFile (Some (quiet_files self.old)) (Some (quiet_files self.new)) name.now (Some snk.holds) }
        ensures open_sources { quiet_sources self.new ≡ quiet_sources self.old }
        ensures open_sinks { quiet_sinks self.new ≡ quiet_sinks self.old - 1 }
    {
        self.put(name, snk);
        Ok(())
    }
}
