//! A host in memory whose sources wait for each other in pairs.
ghost use Rattle.std.specs.Prelude.{◌≡◌, ◌-◌, ℕ, List, [], Some, is_some, Ok, IfOk, OnOk, OnErr, IsErrOf, IsOk, IsSome};
ghost use Rattle.std.specs.Option.{option_map};
ghost use Rattle.ff_host.specs.Files.{KeepsFiles, PutsFile};
ghost use Rattle.ff_host.specs.laws.memory.Given.{given};
ghost use Rattle.ff_host.specs.laws.memory.MemHost.{source_closed};
ghost use Rattle.ff_host.specs.laws.memory.MeetHost.{meet_files, meet_marks, meet_in_faults, meet_offset, meet_sources, meet_sinks, MeetOpened, new_meet_source, MeetNotes, MeetSame, now_opened};
ghost use Rattle.ff_host.specs.laws.Opens.{CountsOpening};
ghost use Rattle.ff_host.specs.laws.Tally.{blank};

use crate::memory::meet_source::MeetSource;
use crate::memory::meeting::Meeting;
use crate::memory::quiet_host::QuietHost;
use crate::memory::quiet_sink::QuietSink;
use crate::{Failed, Host, HostError, Marks, Table, make_room, marks_of, set_marks};
use std::alloc::{AllocError, Global};
use std::collections::BTreeMap;

/// A host in memory of two inputs that are read at one time. Each source's first read that begins at or past an
/// offset waits until the other's has begun.
///
/// The first two sources that it opens meet each other, whatever their names, then the next two, and so on. A name that
/// is not there opens as an empty source. A source fails where it waited in vain ([`MeetSource`]), and nothing else does.
#[derive(Drop)]
pub struct MeetHost {
    alloc: Global,
    inner: QuietHost,
    table: Table,
    offset: u64,
    /// The other end of the last source's meeting, where no source has it yet.
    free: Option<Meeting>,
}

// The next source's end of a meeting, and the one that is free then.
fn next_meeting(
    alloc: Global,
    free: &Option<Meeting>,
) -> Result<(Meeting, Option<Meeting>), AllocError> {
    match free {
        Some(meeting) => Ok((meeting.again()?, None)),
        None => {
            let (first, second) = Meeting::pair(alloc)?;
            Ok((first, Some(second)))
        }
    }
}

impl MeetHost {
    /// A host of these files: of two with one name, the first. Its sources wait from this place in their files on.
    pub fn new(
        alloc: Global,
        files: Vec<(String, Vec<u8>)>,
        offset: u64,
    ) -> Result<MeetHost, AllocError>
        ensures files { IfOk result (λ host. (name : List ℕ) → meet_files host name ≡ given files.items name) }
        ensures offset { IfOk result (λ host. meet_offset host ≡ offset) }
        ensures calm { IfOk result (λ host. (name : List ℕ) → meet_marks host name ≡ blank) }
    {
        Ok(MeetHost {
            alloc,
            inner: QuietHost::new(alloc, files)?,
            table: BTreeMap::new(alloc),
            offset,
            free: None,
        })
    }

    /// The bytes of a file, or None exactly where the name is not there.
    pub fn file(&self, name: &str) -> Option<&[u8]>
        ensures { option_map (λ bytes. bytes.now) result ≡ meet_files self.now name.now }
    {
        self.inner.file(name)
    }

    /// How often reading under this name failed.
    pub fn in_faults(&self, name: &str) -> u64
        ensures { result ≡ meet_in_faults self.now name.now }
    {
        marks_of(&self.table, name).in_faults
    }
}

impl Host for MeetHost {
    type Src = MeetSource;

    type Snk = QuietSink;

    ghost files = { λ h. Some (meet_files h) };

    ghost in_faults = { meet_in_faults };

    ghost out_faults = { λ _ _. 0 };

    ghost opened = { MeetOpened };

    ghost created = { λ h name. IsSome (meet_files h name) };

    ghost open_sources = { meet_sources };

    ghost open_sinks = { meet_sinks };

    fn exists(&self, name: &str) -> Result<bool, AllocError>
        ensures { result ≡ Ok (is_some (meet_files self.now name.now)) }
    {
        self.inner.exists(name)
    }

    fn open_source(&mut self, name: &str) -> Result<MeetSource, HostError>
        ensures never { IsErrOf result HostError.Failed → ⊥ }
        ensures source { IfOk result (λ src. src ≡ new_meet_source self.old name.now) }
        ensures files { KeepsFiles (Some (meet_files self.old)) (Some (meet_files self.new)) }

        ensures after { OnOk result (MeetNotes self.old self.new name.now now_opened) }
        ensures refused { OnErr result (MeetSame self.old self.new) }
        ensures open_sources { CountsOpening (meet_sources self.old) (meet_sources self.new) result }
        ensures open_sinks { meet_sinks self.new ≡ meet_sinks self.old }
    {
        make_room(&mut self.table, self.alloc, name)?;
        let (meeting, free) = next_meeting(self.alloc, &self.free)?;
        let inner = self.inner.open_source(name)?;
        self.free = free;
        let was = marks_of(&self.table, name);
        let marks = Marks {
            opened: true,
            ..was
        };
        set_marks(&mut self.table, name, marks);
        Ok(MeetSource::new(inner, meeting, self.offset))
    }

    fn create_sink(&mut self, name: &str) -> Result<QuietSink, HostError>
        ensures never { IsErrOf result HostError.Failed → ⊥ }
        ensures sink { IfOk result (λ snk. snk ≡ record { name = name.now; holds = [] }) }
        ensures ok { OnOk result (PutsFile (Some (meet_files self.old)) (Some (meet_files self.new)) name.now (Some [])) }
        ensures err { OnErr result (KeepsFiles (Some (meet_files self.old)) (Some (meet_files self.new))) }
        ensures same { MeetSame self.old self.new }
        ensures open_sources { meet_sources self.new ≡ meet_sources self.old }
        ensures open_sinks { CountsOpening (meet_sinks self.old) (meet_sinks self.new) result }
    {
        self.inner.create_sink(name)
    }

    fn close_source(&mut self, name: &str, src: MeetSource)
        requires { MeetOpened self.old name.now }
        ensures after { MeetNotes self.old self.new name.now (source_closed src.faults) }
        ensures none { src.faults ≡ 0 → meet_in_faults self.new name.now ≡ meet_in_faults self.old name.now }
        ensures files { KeepsFiles (Some (meet_files self.old)) (Some (meet_files self.new)) }
        ensures open_sources { meet_sources self.new ≡ meet_sources self.old - 1 }
        ensures open_sinks { meet_sinks self.new ≡ meet_sinks self.old }
    {
        let was = marks_of(&self.table, name);
        let in_faults = was.in_faults.saturating_add(src.faults());
        set_marks(&mut self.table, name, Marks { in_faults, ..was });
        self.inner.close_source(name, src.into_inner());
    }

    fn close_sink(&mut self, name: &str, snk: QuietSink) -> Result<(), Failed>
        requires { IsSome (meet_files self.old name.now) }
        ensures never { IsOk result }
        ensures files { PutsFile (Some (meet_files self.old)) (Some (meet_files self.new)) name.now (Some snk.holds) }
        ensures same { MeetSame self.old self.new }
        ensures open_sources { meet_sources self.new ≡ meet_sources self.old }
        ensures open_sinks { meet_sinks self.new ≡ meet_sinks self.old - 1 }
    {
        self.inner.close_sink(name, snk)
    }
}
