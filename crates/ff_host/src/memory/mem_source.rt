//! A source in memory that fails where it was planned.
ghost use Rattle.std.specs.Prelude.{◌≡◌, ◌+◌, ◌<◌, ◌↔◌, [], ◌++◌, length, take, drop, min, Some, IfOk, OnErr, IsErr, string_bytes};
ghost use Rattle.ff_host.specs.Causes.{added, HasCause};
ghost use Rattle.ff_host.specs.laws.memory.MemEnds.{new_reading, failed_read};
ghost use Rattle.ff_host.specs.laws.memory.Plan.{FailsNext};

use crate::memory::plan::{fails_next, one_more};
use crate::memory::quiet_source::QuietSource;
use crate::{Failed, Source};
use std::marker::Model;

/// A source in memory whose reads fail where it was planned.
#[derive(Drop)]
pub struct MemSource {
    inner: QuietSource,
    reads: u64,
    planned: Vec<u64>,
    faults: u64,
    failed: bool,
}

impl Model for MemSource {
    ghost use Rattle.ff_host.specs.laws.memory.MemEnds.{MemReading};

    ghost Value = { MemReading };

    ghost view = { λ s. record {
      name = s.inner.name;
      left = s.inner.left;
      reads = s.reads;
      planned = s.planned.items;
      faults = s.faults;
      failed = s.failed;
    } };
}

impl MemSource {
    /// A source over this one, with the numbers of the reads that fail.
    pub(crate) fn new(inner: QuietSource, planned: Vec<u64>) -> MemSource
        ensures { result ≡ new_reading inner.name inner.left planned.items }
    {
        MemSource {
            inner,
            reads: 0,
            planned,
            faults: 0,
            failed: false,
        }
    }

    /// How often reading failed.
    pub(crate) fn faults(&self) -> u64
        ensures { result ≡ self.now.faults }
    {
        self.faults
    }

    /// The source without its plan.
    pub(crate) fn into_inner(self) -> QuietSource
        ensures { result ≡ record { name = self.name; left = self.left } }
    {
        self.inner
    }
}

impl Source for MemSource {
    ghost left = { λ s. Some s.left };

    ghost faults = { λ s. s.faults };

    ghost failed = { λ s. s.failed };

    ghost name = { λ s. Some s.name };

    // It fails exactly where it has failed before, or where this read is planned to. Else it fills the buffer as far
    // as the bytes reach.
    fn read(&mut self, buf: &mut [u8]) -> Result<usize, Failed>
        requires { 0 < length buf.old }
        ensures exact { IsErr result ↔ FailsNext self.old.failed self.old.planned self.old.reads }
        ensures count { IfOk result (λ n. n ≡ min (length buf.old) (length self.old.left)) }
        ensures given { IfOk result (λ n. buf.new ≡ take n self.old.left ++ drop n buf.old) }
        ensures after { IfOk result (λ n. self.new ≡
            record self.old { left = drop n self.old.left; reads = added self.old.reads 1 }) }
        ensures err { OnErr result (self.new ≡ failed_read self.old) }
        ensures cause { HasCause self.old.faults self.new.faults result }
        ensures buffer { OnErr result (buf.new ≡ buf.old) }
    {
        let fails = fails_next(self.failed, &self.planned, self.reads);
        self.reads = one_more(self.reads);
        if fails {
            self.failed = true;
            self.faults = one_more(self.faults);
            return Err(Failed);
        }
        self.inner.read(buf)
    }
}
