//! A sink in memory that never fails.
ghost use Rattle.std.specs.Prelude.{◌≡◌, ◌+◌, ◌≤◌, [], ◌++◌, length, take, drop, Some, false, IsOk, OnOk, OnErr, string_bytes};
ghost use Rattle.ff_host.specs.Files.{patched};

use crate::{Failed, Sink, SinkError};
use std::alloc::Global;
use std::marker::Model;

/// A sink in memory that never fails.
#[derive(Drop)]
pub struct QuietSink {
    name: String,
    bytes: Vec<u8>,
}

impl Model for QuietSink {
    ghost use Rattle.std.specs.Prelude.{string_bytes};
    ghost use Rattle.ff_host.specs.laws.memory.QuietEnds.{QuietWriting};

    ghost Value = { QuietWriting };

    ghost view = { λ s. record { name = string_bytes s.name; holds = s.bytes.items } };
}

impl QuietSink {
    /// A sink under this name that holds nothing.
    pub(crate) fn new(alloc: Global, name: String) -> QuietSink
        ensures { result ≡ record { name = string_bytes name; holds = [] } }
    {
        QuietSink {
            name,
            bytes: Vec::new(alloc),
        }
    }

    /// The bytes that it holds.
    pub fn bytes(&self) -> &[u8]
        ensures { result.now ≡ self.now.holds }
    {
        &self.bytes
    }

    /// The bytes that it holds.
    pub(crate) fn into_bytes(self) -> Vec<u8>
        ensures { result.items ≡ self.holds }
    {
        self.bytes
    }
}

// Writes over what stands at a place.
fn put_at(all: &mut [u8], at: usize, bytes: &[u8])
    requires { at + length bytes.now ≤ length all.old }
    ensures { all.new ≡ patched all.old at bytes.now }
{
    let end = at + bytes.len();
    all[at..end].copy_from_slice(bytes);
}

impl Sink for QuietSink {
    ghost holds = { λ s. Some s.holds };

    ghost written = { λ s. length s.holds };

    ghost faults = { λ _. 0 };

    ghost failed = { λ _. false };

    ghost name = { λ s. Some s.name };

    fn append(&mut self, bytes: &[u8]) -> Result<(), SinkError>
        ensures ok { OnOk result (self.new ≡ record self.old { holds = self.old.holds ++ bytes.now }) }
        ensures never { OnErr result (result ≡ Err SinkError.NoMemory) }
        ensures no_memory { OnErr result (self.new ≡ self.old) }
    {
        self.bytes.extend_from_slice(bytes)?;
        Ok(())
    }

    fn patch(&mut self, at: u64, bytes: &[u8]) -> Result<(), Failed>
        requires { at + length bytes.now ≤ length self.old.holds }
        ensures never { IsOk result }
        ensures after { self.new ≡ record self.old { holds = patched self.old.holds at bytes.now } }
    {
        put_at(self.bytes.as_mut_slice(), at as usize, bytes);
        Ok(())
    }
}
