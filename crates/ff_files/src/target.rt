//! Where outputs go.
ghost use Rattle.std.specs.Prelude.{◌≡◌, ◌+◌, ◌≤◌, [], Some, None, true, is_some, length};
ghost use Rattle.ff_host.specs.Files.{patched};
ghost use Rattle.ff_files.specs.laws.Targets.{target_holds, target_written, target_faults, target_failed, target_name};

use crate::file_sink::FileSink;
use ff_host::{Failed, Sink, SinkError};
use std::alloc::Global;

/// Where an output goes: into a file, or nowhere. What goes nowhere is kept here, and of a format without a file that
/// is nothing.
#[derive(Drop)]
pub enum Target<S: Sink> {
    /// Into this sink.
    File(FileSink<S>),
    /// Nowhere.
    Nowhere(Vec<u8>),
}

impl<S: Sink> Target<S> {
    /// Into this sink, which has a name.
    pub(crate) fn file(snk: S) -> Target<S>
        requires { is_some (S.name snk) ≡ true }
        ensures holds { ⟦<Target<S> as Sink>⟧.holds result ≡ S.holds snk }
        ensures faults { ⟦<Target<S> as Sink>⟧.faults result ≡ S.faults snk }
        ensures name { ⟦<Target<S> as Sink>⟧.name result ≡ S.name snk }
    {
        Target::File(FileSink::new(snk))
    }

    /// Nowhere.
    pub(crate) fn nowhere(alloc: Global) -> Target<S>
        ensures holds { ⟦<Target<S> as Sink>⟧.holds result ≡ Some [] }
        ensures faults { ⟦<Target<S> as Sink>⟧.faults result ≡ 0 }
        ensures name { ⟦<Target<S> as Sink>⟧.name result ≡ None }
    {
        Target::Nowhere(Vec::new(alloc))
    }
}

// Writes over what stands at a place.
fn put_at(all: &mut [u8], at: usize, bytes: &[u8])
    requires { at + length bytes.now ≤ length all.old }
    ensures { all.new ≡ patched all.old at bytes.now }
{
    let end = at + bytes.len();
    all[at..end].copy_from_slice(bytes);
}

impl<S: Sink> Sink for Target<S> {
    ghost holds = { target_holds };

    ghost written = { target_written };

    ghost faults = { target_faults };

    ghost failed = { target_failed };

    ghost name = { target_name };

    fn append(&mut self, bytes: &[u8]) -> Result<(), SinkError> {
        match self {
            Target::File(file) => file.snk.append(bytes),
            Target::Nowhere(all) => {
                all.extend_from_slice(bytes)?;
                Ok(())
            }
        }
    }

    fn patch(&mut self, at: u64, bytes: &[u8]) -> Result<(), Failed> {
        match self {
            Target::File(file) => file.snk.patch(at, bytes),
            Target::Nowhere(all) => {
                put_at(all.as_mut_slice(), at as usize, bytes);
                Ok(())
            }
        }
    }
}
