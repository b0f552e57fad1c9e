//! The outputs of a run: created by number.
ghost use Rattle.std.specs.Prelude.{◌≡◌, ◌<◌, ◌≤◌, ◌+◌, ◌^◌, ℕ, List, [], length, vec_len, vec_capacity, IfOk, IfErr, IfSome, OnOk, OnErr, IsErrOf, Some, option_copied};
ghost use Rattle.ff_host.specs.Causes.{HasCauseOf, SameElsewhere, SameCounts};
ghost use Rattle.ff_host.specs.Files.{KeepsFiles, KeepsOthers, HoldsNothing};
ghost use Rattle.ff_files.specs.Names.{files_of, named_before, one_named, KeepsAllBut, KeepsBeside};
ghost use Rattle.ff_files.specs.Counts.{KeepsCounts, AreUnfailed, RoseUnder, SameUnder, SameBeside};
ghost use Rattle.ff_files.specs.laws.Hosts.{Later, AreOpen};
ghost use Rattle.ff_files.specs.Outputs.{AreEmpty, EndsOutputs, sound_outputs};

use crate::named::{OutputFile, file_at};
use crate::target::Target;
use ff_host::{Host, HostError, Sink};
use std::alloc::Global;

/// The first output that wasn't created, and why.
#[derive(Clone, Copy, Debug, PartialEq, Eq)]
pub struct OutputRefusal {
    /// Its number, from 0.
    pub output: u32,
    /// Why it wasn't created.
    pub end: HostError,
}

// Creates a file.
fn create_file<H: Host>(host: &mut H, name: &str) -> Result<H::Snk, HostError>
    ensures later { Later H.in_faults H.out_faults H.opened H.created host.old host.new }
    ensures ok { OnOk result (KeepsOthers (H.files host.old) (H.files host.new) name.now) }
    ensures err { OnErr result (KeepsFiles (H.files host.old) (H.files host.new)) }
    ensures name { IfOk result (λ snk. H.Snk.name snk ≡ Some name.now) }
    ensures created { OnOk result (H.created host.new name.now) }
    ensures empty { IfOk result (λ snk. HoldsNothing (H.files host.old) (H.Snk.holds snk)) }
    ensures unfailed { IfOk result (λ snk. H.Snk.faults snk ≡ 0) }
    ensures ok_counts { OnOk result (SameCounts (H.out_faults host.old) (H.out_faults host.new)) }
    ensures cause { HasCauseOf HostError.Failed (H.out_faults host.old name.now) (H.out_faults host.new name.now) result }
    ensures no_memory { IsErrOf result HostError.NoMemory → H.out_faults host.new name.now ≡ H.out_faults host.old name.now }
    ensures out_others { SameElsewhere name.now (H.out_faults host.old) (H.out_faults host.new) }
    ensures ins { SameCounts (H.in_faults host.old) (H.in_faults host.new) }
    ensures open_sources { H.open_sources host.new ≡ H.open_sources host.old }
    ensures open_sinks { OnOk result (H.open_sinks host.new ≡ H.open_sinks host.old + 1) }
    ensures refused { OnErr result (H.open_sinks host.new ≡ H.open_sinks host.old) }
{
    host.create_sink(name)
}

// Creates the file of an output, where it is one.
fn create_output<H: Host>(
    alloc: Global,
    host: &mut H,
    name: Option<&str>,
) -> Result<Target<H::Snk>, HostError>
    ensures later { Later H.in_faults H.out_faults H.opened H.created host.old host.new }
    ensures ok { OnOk result (KeepsBeside (H.files host.old) (H.files host.new) (option_copied name.entry)) }
    ensures err { OnErr result (KeepsFiles (H.files host.old) (H.files host.new)) }
    ensures name { IfOk result (λ snk. ⟦<Target<H::Snk> as Sink>⟧.name snk ≡ option_copied name.entry) }
    ensures created { OnOk result (IfSome (option_copied name.entry) (H.created host.new)) }
    ensures empty { IfOk result (λ snk. HoldsNothing (H.files host.old) (⟦<Target<H::Snk> as Sink>⟧.holds snk)) }
    ensures unfailed { IfOk result (λ snk. ⟦<Target<H::Snk> as Sink>⟧.faults snk ≡ 0) }
    ensures ok_counts { OnOk result (SameCounts (H.out_faults host.old) (H.out_faults host.new)) }
    ensures failed { IsErrOf result HostError.Failed → RoseUnder (H.out_faults host.old) (H.out_faults host.new) (option_copied name.entry) }
    ensures no_memory { IsErrOf result HostError.NoMemory → SameUnder (H.out_faults host.old) (H.out_faults host.new) (option_copied name.entry) }
    ensures out_others { SameBeside (option_copied name.entry) (H.out_faults host.old) (H.out_faults host.new) }
    ensures ins { SameCounts (H.in_faults host.old) (H.in_faults host.new) }
    ensures open_sources { H.open_sources host.new ≡ H.open_sources host.old }
    ensures open_sinks { OnOk result (H.open_sinks host.new ≡ H.open_sinks host.old + one_named (option_copied name.entry)) }
    ensures refused { OnErr result (H.open_sinks host.new ≡ H.open_sinks host.old) }
{
    match name {
        None => Ok(Target::nowhere(alloc)),
        Some(name) => Ok(Target::file(create_file(host, name)?)),
    }
}

/// Creates the files of the outputs by number, until one is refused. `snks` are then where those before it go, which are
/// to be closed whatever comes. Refused for a fault of the host, and for want of memory.
pub fn create_outputs<H: Host, N: OutputFile>(
    alloc: Global,
    host: &mut H,
    outputs: &[N],
    snks: &mut Vec<Target<H::Snk>>,
) -> Result<(), OutputRefusal>
    requires few { length outputs.now < 2 ^ 32 }
    requires snks { (snks.old.items ≡ []) × (length outputs.now ≤ vec_capacity snks.old) }
    ensures later { Later H.in_faults H.out_faults H.opened H.created host.old host.new }
    ensures files { KeepsAllBut (H.files host.old) (H.files host.new) (files_of N.file_name outputs.now) (vec_len snks.new) }
    ensures own { AreOpen H.created ⟦<Target<H::Snk> as Sink>⟧.name host.new (files_of N.file_name outputs.now) snks.new.items }
    ensures empty { AreEmpty ⟦<Target<H::Snk> as Sink>⟧.holds (H.files host.old) snks.new.items }
    ensures unfailed { AreUnfailed ⟦<Target<H::Snk> as Sink>⟧.faults snks.new.items (length outputs.now) }
    ensures counts { KeepsCounts (H.out_faults host.old) (H.out_faults host.new) (files_of N.file_name outputs.now) (sound_outputs result (length outputs.now)) }
    ensures ins { SameCounts (H.in_faults host.old) (H.in_faults host.new) }
    ensures open_sources { H.open_sources host.new ≡ H.open_sources host.old }
    ensures open_sinks { H.open_sinks host.new ≡ H.open_sinks host.old + named_before (files_of N.file_name outputs.now) (vec_len snks.new) }
    ensures all { OnOk result (vec_len snks.new ≡ length outputs.now) }
    ensures first { IfErr result (λ r. r.output ≡ vec_len snks.new) }
    ensures refused { IfErr result (λ r. EndsOutputs (H.out_faults host.old) (H.out_faults host.new) (files_of N.file_name outputs.now) r.output r.end) }
{
    for k in 0..outputs.len() {
        let output = k as u32;
        match create_output(alloc, host, file_at(outputs, k)) {
            Ok(snk) => snks.push_reserved(snk),
            Err(end) => return Err(OutputRefusal { output, end }),
        }
    }
    Ok(())
}
