//! Sources and sinks closed, by number.
ghost use Rattle.std.specs.Prelude.{◌≡◌, ◌<◌, ◌≤◌, ◌-◌, ◌^◌, ℕ, length, vec_len, Some, true, false, IfSome, option_copied};
ghost use Rattle.ff_host.specs.Causes.{Rose, SameCounts, SameElsewhere};
ghost use Rattle.ff_host.specs.Files.{KeepsFiles, PutsFile};
ghost use Rattle.ff_files.specs.Names.{names_of, files_of, named_before, one_named, AreApart, KeepsAllBut, KeepsBeside, HoldsUnder};
ghost use Rattle.ff_files.specs.Counts.{KeepsCounts, KeepsCountsBut, AreUnfailed, CountsFaults, RoseUnder, SameUnder, SameBeside};
ghost use Rattle.ff_files.specs.laws.Hosts.{Later, AreOpen};
ghost use Rattle.ff_files.specs.Outputs.{ArePut, AreClosed, FailsAt, first_failed};

use crate::named::{Named, OutputFile, file_at, name_at};
use crate::target::Target;
use ff_host::{Begun, Host, Sink, Source};

// Closes a source.
fn close_input<H: Host>(host: &mut H, name: &str, src: Begun<H::Src>)
    requires own { ⟦<Begun<H::Src> as Source>⟧.name src ≡ Some name.now }
    requires opened { H.opened host.old name.now }
    ensures later { Later H.in_faults H.out_faults H.opened H.created host.old host.new }
    ensures files { KeepsFiles (H.files host.old) (H.files host.new) }
    ensures counted { 1 ≤ ⟦<Begun<H::Src> as Source>⟧.faults src → Rose (H.in_faults host.old name.now) (H.in_faults host.new name.now) }
    ensures none { ⟦<Begun<H::Src> as Source>⟧.faults src ≡ 0 → H.in_faults host.new name.now ≡ H.in_faults host.old name.now }
    ensures in_others { SameElsewhere name.now (H.in_faults host.old) (H.in_faults host.new) }
    ensures outs { SameCounts (H.out_faults host.old) (H.out_faults host.new) }
    ensures open_sources { H.open_sources host.new ≡ H.open_sources host.old - 1 }
    ensures open_sinks { H.open_sinks host.new ≡ H.open_sinks host.old }
{
    host.close_source(name, src.into_inner());
}

// Closes the sink of a file, and answers whether that failed.
fn close_file<H: Host>(host: &mut H, name: &str, snk: H::Snk) -> bool
    requires own { H.Snk.name snk ≡ Some name.now }
    requires created { H.created host.old name.now }
    ensures later { Later H.in_faults H.out_faults H.opened H.created host.old host.new }
    ensures files { PutsFile (H.files host.old) (H.files host.new) name.now (H.Snk.holds snk) }
    ensures counted { 1 ≤ H.Snk.faults snk → Rose (H.out_faults host.old name.now) (H.out_faults host.new name.now) }
    ensures failed { result ≡ true → Rose (H.out_faults host.old name.now) (H.out_faults host.new name.now) }
    ensures none { result ≡ false → H.Snk.faults snk ≡ 0 → H.out_faults host.new name.now ≡ H.out_faults host.old name.now }
    ensures out_others { SameElsewhere name.now (H.out_faults host.old) (H.out_faults host.new) }
    ensures ins { SameCounts (H.in_faults host.old) (H.in_faults host.new) }
    ensures open_sources { H.open_sources host.new ≡ H.open_sources host.old }
    ensures open_sinks { H.open_sinks host.new ≡ H.open_sinks host.old - 1 }
{
    host.close_sink(name, snk).is_err()
}

// Closes the file of an output, where it is one, and answers whether that failed.
fn close_output<H: Host>(host: &mut H, name: Option<&str>, snk: Target<H::Snk>) -> bool
    requires own { ⟦<Target<H::Snk> as Sink>⟧.name snk ≡ option_copied name }
    requires created { IfSome (option_copied name) (H.created host.old) }
    ensures later { Later H.in_faults H.out_faults H.opened H.created host.old host.new }
    ensures files { KeepsBeside (H.files host.old) (H.files host.new) (option_copied name.entry) }
    ensures put { HoldsUnder (H.files host.old) (H.files host.new) (option_copied name.entry) (⟦<Target<H::Snk> as Sink>⟧.holds snk) }
    ensures counted { 1 ≤ ⟦<Target<H::Snk> as Sink>⟧.faults snk → RoseUnder (H.out_faults host.old) (H.out_faults host.new) (option_copied name.entry) }
    ensures failed { result ≡ true → RoseUnder (H.out_faults host.old) (H.out_faults host.new) (option_copied name.entry) }
    ensures none { result ≡ false → ⟦<Target<H::Snk> as Sink>⟧.faults snk ≡ 0
        → SameUnder (H.out_faults host.old) (H.out_faults host.new) (option_copied name.entry) }
    ensures out_others { SameBeside (option_copied name.entry) (H.out_faults host.old) (H.out_faults host.new) }
    ensures ins { SameCounts (H.in_faults host.old) (H.in_faults host.new) }
    ensures open_sources { H.open_sources host.new ≡ H.open_sources host.old }
    ensures open_sinks { H.open_sinks host.new ≡ H.open_sinks host.old - one_named (option_copied name.entry) }
{
    let Some(name) = name else {
        return false;
    };
    match snk {
        Target::File(file) => close_file(host, name, file.into_inner()),
        Target::Nowhere(_) => unreachable!(),
    }
}

/// Closes the sources that were opened of these inputs, by number. Their faults are counted under their names.
pub fn close_sources<H: Host, N: Named>(host: &mut H, inputs: &[N], srcs: Vec<Begun<H::Src>>)
    requires { AreOpen H.opened ⟦<Begun<H::Src> as Source>⟧.name host.old (names_of N.name_text inputs.now) srcs.items }
    ensures later { Later H.in_faults H.out_faults H.opened H.created host.old host.new }
    ensures files { KeepsFiles (H.files host.old) (H.files host.new) }
    ensures counted { CountsFaults ⟦<Begun<H::Src> as Source>⟧.faults (H.in_faults host.old) (H.in_faults host.new) (names_of N.name_text inputs.now) srcs.items }
    ensures counts { (count : ℕ) → AreUnfailed ⟦<Begun<H::Src> as Source>⟧.faults srcs.items count
        → KeepsCounts (H.in_faults host.old) (H.in_faults host.new) (names_of N.name_text inputs.now) count }
    ensures outs { SameCounts (H.out_faults host.old) (H.out_faults host.new) }
    ensures open_sources { H.open_sources host.new ≡ H.open_sources host.old - vec_len srcs }
    ensures open_sinks { H.open_sinks host.new ≡ H.open_sinks host.old }
{
    let mut k: usize = 0;
    for src in srcs {
        close_input(host, name_at(inputs, k), src);
        k += 1;
    }
}

// The first number that failed.
fn first_of(first: Option<u32>, failed: bool, k: u32) -> Option<u32>
    ensures { result ≡ first_failed first failed k }
{
    match first {
        Some(j) => Some(j),
        None if failed => Some(k),
        None => None,
    }
}

/// Closes the files that were created of these outputs, by number, and answers the first whose closing failed. Each sink puts
/// what it holds into its file, also then. Their faults are counted under their names, which differ.
pub fn close_sinks<H: Host, N: OutputFile>(
    host: &mut H,
    outputs: &[N],
    snks: Vec<Target<H::Snk>>,
) -> Option<u32>
    requires few { length outputs.now < 2 ^ 32 }
    requires apart { AreApart (files_of N.file_name outputs.now) }
    requires own { AreOpen H.created ⟦<Target<H::Snk> as Sink>⟧.name host.old (files_of N.file_name outputs.now) snks.items }
    ensures later { Later H.in_faults H.out_faults H.opened H.created host.old host.new }
    ensures files { KeepsAllBut (H.files host.old) (H.files host.new) (files_of N.file_name outputs.now) (vec_len snks) }
    ensures put { ArePut ⟦<Target<H::Snk> as Sink>⟧.holds (H.files host.old) (H.files host.new) (files_of N.file_name outputs.now) snks.items }
    ensures counted { CountsFaults ⟦<Target<H::Snk> as Sink>⟧.faults (H.out_faults host.old) (H.out_faults host.new) (files_of N.file_name outputs.now) snks.items }
    ensures counts { (count : ℕ) → AreClosed result count → AreUnfailed ⟦<Target<H::Snk> as Sink>⟧.faults snks.items count
        → KeepsCounts (H.out_faults host.old) (H.out_faults host.new) (files_of N.file_name outputs.now) count }
    ensures others { KeepsCountsBut (H.out_faults host.old) (H.out_faults host.new) (files_of N.file_name outputs.now) (vec_len snks) }
    ensures first { FailsAt (H.out_faults host.old) (H.out_faults host.new) (files_of N.file_name outputs.now) (vec_len snks) result }
    ensures ins { SameCounts (H.in_faults host.old) (H.in_faults host.new) }
    ensures open_sources { H.open_sources host.new ≡ H.open_sources host.old }
    ensures open_sinks { H.open_sinks host.new ≡ H.open_sinks host.old - named_before (files_of N.file_name outputs.now) (vec_len snks) }
{
    let mut first = None;
    let mut k: usize = 0;
    for snk in snks {
        let failed = close_output(host, file_at(outputs, k), snk);
        first = first_of(first, failed, k as u32);
        k += 1;
    }
    first
}

/// Closes the sources and then the files of the outputs, by number, and answers the first output whose closing failed.
pub fn close_all<H: Host, I: Named, N: OutputFile>(
    host: &mut H,
    inputs: &[I],
    outputs: &[N],
    srcs: Vec<Begun<H::Src>>,
    snks: Vec<Target<H::Snk>>,
) -> Option<u32>
    requires few { length outputs.now < 2 ^ 32 }
    requires apart { AreApart (files_of N.file_name outputs.now) }
    requires srcs { AreOpen H.opened ⟦<Begun<H::Src> as Source>⟧.name host.old (names_of I.name_text inputs.now) srcs.items }
    requires snks { AreOpen H.created ⟦<Target<H::Snk> as Sink>⟧.name host.old (files_of N.file_name outputs.now) snks.items }
    ensures later { Later H.in_faults H.out_faults H.opened H.created host.old host.new }
    ensures files { KeepsAllBut (H.files host.old) (H.files host.new) (files_of N.file_name outputs.now) (vec_len snks) }
    ensures put { ArePut ⟦<Target<H::Snk> as Sink>⟧.holds (H.files host.old) (H.files host.new) (files_of N.file_name outputs.now) snks.items }
    ensures in_counted { CountsFaults ⟦<Begun<H::Src> as Source>⟧.faults (H.in_faults host.old) (H.in_faults host.new) (names_of I.name_text inputs.now) srcs.items }
    ensures out_counted { CountsFaults ⟦<Target<H::Snk> as Sink>⟧.faults (H.out_faults host.old) (H.out_faults host.new) (files_of N.file_name outputs.now) snks.items }
    ensures in_counts { (count : ℕ) → AreUnfailed ⟦<Begun<H::Src> as Source>⟧.faults srcs.items count
        → KeepsCounts (H.in_faults host.old) (H.in_faults host.new) (names_of I.name_text inputs.now) count }
    ensures out_counts { (count : ℕ) → AreClosed result count → AreUnfailed ⟦<Target<H::Snk> as Sink>⟧.faults snks.items count
        → KeepsCounts (H.out_faults host.old) (H.out_faults host.new) (files_of N.file_name outputs.now) count }
    ensures others { KeepsCountsBut (H.out_faults host.old) (H.out_faults host.new) (files_of N.file_name outputs.now) (vec_len snks) }
    ensures first { FailsAt (H.out_faults host.old) (H.out_faults host.new) (files_of N.file_name outputs.now) (vec_len snks) result }
    ensures open_sources { H.open_sources host.new ≡ H.open_sources host.old - vec_len srcs }
    ensures open_sinks { H.open_sinks host.new ≡ H.open_sinks host.old - named_before (files_of N.file_name outputs.now) (vec_len snks) }
{
    close_sources(host, inputs, srcs);
    close_sinks(host, outputs, snks)
}
