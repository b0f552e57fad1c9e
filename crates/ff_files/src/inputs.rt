//! The inputs of a run: opened by number, each with its head.
ghost use Rattle.std.specs.Prelude.{◌≡◌, ◌<◌, ◌≤◌, ◌+◌, ◌^◌, ℕ, List, [], length, vec_len, vec_capacity, IfOk, OnErr, IfErr, OnOk, Ok, Some};
ghost use Rattle.std.specs.List.{All};
ghost use Rattle.ff_host.specs.Causes.{SameElsewhere, SameCounts};
ghost use Rattle.ff_host.specs.Files.{KeepsFiles};
ghost use Rattle.ff_files.specs.Names.{names_of, name_at as name_by};
ghost use Rattle.ff_files.specs.Counts.{KeepsCounts, AreUnfailed};
ghost use Rattle.ff_files.specs.laws.Hosts.{Later, AreOpen};
ghost use Rattle.ff_files.specs.laws.Inputs.{IsRead, IsUnopened, AreBegun, EndsInputs, sound_inputs};
ghost use Rattle.ff_files.specs.declared.head.InputEnd.TheVariants.{Failed};

use crate::head::{Begin, InputEnd, InputFile, read_begin};
use crate::named::Named;
use ff_host::{Begun, Host, HostError, Source};
use std::alloc::Global;

/// The first input that was refused, and why.
#[derive(Clone, Copy, Debug, PartialEq, Eq)]
pub struct InputRefusal {
    /// Its number, from 0.
    pub input: u32,
    /// Why it was refused.
    pub end: InputEnd,
}

/// An input that was opened: its source, which gives it from the first byte on, and its head, or why it has none.
#[derive(Drop)]
pub struct Opened<S: Source + Drop, H: Drop> {
    /// The source, which gives the input from its first byte on.
    pub src: Begun<S>,
    /// The head, or why there is none.
    pub head: Result<H, InputEnd>,
}

// Opens an input, and reads its head.
fn open_input<H: Host, I: InputFile>(
    alloc: Global,
    host: &mut H,
    input: &I,
) -> Result<Opened<H::Src, I::Head>, InputEnd>
    ensures later { Later H.in_faults H.out_faults H.opened H.created host.old host.new }
    ensures files { KeepsFiles (H.files host.old) (H.files host.new) }
    ensures name { IfOk result (λ o. ⟦<Begun<H::Src> as Source>⟧.name o.src ≡ Some (I.name_text input.now)) }
    ensures opened { OnOk result (H.opened host.new (I.name_text input.now)) }
    ensures read { IfOk result (λ o. IsRead (I.head input.now) I.is_sound o.head
        (⟦<Begun<H::Src> as Source>⟧.faults o.src) (⟦<Begun<H::Src> as Source>⟧.left o.src) (H.files host.old) (I.name_text input.now)) }
    ensures unopened { IfErr result (λ end. IsUnopened end (H.in_faults host.old (I.name_text input.now)) (H.in_faults host.new (I.name_text input.now))) }
    ensures ok_counts { OnOk result (SameCounts (H.in_faults host.old) (H.in_faults host.new)) }
    ensures in_others { SameElsewhere (I.name_text input.now) (H.in_faults host.old) (H.in_faults host.new) }
    ensures outs { SameCounts (H.out_faults host.old) (H.out_faults host.new) }
    ensures open_sources { OnOk result (H.open_sources host.new ≡ H.open_sources host.old + 1) }
    ensures refused { OnErr result (H.open_sources host.new ≡ H.open_sources host.old) }
    ensures open_sinks { H.open_sinks host.new ≡ H.open_sinks host.old }
{
    let mut src = match host.open_source(input.name()) {
        Ok(src) => src,
        Err(HostError::Failed) => return Err(InputEnd::Failed),
        Err(HostError::NoMemory) => return Err(InputEnd::NoMemory),
    };
    match read_begin(alloc, input, &mut src) {
        Ok(Begin { head, bytes }) => Ok(Opened {
            src: Begun::new(bytes, src),
            head: Ok(head),
        }),
        Err(end) => Ok(Opened {
            src: Begun::new(Vec::new(alloc), src),
            head: Err(end),
        }),
    }
}

/// Opens the inputs by number, and reads the head of each, until one is refused. `srcs` are then those that were opened,
/// which are to be closed whatever comes, and `heads` those that were read. Refused as [`read_begin`] says, and for a fault
/// of opening.
pub fn open_inputs<H: Host, I: InputFile>(
    alloc: Global,
    host: &mut H,
    inputs: &[I],
    srcs: &mut Vec<Begun<H::Src>>,
    heads: &mut Vec<I::Head>,
) -> Result<(), InputRefusal>
    requires few { length inputs.now < 2 ^ 32 }
    requires srcs { (srcs.old.items ≡ []) × (length inputs.now ≤ vec_capacity srcs.old) }
    requires heads { (heads.old.items ≡ []) × (length inputs.now ≤ vec_capacity heads.old) }
    ensures later { Later H.in_faults H.out_faults H.opened H.created host.old host.new }
    ensures files { KeepsFiles (H.files host.old) (H.files host.new) }
    ensures own { AreOpen H.opened ⟦<Begun<H::Src> as Source>⟧.name host.new (names_of I.name_text inputs.now) srcs.new.items }
    ensures unfailed { AreUnfailed ⟦<Begun<H::Src> as Source>⟧.faults srcs.new.items (sound_inputs result (length inputs.now)) }
    ensures counts { KeepsCounts (H.in_faults host.old) (H.in_faults host.new) (names_of I.name_text inputs.now) (sound_inputs result (length inputs.now)) }
    ensures outs { SameCounts (H.out_faults host.old) (H.out_faults host.new) }
    ensures open_sources { H.open_sources host.new ≡ H.open_sources host.old + vec_len srcs.new }
    ensures open_sinks { H.open_sinks host.new ≡ H.open_sinks host.old }
    ensures sound { All I.is_sound heads.new.items }
    ensures all { OnOk result (length heads.new.items ≡ length inputs.now) }
    ensures begun { OnOk result (AreBegun I.name_text I.head ⟦<Begun<H::Src> as Source>⟧.left (H.files host.old) inputs.now srcs.new.items heads.new.items) }
    ensures refused { IfErr result (λ r. EndsInputs I.name_text I.head ⟦<Begun<H::Src> as Source>⟧.faults (H.files host.old)
        (H.in_faults host.old) (H.in_faults host.new) (names_of I.name_text inputs.now) inputs.now srcs.new.items r.input r.end) }
{
    for k in 0..inputs.len() {
        let input = k as u32;
        match open_input(alloc, host, &inputs[k]) {
            Err(end) => return Err(InputRefusal { input, end }),
            Ok(Opened { src, head }) => {
                srcs.push_reserved(src);
                match head {
                    Ok(head) => heads.push_reserved(head),
                    Err(end) => return Err(InputRefusal { input, end }),
                }
            }
        }
    }
    Ok(())
}
