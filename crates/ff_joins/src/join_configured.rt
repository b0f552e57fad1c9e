//! The configuration of `join` by its arguments and the heads of its inputs.
ghost use Rattle.std.specs.Prelude.{◌≡◌, ◌<◌, ◌∷◌, [], length, IfOk, IfErr};
ghost use Rattle.ff_frame.specs.declared.config.ConfigError.TheVariants.{NoMemory};
ghost use Rattle.ff_filter.specs.Options.{IsMade, IsRefused};
ghost use Rattle.ff_joins.specs.JoinOptions.{IsJoin};
ghost use Rattle.ff_joins.specs.JoinView.{join_view, head_itself, AreEmpty};

use crate::join::Join;
use crate::join_options::join_head;
use crate::sound_inlet::SoundInlet;
use ff_filter::{After, Filter};
use ff_frame::{ConfigError, StreamHead};
use ff_lang::Arg;
use std::alloc::{AllocError, Global};

// Inputs of these heads to which nothing came.
fn inlets_of(alloc: Global, heads: &[StreamHead]) -> Result<Vec<SoundInlet>, AllocError>
    ensures { IfOk result (λ is. AreEmpty heads.now is.items) }
{
    let mut inlets = Vec::with_capacity(alloc, heads.len())?;
    'inlets: for p in 0..heads.len() {
        inlets.push_reserved(SoundInlet::new(alloc, heads[p]));
    }
    Ok(inlets)
}

// The machine of these inputs, to which nothing came.
fn machine_of(
    head: &StreamHead,
    alloc: Global,
    inlets: Vec<SoundInlet>,
    heads: &[StreamHead],
) -> Join
    requires some { 0 < length heads.now }
    requires new { AreEmpty heads.now inlets.items }
    ensures { ⟦<Join as Filter>⟧.view result ≡ join_view heads.now head.now }
{
    Join {
        head: *head,
        alloc,
        inlets,
        first: None,
        given: 0,
        ended: false,
        stopped: false,
        after: After::More,
    }
}

// The machine of inputs of these heads, and the head of its output. `NoMemory` where there was none.
fn join_of(
    alloc: Global,
    head: &StreamHead,
    heads: &[StreamHead],
) -> Result<(Join, Vec<StreamHead>), ConfigError>
    requires { 0 < length heads.now }
    ensures view { IfOk result (λ r. ⟦<Join as Filter>⟧.view r.0 ≡ join_view heads.now head.now) }
    ensures heads { IfOk result (λ r. r.1.items ≡ head.now ∷ []) }
    ensures err { IfErr result (λ e. e ≡ NoMemory) }
{
    match inlets_of(alloc, heads) {
        Err(_) => Err(ConfigError::NoMemory),
        Ok(inlets) => {
            let machine = machine_of(head, alloc, inlets, heads);
            let mut outputs = Vec::new(alloc);
            match outputs.push(*head) {
                Ok(()) => Ok((machine, outputs)),
                Err(_) => Err(ConfigError::NoMemory),
            }
        }
    }
}

impl Join {
    /// The filter by its arguments and the heads of its inputs, and the head of its output. That is the head of the
    /// first input, with the channels of all. The option `inputs` is 2 to 8, and 2 where it isn't given. It refuses
    /// in this order: `Pads`, `Kind`, `UnknownOption` and `BadOption` by argument, `Mismatch` where rates or bits
    /// differ, `BadSize` above 8 channels in all.
    pub fn configure(
        alloc: Global,
        args: &[Arg],
        heads: &[StreamHead],
    ) -> Result<(Join, Vec<StreamHead>), ConfigError>
        ensures made { IfOk result (λ r. IsMade (IsJoin args.now heads.now) (join_view heads.now) head_itself
            (⟦<Join as Filter>⟧.view r.0) r.1.items) }
        ensures refused { IfErr result (IsRefused (IsJoin args.now heads.now)) }
    {
        match join_head(args, heads) {
            Err(error) => Err(error),
            Ok(head) => join_of(alloc, &head, heads),
        }
    }
}
