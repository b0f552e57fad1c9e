//! Frames moved out of the inputs while they are shown, so that none is copied.
ghost use Rattle.std.specs.Prelude.{◌≡◌, ◌≤◌, length, IfOk, OnErr};
ghost use Rattle.ff_stream.specs.declared.item.Lane.{Lane};
ghost use Rattle.ff_fsync.specs.laws.Inputs.{all_back};
ghost use Rattle.ff_fsync.specs.Sides.{Sound};
ghost use Rattle.ff_fsync.specs.laws.Syncs.{sides_of, AreBegun};

use crate::input::Input;
use ff_frame::VFrame;
use std::alloc::{AllocError, Global};

/// Moves the first frame of each input out. For want of memory each stays where it is.
pub fn lend(inputs: &mut Vec<Input>, alloc: Global) -> Result<Vec<VFrame>, AllocError>
    requires begun { AreBegun (sides_of inputs.old.items) }
    ensures each { IfOk result (λ fs. length fs.items ≡ length inputs.old.items) }
    ensures lent { IfOk result (λ fs. all_back fs.items (sides_of inputs.new.items) ≡ sides_of inputs.old.items) }
    ensures err { OnErr result (inputs.new ≡ inputs.old) }
{
    let mut pictures = Vec::with_capacity(alloc, inputs.len())?;
    'inputs: for p in 0..inputs.len() {
        let picture = inputs[p].lend(alloc);
        pictures.push_reserved(picture);
    }
    Ok(pictures)
}

/// Puts frames that were moved out back to the start of their inputs.
pub fn restore(inputs: &mut Vec<Input>, mut pictures: Vec<VFrame>)
    requires no_more { length pictures.items ≤ length inputs.old.items }
    requires sound { (lane : Lane) → Sound lane (all_back pictures.items (sides_of inputs.old.items)) }
    ensures { sides_of inputs.new.items ≡ all_back pictures.items (sides_of inputs.old.items) }
{
    'pictures: while let Some(picture) = pictures.pop() {
        inputs[pictures.len()].take_back(picture);
    }
}
