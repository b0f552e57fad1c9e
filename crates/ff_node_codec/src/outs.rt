//! All outputs of a machine.
ghost use Rattle.std.specs.Prelude.{◌≡◌, ◌<◌, ◌≤◌, ℕ, length, true, Some, None, OnOk, OnErr, IfErr, IfOk};
ghost use Rattle.ff_stream.specs.declared.item.Item.{Item};
ghost use Rattle.ff_node_codec.specs.laws.Lines.{line_at, next_at, HaveRoom, AreSame};
ghost use Rattle.ff_node_codec.specs.laws.Puts.{IsLast, AreNext, ArePut};
ghost use Rattle.ff_node_codec.specs.Spreads.{AllStopped};

use crate::ready::Ready;
use ff_filter::After;
use ff_stream::{Item, discard};
use std::alloc::{AllocError, Global};

/// Makes room for an item more on each, and for one that closes it.
pub fn reserve_all(outs: &mut Vec<Ready>) -> Result<(), AllocError>
    ensures same { AreSame outs.old.items outs.new.items }
    ensures room { OnOk result (HaveRoom outs.new.items) }
{
    for q in 0..outs.len() {
        let out = &mut outs[q];
        out.reserve()?;
    }
    Ok(())
}

/// The last output that is wanted, if any is.
pub fn last_wanted(outs: &Vec<Ready>) -> Option<usize>
    ensures none { result ≡ None → AllStopped (length outs.now.items) (line_at outs.now.items) }
    ensures last { (last : ℕ) → result ≡ Some last → IsLast outs.now.items last }
{
    let mut last = None;
    for q in 0..outs.len() {
        let out = &outs[q];
        if !out.stopped {
            last = Some(q);
        }
    }
    last
}

// An equal item is to be put next on each output below this one.
fn copy_below(
    alloc: Global,
    outs: &mut Vec<Ready>,
    end: usize,
    made: &Item,
) -> Result<(), AllocError>
    requires end { end ≤ length outs.old.items }
    requires room { HaveRoom outs.old.items }
    ensures same { AreSame outs.old.items outs.new.items }
    ensures room { HaveRoom outs.new.items }
    ensures next { OnOk result (AreNext made.now end outs.new.items) }
    ensures some { OnErr result (1 ≤ end) }
{
    for q in 0..end {
        let out = &mut outs[q];
        out.copy_next(alloc, made)?;
    }
    Ok(())
}

// The item is to be put next on each output: equal ones on all that are wanted but the last, and itself on that.
fn set_all(alloc: Global, outs: &mut Vec<Ready>, made: Item) -> Result<(), AllocError>
    requires { HaveRoom outs.old.items }
    ensures same { AreSame outs.old.items outs.new.items }
    ensures room { HaveRoom outs.new.items }
    ensures next { OnOk result (AreNext made (length outs.old.items) outs.new.items) }
    ensures shared { OnErr result (2 ≤ length outs.old.items) }
{
    match last_wanted(outs) {
        None => {
            discard(made);
            Ok(())
        }
        Some(last) => {
            copy_below(alloc, outs, last, &made)?;
            let out = &mut outs[last];
            out.set_next(made);
            Ok(())
        }
    }
}

// Puts on each output what is to be put next, and after it what closes the output, if it is over.
fn put_all(outs: &mut Vec<Ready>, after: After)
    requires { HaveRoom outs.old.items }
    ensures puts { (made : Item) → AreNext made (length outs.old.items) outs.old.items → ArePut made after outs.old.items outs.new.items }
    ensures count { length outs.new.items ≡ length outs.old.items }
{
    for q in 0..outs.len() {
        let out = &mut outs[q];
        out.put_next(after);
    }
}

/// Puts an item on each output that is wanted, and after it what closes the output, if it is over. Without memory for the copies
/// nothing changes.
pub fn put_on_all(
    alloc: Global,
    outs: &mut Vec<Ready>,
    made: Item,
    after: After,
) -> Result<(), AllocError>
    requires { HaveRoom outs.old.items }
    ensures puts { OnOk result (ArePut made after outs.old.items outs.new.items) }
    ensures same { OnErr result (AreSame outs.old.items outs.new.items) }
    ensures shared { OnErr result (2 ≤ length outs.old.items) }
    ensures count { length outs.new.items ≡ length outs.old.items }
{
    set_all(alloc, outs, made)?;
    put_all(outs, after);
    Ok(())
}
