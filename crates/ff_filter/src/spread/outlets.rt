//! The outputs of a filter, by number.
ghost use Rattle.std.specs.Prelude.{◌≡◌, ◌≢◌, ◌<◌, ◌≤◌, ℕ, length, IfOk, IfErr, OnOk, OnErr, Some, None, true, false};
ghost use Rattle.ff_stream.specs.declared.item.Item.{Item as AnItem};
ghost use Rattle.ff_filter.specs.Views.{closes};
ghost use Rattle.ff_filter.specs.laws.spread.Lines.{lines, fresh, all_done as each_done, IsFront, IsPut, Took, HasAll};

use crate::spread::share::Share;
use crate::{After, Outlet};
use ff_stream::{Item, Refused, discard};
use std::alloc::{AllocError, Global};

/// So many outputs on which nothing waits.
pub fn fresh_outlets(alloc: Global, count: usize) -> Result<Vec<Outlet>, AllocError>
    ensures count { IfOk result (λ outlets. length outlets.items ≡ count) }
    ensures fresh { IfOk result (λ outlets. (q : ℕ) → lines outlets.items q ≡ fresh) }
{
    let mut outlets = Vec::with_capacity(alloc, count)?;
    'made: for i in 0..count {
        outlets.push_reserved(Outlet::new(alloc));
    }
    Ok(outlets)
}

/// Whether an output isn't wanted any more.
pub fn is_stopped(outlets: &Vec<Outlet>, port: usize) -> bool
    requires { port < length outlets.now.items }
    ensures { result ≡ (lines outlets.now.items port).stopped }
{
    outlets[port].stopped
}

/// The next item of an output, or its closing one where nothing waits and the stream stands so.
pub fn take_from(outlets: &mut Vec<Outlet>, port: usize, after: After) -> Option<Item>
    requires { port < length outlets.old.items }
    ensures count { length outlets.new.items ≡ length outlets.old.items }
    ensures others { (q : ℕ) → q ≢ port → lines outlets.new.items q ≡ lines outlets.old.items q }
    ensures gives { (x : AnItem) → result ≡ Some x → Took (lines outlets.old.items port) (lines outlets.new.items port) after x }
    ensures waits { result ≡ None → HasAll (lines outlets.old.items port) (lines outlets.new.items port) after }
    ensures stopped { (lines outlets.new.items port).stopped ≡ (lines outlets.old.items port).stopped }
{
    outlets[port].take(after)
}

/// An output isn't wanted any more.
pub fn stop_one(outlets: &mut Vec<Outlet>, port: usize)
    requires { port < length outlets.old.items }
    ensures count { length outlets.new.items ≡ length outlets.old.items }
    ensures others { (q : ℕ) → q ≢ port → lines outlets.new.items q ≡ lines outlets.old.items q }
    ensures stopped { (lines outlets.new.items port).stopped ≡ true }
    ensures ended { (lines outlets.new.items port).ended ≡ (lines outlets.old.items port).ended }
{
    outlets[port].stop()
}

/// Whether nothing more is to be put on any output.
pub fn all_done(outlets: &Vec<Outlet>) -> bool
    ensures { result ≡ each_done outlets.now.items }
{
    'done: for port in 0..outlets.len() {
        if !outlets[port].is_done() {
            return false;
        }
    }
    true
}

// Whether an output from this one on is wanted.
fn is_wanted(outlets: &Vec<Outlet>, from: usize) -> bool
    ensures { result ≡ false → (q : ℕ) → from ≤ q → q < length outlets.now.items → (lines outlets.now.items q).stopped ≡ true }
{
    'stopped: for port in from..outlets.len() {
        if !outlets[port].stopped {
            return true;
        }
    }
    false
}

/// Puts on each output from this one on what it gets of an item, where it is wanted. For want of memory it puts
/// nothing, and the item comes back.
pub fn spread<S: Share>(
    share: &S,
    outlets: &mut Vec<Outlet>,
    port: usize,
    item: Item,
) -> Result<(), Refused>
    requires goes_on { closes item ≡ false }
    ensures count { length outlets.new.items ≡ length outlets.old.items }
    ensures front { IsFront port outlets.old.items outlets.new.items }
    ensures put { OnOk result ((q : ℕ) → port ≤ q → q < length outlets.old.items
        → IsPut (lines outlets.old.items q) (lines outlets.new.items q) (S.shared share.now q item)) }
    ensures refused { IfErr result (λ r. r.item ≡ item) }
    ensures unchanged { OnErr result ((q : ℕ) → lines outlets.new.items q ≡ lines outlets.old.items q) }
{
    if port >= outlets.len() {
        discard(item);
        return Ok(());
    }
    if outlets[port].stopped {
        return spread(share, outlets, port + 1, item);
    }
    if outlets[port].reserve().is_err() {
        return Err(Refused { item });
    }
    if !is_wanted(outlets, port + 1) {
        let item = share.turn(port, item);
        outlets[port].put(item);
        return Ok(());
    }
    match share.copy(port, &item) {
        Err(_) => Err(Refused { item }),
        Ok(copy) => match spread(share, outlets, port + 1, item) {
            Err(refused) => Err(refused),
            Ok(()) => {
                outlets[port].put(copy);
                Ok(())
            }
        },
    }
}
