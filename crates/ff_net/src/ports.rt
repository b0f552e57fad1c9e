//! The ports of a node.
ghost use Rattle.std.specs.Prelude.{◌≡◌, ◌<◌, ◌↔◌, length, slice_set, true, false, None, Some, is_some, map, IfOk, IsTrue};
ghost use Rattle.ff_net.specs.laws.Ports.{in_at, out_at, AreDone};

use ff_stream::Item;
use std::alloc::{AllocError, Global};

/// An input of a node: its wire, and whether the node has finished it.
#[derive(Drop)]
pub struct InPort {
    /// The number of its wire.
    pub wire: usize,
    /// Whether the node has finished it.
    pub done: bool,
}

/// An output of a node: its wire, the item that the machine gave and the wire hasn't yet, and whether nothing more
/// goes there.
#[derive(Drop)]
pub struct OutPort {
    /// The number of its wire.
    pub wire: usize,
    /// The item that found no room on the wire yet.
    pub held: Option<Item>,
    /// Whether nothing more goes there.
    pub done: bool,
}

/// An input on each of these wires, none of them finished.
pub fn in_ports(alloc: Global, wires: &[usize]) -> Result<Vec<InPort>, AllocError>
    ensures { IfOk result (λ ports. ports.items ≡ map (λ w. record { wire = w; done = false }) wires.now) }
{
    wires
        .iter()
        .map(|w| InPort {
            wire: *w,
            done: false,
        })
        .collect(alloc)
}

/// An output on each of these wires, none of them closed and none holding an item.
pub fn out_ports(alloc: Global, wires: &[usize]) -> Result<Vec<OutPort>, AllocError>
    ensures { IfOk result (λ ports. ports.items ≡ map (λ w. record { wire = w; held = None; done = false }) wires.now) }
{
    wires
        .iter()
        .map(|w| OutPort {
            wire: *w,
            held: None,
            done: false,
        })
        .collect(alloc)
}

/// The wire of an input.
pub fn in_wire(ports: &Vec<InPort>, p: usize) -> usize
    requires { p < length ports.now.items }
    ensures { result ≡ (in_at ports.now.items p).wire }
{
    ports[p].wire
}

/// Whether an input was finished.
pub fn in_done(ports: &Vec<InPort>, p: usize) -> bool
    requires { p < length ports.now.items }
    ensures { result ≡ (in_at ports.now.items p).done }
{
    ports[p].done
}

/// The wire of an output.
pub fn out_wire(ports: &Vec<OutPort>, p: usize) -> usize
    requires { p < length ports.now.items }
    ensures { result ≡ (out_at ports.now.items p).wire }
{
    ports[p].wire
}

/// Whether nothing more goes on an output.
pub fn out_done(ports: &Vec<OutPort>, p: usize) -> bool
    requires { p < length ports.now.items }
    ensures { result ≡ (out_at ports.now.items p).done }
{
    ports[p].done
}

/// Whether an output holds an item.
pub fn holds_item(ports: &Vec<OutPort>, p: usize) -> bool
    requires { p < length ports.now.items }
    ensures { result ≡ is_some (out_at ports.now.items p).held }
{
    ports[p].held.is_some()
}

/// Marks an input as finished.
pub fn finish_in(ports: &mut Vec<InPort>, p: usize)
    requires { p < length ports.old.items }
    ensures { ports.new.items ≡ slice_set ports.old.items p (record (in_at ports.old.items p) { done = true }) }
{
    let port = &mut ports[p];
    port.done = true;
}

/// Marks an output as one where nothing more goes, or as one that goes on.
pub fn close_out(ports: &mut Vec<OutPort>, p: usize, done: bool)
    requires { p < length ports.old.items }
    ensures { ports.new.items ≡ slice_set ports.old.items p (record (out_at ports.old.items p) { done = done }) }
{
    let port = &mut ports[p];
    port.done = done;
}

/// Lets an output hold this item.
pub fn hold(ports: &mut Vec<OutPort>, p: usize, item: Item)
    requires { p < length ports.old.items }
    ensures { ports.new.items ≡ slice_set ports.old.items p (record (out_at ports.old.items p) { held = Some item }) }
{
    let port = &mut ports[p];
    port.held = Some(item);
}

/// The item that an output holds, taken out of it.
pub fn take_held(ports: &mut Vec<OutPort>, p: usize) -> Option<Item>
    requires { p < length ports.old.items }
    ensures held { result ≡ (out_at ports.old.items p).held }
    ensures rest { ports.new.items ≡ slice_set ports.old.items p (record (out_at ports.old.items p) { held = None }) }
{
    let port = &mut ports[p];
    port.held.take()
}

/// Whether nothing more goes on any output.
pub fn all_out_done(ports: &Vec<OutPort>) -> bool
    ensures { IsTrue result ↔ AreDone ports.now.items }
{
    for port in ports {
        if !port.done {
            return false;
        }
    }
    true
}
