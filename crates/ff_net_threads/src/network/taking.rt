//! The link ends of one node, taken out of the tables.
ghost use Rattle.std.specs.Prelude.{◌≡◌, ◌<◌, ◌≤◌, ℕ, [], length, slice_index_or, vec_capacity, Option, Some};
ghost use Rattle.ff_net.specs.laws.Nodes.{AreApart};
ghost use Rattle.ff_net.specs.Pasts.{IsIn};
ghost use Rattle.ff_net_threads.specs.laws.network.Nodes.{AreNewIns, AreNewOuts};
ghost use Rattle.ff_net_threads.specs.laws.network.Tables.{NewLinks, HasNewSender, HasNewReceiver, HaveNewSenders, HaveNewReceivers};

use crate::links::{InEnd, OutEnd};
use ff_link::{Receiver, Sender};

// The end at a place of a table, which has none there afterwards.
fn take_end<T: Drop>(table: &mut Vec<Option<T>>, number: usize) -> T
    requires { (end : _) × (number < length table.old.items) × ((d : Option _) → slice_index_or table.old.items number d ≡ Some end) }
    ensures taken { (d : Option _) → slice_index_or table.old.items number d ≡ Some result }
    ensures kept { (w : ℕ) (d : Option _) → (w ≡ number → ⊥) → slice_index_or table.new.items w d ≡ slice_index_or table.old.items w d }
    ensures as_many { length table.new.items ≡ length table.old.items }
{
    let slot = &mut table[number];
    match slot.take() {
        Some(end) => end,
        None => unreachable!(),
    }
}

/// Takes the receivers of these numbers out of the table, each as an end at the wire of its number.
pub fn take_ins(
    receivers: &mut Vec<Option<Receiver>>,
    wires: &[usize],
    mut ends: Vec<InEnd>,
) -> Vec<InEnd>
    requires there { (new : NewLinks) × HaveNewReceivers new receivers.old.items wires.now }
    requires apart { AreApart wires.now }
    requires room { (ends.items ≡ []) × (length wires.now ≤ vec_capacity ends) }
    ensures ends { (new : NewLinks) → HaveNewReceivers new receivers.old.items wires.now → AreNewIns new wires.now result.items }
    ensures kept { (new : NewLinks) (w : ℕ) → (IsIn w wires.now → ⊥) → HasNewReceiver new receivers.old.items w → HasNewReceiver new receivers.new.items w }
{
    for k in 0..wires.len() {
        let wire = wires[k];
        ends.push_reserved(InEnd::new(wire, take_end(receivers, wire)));
    }
    ends
}

/// Takes the senders of these numbers out of the table, each as an end at the wire of its number.
pub fn take_outs(
    senders: &mut Vec<Option<Sender>>,
    wires: &[usize],
    mut ends: Vec<OutEnd>,
) -> Vec<OutEnd>
    requires there { (new : NewLinks) × HaveNewSenders new senders.old.items wires.now }
    requires apart { AreApart wires.now }
    requires room { (ends.items ≡ []) × (length wires.now ≤ vec_capacity ends) }
    ensures ends { (new : NewLinks) → HaveNewSenders new senders.old.items wires.now → AreNewOuts new wires.now result.items }
    ensures kept { (new : NewLinks) (w : ℕ) → (IsIn w wires.now → ⊥) → HasNewSender new senders.old.items w → HasNewSender new senders.new.items w }
{
    for k in 0..wires.len() {
        let wire = wires[k];
        ends.push_reserved(OutEnd::new(wire, take_end(senders, wire)));
    }
    ends
}
