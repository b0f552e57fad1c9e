//! The links of nodes that have ended, settled.
ghost use Rattle.std.specs.Prelude.{◌≡◌, ◌<◌, ◌≤◌, ℕ, List, [], length, slice_index_or, vec_len, vec_capacity, None, Some};
ghost use Rattle.ff_stream.specs.declared.item.Lane.{Lane};
ghost use Rattle.ff_net.specs.Nets.{IsUpward};
ghost use Rattle.ff_net.specs.Pasts.{Task, IsIn};
ghost use Rattle.ff_net.specs.laws.Serial.{Moment, parts_of};
ghost use Rattle.ff_net.specs.laws.Theorem.{AllFare, MeetsSolution};
ghost use Rattle.ff_net.specs.declared.node.Node.{Node};
ghost use Rattle.ff_net.specs.laws.Worlds.{Wire};
ghost use Rattle.ff_net.specs.laws.Nodes.{AreApart, machine_of};
ghost use Rattle.ff_net_threads.specs.laws.links.Nodes.{in_ends_wires, out_ends_wires, node_of};
ghost use Rattle.ff_link.specs.laws.Views.{Link};
ghost use Rattle.ff_net_threads.specs.declared.links.ends.OutEnd.{OutEnd};
ghost use Rattle.ff_net_threads.specs.laws.links.Ends.{in_link, out_link, in_end_at};
ghost use Rattle.ff_net_threads.specs.laws.links.Rooms.{IsUnused, links_of, most_nodes};
ghost use Rattle.ff_net_threads.specs.laws.links.Settling.{HasSender, ComeAfter, IsTable, IsSettled, IsSenderIn, AreLinked, AllEnded, AllSettled};
ghost use Rattle.ff_net_threads.specs.laws.links.Settling.{AllBehind, AreFaultsOf, AreMeeting, ends_of, nodes_of, passes_in};

use crate::links::ends::{InEnd, OutEnd};
use crate::links::linked::Linked;
use crate::links::room::{Lists, Room};
use ff_link::{Sender, Settled, settle};
use ff_net::{Fault, Machine};
use ff_sched::Pass;

// Settles the link of an end that has finished, where its sender is in the table.
fn settle_end(table: &mut Vec<Option<Sender>>, settled: &mut Vec<Settled>, end: InEnd)
    requires places { length settled.old.items ≡ length table.old.items }
    requires shut { end.taking ≡ None }
    requires linked { (all : List (List OutEnd)) × (links : ℕ → Link) × IsTable all links table.old.items × (in_link end ≡ Some (links end.wire)) }
    ensures table { (all : List (List OutEnd)) (links : ℕ → Link) → IsTable all links table.old.items → IsTable all links table.new.items }
    ensures settled { HasSender table.old.items end.wire → (all : List (List OutEnd)) (links : ℕ → Link) → IsTable all links table.old.items → IsSettled all settled.new.items end }
    ensures others { (w : ℕ) (d : _) → (w ≡ end.wire → ⊥) → slice_index_or settled.new.items w d ≡ slice_index_or settled.old.items w d }
    ensures count { length table.new.items ≡ length table.old.items }
    ensures places { length settled.new.items ≡ length settled.old.items }
    ensures kept { (w : ℕ) → (w ≡ end.wire → ⊥) → HasSender table.old.items w → HasSender table.new.items w }
{
    let InEnd { wire, finished, .. } = end;
    if wire >= table.len() {
        return;
    }
    let slot = &mut table[wire];
    let Some(sender) = slot.take() else {
        return;
    };
    let Some(finished) = finished else {
        return;
    };
    settled[wire] = settle(sender, finished);
}

// Settles the links of these ends.
fn settle_ends(table: &mut Vec<Option<Sender>>, settled: &mut Vec<Settled>, ends: Vec<InEnd>)
    requires places { length settled.old.items ≡ length table.old.items }
    requires shut { (p : ℕ) → p < length ends.items → (in_end_at ends.items p).taking ≡ None }
    requires linked { (all : List (List OutEnd)) × (links : ℕ → Link) × IsTable all links table.old.items × ((p : ℕ) → p < length ends.items → in_link (in_end_at ends.items p) ≡ Some (links (in_end_at ends.items p).wire)) }
    ensures table { (all : List (List OutEnd)) (links : ℕ → Link) → IsTable all links table.old.items → IsTable all links table.new.items }
    ensures settled { AreApart (in_ends_wires ends.items) → ((w : ℕ) → IsIn w (in_ends_wires ends.items) → HasSender table.old.items w) → (all : List (List OutEnd)) (links : ℕ → Link) → IsTable all links table.old.items → (p : ℕ) → p < length ends.items
        → IsSettled all settled.new.items (in_end_at ends.items p) }
    ensures others { (w : ℕ) (d : _) → (IsIn w (in_ends_wires ends.items) → ⊥) → slice_index_or settled.new.items w d ≡ slice_index_or settled.old.items w d }
    ensures count { length table.new.items ≡ length table.old.items }
    ensures places { length settled.new.items ≡ length settled.old.items }
    ensures kept { (w : ℕ) → (IsIn w (in_ends_wires ends.items) → ⊥) → HasSender table.old.items w → HasSender table.new.items w }
{
    let mut next: usize = 0;
    for end in ends {
        settle_end(table, settled, end);
        next += 1;
    }
}

// Puts a sender into the table, where there is a place of its number.
fn store_end(table: &mut Vec<Option<Sender>>, end: OutEnd)
    ensures table { (all : List (List OutEnd)) (links : ℕ → Link) → IsTable all links table.old.items → IsSenderIn all end.wire end.sender → out_link end ≡ Some (links end.wire) → IsTable all links table.new.items }
    ensures count { length table.new.items ≡ length table.old.items }
    ensures kept { (w : ℕ) → HasSender table.old.items w → HasSender table.new.items w }
    ensures stored { end.wire < length table.old.items → HasSender table.new.items end.wire }
{
    let OutEnd { wire, sender, .. } = end;
    if wire >= table.len() {
        return;
    }
    let slot = &mut table[wire];
    *slot = Some(sender);
}

// Puts the senders of these ends into the table.
fn store_ends(table: &mut Vec<Option<Sender>>, ends: Vec<OutEnd>)
    ensures table { (all : List (List OutEnd)) (links : ℕ → Link) → IsTable all links table.old.items → ((q : ℕ) (d : OutEnd) → q < length ends.items → IsSenderIn all (slice_index_or ends.items q d).wire (slice_index_or ends.items q d).sender × (out_link (slice_index_or ends.items q d) ≡ Some (links (slice_index_or ends.items q d).wire))) → IsTable all links table.new.items }
    ensures count { length table.new.items ≡ length table.old.items }
    ensures kept { (w : ℕ) → HasSender table.old.items w → HasSender table.new.items w }
    ensures stored { (w : ℕ) → w < length table.old.items → IsIn w (out_ends_wires ends.items) → HasSender table.new.items w }
{
    let mut next: usize = 0;
    for end in ends {
        store_end(table, end);
        next += 1;
    }
}

// The faults of nodes, by their numbers, in a list with room.
fn note_faults<M: Machine>(
    nodes: &[Linked<M>],
    mut faults: Vec<Option<Fault>>,
) -> Vec<Option<Fault>>
    requires { (faults.items ≡ []) × (length nodes.now ≤ vec_capacity faults) }
    ensures { AreFaultsOf M.view (nodes_of nodes.now) result.items }
{
    for k in 0..nodes.len() {
        faults.push_reserved(nodes[k].fault());
    }
    faults
}

// Settles all links with this table, which has no sender yet.
fn settle_in<M: Machine + Drop>(
    mut table: Vec<Option<Sender>>,
    mut settled: Vec<Settled>,
    nodes: Vec<Linked<M>>,
    mut machines: Vec<M>,
    mut passes: Vec<Pass>,
) -> (Vec<M>, Vec<Pass>, Vec<Settled>)
    requires places { length settled.items ≡ length table.items }
    requires ended { AllEnded nodes.items }
    requires linked { (links : ℕ → Link) × AreLinked links nodes.items }
    requires table { (links : ℕ → Link) → IsTable (ends_of nodes.items) links table.items }
    requires room { (machines.items ≡ []) × (vec_len nodes ≤ vec_capacity machines) }
    requires passes { (passes.items ≡ []) × (vec_len nodes ≤ vec_capacity passes) }
    ensures count { length result.0.items ≡ length nodes.items }
    ensures machines { (k : ℕ) (d : _) (e : _) → k < length nodes.items → slice_index_or result.0.items k e ≡ machine_of (node_of (slice_index_or nodes.items k d)) }
    ensures passes { result.1.items ≡ passes_in nodes.items }
    ensures room { vec_capacity passes ≤ vec_capacity result.1 }
    ensures settled { ComeAfter (length table.items) nodes.items → AllSettled result.2.items nodes.items }
{
    for linked in nodes {
        let (node, ins, outs) = linked.into_parts();
        settle_ends(&mut table, &mut settled, ins);
        store_ends(&mut table, outs);
        let (machine, pass) = node.into_parts();
        machines.push_reserved(machine);
        passes.push_reserved(pass);
    }
    (machines, passes, settled)
}

/// What became of nodes and of the links between them.
#[derive(Drop)]
pub struct Ran<M> {
    /// Their machines, in the order of the nodes.
    pub machines: Vec<M>,
    /// Their passes, in this order.
    pub passes: Vec<Pass>,
    /// What went wrong at each.
    pub faults: Vec<Option<Fault>>,
    /// What went over each link, by its number.
    pub settled: Vec<Settled>,
}

/// Settles the links of nodes that have ended, in a room for at least so many nodes. It gives their machines, their
/// passes and their faults in the order of the nodes. It asks for no memory, and in the list of passes there is still
/// room for as many as the room is for.
///
/// No link may lead from two nodes or to two, and each that leads to a node has to leave an earlier one. Then what
/// was taken from a link is a prefix of what was sent over it, and the rest is at most its size. So the nodes meet
/// the solution of the network (`solved`), as those of which they came.
pub fn settle_all<M: Machine + Drop>(nodes: Vec<Linked<M>>, room: Room<M>) -> Ran<M>
    requires ended { AllEnded nodes.items }
    requires linked { (links : ℕ → Link) × AreLinked links nodes.items }
    requires unused { IsUnused room }
    requires fits { length nodes.items ≤ most_nodes room }
    ensures count { length result.machines.items ≡ length nodes.items }
    ensures machines { (k : ℕ) (d : _) (e : _) → k < length nodes.items → slice_index_or result.machines.items k e ≡ machine_of (node_of (slice_index_or nodes.items k d)) }
    ensures passes { result.passes.items ≡ passes_in nodes.items }
    ensures room { most_nodes room ≤ vec_capacity result.passes }
    ensures faults { AreFaultsOf M.view (nodes_of nodes.items) result.faults.items }
    ensures settled { ComeAfter (links_of room) nodes.items → AllSettled result.settled.items nodes.items }
    ensures solved { (tasks : ℕ → Task) (lanes : List Lane) (begun : List (Node _)) → AllBehind M.view tasks nodes.items → AreMeeting lanes nodes.items → length lanes ≤ links_of room → IsUpward [] (parts_of M.view tasks (nodes_of nodes.items)) → AllFare M.view begun (nodes_of nodes.items)
        → (world : ℕ → Wire) × Moment M.view tasks (nodes_of nodes.items) lanes world × MeetsSolution M.view tasks begun (nodes_of nodes.items) world }
{
    let Lists {
        table,
        settled,
        machines,
        passes,
        faults,
    } = room.into_lists();
    let faults = note_faults(&nodes, faults);
    let (machines, passes, settled) = settle_in(table, settled, nodes, machines, passes);
    Ran {
        machines,
        passes,
        faults,
        settled,
    }
}
