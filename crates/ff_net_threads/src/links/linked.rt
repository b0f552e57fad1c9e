//! A node with the ends of its links.
ghost use Rattle.std.specs.Prelude.{◌≡◌, ◌<◌, ◌≤◌, ◌+◌, ◌⊎◌, ℕ, length, slice_index_or, true, false, None, Some};
ghost use Rattle.ff_stream.specs.Ports.{IsClosed};
ghost use Rattle.ff_net_threads.specs.laws.links.Ends.{in_end_at, taken_of};
ghost use Rattle.ff_net_threads.specs.declared.links.ends.OutEnd.{OutEnd};
ghost use Rattle.ff_net_threads.specs.laws.links.Nodes.{Follows, IsLawful, HasEnded, Behind, IsBeginning, AreWired, IsWired, node_of, wires_on, lanes_on, ins_of, outs_of};
ghost use Rattle.ff_net_threads.specs.laws.links.Turns.{TakesOneAtMost, InMoves, InRests, CannotTake, Shuts, SendsOneAtMost, OutMoves, OutRests, CannotSend};
ghost use Rattle.ff_net_threads.specs.laws.links.Turns.{IsWaiting, HasMoved, HasDrawnNone, HasRested};
ghost use Rattle.ff_net.specs.declared.fault.Fault.{Fault};
ghost use Rattle.ff_net.specs.laws.Logs.{tickets_in};
ghost use Rattle.ff_net.specs.laws.Nodes.{IsOf, IsSound, IsDone, NodeStands, HasFinished, IsOver};
ghost use Rattle.ff_net.specs.laws.Nodes.{machine_of, pass_of, inputs_of, outputs_of, in_wire_of, out_wire_of};
ghost use Rattle.ff_net.specs.Pasts.{Past, Task};
ghost use Rattle.ff_net.specs.laws.Steps.{Stepped, Moves, Fills, IsDue};
ghost use Rattle.ff_net.specs.laws.Turns.{HasDue, IsIdle};
ghost use Rattle.ff_net.specs.laws.Worlds.{Wire, Stand, lanes_of, sizes_of};

use crate::links::bells::Bells;
use crate::links::ends::{InEnd, OutEnd, draw_at, pour_at, shut_at};
use ff_link::Sender;
use ff_net::{Fault, Machine, Node, Turn, Wires, turn_of};
use ff_sched::SchedCell;
use std::sync::Wait;

/// A node on wires of its own, and the ends of its links at these wires.
#[derive(Drop)]
pub struct Linked<M> {
    node: Node<M>,
    wires: Wires,
    ins: Vec<InEnd>,
    outs: Vec<OutEnd>,
}

fn shut_all(ins: &Vec<InEnd>) -> bool
    ensures shut { result ≡ true → (p : ℕ) → p < length ins.now.items → (in_end_at ins.now.items p).taking ≡ None }
    ensures exact { ((p : ℕ) → p < length ins.now.items → (in_end_at ins.now.items p).taking ≡ None) → result ≡ true }
{
    for end in ins {
        if end.taking.is_some() {
            return false;
        }
    }
    true
}

fn sent_all(outs: &Vec<OutEnd>) -> bool
    ensures sent { result ≡ true → (q : ℕ) (d : OutEnd) → q < length outs.now.items → (slice_index_or outs.now.items q d).done ≡ true }
    ensures exact { ((q : ℕ) (d : OutEnd) → q < length outs.now.items → (slice_index_or outs.now.items q d).done ≡ true) → result ≡ true }
{
    for end in outs {
        if !end.done {
            return false;
        }
    }
    true
}

// Whether an item lies between the node and a link.
fn waits(wires: &Wires, outs: &Vec<OutEnd>) -> bool
    requires { (q : ℕ) (d : OutEnd) → q < length outs.now.items → (slice_index_or outs.now.items q d).wire < length (lanes_of wires.now) }
    ensures none { result ≡ false → (q : ℕ) (d : OutEnd) → q < length outs.now.items → IsWaiting wires.now (slice_index_or outs.now.items q d) → ⊥ }
    ensures one { result ≡ true → (q : ℕ) × (q < length outs.now.items) × ((d : OutEnd) → IsWaiting wires.now (slice_index_or outs.now.items q d)) }
{
    for end in outs {
        if is_waiting(wires, end) {
            return true;
        }
    }
    false
}

fn is_waiting(wires: &Wires, end: &OutEnd) -> bool
    requires { end.now.wire < length (lanes_of wires.now) }
    ensures no { result ≡ false → IsWaiting wires.now end.now → ⊥ }
    ensures yes { result ≡ true → IsWaiting wires.now end.now }
{
    if end.done {
        return false;
    }
    if end.held.is_some() {
        return true;
    }
    !wires.is_empty(end.wire)
}

// Whether an end holds an item, for which its link had no room.
fn some_held(outs: &Vec<OutEnd>) -> bool {
    for end in outs {
        if !end.done && end.held.is_some() {
            return true;
        }
    }
    false
}

// How many items are taken from this link, which is full, once an eighth of what it holds is left.
fn taken_before_room(sender: &Sender) -> u64 {
    sender.puts().saturating_sub(sender.size() as u64 / 8)
}

// While its sender goes on, a receiver is woken for so many items, or for half of what the link holds where that is
// less. Waking it for each takes the sender's time as well.
const BATCH: u64 = 4;

// How many of the items that were put on this link count for its receiver, which asks to be woken for one. Once the sender rests,
// all do.
fn put_to_wake(sender: &Sender, rests: bool) -> u64 {
    if rests {
        return sender.puts();
    }
    let batch = BATCH.min(sender.size() as u64 / 2);
    sender.puts().saturating_sub(batch.saturating_sub(1))
}

// So many items are put on this link once there is one to take. 0 where nothing is taken any more.
fn put_before_item(end: &InEnd) -> u64 {
    match &end.taking {
        Some(receiver) => receiver.taken().saturating_add(1),
        None => 0,
    }
}

impl<M: Machine> Linked<M> {
    /// A node on new wires, with the ends of new links, one for each port, in the order of the ports.
    pub fn new(node: Node<M>, wires: Wires, ins: Vec<InEnd>, outs: Vec<OutEnd>) -> Linked<M>
        ensures node { node_of result ≡ node }
        ensures lanes { lanes_on result ≡ lanes_of wires }
        ensures sizes { sizes_of (wires_on result) ≡ sizes_of wires }
        ensures ins { ins_of result ≡ ins.items }
        ensures outs { outs_of result ≡ outs.items }
        ensures wired { AreWired M.view node wires ins.items outs.items → IsWired M.view result }
        ensures lawful { (task : Task) → IsBeginning M.view task node wires ins.items outs.items → Behind M.view task result }
    {
        Linked {
            node,
            wires,
            ins,
            outs,
        }
    }

    /// What went wrong here: the machine's fault, or that memory was refused.
    pub fn fault(&self) -> Option<Fault>
        ensures sound { result ≡ None → IsSound M.view (node_of self.now) }
        ensures none { IsSound M.view (node_of self.now) → result ≡ None }
        ensures machine { (c : Fault) → (M.view (machine_of (node_of self.now))).fault ≡ Some c → result ≡ Some c }
        ensures refused { (M.view (machine_of (node_of self.now))).fault ≡ None → (IsSound M.view (node_of self.now) → ⊥) → result ≡ Some Fault.NoMemory }
    {
        self.node.fault()
    }

    /// The machine.
    pub fn into_machine(self) -> M
        ensures { result ≡ machine_of (node_of self) }
    {
        let (machine, _pass) = self.node.into_parts();
        machine
    }

    /// The node and the ends of its links.
    pub(crate) fn into_parts(self) -> (Node<M>, Vec<InEnd>, Vec<OutEnd>)
        ensures node { result.0 ≡ node_of self }
        ensures ins { result.1.items ≡ ins_of self }
        ensures outs { result.2.items ≡ outs_of self }
    {
        (self.node, self.ins, self.outs)
    }

    /// Whether the node is done and has finished each link that it takes from. Each link that it sends over is
    /// closed, or told it that its receiver has finished.
    pub fn is_done(&self) -> bool
        ensures ended { result ≡ true → HasEnded self.now }
        ensures exact { HasEnded self.now → result ≡ true }
    {
        self.node.is_done() && shut_all(&self.ins) && sent_all(&self.outs)
    }

    /// Whether an output waits for room in its link.
    pub(crate) fn waits_for_room(&self) -> bool {
        some_held(&self.outs)
    }

    // Whether the node may take: no item lies between it and one of its links.
    fn may_take(&self) -> bool
        requires { IsLawful M.view self.now }
        ensures none { result ≡ true → (q : ℕ) (d : OutEnd) → q < length self.now.outs.items → IsWaiting self.now.wires (slice_index_or self.now.outs.items q d) → ⊥ }
        ensures one { result ≡ false → (q : ℕ) × (q < length self.now.outs.items) × ((d : OutEnd) → IsWaiting self.now.wires (slice_index_or self.now.outs.items q d)) }
    {
        !waits(&self.wires, &self.outs)
    }

    /// How many ends it has.
    pub(crate) fn ends(&self) -> usize {
        self.ins.len().saturating_add(self.outs.len())
    }

    /// Enters this worker at the links of its ends.
    pub(crate) fn enter(&self, bells: &mut Bells, worker: usize) {
        for end in &self.ins {
            bells.set_receiver(end.wire, worker);
        }
        for end in &self.outs {
            bells.set_sender(end.wire, worker);
        }
    }

    /// How many events its pass has added.
    pub(crate) fn logged(&self) -> u64 {
        self.node.logged()
    }

    /// Asks to be woken. Where an output waits for room, that is once an eighth of what a full link holds is left
    /// there. Else it is once there is an item to take or, at a source, the scheduler was told something.
    pub(crate) fn ask(&self, bells: &Bells, worker: usize) {
        if self.waits_for_room() {
            for end in &self.outs {
                if !end.done && end.held.is_some() {
                    bells.ask_for_room(end.wire, taken_before_room(&end.sender));
                }
            }
        } else {
            for end in &self.ins {
                bells.ask_for_item(end.wire, put_before_item(end));
            }
            if self.node.source().is_some() {
                bells.ask_for_grant(worker, true);
            }
        }
    }

    /// Asks no longer to be woken.
    pub(crate) fn stop_asking(&self, bells: &Bells, worker: usize) {
        for end in &self.outs {
            bells.ask_for_room(end.wire, 0);
        }
        for end in &self.ins {
            bells.ask_for_item(end.wire, 0);
        }
        bells.ask_for_grant(worker, false);
    }

    /// Wakes those at the other ends of its links who ask for what was taken and put. It wakes those who wait for a
    /// grant where its pass has added events since there were so many. Where the node doesn't rest now, receivers
    /// wait for more than one item.
    pub(crate) fn tell(&self, bells: &Bells, logged: u64, rests: bool) {
        for end in &self.ins {
            let count = match &end.taking {
                Some(receiver) => receiver.taken(),
                None => u64::MAX,
            };
            bells.taken(end.wire, count);
        }
        for end in &self.outs {
            bells.put(end.wire, put_to_wake(&end.sender, rests));
        }
        if self.logged() != logged {
            bells.told();
        }
    }

    // Draws at each end.
    fn draw_all<R: Wait>(&mut self, rt: &R) -> bool
        requires { IsLawful M.view self.old }
        ensures follows { Follows M.view self.old self.new }
        ensures node { self.new.node ≡ self.old.node }
        ensures outs { self.new.outs ≡ self.old.outs }
        ensures takes { (p : ℕ) → TakesOneAtMost (in_end_at self.old.ins.items p) (in_end_at self.new.ins.items p) }
        ensures moved { result ≡ true → (p : ℕ) × InMoves (in_end_at self.old.ins.items p) (in_end_at self.new.ins.items p) }
        ensures still { result ≡ false → ((p : ℕ) → InRests (in_end_at self.old.ins.items p) (in_end_at self.new.ins.items p)) × (self.new.wires ≡ self.old.wires) }
        ensures why { result ≡ false → (p : ℕ) → p < length self.old.ins.items → CannotTake self.old.wires (in_end_at self.old.ins.items p) (in_end_at self.new.ins.items p) }
    {
        let mut moved = false;
        let count = self.ins.len();
        for p in 0..count {
            let drew = draw_at(rt, &mut self.wires, &mut self.ins, p);
            moved = moved | drew;
        }
        moved
    }

    // Draws where no item waits or is due.
    fn draw_if_free<R: Wait>(&mut self, rt: &R, may_take: bool) -> bool
        requires { IsLawful M.view self.old }
        ensures follows { Follows M.view self.old self.new }
        ensures outs { self.new.outs ≡ self.old.outs }
        ensures pass { pass_of self.new.node ≡ pass_of self.old.node }
        ensures takes { (p : ℕ) → TakesOneAtMost (in_end_at self.old.ins.items p) (in_end_at self.new.ins.items p) }
        ensures moved { result ≡ true → (p : ℕ) × InMoves (in_end_at self.old.ins.items p) (in_end_at self.new.ins.items p) }
        ensures still { result ≡ false → ((p : ℕ) → InRests (in_end_at self.old.ins.items p) (in_end_at self.new.ins.items p)) × Stepped M.view (λ a p b q. Unit {0}) self.old.node self.old.wires self.new.node self.new.wires }
        ensures why { result ≡ false → may_take ≡ true → HasDrawnNone M.view self.old self.new }
        ensures held_back { may_take ≡ false → self.new.ins ≡ self.old.ins }
        ensures due { (world : ℕ → Wire) (past : Past) (q : ℕ) → Stand self.old.wires world → NodeStands M.view self.old.node world past → IsDue M.view self.old.node world past q → (p : ℕ) → taken_of (in_end_at self.new.ins.items p) ≡ taken_of (in_end_at self.old.ins.items p) }
    {
        if !may_take {
            return false;
        }
        if self.fill() {
            return false;
        }
        self.draw_all(rt)
    }

    // Lets the machine give what it has, and says whether an item is due.
    fn fill(&mut self) -> bool
        requires { IsLawful M.view self.old }
        ensures follows { Follows M.view self.old self.new }
        ensures ins { self.new.ins ≡ self.old.ins }
        ensures outs { self.new.outs ≡ self.old.outs }
        ensures wires { self.new.wires ≡ self.old.wires }
        ensures pass { pass_of self.new.node ≡ pass_of self.old.node }
        ensures stepped { Stepped M.view (Fills M.view result self.old.node) self.old.node self.old.wires self.new.node self.new.wires }
        ensures due { result ≡ true → HasDue M.view self.new.node }
    {
        self.node.is_due()
    }

    // Finishes the link of each end whose wire the node has finished.
    fn shut_ends<R: Wait>(&mut self, rt: &R) -> bool
        requires { IsLawful M.view self.old }
        ensures follows { Follows M.view self.old self.new }
        ensures node { self.new.node ≡ self.old.node }
        ensures outs { self.new.outs ≡ self.old.outs }
        ensures wires { self.new.wires ≡ self.old.wires }
        ensures shuts { (p : ℕ) → Shuts (in_end_at self.old.ins.items p) (in_end_at self.new.ins.items p) }
        ensures moved { result ≡ true → (p : ℕ) × InMoves (in_end_at self.old.ins.items p) (in_end_at self.new.ins.items p) }
        ensures still { result ≡ false → (p : ℕ) → in_end_at self.new.ins.items p ≡ in_end_at self.old.ins.items p }
        ensures shut { (world : ℕ → Wire) → Stand self.old.wires world → (p : ℕ) → p < length self.old.ins.items → (world (in_end_at self.old.ins.items p).wire).finished ≡ true → (in_end_at self.new.ins.items p).taking ≡ None }
    {
        let mut moved = false;
        let count = self.ins.len();
        for p in 0..count {
            let shut = shut_at(rt, &self.wires, &mut self.ins, p);
            moved = moved | shut;
        }
        moved
    }

    // Pours at each end.
    fn pour_all<R: Wait>(&mut self, rt: &R) -> bool
        requires { IsLawful M.view self.old }
        ensures follows { Follows M.view self.old self.new }
        ensures node { self.new.node ≡ self.old.node }
        ensures ins { self.new.ins ≡ self.old.ins }
        ensures sends { (q : ℕ) (d : OutEnd) → SendsOneAtMost (slice_index_or self.old.outs.items q d) (slice_index_or self.new.outs.items q d) }
        ensures moved { result ≡ true → (q : ℕ) × ((d : OutEnd) → OutMoves (slice_index_or self.old.outs.items q d) (slice_index_or self.new.outs.items q d)) }
        ensures still { result ≡ false → ((q : ℕ) (d : OutEnd) → OutRests (slice_index_or self.old.outs.items q d) (slice_index_or self.new.outs.items q d)) × (self.new.wires ≡ self.old.wires) }
        ensures why { result ≡ false → (q : ℕ) (d : OutEnd) → q < length self.old.outs.items → CannotSend self.old.wires (slice_index_or self.old.outs.items q d) (slice_index_or self.new.outs.items q d) }
    {
        let mut moved = false;
        let count = self.outs.len();
        for q in 0..count {
            let poured = pour_at(rt, &mut self.wires, &mut self.outs, q);
            moved = moved | poured;
        }
        moved
    }

    // A turn of the node on its wires. It says whether something moved, was granted or told, or the node has become done.
    fn turn_node<R: Wait>(
        &mut self,
        rt: &R,
        cell: &SchedCell,
        was_done: bool,
        may_take: bool,
    ) -> bool
        requires lawful { IsLawful M.view self.old }
        requires cell { IsOf M.view cell.now (node_of self.old) }
        ensures follows { Follows M.view self.old self.new }
        ensures ins { self.new.ins ≡ self.old.ins }
        ensures outs { self.new.outs ≡ self.old.outs }
        ensures stepped { Stepped M.view (λ a p b q. Unit {0}) self.old.node self.old.wires self.new.node self.new.wires }
        ensures moved { result ≡ true → Stepped M.view (λ a p b q. Moves a b p q) self.old.node self.old.wires self.new.node self.new.wires
            ⊎ (length (pass_of self.old.node).log < length (pass_of self.new.node).log) ⊎ ((was_done ≡ false) × IsDone self.new.node) }
        ensures once { length (tickets_in (pass_of self.new.node).log) ≤ length (tickets_in (pass_of self.old.node).log) + 1 }
        ensures held_back { may_take ≡ false → tickets_in (pass_of self.new.node).log ≡ tickets_in (pass_of self.old.node).log }
        ensures still { result ≡ false → Stepped M.view (λ a p b q. IsIdle M.view may_take self.old.node self.new.node self.new.wires b q)
            self.old.node self.old.wires self.new.node self.new.wires
            ⊎ (was_done ≡ true) }
        ensures closed { (world : ℕ → Wire) (past : Past) → NodeStands M.view self.new.node world past → (p : ℕ) → p < inputs_of self.new.node → IsClosed (world (in_wire_of self.new.node p)).taken → HasFinished self.new.node p }
        ensures spent { (p : ℕ) → p < inputs_of self.new.node → (M.view (machine_of self.new.node)).spent p → HasFinished self.new.node p }
        ensures faulty { (IsSound M.view self.new.node → ⊥) → (p : ℕ) → p < inputs_of self.new.node → HasFinished self.new.node p }
    {
        match self.node.turn(rt, cell, &mut self.wires, may_take) {
            Turn::Moved => true,
            Turn::NotYet => false,
            Turn::Done => !was_done,
        }
    }

    // Stops each output of the node whose link's receiver has finished, and says whether something moved.
    fn stop_finished(&mut self) -> bool
        requires { IsLawful M.view self.old }
        ensures follows { Follows M.view self.old self.new }
        ensures ins { self.new.ins ≡ self.old.ins }
        ensures outs { self.new.outs ≡ self.old.outs }
        ensures pass { pass_of self.new.node ≡ pass_of self.old.node }
        ensures moved { result ≡ true → Stepped M.view (λ a p b q. Moves a b p q) self.old.node self.old.wires self.new.node self.new.wires }
        ensures still { result ≡ false → (self.new.node ≡ self.old.node) × (self.new.wires ≡ self.old.wires) }
        ensures stops { (world : ℕ → Wire) → Stand self.old.wires world → (q : ℕ) → q < outputs_of self.old.node → (world (out_wire_of self.old.node q)).finished ≡ true → IsOver self.new.node q }
        ensures closed { result ≡ true → (world : ℕ → Wire) (past : Past) → NodeStands M.view self.new.node world past → (p : ℕ) → p < inputs_of self.new.node → IsClosed (world (in_wire_of self.new.node p)).taken → HasFinished self.new.node p }
        ensures spent { result ≡ true → (p : ℕ) → p < inputs_of self.new.node → (M.view (machine_of self.new.node)).spent p → HasFinished self.new.node p }
        ensures faulty { result ≡ true → (IsSound M.view self.new.node → ⊥) → (p : ℕ) → p < inputs_of self.new.node → HasFinished self.new.node p }
    {
        self.node.stop_finished(&mut self.wires)
    }

    /// One turn. At most one item is taken from each link and one put on each. A source takes at most one grant from
    /// the scheduler's cell. Nothing is taken from a link where an item is due, and where one lies between the node
    /// and a link no grant either. The node tells the cell the events that are due. At the turn's end each output
    /// that was told that its receiver has finished is stopped. The link of each input that the node has finished is
    /// finished too. That is where its closing item was taken, it is spent, or the node has a fault.
    pub fn turn<R: Wait>(&mut self, rt: &R, cell: &SchedCell) -> Turn
        requires lawful { IsLawful M.view self.old }
        requires cell { IsOf M.view cell.now (node_of self.old) }
        ensures follows { Follows M.view self.old self.new }
        ensures done { result ≡ Turn.Done → HasEnded self.new }
        ensures ended { HasEnded self.new → result ≡ Turn.Done }
        ensures once { length (tickets_in (pass_of (node_of self.new)).log) ≤ length (tickets_in (pass_of (node_of self.old)).log) + 1 }
        ensures takes { (p : ℕ) → TakesOneAtMost (in_end_at (ins_of self.old) p) (in_end_at (ins_of self.new) p) }
        ensures sends { (q : ℕ) (d : OutEnd) → SendsOneAtMost (slice_index_or (outs_of self.old) q d) (slice_index_or (outs_of self.new) q d) }
        ensures waits { (q : ℕ) (d : OutEnd) → q < length (outs_of self.old) → IsWaiting (wires_on self.old) (slice_index_or (outs_of self.old) q d) → (p : ℕ) → taken_of (in_end_at (ins_of self.new) p) ≡ taken_of (in_end_at (ins_of self.old) p) }
        ensures ungranted { (q : ℕ) (d : OutEnd) → q < length (outs_of self.old) → IsWaiting (wires_on self.old) (slice_index_or (outs_of self.old) q d)
            → tickets_in (pass_of (node_of self.new)).log ≡ tickets_in (pass_of (node_of self.old)).log }
        ensures due { (world : ℕ → Wire) (past : Past) (q : ℕ) → Stand (wires_on self.old) world → NodeStands M.view (node_of self.old) world past → IsDue M.view (node_of self.old) world past q
            → (p : ℕ) → taken_of (in_end_at (ins_of self.new) p) ≡ taken_of (in_end_at (ins_of self.old) p) }
        ensures moved { result ≡ Turn.Moved → HasMoved M.view self.old self.new }
        ensures not_yet { result ≡ Turn.NotYet → HasRested M.view self.old self.new }
        ensures closed { (world : ℕ → Wire) (past : Past) → NodeStands M.view (node_of self.new) world past → (p : ℕ) → p < inputs_of (node_of self.new) → IsClosed (world (in_wire_of (node_of self.new) p)).taken → HasFinished (node_of self.new) p }
        ensures spent { (p : ℕ) → p < inputs_of (node_of self.new) → (M.view (machine_of (node_of self.new))).spent p → HasFinished (node_of self.new) p }
        ensures faulty { (IsSound M.view (node_of self.new) → ⊥) → (p : ℕ) → p < inputs_of (node_of self.new) → HasFinished (node_of self.new) p }
        ensures stopped { (task : Task) → Behind M.view task self.old → (q : ℕ) (d : OutEnd) → q < outputs_of (node_of self.new) → (slice_index_or (outs_of self.new) q d).done ≡ true → IsOver (node_of self.new) q }
        ensures shut { (task : Task) → Behind M.view task self.old → (p : ℕ) → p < inputs_of (node_of self.new) → HasFinished (node_of self.new) p → (in_end_at (ins_of self.new) p).taking ≡ None }
    {
        let was_done = self.node.is_done();
        let may_take = self.may_take();
        let drawn = self.draw_if_free(rt, may_take);
        let turned = self.turn_node(rt, cell, was_done, may_take);
        let poured = self.pour_all(rt);
        let stopped = self.stop_finished();
        let shut = self.shut_ends(rt);
        turn_of(self.is_done(), drawn | turned | poured | stopped | shut)
    }
}
