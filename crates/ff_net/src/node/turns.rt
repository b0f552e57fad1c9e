//! One turn of a node.
ghost use Rattle.std.specs.Prelude.{◌≡◌, ◌<◌, ◌≤◌, ◌+◌, ◌⊎◌, ℕ, Bool, length, true, false, IsTrue};
ghost use Rattle.ff_stream.specs.Ports.{IsClosed};
ghost use Rattle.ff_net.specs.declared.wires.Wires.{Wires};
ghost use Rattle.ff_net.specs.Pasts.{Past};
ghost use Rattle.ff_net.specs.laws.Ports.{in_at, out_at, AreFinished, SomeHeld, NoneHeld};
ghost use Rattle.ff_net.specs.laws.Nodes.{IsOf, IsShaped, IsSame, IsSound, IsDone, NodeStands, HasFinished, IsOver};
ghost use Rattle.ff_net.specs.laws.Nodes.{machine_of, inputs_of, outputs_of, in_wire_of, out_wire_of};
ghost use Rattle.ff_net.specs.laws.Logs.{tickets_in};
ghost use Rattle.ff_net.specs.laws.Steps.{Stepped, Acts, Fills, Prepares, Turns};
ghost use Rattle.ff_net.specs.laws.Turns.{Waits, HasDue, Answers};
ghost use Rattle.ff_net.specs.laws.Worlds.{Wire, Stand};

use crate::machine::Machine;
use crate::node::{Node, Turn, turn_of};
use crate::wires::Wires;
use ff_sched::SchedCell;
use std::sync::Wait;

/// What a node is ready for: whether an output holds an item, and whether a ticket was allowed.
#[derive(Clone, Copy)]
pub struct Ready {
    /// Whether an output holds an item.
    pub due: bool,
    /// Whether a ticket was allowed.
    pub granted: bool,
}

impl<M: Machine> Node<M> {
    /// Lets the machine give what it has, and grants a source one unit where nothing is due and the node may take.
    pub(crate) fn ready<R: Wait>(&mut self, rt: &R, cell: &SchedCell, may_take: bool) -> Ready
        requires outputs { length self.old.outs.items ≡ length (M.view self.old.machine).out_lanes }
        requires cell { IsOf M.view cell.now self.old }
        ensures stepped { (wires : Wires) → Stepped M.view (Prepares M.view may_take result.granted result.due self.old self.new) self.old wires self.new wires }
        ensures once { length (tickets_in self.new.pass.log) ≤ length (tickets_in self.old.pass.log) + 1 }
        ensures held_back { may_take ≡ false → tickets_in self.new.pass.log ≡ tickets_in self.old.pass.log }
        ensures held { result.due ≡ true → SomeHeld self.new.outs.items }
        ensures none { result.due ≡ false → NoneHeld self.new.outs.items }
    {
        let due = self.fill_all();
        if due {
            return Ready {
                due: true,
                granted: false,
            };
        }
        if !may_take {
            return Ready {
                due: false,
                granted: false,
            };
        }
        let granted = self.grant(rt, cell);
        if !granted {
            return Ready {
                due: false,
                granted: false,
            };
        }
        let more = self.fill_all();
        Ready {
            due: more,
            granted: true,
        }
    }

    /// Where the node has no fault, sends what is held, or takes, and says whether something moved or was granted.
    pub(crate) fn act<R: Wait>(
        &mut self,
        rt: &R,
        cell: &SchedCell,
        wires: &mut Wires,
        may_take: bool,
    ) -> bool
        requires shaped { IsShaped M.view self.old wires.old }
        requires cell { IsOf M.view cell.now self.old }
        ensures stepped { Stepped M.view (Turns M.view may_take result self.old self.new) self.old wires.old self.new wires.new }
        ensures once { length (tickets_in self.new.pass.log) ≤ length (tickets_in self.old.pass.log) + 1 }
        ensures held_back { may_take ≡ false → tickets_in self.new.pass.log ≡ tickets_in self.old.pass.log }
        ensures waits { result ≡ false → IsSound M.view self.new → Waits M.view may_take self.new wires.new }
    {
        if self.fault().is_some() {
            return false;
        }
        let ready = self.ready(rt, cell, may_take);
        if self.fault().is_some() {
            return ready.granted;
        }
        if ready.due {
            let sent = self.send_all(wires);
            return ready.granted | sent;
        }
        if !may_take {
            return ready.granted;
        }
        let took = self.take_all(wires);
        ready.granted | took
    }

    /// Where the node has a fault, puts Broken on each output, and says whether something moved.
    pub(crate) fn break_faulty(&mut self, wires: &mut Wires) -> bool
        requires shaped { IsShaped M.view self.old wires.old }
        ensures stepped { Stepped M.view (Acts (result ≡ true) (Unit {0})) self.old wires.old self.new wires.new }
        ensures same { result ≡ false → IsSame self.old self.new × (wires.new ≡ wires.old) }
        ensures pass { self.new.pass ≡ self.old.pass }
        ensures waits { result ≡ false → (IsSound M.view self.new → ⊥) → (may_take : Bool) → Waits M.view may_take self.new wires.new }
    {
        if self.fault().is_none() {
            return false;
        }
        self.break_all(wires)
    }

    /// Acts, tells the events that are due, breaks off where there is a fault, and says whether any of these did something.
    pub(crate) fn work<R: Wait>(
        &mut self,
        rt: &R,
        cell: &SchedCell,
        wires: &mut Wires,
        may_take: bool,
    ) -> bool
        requires shaped { IsShaped M.view self.old wires.old }
        requires cell { IsOf M.view cell.now self.old }
        ensures stepped { Stepped M.view (Turns M.view may_take result self.old self.new) self.old wires.old self.new wires.new }
        ensures once { length (tickets_in self.new.pass.log) ≤ length (tickets_in self.old.pass.log) + 1 }
        ensures held_back { may_take ≡ false → tickets_in self.new.pass.log ≡ tickets_in self.old.pass.log }
        ensures waits { result ≡ false → Waits M.view may_take self.new wires.new }
        ensures told { result ≡ false → AreFinished self.new.ins.items → (self.new.quiet ≡ true) ⊎ (self.new.refused ≡ true) }
    {
        let acted = self.act(rt, cell, wires, may_take);
        let told = self.tell_all(rt, cell);
        let broke = self.break_faulty(wires);
        acted | told | broke
    }

    /// Lets the machine give what it has, and says whether an item is due: an output holds one, or the node has a fault.
    pub fn is_due(&mut self) -> bool
        requires shaped { (wires : Wires) × IsShaped M.view self.old wires }
        ensures stepped { (wires : Wires) → Stepped M.view (Fills M.view result self.old) self.old wires self.new wires }
        ensures pass { self.new.pass ≡ self.old.pass }
        ensures due { result ≡ true → HasDue M.view self.new }
    {
        let held = self.fill_all();
        if held {
            return true;
        }
        self.fault().is_some()
    }

    /// One turn. It is at most one grant, one item taken from each input and one put on each output. The events that
    /// are due are told, but for one that the machine defers while an input goes on, and those after it. Nothing is
    /// granted or taken where an item is due, or where the node may not take: an item waits beyond its wires. A node
    /// with a fault sends Broken down each output that goes on, finishes its inputs, and is done.
    pub fn turn<R: Wait>(
        &mut self,
        rt: &R,
        cell: &SchedCell,
        wires: &mut Wires,
        may_take: bool,
    ) -> Turn
        requires shaped { IsShaped M.view self.old wires.old }
        requires cell { IsOf M.view cell.now self.old }
        ensures stepped { Stepped M.view (Answers M.view may_take result self.old self.new wires.new) self.old wires.old self.new wires.new }
        ensures once { length (tickets_in self.new.pass.log) ≤ length (tickets_in self.old.pass.log) + 1 }
        ensures held_back { may_take ≡ false → tickets_in self.new.pass.log ≡ tickets_in self.old.pass.log }
        ensures done { result ≡ Turn.Done → IsDone self.new }
        ensures closed { (world : ℕ → Wire) (past : Past) → NodeStands M.view self.new world past → (p : ℕ) → p < inputs_of self.new → IsClosed (world (in_wire_of self.new p)).taken → HasFinished self.new p }
        ensures spent { (p : ℕ) → p < inputs_of self.new → (M.view (machine_of self.new)).spent p → HasFinished self.new p }
        ensures faulty { (IsSound M.view self.new → ⊥) → (p : ℕ) → p < inputs_of self.new → HasFinished self.new p }
    {
        let worked = self.work(rt, cell, wires, may_take);
        let closed = self.close_all(wires);
        turn_of(self.is_done(), worked | closed)
    }

    /// Stops each output whose receiver has finished, and finishes each input that matters no more then. It says whether
    /// something moved.
    pub fn stop_finished(&mut self, wires: &mut Wires) -> bool
        requires shaped { IsShaped M.view self.old wires.old }
        ensures stepped { Stepped M.view (Acts (result ≡ true) (Unit {0})) self.old wires.old self.new wires.new }
        ensures pass { self.new.pass ≡ self.old.pass }
        ensures same { result ≡ false → (self.new ≡ self.old) × (wires.new ≡ wires.old) }
        ensures stops { (world : ℕ → Wire) → Stand wires.old world → (q : ℕ) → q < outputs_of self.old → (world (out_wire_of self.old q)).finished ≡ true → IsOver self.new q }
        ensures closed { result ≡ true → (world : ℕ → Wire) (past : Past) → NodeStands M.view self.new world past → (p : ℕ) → p < inputs_of self.new → IsClosed (world (in_wire_of self.new p)).taken → HasFinished self.new p }
        ensures spent { result ≡ true → (p : ℕ) → p < inputs_of self.new → (M.view (machine_of self.new)).spent p → HasFinished self.new p }
        ensures faulty { result ≡ true → (IsSound M.view self.new → ⊥) → (p : ℕ) → p < inputs_of self.new → HasFinished self.new p }
    {
        let stopped = self.stop_all(wires);
        if !stopped {
            return false;
        }
        let _closed = self.close_all(wires);
        true
    }
}
