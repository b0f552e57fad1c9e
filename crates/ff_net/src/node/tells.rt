//! The events of a machine, told to the scheduler by its node.
ghost use Rattle.std.specs.Prelude.{◌≡◌, ◌<◌, ◌⊎◌, ℕ, length, true, false, Some, IsNone};
ghost use Rattle.ff_net.specs.declared.wires.Wires.{Wires};
ghost use Rattle.ff_frame.specs.declared.event.Event.{Event};
ghost use Rattle.ff_net.specs.laws.Laws.{FaultStep, IsReading};
ghost use Rattle.ff_net.specs.laws.Logs.{PassStep, tickets_in};
ghost use Rattle.ff_net.specs.Pasts.{Past, was_told};
ghost use Rattle.ff_net.specs.laws.Views.{IsSameShape};
ghost use Rattle.ff_net.specs.laws.Nodes.{IsOf, IsSound};
ghost use Rattle.ff_net.specs.laws.Ports.{AreFinished};
ghost use Rattle.ff_net.specs.laws.Steps.{Stepped, Tells};
ghost use Rattle.ff_sched.specs.Events.{IsInRange, IsTold};

use crate::machine::Machine;
use crate::node::Node;
use ff_frame::Event;
use ff_sched::SchedCell;
use std::sync::Wait;

// Whether the cell takes an event: it is no grant, and its numbers are the routes'.
fn can_tell(cell: &SchedCell, event: Event) -> bool
    ensures { result ≡ true → IsInRange cell.now.routes event × IsTold event }
{
    match event {
        Event::Grant(_) => false,
        Event::Sent(_, _) | Event::Finished(_) | Event::Best(_, _) | Event::Exited(_) => cell
            .routes()
            .has(event),
    }
}

// The next event of a machine. It is asked twice where a fault came up in the first call, which may have made one due.
fn next_event<M: Machine>(machine: &mut M) -> Option<Event>
    ensures shape { IsSameShape (M.view machine.old) (M.view machine.new) }
    ensures fares { FaultStep (M.view machine.old) (M.view machine.new) }
    ensures gives { (e : Event) → result ≡ Some e → (past : Past) → (M.view machine.old).stands past
        → (M.view machine.new).stands (was_told past e) × (IsReading (M.view machine.new) (was_told past e) → ⊥) }
    ensures waits { IsNone result → (past : Past) → (M.view machine.old).stands past → (M.view machine.new).stands past }
    ensures none_due { IsNone result → (past : Past) → (M.view machine.old).stands past
        → (past.told ≡ past.task.tells past.feeds) ⊎ IsReading (M.view machine.new) past }
{
    let faulty = machine.fault().is_some();
    let first = machine.next_event();
    if first.is_some() {
        return first;
    }
    if faulty {
        return None;
    }
    if machine.fault().is_none() {
        return None;
    }
    machine.next_event()
}

impl<M: Machine> Node<M> {
    // Whether the next event may wait: the machine defers it, and an input goes on.
    fn may_wait(&self) -> bool
        ensures goes_on { result ≡ true → AreFinished self.now.ins.items → ⊥ }
    {
        self.machine.defers() && !self.ins_done()
    }

    /// Tells the next event, and says whether it did. One that the machine defers waits while an input goes on. One that
    /// the cell doesn't take is like memory that is refused.
    pub(crate) fn tell_one<R: Wait>(&mut self, rt: &R, cell: &SchedCell) -> bool
        requires cell { IsOf M.view cell.now self.old }
        ensures stepped { (wires : Wires) → Stepped M.view Tells self.old wires self.new wires }
        ensures outs { self.new.outs ≡ self.old.outs }
        ensures ins { self.new.ins ≡ self.old.ins }
        ensures sound { IsSound M.view self.new → IsSound M.view self.old }
        ensures source { (M.view self.new.machine).source ≡ (M.view self.old.machine).source }
        ensures passes { PassStep self.old.pass self.new.pass }
        ensures tickets { tickets_in self.new.pass.log ≡ tickets_in self.old.pass.log }
        ensures longer { result ≡ true → length self.old.pass.log < length self.new.pass.log }
        ensures still { result ≡ false → self.new.pass ≡ record self.old.pass { spare = self.new.pass.spare } }
        ensures told { result ≡ false → AreFinished self.new.ins.items → (self.new.quiet ≡ true) ⊎ (self.new.refused ≡ true) }
    {
        if self.quiet | self.refused {
            return false;
        }
        if self.may_wait() {
            return false;
        }
        if !self.make_room() {
            return false;
        }
        match next_event(&mut self.machine) {
            None => {
                self.quiet = true;
                false
            }
            Some(event) => {
                if !can_tell(cell, event) {
                    self.refused = true;
                    return false;
                }
                let _place = cell.tell(rt, &mut self.pass, event);
                true
            }
        }
    }

    /// Tells the events that are due, as far as the machine doesn't defer one, no more than two beside one for each
    /// input. It says whether there were any.
    pub(crate) fn tell_all<R: Wait>(&mut self, rt: &R, cell: &SchedCell) -> bool
        requires cell { IsOf M.view cell.now self.old }
        ensures stepped { (wires : Wires) → Stepped M.view Tells self.old wires self.new wires }
        ensures outs { self.new.outs ≡ self.old.outs }
        ensures ins { self.new.ins ≡ self.old.ins }
        ensures sound { IsSound M.view self.new → IsSound M.view self.old }
        ensures source { (M.view self.new.machine).source ≡ (M.view self.old.machine).source }
        ensures passes { PassStep self.old.pass self.new.pass }
        ensures tickets { tickets_in self.new.pass.log ≡ tickets_in self.old.pass.log }
        ensures longer { result ≡ true → length self.old.pass.log < length self.new.pass.log }
        ensures still { result ≡ false → self.new.pass ≡ record self.old.pass { spare = self.new.pass.spare } }
        ensures told { result ≡ false → AreFinished self.new.ins.items → (self.new.quiet ≡ true) ⊎ (self.new.refused ≡ true) }
    {
        let mut told = self.tell_one(rt, cell);
        let count = self.ins.len();
        for passed in 0..count {
            let one = self.tell_one(rt, cell);
            told = told | one;
        }
        let last = self.tell_one(rt, cell);
        told | last
    }
}
