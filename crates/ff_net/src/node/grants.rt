//! The grants by which a source node reads.
ghost use Rattle.std.specs.Prelude.{◌≡◌, ◌<◌, ◌≤◌, ◌+◌, ◌⊎◌, ℕ, ◌++◌, ◌∷◌, [], length, true, false, None, Some, is_some};
ghost use Rattle.ff_net.specs.declared.wires.Wires.{Wires};
ghost use Rattle.ff_net.specs.laws.Logs.{WasChoked, PassStep, tickets_in};
ghost use Rattle.ff_net.specs.laws.Ports.{AreDone, NoneHeld};
ghost use Rattle.ff_net.specs.laws.Nodes.{IsOf, IsSound};
ghost use Rattle.ff_net.specs.laws.Steps.{Stepped, Grants, IsUngranted};
ghost use Rattle.ff_sched.specs.Histories.{logged};
ghost use Rattle.ff_frame.specs.declared.event.Event.{Event};

use crate::machine::Machine;
use crate::node::Node;
use crate::ports::all_out_done;
use ff_sched::{Grant, Pass, SchedCell};
use std::sync::Wait;

/// Makes room for one event more, and says whether there is some.
pub fn has_room(pass: &mut Pass) -> bool
    ensures same { pass.new ≡ record pass.old { spare = pass.new.spare } }
    ensures room { result ≡ true → (1 ≤ pass.new.spare) × (length pass.new.log < pass.new.share) }
{
    if pass.reserve(1).is_err() {
        return false;
    }
    pass.logged() < pass.share()
}

impl<M: Machine> Node<M> {
    /// Makes room for one event more; where there is none, memory was refused.
    pub(crate) fn make_room(&mut self) -> bool
        ensures node { self.new ≡ record self.old { pass = self.new.pass; refused = self.new.refused } }
        ensures pass { self.new.pass ≡ record self.old.pass { spare = self.new.pass.spare } }
        ensures room { result ≡ true
            → (1 ≤ self.new.pass.spare) × (length self.new.pass.log < self.new.pass.share) × (self.new.refused ≡ self.old.refused) }
        ensures refused { result ≡ false → self.new.refused ≡ true }
    {
        if has_room(&mut self.pass) {
            return true;
        }
        self.refused = true;
        false
    }

    /// Takes a grant where none is in hand, and says whether it did.
    pub(crate) fn take_grant<R: Wait>(&mut self, rt: &R, cell: &SchedCell, source: u32) -> bool
        requires cell { IsOf M.view cell.now self.old }
        requires source { (M.view self.old.machine).source ≡ Some source }
        ensures node { self.new ≡ record self.old { pass = self.new.pass; refused = self.new.refused; hand = self.new.hand } }
        ensures passes { PassStep self.old.pass self.new.pass }
        ensures yes { result ≡ true → (self.old.hand ≡ None) × ((place : ℕ)
            × (self.new.hand ≡ Some (record { source = source; place = place }))
            × (self.new.pass.log ≡ self.old.pass.log ++ logged place (Event.Grant source) ∷ [])) }
        ensures no { result ≡ false → (self.new.hand ≡ self.old.hand) × (self.new.pass.log ≡ self.old.pass.log) }
        ensures why { result ≡ false → (is_some self.old.hand ≡ true) ⊎ (self.new.refused ≡ true) ⊎ WasChoked self.old.pass source self.new.pass }
        ensures refused { self.new.refused ≡ false → self.old.refused ≡ false }
    {
        if self.hand.is_some() {
            return false;
        }
        if !self.make_room() {
            return false;
        }
        match cell.take_grant(rt, &mut self.pass, source) {
            Grant::Go(ticket) => {
                self.hand = Some(ticket);
                true
            }
            Grant::Choked(_) => false,
        }
    }

    /// Offers the machine the ticket in hand, and says whether it took it.
    pub(crate) fn offer(&mut self) -> bool
        ensures stepped { (wires : Wires) → Stepped M.view (Grants result self.old self.new) self.old wires self.new wires }
        ensures outs { self.new.outs ≡ self.old.outs }
        ensures ins { self.new.ins ≡ self.old.ins }
        ensures out_lanes { (M.view self.new.machine).out_lanes ≡ (M.view self.old.machine).out_lanes }
        ensures refused { self.new.refused ≡ self.old.refused }
        ensures sound { IsSound M.view self.new → IsSound M.view self.old }
        ensures source { (M.view self.new.machine).source ≡ (M.view self.old.machine).source }
        ensures pass { self.new.pass ≡ self.old.pass }
        ensures back { result ≡ false → is_some self.old.hand ≡ true → ((M.view self.old.machine).source ≡ None) ⊎ (M.view self.old.machine).holds }
    {
        let Some(ticket) = self.hand.take() else {
            return false;
        };
        self.quiet = false;
        match self.machine.allow(ticket) {
            None => true,
            Some(back) => {
                self.hand = Some(back);
                false
            }
        }
    }

    /// Takes a grant for a source on which an output goes on, and offers the machine what is in hand. It says whether a grant
    /// was taken or the machine took the ticket.
    pub(crate) fn grant<R: Wait>(&mut self, rt: &R, cell: &SchedCell) -> bool
        requires cell { IsOf M.view cell.now self.old }
        requires held { NoneHeld self.old.outs.items }
        requires outputs { length self.old.outs.items ≡ length (M.view self.old.machine).out_lanes }
        ensures stepped { (wires : Wires) → Stepped M.view (Grants result self.old self.new) self.old wires self.new wires }
        ensures outs { self.new.outs ≡ self.old.outs }
        ensures ins { self.new.ins ≡ self.old.ins }
        ensures out_lanes { (M.view self.new.machine).out_lanes ≡ (M.view self.old.machine).out_lanes }
        ensures sound { IsSound M.view self.new → IsSound M.view self.old }
        ensures source { (M.view self.new.machine).source ≡ (M.view self.old.machine).source }
        ensures still { result ≡ false → self.new.pass.log ≡ self.old.pass.log }
        ensures once { length (tickets_in self.new.pass.log) ≤ length (tickets_in self.old.pass.log) + 1 }
        ensures fine { result ≡ true → IsSound M.view self.old }
        ensures back { result ≡ false → IsSound M.view self.new → (AreDone self.new.outs.items → ⊥)
            → (M.view self.old.machine).holds ⊎ IsUngranted M.view self.old self.new }
    {
        let Some(source) = self.machine.source() else {
            return false;
        };
        if self.fault().is_some() {
            return false;
        }
        if all_out_done(&self.outs) {
            return false;
        }
        let took = self.take_grant(rt, cell, source);
        let offered = self.offer();
        took | offered
    }
}
