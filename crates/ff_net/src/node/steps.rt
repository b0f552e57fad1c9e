//! The steps of a node at one port. Each clause `stepped` says what it keeps.
ghost use Rattle.std.specs.Prelude.{◌≡◌, ◌≢◌, ◌<◌, ◌⊎◌, ℕ, length, true, false, None, IsTrue, is_some};
ghost use Rattle.ff_net.specs.declared.wires.Wires.{Wires};
ghost use Rattle.ff_net.specs.laws.Ports.{in_at, out_at, AreDone};
ghost use Rattle.ff_net.specs.laws.Nodes.{IsShaped, IsSound, IsSame};
ghost use Rattle.ff_net.specs.laws.Steps.{Stepped, Acts, Readies};
ghost use Rattle.ff_net.specs.laws.Worlds.{Wire, Stand, IsFull, IsEmpty};

use crate::machine::Machine;
use crate::node::Node;
use crate::ports::{
    all_out_done, close_out, finish_in, hold, holds_item, in_done, in_wire, out_done, out_wire,
    take_held,
};
use crate::wires::{Put, Take, Wires};
use ff_stream::{Item, discard};

impl<M: Machine> Node<M> {
    /// Lets the machine give the next item of an output to hold, and says whether one is held.
    pub(crate) fn fill(&mut self, p: usize) -> bool
        requires there { p < length self.old.outs.items }
        requires outputs { length self.old.outs.items ≡ length (M.view self.old.machine).out_lanes }
        ensures stepped { (wires : Wires) → Stepped M.view (Readies M.view (λ q. q ≡ p) result self.new) self.old wires self.new wires }
        ensures pass { self.new.pass ≡ self.old.pass }
        ensures held { result ≡ true → ((out_at self.new.outs.items p).done ≡ false) × (is_some (out_at self.new.outs.items p).held ≡ true) }
        ensures empty { result ≡ false → (out_at self.new.outs.items p).done ≡ false → (out_at self.new.outs.items p).held ≡ None }
        ensures others { (q : ℕ) → q ≢ p → out_at self.new.outs.items q ≡ out_at self.old.outs.items q }
        ensures done { (out_at self.new.outs.items p).done ≡ (out_at self.old.outs.items p).done }
        ensures ins { self.new.ins ≡ self.old.ins }
        ensures count { length self.new.outs.items ≡ length self.old.outs.items }
        ensures out_lanes { (M.view self.new.machine).out_lanes ≡ (M.view self.old.machine).out_lanes }
        ensures sound { IsSound M.view self.new → IsSound M.view self.old }
        ensures source { (M.view self.new.machine).source ≡ (M.view self.old.machine).source }
    {
        if out_done(&self.outs, p) {
            return false;
        }
        if holds_item(&self.outs, p) {
            return true;
        }
        self.quiet = false;
        match self.machine.pull(p) {
            Ok(Some(item)) => {
                hold(&mut self.outs, p, item);
                true
            }
            Ok(None) => false,
            Err(_) => {
                self.refused = true;
                false
            }
        }
    }

    /// Puts what an output holds.
    pub(crate) fn send(&mut self, wires: &mut Wires, p: usize) -> bool
        requires shaped { IsShaped M.view self.old wires.old }
        requires there { p < length self.old.outs.items }
        ensures stepped { Stepped M.view (Acts (result ≡ true) (Unit {0})) self.old wires.old self.new wires.new }
        ensures pass { self.new.pass ≡ self.old.pass }
        ensures same { result ≡ false → IsSame self.old self.new × (wires.new ≡ wires.old) }
        ensures full { result ≡ false → (out_at self.old.outs.items p).done ≡ false → is_some (out_at self.old.outs.items p).held ≡ true → IsFull wires.old (out_at self.old.outs.items p).wire }
    {
        if out_done(&self.outs, p) {
            return false;
        }
        if !holds_item(&self.outs, p) {
            return false;
        }
        let wire = out_wire(&self.outs, p);
        let Some(item) = take_held(&mut self.outs, p) else {
            return false;
        };
        let closes = item.closes();
        match wires.try_put(wire, item) {
            Put::Done => {
                close_out(&mut self.outs, p, closes);
                true
            }
            Put::Full(item) => {
                hold(&mut self.outs, p, item);
                false
            }
            Put::Finished(item) => {
                discard(item);
                self.quiet = false;
                self.machine.stop(p);
                close_out(&mut self.outs, p, true);
                true
            }
        }
    }

    /// Stops an output whose receiver has finished, and says whether it did.
    pub(crate) fn stop_at(&mut self, wires: &Wires, p: usize) -> bool
        requires shaped { IsShaped M.view self.old wires.now }
        requires there { p < length self.old.outs.items }
        ensures stepped { Stepped M.view (Acts (result ≡ true) (Unit {0})) self.old wires.now self.new wires.now }
        ensures pass { self.new.pass ≡ self.old.pass }
        ensures same { result ≡ false → self.new ≡ self.old }
        ensures ins { self.new.ins ≡ self.old.ins }
        ensures others { (q : ℕ) → q ≢ p → out_at self.new.outs.items q ≡ out_at self.old.outs.items q }
        ensures stops { (world : ℕ → Wire) → Stand wires.now world → (world (out_at self.old.outs.items p).wire).finished ≡ true → (out_at self.new.outs.items p).done ≡ true }
    {
        if out_done(&self.outs, p) {
            return false;
        }
        if !wires.is_finished(out_wire(&self.outs, p)) {
            return false;
        }
        self.quiet = false;
        self.machine.stop(p);
        close_out(&mut self.outs, p, true);
        true
    }

    /// Takes an item from a wire, and feeds it.
    pub(crate) fn take(&mut self, wires: &mut Wires, p: usize) -> bool
        requires shaped { IsShaped M.view self.old wires.old }
        requires there { p < length self.old.ins.items }
        ensures stepped { Stepped M.view (Acts (result ≡ true) (⊥)) self.old wires.old self.new wires.new }
        ensures pass { self.new.pass ≡ self.old.pass }
        ensures same { result ≡ false → IsSame self.old self.new × (wires.new ≡ wires.old) }
        ensures empty { result ≡ false → (in_at self.old.ins.items p).done ≡ false → self.old.refused ≡ false → IsEmpty wires.old (in_at self.old.ins.items p).wire }
    {
        let finished = in_done(&self.ins, p);
        if finished {
            return false;
        }
        if self.refused {
            return false;
        }
        match wires.try_take(in_wire(&self.ins, p)) {
            Take::Empty => false,
            Take::Item(item) => {
                self.quiet = false;
                match self.machine.feed(p, item) {
                    Ok(()) => true,
                    Err(refused) => {
                        discard(refused.item);
                        self.refused = true;
                        true
                    }
                }
            }
        }
    }

    /// Whether an input can matter no more.
    pub(crate) fn may_finish(&self, p: usize) -> bool
        requires there { p < length self.now.ins.items }
        requires inputs { length self.now.ins.items ≡ length (M.view self.now.machine).in_lanes }
        ensures why { result ≡ true → IsSound M.view self.now → (M.view self.now.machine).spent p ⊎ ((0 < length self.now.outs.items) × AreDone self.now.outs.items) }
        ensures spent { (M.view self.now.machine).spent p → result ≡ true }
        ensures faulty { (IsSound M.view self.now → ⊥) → result ≡ true }
        ensures done { 0 < length self.now.outs.items → AreDone self.now.outs.items → result ≡ true }
    {
        if self.machine.spent(p) {
            return true;
        }
        if self.fault().is_some() {
            return true;
        }
        self.outs.len() > 0 && all_out_done(&self.outs)
    }

    /// Finishes an input that can matter no more, and says whether it did.
    pub(crate) fn close(&mut self, wires: &mut Wires, p: usize) -> bool
        requires shaped { IsShaped M.view self.old wires.old }
        requires there { p < length self.old.ins.items }
        ensures stepped { Stepped M.view (Acts (result ≡ true) (Unit {0})) self.old wires.old self.new wires.new }
        ensures pass { self.new.pass ≡ self.old.pass }
        ensures same { result ≡ false → IsSame self.old self.new × (wires.new ≡ wires.old) }
        ensures machine { self.new.machine ≡ self.old.machine }
        ensures outs { self.new.outs ≡ self.old.outs }
        ensures refused { self.new.refused ≡ self.old.refused }
        ensures others { (q : ℕ) → q ≢ p → in_at self.new.ins.items q ≡ in_at self.old.ins.items q }
        ensures spent { (M.view self.old.machine).spent p → (in_at self.new.ins.items p).done ≡ true }
        ensures faulty { (IsSound M.view self.old → ⊥) → (in_at self.new.ins.items p).done ≡ true }
        ensures done { 0 < length self.old.outs.items → AreDone self.old.outs.items → (in_at self.new.ins.items p).done ≡ true }
    {
        if in_done(&self.ins, p) {
            return false;
        }
        if !self.may_finish(p) {
            return false;
        }
        wires.finish(in_wire(&self.ins, p));
        finish_in(&mut self.ins, p);
        true
    }

    /// Puts Broken in place of what an output holds.
    pub(crate) fn break_off(&mut self, wires: &mut Wires, p: usize) -> bool
        requires shaped { IsShaped M.view self.old wires.old }
        requires there { p < length self.old.outs.items }
        requires faulty { IsSound M.view self.old → ⊥ }
        ensures stepped { Stepped M.view (Acts (result ≡ true) (Unit {0})) self.old wires.old self.new wires.new }
        ensures pass { self.new.pass ≡ self.old.pass }
        ensures same { result ≡ false → IsSame self.old self.new × (wires.new ≡ wires.old) }
        ensures faulty { IsSound M.view self.new → ⊥ }
        ensures full { result ≡ false → (out_at self.old.outs.items p).done ≡ false → IsFull wires.old (out_at self.old.outs.items p).wire }
    {
        if out_done(&self.outs, p) {
            return false;
        }
        match wires.try_put(out_wire(&self.outs, p), Item::Broken) {
            Put::Full(item) => {
                discard(item);
                false
            }
            Put::Done => {
                close_out(&mut self.outs, p, true);
                true
            }
            Put::Finished(item) => {
                discard(item);
                self.quiet = false;
                self.machine.stop(p);
                close_out(&mut self.outs, p, true);
                true
            }
        }
    }
}
