//! The steps of a node at all its ports, one after another.
ghost use Rattle.std.specs.Prelude.{◌≡◌, ◌<◌, ◌⊎◌, ℕ, length, true, false, None, IsTrue, is_some};
ghost use Rattle.ff_net.specs.declared.wires.Wires.{Wires};
ghost use Rattle.ff_net.specs.laws.Ports.{in_at, out_at, AreDone, SomeHeld, NoneHeld};
ghost use Rattle.ff_net.specs.laws.Nodes.{IsShaped, IsSound, IsSame};
ghost use Rattle.ff_net.specs.laws.Steps.{Stepped, Acts, Readies};
ghost use Rattle.ff_net.specs.laws.Worlds.{Wire, Stand, IsFull, IsEmpty};

use crate::machine::Machine;
use crate::node::Node;
use crate::wires::Wires;

impl<M: Machine> Node<M> {
    /// Whether each input was finished.
    pub(crate) fn ins_done(&self) -> bool
        ensures done { result ≡ true → (p : ℕ) → p < length self.now.ins.items → (in_at self.now.ins.items p).done ≡ true }
        ensures exact { ((p : ℕ) → p < length self.now.ins.items → (in_at self.now.ins.items p).done ≡ true) → result ≡ true }
    {
        for port in &self.ins {
            if !port.done {
                return false;
            }
        }
        true
    }

    /// Fills each output, and says whether one holds an item.
    pub(crate) fn fill_all(&mut self) -> bool
        requires outputs { length self.old.outs.items ≡ length (M.view self.old.machine).out_lanes }
        ensures stepped { (wires : Wires) → Stepped M.view (Readies M.view (λ q. q < length self.new.outs.items) result self.new) self.old wires self.new wires }
        ensures pass { self.new.pass ≡ self.old.pass }
        ensures held { result ≡ true → SomeHeld self.new.outs.items }
        ensures none { result ≡ false → NoneHeld self.new.outs.items }
        ensures done { (q : ℕ) → (out_at self.new.outs.items q).done ≡ (out_at self.old.outs.items q).done }
        ensures count { length self.new.outs.items ≡ length self.old.outs.items }
        ensures out_lanes { (M.view self.new.machine).out_lanes ≡ (M.view self.old.machine).out_lanes }
        ensures ins { self.new.ins ≡ self.old.ins }
        ensures sound { IsSound M.view self.new → IsSound M.view self.old }
        ensures source { (M.view self.new.machine).source ≡ (M.view self.old.machine).source }
    {
        let mut due = false;
        let count = self.outs.len();
        for p in 0..count {
            let held = self.fill(p);
            due = due | held;
        }
        due
    }

    /// Puts what is held on each output, and says whether something moved.
    pub(crate) fn send_all(&mut self, wires: &mut Wires) -> bool
        requires shaped { IsShaped M.view self.old wires.old }
        ensures stepped { Stepped M.view (Acts (result ≡ true) (Unit {0})) self.old wires.old self.new wires.new }
        ensures pass { self.new.pass ≡ self.old.pass }
        ensures same { result ≡ false → IsSame self.old self.new × (wires.new ≡ wires.old) }
        ensures full { result ≡ false → (q : ℕ) → q < length self.old.outs.items → (out_at self.old.outs.items q).done ≡ false → is_some (out_at self.old.outs.items q).held ≡ true → IsFull wires.old (out_at self.old.outs.items q).wire }
    {
        let mut moved = false;
        let count = self.outs.len();
        for p in 0..count {
            let sent = self.send(wires, p);
            moved = moved | sent;
        }
        moved
    }

    /// Stops each output whose receiver has finished, and says whether it stopped one.
    pub(crate) fn stop_all(&mut self, wires: &Wires) -> bool
        requires shaped { IsShaped M.view self.old wires.now }
        ensures stepped { Stepped M.view (Acts (result ≡ true) (Unit {0})) self.old wires.now self.new wires.now }
        ensures pass { self.new.pass ≡ self.old.pass }
        ensures same { result ≡ false → self.new ≡ self.old }
        ensures stops { (world : ℕ → Wire) → Stand wires.now world → (q : ℕ) → q < length self.old.outs.items → (world (out_at self.old.outs.items q).wire).finished ≡ true → (out_at self.new.outs.items q).done ≡ true }
    {
        let mut stopped = false;
        let count = self.outs.len();
        for p in 0..count {
            let here = self.stop_at(wires, p);
            stopped = stopped | here;
        }
        stopped
    }

    /// Takes from each input, and says whether something moved.
    pub(crate) fn take_all(&mut self, wires: &mut Wires) -> bool
        requires shaped { IsShaped M.view self.old wires.old }
        ensures stepped { Stepped M.view (Acts (result ≡ true) (⊥)) self.old wires.old self.new wires.new }
        ensures pass { self.new.pass ≡ self.old.pass }
        ensures same { result ≡ false → IsSame self.old self.new × (wires.new ≡ wires.old) }
        ensures empty { result ≡ false → self.old.refused ≡ false → (p : ℕ) → p < length self.old.ins.items → (in_at self.old.ins.items p).done ≡ false → IsEmpty wires.old (in_at self.old.ins.items p).wire }
    {
        let mut moved = false;
        let count = self.ins.len();
        for p in 0..count {
            let took = self.take(wires, p);
            moved = moved | took;
        }
        moved
    }

    /// Puts Broken on each output, and says whether something moved.
    pub(crate) fn break_all(&mut self, wires: &mut Wires) -> bool
        requires shaped { IsShaped M.view self.old wires.old }
        requires faulty { IsSound M.view self.old → ⊥ }
        ensures stepped { Stepped M.view (Acts (result ≡ true) (Unit {0})) self.old wires.old self.new wires.new }
        ensures pass { self.new.pass ≡ self.old.pass }
        ensures same { result ≡ false → IsSame self.old self.new × (wires.new ≡ wires.old) }
        ensures faulty { IsSound M.view self.new → ⊥ }
        ensures full { result ≡ false → (q : ℕ) → q < length self.old.outs.items → (out_at self.old.outs.items q).done ≡ false → IsFull wires.old (out_at self.old.outs.items q).wire }
    {
        let mut moved = false;
        let count = self.outs.len();
        for p in 0..count {
            let broke = self.break_off(wires, p);
            moved = moved | broke;
        }
        moved
    }

    /// Finishes each input that can matter no more, and says whether something moved.
    pub(crate) fn close_all(&mut self, wires: &mut Wires) -> bool
        requires shaped { IsShaped M.view self.old wires.old }
        ensures stepped { Stepped M.view (Acts (result ≡ true) (Unit {0})) self.old wires.old self.new wires.new }
        ensures pass { self.new.pass ≡ self.old.pass }
        ensures same { result ≡ false → IsSame self.old self.new × (wires.new ≡ wires.old) }
        ensures machine { self.new.machine ≡ self.old.machine }
        ensures outs { self.new.outs ≡ self.old.outs }
        ensures refused { self.new.refused ≡ self.old.refused }
        ensures spent { (p : ℕ) → p < length self.new.ins.items → (M.view self.new.machine).spent p → (in_at self.new.ins.items p).done ≡ true }
        ensures faulty { (IsSound M.view self.new → ⊥) → (p : ℕ) → p < length self.new.ins.items → (in_at self.new.ins.items p).done ≡ true }
        ensures done { 0 < length self.new.outs.items → AreDone self.new.outs.items → (p : ℕ) → p < length self.new.ins.items → (in_at self.new.ins.items p).done ≡ true }
    {
        let mut moved = false;
        let count = self.ins.len();
        for p in 0..count {
            let closed = self.close(wires, p);
            moved = moved | closed;
        }
        moved
    }
}
