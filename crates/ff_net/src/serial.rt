//! A network run in one thread, one turn after another.
ghost use Rattle.std.specs.Prelude.{◌≡◌, ℕ, ◌<◌, length, slice_index_or, []};
ghost use Rattle.ff_net.specs.Nets.{IsUpward};
ghost use Rattle.ff_net.specs.Pasts.{Task};
ghost use Rattle.ff_net.specs.laws.Serial.{AllPass, AreOf, AreShaped, NetStands, parts_of};
ghost use Rattle.ff_net.specs.laws.Theorem.{AllFare, MeetsSolution};
ghost use Rattle.ff_net.specs.laws.Worlds.{lanes_of};

use crate::machine::Machine;
use crate::node::Node;
use crate::wires::Wires;
use ff_sched::SchedCell;
use std::sync::Wait;

/// One turn for each entry.
///
/// Whatever the turns, the nodes meet the solution of the network (`solved`). What a node took lies below it, and
/// with its breaks where no node with a lower number has a fault. Then its own fault of the inputs is the cause of
/// the solution's streams. Where none has a fault, the machine of each node without outputs that is done was fed the
/// solution's streams, and they are whole.
pub fn run_serial<R: Wait, M: Machine>(
    rt: &R,
    nodes: &mut [Node<M>],
    cell: &SchedCell,
    wires: &mut Wires,
    order: &[usize],
)
    requires shaped { AreShaped M.view nodes.old wires.old }
    requires cell { AreOf M.view cell.now nodes.old }
    requires order { (i : ℕ) (d : ℕ) → i < length order.now → slice_index_or order.now i d < length nodes.old }
    ensures shaped { AreShaped M.view nodes.new wires.new }
    ensures cell { AreOf M.view cell.now nodes.new }
    ensures passes { AllPass nodes.old nodes.new }
    ensures lanes { lanes_of wires.new ≡ lanes_of wires.old }
    ensures parts { (tasks : ℕ → Task) → parts_of M.view tasks nodes.new ≡ parts_of M.view tasks nodes.old }
    ensures fares { AllFare M.view nodes.old nodes.new }
    ensures stands { (tasks : ℕ → Task) → NetStands M.view tasks nodes.old wires.old → NetStands M.view tasks nodes.new wires.new }
    ensures solved { (tasks : ℕ → Task) → NetStands M.view tasks nodes.old wires.old → IsUpward [] (parts_of M.view tasks nodes.new) → (net : NetStands M.view tasks nodes.new wires.new) × MeetsSolution M.view tasks nodes.old nodes.new net.world }
{
    for k in order {
        let node = &mut nodes[*k];
        let _turn = node.turn(rt, cell, wires, true);
    }
}
