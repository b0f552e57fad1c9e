//! A machine as a node: on wires, with a pass of the scheduler's cell.
ghost use Rattle.std.specs.Prelude.{◌≡◌, true, false};

mod grants;
mod rounds;
mod steps;
mod tells;
mod turns;

use crate::fault::Fault;
use crate::machine::Machine;
use crate::ports::{InPort, OutPort, all_out_done, in_ports, out_ports};
use ff_frame::Ticket;
use ff_sched::Pass;
use std::alloc::{AllocError, Global};

/// A machine on wires, with the items that it gave and that found no room yet, and with its pass of the scheduler's cell.
#[derive(Drop)]
pub struct Node<M> {
    machine: M,
    ins: Vec<InPort>,
    outs: Vec<OutPort>,
    refused: bool,
    pass: Pass,
    hand: Option<Ticket>,
    quiet: bool,
}

/// No memory for the lists of a node: its machine and its pass, given back.
#[derive(Drop)]
pub struct NodeRefused<M> {
    /// The machine, as it was.
    pub machine: M,
    /// The pass, as it was.
    pub pass: Pass,
}

/// What came of a turn.
#[derive(Clone, Copy, PartialEq, Eq, Debug)]
pub enum Turn {
    /// Something moved, was granted or was told.
    Moved,
    /// Nothing moved: a wire has no room, or no item, or the node's source may not be read.
    NotYet,
    /// Nothing more will move.
    Done,
}

/// How a turn ends that is the last one or not, and that moved something or not.
pub fn turn_of(done: bool, moved: bool) -> Turn
    ensures done { result ≡ Turn.Done → done ≡ true }
    ensures exact { done ≡ true → result ≡ Turn.Done }
    ensures moved { result ≡ Turn.Moved → moved ≡ true }
    ensures not_yet { result ≡ Turn.NotYet → (moved ≡ false) × (done ≡ false) }
{
    if done {
        Turn::Done
    } else if moved {
        Turn::Moved
    } else {
        Turn::NotYet
    }
}

impl<M: Machine> Node<M> {
    ghost use Rattle.std.specs.Prelude.{◌≡◌, ◌<◌, ◌↔◌, ℕ, length, [], Option, None, Some, IfOk, IfErr, IsTrue, true};
    ghost use Rattle.ff_net.specs.Pasts.{Task, start};
    ghost use Rattle.ff_net.specs.laws.Worlds.{Wire, fresh};
    ghost use Rattle.ff_net.specs.laws.Nodes.{IsSound, IsDone, NodeStands, machine_of, pass_of, in_wires_of, out_wires_of};

    /// A machine on these wires, with a pass that has added nothing. Machine and pass come back where memory is refused.
    pub fn new(
        alloc: Global,
        machine: M,
        ins: Vec<usize>,
        outs: Vec<usize>,
        pass: Pass,
    ) -> Result<Node<M>, NodeRefused<M>>
        requires log { pass.log ≡ [] }
        ensures ins { IfOk result (λ node. in_wires_of node ≡ ins.items) }
        ensures outs { IfOk result (λ node. out_wires_of node ≡ outs.items) }
        ensures machine { IfOk result (λ node. machine_of node ≡ machine) }
        ensures pass { IfOk result (λ node. pass_of node ≡ pass) }
        ensures fresh { IfOk result (λ node. (task : Task) → (M.view machine).stands (start task) → NodeStands M.view node (λ w. fresh) (start task)) }
        ensures sound { IfOk result (λ node. (M.view machine).fault ≡ None → IsSound M.view node) }
        ensures back { IfErr result (λ r. (r.machine ≡ machine) × (r.pass ≡ pass)) }
    {
        let ins: Vec<InPort> = match in_ports(alloc, &ins) {
            Ok(ins) => ins,
            Err(_) => return Err(NodeRefused { machine, pass }),
        };
        let outs: Vec<OutPort> = match out_ports(alloc, &outs) {
            Ok(outs) => outs,
            Err(_) => return Err(NodeRefused { machine, pass }),
        };
        Ok(Node {
            machine,
            ins,
            outs,
            refused: false,
            pass,
            hand: None,
            quiet: false,
        })
    }

    /// What went wrong here: the machine's fault, or that memory was refused.
    pub fn fault(&self) -> Option<Fault>
        ensures sound { result ≡ None → IsSound M.view self.now }
        ensures none { IsSound M.view self.now → result ≡ None }
        ensures machine { (c : Fault) → (M.view (machine_of self.now)).fault ≡ Some c → result ≡ Some c }
        ensures refused { (M.view (machine_of self.now)).fault ≡ None → (IsSound M.view self.now → ⊥) → result ≡ Some Fault.NoMemory }
    {
        match self.machine.fault() {
            Some(fault) => Some(fault),
            None => if self.refused {
                Some(Fault::NoMemory)
            } else {
                None
            },
        }
    }

    /// Whether each input was finished, and each output is closed and given or was told that its receiver has
    /// finished. Each event that is due was told too, unless memory was refused.
    pub fn is_done(&self) -> bool
        ensures done { result ≡ true → IsDone self.now }
        ensures exact { IsDone self.now → result ≡ true }
    {
        let told = self.quiet || self.refused;
        told && self.ins_done() && all_out_done(&self.outs)
    }

    /// The number of its source, where its machine is one.
    pub fn source(&self) -> Option<u32>
        ensures { result ≡ (M.view (machine_of self.now)).source }
    {
        self.machine.source()
    }

    /// How many events its pass has added.
    pub fn logged(&self) -> u64
        ensures { result ≡ length (pass_of self.now).log }
    {
        self.pass.logged()
    }

    /// The machine, and the pass.
    pub fn into_parts(self) -> (M, Pass)
        ensures machine { result.0 ≡ machine_of self }
        ensures pass { result.1 ≡ pass_of self }
    {
        (self.machine, self.pass)
    }
}
