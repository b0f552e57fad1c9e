//! The end of a run by the fault that is reported.
ghost use Rattle.std.specs.Prelude.{◌≡◌, ◌<◌, ◌^◌, length};
ghost use Rattle.ff_run_plan.specs.Meaning.{read_before as read_before_of};
ghost use Rattle.ff_run_plan.specs.laws.Runs.{device_end as device_end_of, damaged_end as damaged_end_of, large_end as large_end_of, end_at as end_at_of, end_with as end_with_of};

use crate::fault::RunFault;
use ff_files::WorkEnd;
use ff_net::Fault;
use ff_net_threads::network::NodeFault;
use ff_plan::PlanNode;

// Only a Demux and a Mux node have a device.
fn device_end(node: PlanNode) -> WorkEnd<RunFault>
    ensures { result ≡ device_end_of node }
{
    match node {
        PlanNode::Demux { input } => WorkEnd::Input { input },
        PlanNode::Mux { output } => WorkEnd::Output { output },
        PlanNode::Gen { .. }
        | PlanNode::Dec { .. }
        | PlanNode::Graph { .. }
        | PlanNode::Shortest { .. }
        | PlanNode::Enc { .. } => WorkEnd::NoMemory,
    }
}

// Only a Demux and a Dec node find damage.
fn damaged_end(offset: u64, node: PlanNode) -> WorkEnd<RunFault>
    ensures { result ≡ damaged_end_of offset node }
{
    let input = match node {
        PlanNode::Demux { input } => input,
        PlanNode::Dec { stream } => stream.input,
        PlanNode::Gen { .. }
        | PlanNode::Graph { .. }
        | PlanNode::Shortest { .. }
        | PlanNode::Enc { .. }
        | PlanNode::Mux { .. } => return WorkEnd::NoMemory,
    };
    WorkEnd::Broken(RunFault::Damaged { input, offset })
}

// Only a Mux node has a greatest size.
fn large_end(node: PlanNode) -> WorkEnd<RunFault>
    ensures { result ≡ large_end_of node }
{
    match node {
        PlanNode::Mux { output } => WorkEnd::Broken(RunFault::TooLarge { output }),
        PlanNode::Demux { .. }
        | PlanNode::Gen { .. }
        | PlanNode::Dec { .. }
        | PlanNode::Graph { .. }
        | PlanNode::Shortest { .. }
        | PlanNode::Enc { .. } => WorkEnd::NoMemory,
    }
}

// Inputs below this number are read by nodes before this one, as far as they are used.
fn read_before(inputs: u32, node: PlanNode) -> u32
    ensures { result ≡ read_before_of inputs node }
{
    match node {
        PlanNode::Demux { input } => input,
        PlanNode::Gen { .. }
        | PlanNode::Dec { .. }
        | PlanNode::Graph { .. }
        | PlanNode::Shortest { .. }
        | PlanNode::Enc { .. }
        | PlanNode::Mux { .. } => inputs,
    }
}

fn end_at(inputs: u32, number: u32, fault: Fault, node: PlanNode) -> WorkEnd<RunFault>
    ensures { result ≡ end_at_of inputs number fault node }
{
    match fault {
        Fault::Device => device_end(node),
        Fault::Damaged { offset } => damaged_end(offset, node),
        Fault::TooLong => WorkEnd::Broken(RunFault::TooLong {
            node: number,
            before: read_before(inputs, node),
        }),
        Fault::TooLarge => large_end(node),
        Fault::NoMemory => WorkEnd::NoMemory,
    }
}

/// The end of a run of these nodes with this fault, with so many inputs.
pub(crate) fn end_with(
    inputs: u32,
    nodes: &[PlanNode],
    fault: Option<NodeFault>,
) -> WorkEnd<RunFault>
    ensures { result ≡ end_with_of inputs nodes.now fault }
{
    match fault {
        None => WorkEnd::Fine,
        Some(NodeFault { node, fault }) => match nodes.get(node as usize) {
            Some(at) => end_at(inputs, node, fault, *at),
            None => WorkEnd::NoMemory,
        },
    }
}
