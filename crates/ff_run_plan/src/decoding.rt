//! Which streams of an input the nodes of a plan decode.
ghost use Rattle.std.specs.Prelude.{◌≡◌, IfOk};
ghost use Rattle.ff_plan.specs.Decoded.{decoded_by as number_decoded_by, decoded_of};

use ff_plan::PlanNode;
use std::alloc::{AllocError, Global};

// The number of the stream of this input that a node decodes.
fn decoded_by(input: u32, node: PlanNode) -> Option<u32>
    ensures { result ≡ number_decoded_by input node }
{
    match node {
        PlanNode::Dec { stream } => if stream.input == input {
            Some(stream.stream)
        } else {
            None
        },
        PlanNode::Demux { .. }
        | PlanNode::Gen { .. }
        | PlanNode::Graph { .. }
        | PlanNode::Shortest { .. }
        | PlanNode::Enc { .. }
        | PlanNode::Mux { .. } => None,
    }
}

/// The numbers of the streams of an input that some nodes decode, in the order of the nodes.
pub(crate) fn decoded_in(
    alloc: Global,
    nodes: &[PlanNode],
    input: u32,
) -> Result<Vec<u32>, AllocError>
    ensures { IfOk result (λ numbers. numbers.items ≡ decoded_of nodes.now input) }
{
    let mut numbers = Vec::new(alloc);
    for node in nodes {
        if let Some(number) = decoded_by(input, *node) {
            numbers.push(number)?;
        }
    }
    Ok(numbers)
}
