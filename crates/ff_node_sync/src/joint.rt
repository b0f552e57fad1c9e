//! The node on which the streams of one output come together, with or without `-shortest`.
ghost use Rattle.std.specs.Prelude.{IfOk, ◌≡◌, map, None};
ghost use Rattle.ff_stream.specs.declared.item.Lane.TheVariants.{Frames};
ghost use Rattle.ff_net.specs.Pasts.{start};
ghost use Rattle.ff_node_sync.specs.JointTask.{joint_task, IsJointOf};
ghost use Rattle.ff_node_sync.specs.laws.Joints.{joint_view, joint_spends, joint-grows, joint-hides, joint-settles, joint-quiet};
ghost use Rattle.ff_node_sync.specs.laws.Joints.{joint-spent_only, joint-shut_spent, joint-done_spent};

use crate::shortest::Shortest;
use crate::straight::Straight;
use ff_filter::Filter;
use ff_frame::StreamHead;
use ff_net::Machine;
use ff_node_filter::Alone;
use ff_stream::{Item, Refused};
use std::alloc::{AllocError, Global};

/// The streams of one output together: each up to the end of the shortest, or as they are.
#[derive(Drop)]
pub enum Joint {
    /// Each up to the end of the shortest.
    Shortest(Shortest),
    /// As they are.
    Straight(Straight),
}

impl Filter for Joint {
    ghost view = { joint_view };

    ghost spends = { joint_spends };

    fn inputs(&self) -> usize {
        match self {
            Joint::Shortest(filter) => filter.inputs(),
            Joint::Straight(filter) => filter.inputs(),
        }
    }

    fn outputs(&self) -> usize {
        match self {
            Joint::Shortest(filter) => filter.outputs(),
            Joint::Straight(filter) => filter.outputs(),
        }
    }

    fn is_shut(&self, port: usize) -> bool {
        match self {
            Joint::Shortest(filter) => filter.is_shut(port),
            Joint::Straight(filter) => filter.is_shut(port),
        }
    }

    fn is_stopped(&self, port: usize) -> bool {
        match self {
            Joint::Shortest(filter) => filter.is_stopped(port),
            Joint::Straight(filter) => filter.is_stopped(port),
        }
    }

    fn feed(&mut self, port: usize, item: Item) -> Result<(), Refused> {
        match self {
            Joint::Shortest(filter) => filter.feed(port, item),
            Joint::Straight(filter) => filter.feed(port, item),
        }
    }

    fn pull(&mut self, port: usize) -> Result<Option<Item>, AllocError> {
        match self {
            Joint::Shortest(filter) => filter.pull(port),
            Joint::Straight(filter) => filter.pull(port),
        }
    }

    fn stop(&mut self, port: usize) {
        match self {
            Joint::Shortest(filter) => filter.stop(port),
            Joint::Straight(filter) => filter.stop(port),
        }
    }

    fn spent(&self, port: usize) -> bool {
        match self {
            Joint::Shortest(filter) => filter.spent(port),
            Joint::Straight(filter) => filter.spent(port),
        }
    }

    ghost grows = { joint-grows };

    ghost hides = { joint-hides };

    ghost settles = { joint-settles };

    ghost quiet = { joint-quiet };

    ghost spent_only = { joint-spent_only };

    ghost shut_spent = { joint-shut_spent };

    ghost done_spent = { joint-done_spent };
}

// The filter, of which nothing came yet.
fn joint_filter(alloc: Global, is_shortest: bool, heads: &[StreamHead]) -> Result<Joint, AllocError>
    ensures { IfOk result (λ m. IsJointOf is_shortest heads.now (⟦<Joint as Filter>⟧.view m)) }
{
    if is_shortest {
        Ok(Joint::Shortest(Shortest::of(alloc, heads)?))
    } else {
        Ok(Joint::Straight(Straight::new(alloc, heads)?))
    }
}

/// The machine of the node on which all streams of one output come together. It shortens each to the end of the
/// shortest, or gives them as they are. It has no fault of its own.
pub fn joint_machine(
    alloc: Global,
    is_shortest: bool,
    heads: &[StreamHead],
) -> Result<Alone<Joint>, AllocError>
    ensures in_lanes { IfOk result (λ m. (⟦<Alone<Joint> as Machine>⟧.view m).in_lanes ≡ map Frames heads.now) }
    ensures out_lanes { IfOk result (λ m. (⟦<Alone<Joint> as Machine>⟧.view m).out_lanes ≡ map Frames heads.now) }
    ensures source { IfOk result (λ m. (⟦<Alone<Joint> as Machine>⟧.view m).source ≡ None) }
    ensures fault { IfOk result (λ m. (⟦<Alone<Joint> as Machine>⟧.view m).fault ≡ None) }
    ensures stands { IfOk result (λ m. (⟦<Alone<Joint> as Machine>⟧.view m).stands (start (joint_task is_shortest heads.now))) }
{
    let filter = joint_filter(alloc, is_shortest, heads)?;
    Ok(Alone::new(filter))
}
