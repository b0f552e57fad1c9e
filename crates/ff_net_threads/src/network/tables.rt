//! New links, one for each edge.
ghost use Rattle.std.specs.Prelude.{◌≡◌, ◌≤◌, Some, IfOk};
ghost use Rattle.ff_net_threads.specs.laws.network.Tables.{AreEnds, AreTables};

use ff_link::{Claims, Receiver, Sender, link_claiming};
use ff_stream::{Edge, Lane};
use std::alloc::{AllocError, Global};

/// The ends of links, by the numbers of the edges.
#[derive(Drop)]
pub struct Tables {
    /// The sender of each edge's link, until it is taken.
    pub senders: Vec<Option<Sender>>,
    /// The receiver of each edge's link, until it is taken.
    pub receivers: Vec<Option<Receiver>>,
}

fn new_link<C: Claims>(
    alloc: Global,
    size: usize,
    lane: &Lane,
) -> Result<(Sender, Receiver), AllocError>
    requires { (1 ≤ size) × (size ≤ 1024) }
    ensures { IfOk result (λ ends. AreEnds C.claims size lane.now (Some ends.0) (Some ends.1)) }
{
    link_claiming::<C>(alloc, size, lane)
}

/// A new link of this size for each edge, with the claim that `C` makes.
pub fn link_all<C: Claims>(alloc: Global, edges: &[Edge], size: usize) -> Result<Tables, AllocError>
    requires { (1 ≤ size) × (size ≤ 1024) }
    ensures { IfOk result (λ t. AreTables C.claims size edges.now t.senders.items t.receivers.items) }
{
    let mut senders = Vec::new(alloc);
    let mut receivers = Vec::new(alloc);
    for edge in edges {
        let (sender, receiver) = new_link::<C>(alloc, size, &edge.lane)?;
        senders.push(Some(sender))?;
        receivers.push(Some(receiver))?;
    }
    Ok(Tables { senders, receivers })
}
