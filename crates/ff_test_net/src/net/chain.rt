//! A source, a relay and a sink, in a chain.
ghost use Rattle.std.specs.Prelude.{◌≡◌, ◌≤◌, ◌^◌, IfOk};
ghost use Rattle.ff_net_threads.specs.laws.links.Runs.{AllOf};
ghost use Rattle.ff_test_machines.specs.Packets.{IsWhole, byte_lane};
ghost use Rattle.ff_test_machines.specs.Plains.{plain_view};
ghost use Rattle.ff_test_net.specs.net.Chains.{IsNewSender, IsNewReceiver, IsChain, chain_tasks};
ghost use Rattle.ff_test_net.specs.net.Seats.{IsSeat};

use crate::net::node::{relay_node, sink_node, source_node};
use crate::net::seats::part;
use ff_link::{Receiver, Sender, link};
use ff_net_threads::Linked;
use ff_sched::{Pass, SchedCell};
use ff_test_machines::{Plain, lane_of};
use ff_time::Rational;
use std::alloc::{AllocError, Global};

fn new_link(alloc: Global, size: usize, tb: Rational) -> Result<(Sender, Receiver), AllocError>
    requires { (1 ≤ size) × (size ≤ 1024) }
    ensures one_link { IfOk result (λ ends. ends.0.link ≡ ends.1.link) }
    ensures sender { IfOk result (λ ends. IsNewSender (byte_lane tb) ends.0) }
    ensures receiver { IfOk result (λ ends. IsNewReceiver (byte_lane tb) ends.1) }
{
    link(alloc, size, &lane_of(tb))
}

/// A source of so many packets, a relay that ends after `limit` items, and a sink, over links of this size. Each has
/// a part of the share of a pass.
pub fn chain(
    alloc: Global,
    tb: Rational,
    size: usize,
    count: u32,
    limit: usize,
    cell: &SchedCell,
    mut pass: Pass,
) -> Result<Vec<Linked<Plain>>, AllocError>
    requires seat { IsSeat cell.now pass }
    requires share { pass.share ≡ 2 ^ 62 }
    requires base { IsWhole tb }
    requires size { (1 ≤ size) × (size ≤ 1024) }
    requires few { count ≤ 2 ^ 20 }
    ensures of { IfOk result (λ v. AllOf plain_view cell.now v.items) }
    ensures chain { IfOk result (λ v. IsChain (chain_tasks count limit) (byte_lane tb) v.items) }
{
    let (first, second) = new_link(alloc, size, tb)?;
    let (third, fourth) = new_link(alloc, size, tb)?;
    let one = part(cell, &mut pass, 1 << 45)?;
    let two = part(cell, &mut pass, 1 << 45)?;
    let source = source_node(alloc, tb, count, first, one)?;
    let relay = relay_node(alloc, tb, limit, second, third, two)?;
    let sink = sink_node(alloc, tb, fourth, pass)?;
    Ok(vec![in alloc; source, relay, sink]?)
}
