//! The memory in which links are settled, taken before the nodes run.
ghost use Rattle.std.specs.Prelude.{◌≡◌, ◌<◌, ◌≤◌, ℕ, [], length, slice_index_or, vec_capacity, None, IfOk};

use ff_link::{Sender, Settled};
use ff_net::Fault;
use ff_sched::Pass;
use std::alloc::{AllocError, Global};

/// Room for settling the links of so many nodes, numbered below so many.
#[derive(Drop)]
pub struct Room<M> {
    table: Vec<Option<Sender>>,
    settled: Vec<Settled>,
    machines: Vec<M>,
    passes: Vec<Pass>,
    faults: Vec<Option<Fault>>,
    ghost places: { length settled.items ≡ length table.items },
}

/// The lists of a room.
#[derive(Drop)]
pub(crate) struct Lists<M> {
    /// The senders by link, none of which is there yet.
    pub(crate) table: Vec<Option<Sender>>,
    /// What went over each link, by its number.
    pub(crate) settled: Vec<Settled>,
    /// The machines.
    pub(crate) machines: Vec<M>,
    /// The passes.
    pub(crate) passes: Vec<Pass>,
    /// The faults.
    pub(crate) faults: Vec<Option<Fault>>,
}

// A table without a sender, with so many places.
fn new_table(alloc: Global, links: usize) -> Result<Vec<Option<Sender>>, AllocError>
    ensures none { IfOk result (λ table. (w : ℕ) (d : _) → w < length table.items → slice_index_or table.items w d ≡ None) }
    ensures count { IfOk result (λ table. length table.items ≡ links) }
{
    let mut table = Vec::new(alloc);
    for _ in 0..links {
        table.push(None)?;
    }
    Ok(table)
}

// Links over which nothing went, so many.
fn none_settled(alloc: Global, links: usize) -> Result<Vec<Settled>, AllocError>
    ensures { IfOk result (λ settled. length settled.items ≡ links) }
{
    vec![in alloc; Settled { sent: 0, taken: 0 }; links]
}

impl<M: Drop> Room<M> {
    ghost use Rattle.ff_net_threads.specs.laws.links.Rooms.{IsUnused, links_of, most_nodes};

    /// Room for at least so many nodes, and for links with numbers below this. `Err` where memory is refused.
    pub fn new(alloc: Global, nodes: usize, links: usize) -> Result<Room<M>, AllocError>
        ensures unused { IfOk result (λ r. IsUnused r) }
        ensures nodes { IfOk result (λ r. nodes ≤ most_nodes r) }
        ensures links { IfOk result (λ r. links_of r ≡ links) }
    {
        let table = new_table(alloc, links)?;
        let settled = none_settled(alloc, links)?;
        let mut machines = Vec::new(alloc);
        machines.reserve(nodes)?;
        let mut passes = Vec::new(alloc);
        passes.reserve(nodes)?;
        let mut faults = Vec::new(alloc);
        faults.reserve(nodes)?;
        Ok(Room {
            table,
            settled,
            machines,
            passes,
            faults,
        })
    }

    /// Its lists: of senders by link, of what went over each link, and for the machines, their passes and their faults.
    pub(crate) fn into_lists(self) -> Lists<M>
        ensures table { IsUnused self → (w : ℕ) (d : _) → w < length result.table.items → slice_index_or result.table.items w d ≡ None }
        ensures links { length result.table.items ≡ links_of self }
        ensures places { length result.settled.items ≡ links_of self }
        ensures machines { IsUnused self → result.machines.items ≡ [] }
        ensures passes { IsUnused self → result.passes.items ≡ [] }
        ensures faults { IsUnused self → result.faults.items ≡ [] }
        ensures nodes { (most_nodes self ≤ vec_capacity result.machines) × (most_nodes self ≤ vec_capacity result.passes)
            × (most_nodes self ≤ vec_capacity result.faults) }
    {
        Lists {
            table: self.table,
            settled: self.settled,
            machines: self.machines,
            passes: self.passes,
            faults: self.faults,
        }
    }
}
