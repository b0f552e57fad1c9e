//! A scheduler with one source and no output stream, and passes of its cell.
ghost use Rattle.std.specs.Prelude.{◌≡◌, ◌≤◌, ◌-◌, ◌^◌, IfOk};
ghost use Rattle.ff_test_net.specs.net.Seats.{IsSeat, AreSeats};

use ff_sched::{Graphs, Pass, Routes, SchedCell, SchedState, Ways};
use std::alloc::{AllocError, Global};
use std::sync::Wait;

/// The cell, and a pass with the whole share.
pub fn new_cell<R: Wait>(rt: &R, alloc: Global) -> Result<(SchedCell, Pass), AllocError>
    ensures seat { IfOk result (λ r. IsSeat r.0 r.1) }
    ensures share { IfOk result (λ r. r.1.share ≡ 2 ^ 62) }
{
    let routes = Routes {
        sources: 1,
        streams: Ways::new(Vec::new(alloc)),
        graphs: Graphs::new(Vec::new(alloc)),
    };
    let state = SchedState::opening(&routes, 0);
    SchedCell::new(rt, alloc, state, routes)
}

/// A part of the share of a pass, as a pass of its own.
pub fn part(cell: &SchedCell, pass: &mut Pass, share: u64) -> Result<Pass, AllocError>
    requires seat { IsSeat cell.now pass.old }
    requires share { share ≤ pass.old.share }
    ensures rest { IfOk result (λ r. IsSeat cell.now pass.new) }
    ensures left { IfOk result (λ r. pass.new.share ≡ pass.old.share - share) }
    ensures seat { IfOk result (λ r. IsSeat cell.now r) }
    ensures share { IfOk result (λ r. r.share ≡ share) }
{
    cell.split(pass, share)
}

/// Five passes of a cell.
#[derive(Drop)]
pub struct Seats {
    /// The pass that the others were parted from.
    pub first: Pass,
    /// The second pass.
    pub second: Pass,
    /// The third pass.
    pub third: Pass,
    /// The fourth pass.
    pub fourth: Pass,
    /// The fifth pass.
    pub fifth: Pass,
}

/// Five passes, from one with the whole share.
pub fn five_parts(cell: &SchedCell, mut first: Pass) -> Result<Seats, AllocError>
    requires seat { IsSeat cell.now first }
    requires share { first.share ≡ 2 ^ 62 }
    ensures { IfOk result (λ s. AreSeats cell.now s.first s.second s.third s.fourth s.fifth) }
{
    let second = part(cell, &mut first, 1 << 45)?;
    let third = part(cell, &mut first, 1 << 45)?;
    let fourth = part(cell, &mut first, 1 << 45)?;
    let fifth = part(cell, &mut first, 1 << 45)?;
    Ok(Seats {
        first,
        second,
        third,
        fourth,
        fifth,
    })
}
