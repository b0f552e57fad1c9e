//! The close of a cell, where the history is written from the logs of its passes.
ghost use Rattle.std.specs.Prelude.{◌≡◌, ◌≤◌, ◌^◌, length, slice_set, All, sum_by, IfOk, IfErr};
ghost use Rattle.crossbeam_utils.specs.Seq.{cell_view};
ghost use Rattle.ff_sched.specs.Histories.{all_in};
ghost use Rattle.ff_sched.specs.laws.Passing.{IsHistory, logs_of};
ghost use Rattle.ff_sched.specs.laws.Writing.{write_all, Gathers};

use crate::cell::{SchedCell, absorb, last_look};
use crate::history::History;
use crate::logged::Logged;
use crate::pass::Pass;
use crate::rule::{Cell, Seat};
use ff_frame::Event;
use std::alloc::{AllocError, Global};
use std::sync::Wait;

/// There is no memory for the history: the cell and its passes, given back.
#[derive(Drop)]
pub struct CloseRefused {
    /// The cell, as it was.
    pub cell: SchedCell,
    /// Its passes, as they were.
    pub passes: Vec<Pass>,
}

// So many events, to be written over.
fn row_of(alloc: Global, count: u64) -> Result<Vec<Event>, AllocError>
    ensures { IfOk result (λ v. length v.items ≡ count) }
{
    let mut events = Vec::new(alloc);
    events.resize(count as usize, Event::Exited(0))?;
    Ok(events)
}

// How many entries the logs have.
fn count_of(passes: &Vec<Pass>) -> u64
    requires { sum_by (λ p. p.share) passes.now.items ≤ 2 ^ 62 }
    ensures { result ≡ length (all_in (logs_of passes.now.items)) }
{
    let mut count = 0;
    for pass in passes {
        count += pass.logged();
    }
    count
}

// Writes an entry at its place. That its place is there is known once all passes are together.
fn write_entry(events: &mut Vec<Event>, entry: Logged)
    ensures { events.new.items ≡ slice_set events.old.items entry.place entry.event }
{
    let place = entry.place as usize;
    if place < events.len() {
        events[place] = entry.event;
    }
}

fn write_log(events: &mut Vec<Event>, log: &Vec<Logged>)
    ensures { events.new.items ≡ write_all log.now.items events.old.items }
{
    for entry in log {
        write_entry(events, *entry);
    }
}

// Puts all that these passes know to what a seat knows, and writes their logs.
fn gather(cell: &Cell, seat: &mut Seat, events: &mut Vec<Event>, passes: Vec<Pass>)
    requires { (seat.old.table_id ≡ cell.now.table.shared.table_id)
        × All (λ p. p.cell.table ≡ cell.now.table.shared.table_id) passes.items }
    ensures cell { seat.new.table_id ≡ seat.old.table_id }
    ensures gathered { Gathers passes.items (cell_view seat.old) (cell_view seat.new) }
    ensures written { events.new.items ≡ write_all (all_in (logs_of passes.items)) events.old.items }
{
    for pass in passes {
        let Pass {
            seat: other,
            log,
            ..
        } = pass;
        absorb(cell, seat, other);
        write_log(events, &log);
    }
}

impl SchedCell {
    /// The one history, written from the logs of all passes of the cell.
    pub fn close<R: Wait>(self, rt: &R, mut passes: Vec<Pass>) -> Result<History, CloseRefused>
        requires cell { All (λ p. p.cell ≡ self) passes.items }
        requires shares { sum_by (λ p. p.share) passes.items ≡ 2 ^ 62 }
        ensures ok { IfOk result (λ h. IsHistory self passes.items h) }
        ensures err { IfErr result (λ r. (r.cell ≡ self) × (r.passes.items ≡ passes.items)) }
    {
        let Ok(mut events) = row_of(self.alloc, count_of(&passes)) else {
            return Err(CloseRefused { cell: self, passes });
        };
        let Some(last) = passes.pop() else {
            unreachable!()
        };
        let Pass { mut seat, log, .. } = last;
        write_log(&mut events, &log);
        gather(&self.cell, &mut seat, &mut events, passes);
        last_look(rt, &self.cell, &mut seat);
        Ok(History { events })
    }
}
