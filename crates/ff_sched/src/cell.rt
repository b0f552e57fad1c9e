//! The scheduler's state as a cell that threads share.
ghost use Rattle.std.specs.Prelude.{◌≡◌, ◌+◌, ◌-◌, ◌<◌, ◌≤◌, ◌^◌, true, false, List, length, slice_index, IfOk, OnErr, MatchResult};
ghost use Rattle.crossbeam_utils.specs.Seq.{cell_view};
ghost use Rattle.ff_frame.specs.declared.event.Event.{Event};
ghost use Rattle.ff_sched.specs.State.{State};
ghost use Rattle.ff_sched.specs.laws.Routes.{AreRoutes};
ghost use Rattle.ff_sched.specs.Events.{IsSmall, IsInRange, IsTold};
ghost use Rattle.ff_sched.specs.Histories.{MayCome};
ghost use Rattle.ff_sched.specs.laws.Rule.{Adds, Refuses, HasAll, joined, less, fresh, Looks as LooksAt};
ghost use Rattle.ff_sched.specs.laws.Words.{state_of};
ghost use Rattle.ff_sched.specs.laws.Passing.{Told, IsFirst, IsSplit, IsOpened};
ghost use Rattle.ff_sched.specs.laws.Answers.{Granted};

use crate::choking::unchokes;
use crate::logged::Logged;
use crate::pass::Pass;
use crate::routes::Routes;
use crate::rule::{
    Cell, Closes, Everything, Looks, Named, Opens, Parts, Portion, Routed, Seat, Tells,
};
use crate::state::SchedState;
use crate::words::{COUNT, stepped};
use ff_frame::{Event, Ticket};
use std::alloc::{AllocError, Global};
use std::marker::{Brand, Model};
use std::sync::Wait;

/// The answer to a source that asks for a grant.
#[derive(Drop)]
pub enum Grant {
    /// It may give one packet, or its end.
    Go(Ticket),
    /// It may not: this state doesn't unchoke it.
    Choked(SchedState),
}

/// The scheduler's state, which threads share. Contracts see which cell it is, its routes, and the state in which it was
/// made.
#[derive(Drop)]
pub struct SchedCell {
    /// Where its passes take their memory from.
    pub(crate) alloc: Global,
    /// The cell itself.
    pub(crate) cell: Cell,
    routes: Routes,
    opening: SchedState,
}

impl Model for SchedCell {
    ghost use Rattle.ff_sched.specs.laws.Passing.{Scheduler};
    ghost use Rattle.ff_sched.specs.laws.Routes.{AreRoutes};

    ghost Value = { Scheduler };

    ghost view = { λ c. record { table = c.cell.table.shared.table_id; routes = c.routes; opening = c.opening } };

    ghost invariant = { λ c. AreRoutes c.routes };
}

// Looks at the words.
fn look<R: Wait>(rt: &R, cell: &Cell, seat: &mut Seat) -> [u64; 20]
    requires cell { seat.old.table_id ≡ cell.now.table.shared.table_id }
    requires opened { (cell_view seat.old).opened ≡ true }
    requires share { length (cell_view seat.old).mine < (cell_view seat.old).share }
    ensures cell { seat.new.table_id ≡ seat.old.table_id }
    ensures seen { LooksAt (cell_view seat.old) result (cell_view seat.new) }
{
    cell.load_as::<Looks, R>(rt, seat)
}

// Adds the event where the words are still these. Whether it was added.
fn add<E: Named, R: Wait>(
    rt: &R,
    cell: &Cell,
    seat: &mut Seat,
    words: [u64; 20],
    event: Event,
) -> bool
    requires cell { seat.old.table_id ≡ cell.now.table.shared.table_id }
    requires named { event ≡ E.event }
    requires opened { (cell_view seat.old).opened ≡ true }
    requires share { length (cell_view seat.old).mine < (cell_view seat.old).share }
    requires small { IsSmall event }
    requires few { slice_index words 18 < 2 ^ 62 }
    requires may { MayCome (cell_view seat.old).routes (state_of words) event }
    ensures cell { seat.new.table_id ≡ seat.old.table_id }
    ensures yes { result ≡ true → Adds E.event (cell_view seat.old) (slice_index words 18) (cell_view seat.new) }
    ensures no { result ≡ false → cell_view seat.new ≡ cell_view seat.old }
{
    let next = stepped(words, event);
    match cell.compare_exchange_as::<Tells<E>, R>(rt, seat, words, next) {
        Ok(_) => true,
        Err(_) => false,
    }
}

// Adds the event, and gives its place.
fn tell_as<E: Named, R: Wait>(rt: &R, cell: &Cell, seat: &mut Seat, event: Event) -> u64
    requires cell { seat.old.table_id ≡ cell.now.table.shared.table_id }
    requires named { event ≡ E.event }
    requires opened { (cell_view seat.old).opened ≡ true }
    requires share { length (cell_view seat.old).mine < (cell_view seat.old).share }
    requires small { IsSmall event }
    requires told { (s : State) → MayCome (cell_view seat.old).routes s event }
    ensures cell { seat.new.table_id ≡ seat.old.table_id }
    ensures added { Adds E.event (cell_view seat.old) result (cell_view seat.new) }
{
    for _ in rt.forever() {
        let words = look(rt, cell, seat);
        if add::<E, R>(rt, cell, seat, words, event) {
            return words[COUNT];
        }
    }
    unreachable!()
}

// Adds a grant, or gives a state that doesn't unchoke the source.
fn grant_as<E: Named, R: Wait>(
    rt: &R,
    cell: &Cell,
    seat: &mut Seat,
    routes: &Routes,
    source: u32,
) -> Result<u64, SchedState>
    requires cell { seat.old.table_id ≡ cell.now.table.shared.table_id }
    requires named { Event.Grant source ≡ E.event }
    requires opened { (cell_view seat.old).opened ≡ true }
    requires share { length (cell_view seat.old).mine < (cell_view seat.old).share }
    requires routes { (routes.now ≡ (cell_view seat.old).routes) × AreRoutes routes.now }
    requires source { source < routes.now.sources }
    ensures cell { seat.new.table_id ≡ seat.old.table_id }
    ensures answer { MatchResult result
        (λ place. Adds E.event (cell_view seat.old) place (cell_view seat.new))
        (λ state. Refuses (cell_view seat.old) source state (cell_view seat.new)) }
{
    for _ in rt.forever() {
        let words = look(rt, cell, seat);
        let state = SchedState { words };
        if !unchokes(&state, routes, source) {
            return Err(state);
        }
        if add::<E, R>(rt, cell, seat, words, Event::Grant(source)) {
            return Ok(words[COUNT]);
        }
    }
    unreachable!()
}

// Gives a part of the share to a new seat.
fn part_as<F: Portion>(cell: &Cell, seat: &mut Seat, share: u64) -> Seat
    requires cell { seat.old.table_id ≡ cell.now.table.shared.table_id }
    requires amount { share ≡ F.amount }
    requires share { length (cell_view seat.old).mine + share ≤ (cell_view seat.old).share }
    ensures cell { (seat.new.table_id ≡ seat.old.table_id) × (result.table_id ≡ seat.old.table_id) }
    ensures less { cell_view seat.new ≡ less (cell_view seat.old) share }
    ensures fresh { cell_view result ≡ fresh (cell_view seat.old) share }
{
    cell.split_pass::<Parts<F>>(seat)
}

/// Puts all that another seat knows to what a seat knows.
pub(crate) fn absorb(cell: &Cell, seat: &mut Seat, mut other: Seat)
    requires cell { (seat.old.table_id ≡ cell.now.table.shared.table_id)
        × (other.table_id ≡ cell.now.table.shared.table_id) }
    ensures cell { seat.new.table_id ≡ seat.old.table_id }
    ensures joined { cell_view seat.new ≡ joined (cell_view seat.old) (cell_view other) }
{
    let whole = cell.split_pass::<Everything>(&mut other);
    cell.join_pass::<Everything>(seat, whole);
}

/// What a seat with the whole share sees: all of the history.
pub(crate) fn last_look<R: Wait>(rt: &R, cell: &Cell, seat: &mut Seat)
    requires cell { seat.old.table_id ≡ cell.now.table.shared.table_id }
    requires opened { (cell_view seat.old).opened ≡ true }
    requires whole { (cell_view seat.old).share ≡ 2 ^ 62 }
    ensures { HasAll (cell_view seat.old) (cell_view seat.new) }
{
    cell.load_as::<Closes, R>(rt, seat);
}

// A cell with these words, and a seat with the whole share that knows the routes.
fn open_as<F: Routed, R: Wait>(
    rt: &R,
    alloc: Global,
    state: &SchedState,
    routes: &Routes,
) -> Result<(Cell, Seat), AllocError>
    requires count { state.now.count ≡ 0 }
    requires routes { routes.now ≡ F.routes }
    ensures { IfOk result (λ r. IsOpened r.0.table.shared.table_id state.now routes.now r.1.table_id (cell_view r.1)) }
{
    let (cell, mut seat) = Cell::ruled(alloc, state.words)?;
    cell.swap_as::<Opens<F>, R>(rt, &mut seat, state.words);
    Ok((cell, seat))
}

impl SchedCell {
    /// A cell in this state, with a pass that has the whole share: 2^62 events.
    pub fn new<R: Wait>(
        rt: &R,
        alloc: Global,
        state: SchedState,
        routes: Routes,
    ) -> Result<(SchedCell, Pass), AllocError>
        requires count { state.count ≡ 0 }
        requires routes { AreRoutes routes }
        ensures { IfOk result (λ r. (r.0.routes ≡ routes) × (r.0.opening ≡ state) × IsFirst r.0 r.1) }
    {
        let opening = state.again();
        let (cell, seat) = open_as::<Brand, R>(rt, alloc, &state, &routes)?;
        let pass = Pass {
            seat,
            share: 1 << 62,
            log: Vec::new(alloc),
        };
        Ok((
            SchedCell {
                alloc,
                cell,
                routes,
                opening,
            },
            pass,
        ))
    }

    /// Its routes.
    pub fn routes(&self) -> &Routes
        ensures { result.now ≡ self.now.routes }
    {
        &self.routes
    }

    /// Gives a part of the share of a pass to a new one, and no more than it hasn't used. At `Err` there is no memory, and the
    /// pass is as it was.
    pub fn split(&self, pass: &mut Pass, share: u64) -> Result<Pass, AllocError>
        requires cell { pass.old.cell ≡ self.now }
        requires share { length pass.old.log + share ≤ pass.old.share }
        ensures ok { IfOk result (λ r. IsSplit pass.old share pass.new r) }
        ensures err { OnErr result (pass.new ≡ pass.old) }
    {
        let seat = part_as::<Brand>(&self.cell, &mut pass.seat, share);
        pass.share -= share;
        Ok(Pass {
            seat,
            share,
            log: Vec::new(self.alloc),
        })
    }

    /// Adds a grant for a source where the state unchokes it. It takes no memory: the pass has room for the entry.
    pub fn take_grant<R: Wait>(&self, rt: &R, pass: &mut Pass, source: u32) -> Grant
        requires cell { pass.old.cell ≡ self.now }
        requires spare { 1 ≤ pass.old.spare }
        requires share { length pass.old.log < pass.old.share }
        requires range { source < self.now.routes.sources }
        ensures { Granted pass.old source result pass.new }
    {
        match grant_as::<Brand, R>(rt, &self.cell, &mut pass.seat, &self.routes, source) {
            Ok(place) => {
                let event = Event::Grant(source);
                pass.log.push_reserved(Logged { place, event });
                Grant::Go(Ticket { source, place })
            }
            Err(state) => Grant::Choked(state),
        }
    }

    /// Adds an event that is no grant, and gives its place. It takes no memory: the pass has room for the entry.
    pub fn tell<R: Wait>(&self, rt: &R, pass: &mut Pass, event: Event) -> u64
        requires cell { pass.old.cell ≡ self.now }
        requires spare { 1 ≤ pass.old.spare }
        requires share { length pass.old.log < pass.old.share }
        requires range { IsInRange self.now.routes event }
        requires told { IsTold event }
        ensures { Told pass.old event result pass.new }
    {
        let place = tell_as::<Brand, R>(rt, &self.cell, &mut pass.seat, event);
        pass.log.push_reserved(Logged { place, event });
        place
    }
}
