//! The protocol of the cell: which exchanges are legal, and what each pass learns by its own.
use crate::logged::Logged;
use crate::routes::Routes;
use crate::state::SchedState;
use atomic_table::{Join, Split};
use crossbeam_utils::atomic::seq_cell;
use crossbeam_utils::atomic::seq_cell::RuledSeqCell;
use crossbeam_utils::rule::{Outcome, Protocol};
use ff_frame::Event;
use std::collections::LinkedList;
use std::marker::{Brand, PhantomData};

/// What a pass knows of the cell and of its history. No value of it is made.
pub struct View {
    /// Whether the cell is open, so that its routes and its opening state are fixed.
    pub opened: bool,
    /// The routes of the cell.
    pub routes: Routes,
    /// The state in which the cell was opened.
    pub opening: SchedState,
    /// How many events it may add in all.
    pub share: u64,
    /// The prefix of the history that it has seen.
    pub seen: LinkedList<Event>,
    /// The prefixes that it and the passes that were put to it had seen before.
    pub sights: LinkedList<LinkedList<Event>>,
    /// The entries of the history that it added.
    pub mine: LinkedList<Logged>,
}

/// The rule: there is one legal history.
pub struct OneHistory;

impl Protocol<[u64; 20], View> for OneHistory {
    ghost use Rattle.ff_sched.specs.laws.Rule.{Kept, first};

    ghost holds = { Kept };

    ghost first = { first };
}

/// The event of one call, which the call picks.
pub trait Named {
    ghost use Rattle.ff_frame.specs.declared.event.Event.{Event};

    ghost event: { Event };
}

impl Named for Brand {
    ghost use Rattle.ff_frame.specs.declared.event.Event.TheVariants.{Grant};

    ghost event = { Grant 0 };
}

/// How many of its events a pass gives away, which the call picks.
pub trait Portion {
    ghost use Rattle.std.specs.Prelude.{ℕ};

    ghost amount: { ℕ };
}

impl Portion for Brand {
    ghost amount = { 0 };
}

/// The routes of a cell, which the call picks.
pub trait Routed {
    ghost use Rattle.ff_sched.specs.declared.routes.Routes.{Routes};

    ghost routes: { Routes };
}

impl Routed for Brand {
    ghost use Rattle.ff_sched.specs.laws.Routes.{no_routes};

    ghost routes = { no_routes };
}

/// The first exchange, which fixes the routes and the opening state.
pub struct Opens<F> {
    routes: PhantomData<F>,
}

impl<F: Routed> Outcome<[u64; 20], View> for Opens<F> {
    ghost use Rattle.ff_sched.specs.laws.Rule as rule;

    ghost then = { λ v before after w. rule.Opens F.routes v after w };
}

/// Gives a new pass a part of the share.
pub struct Parts<F> {
    amount: PhantomData<F>,
}

impl<F: Portion> Split<View> for Parts<F> {
    ghost use Rattle.ff_sched.specs.laws.Rule.{less, fresh};

    ghost left = { λ v. less v F.amount };

    ghost right = { λ v. fresh v F.amount };
}

/// Gives a new pass all that a pass knows.
pub struct Everything;

impl Split<View> for Everything {
    ghost use Rattle.ff_sched.specs.laws.Rule.{spent};

    ghost left = { λ v. spent v };

    ghost right = { λ v. v };
}

impl Join<View> for Everything {
    ghost use Rattle.ff_sched.specs.laws.Rule.{joined, nobody};

    ghost both = { joined };

    ghost spent = { nobody };
}

/// A look at the state.
pub struct Looks;

impl Outcome<[u64; 20], View> for Looks {
    ghost use Rattle.ff_sched.specs.laws.Rule as rule;

    ghost then = { λ v before after w. rule.Looks v after w };
}

/// A look by a pass that has the whole share.
pub struct Closes;

impl Outcome<[u64; 20], View> for Closes {
    ghost use Rattle.ff_sched.specs.laws.Rule.{HasAll};

    ghost then = { λ v before after w. HasAll v w };
}

/// An exchange for the event E.
pub struct Tells<E> {
    event: PhantomData<E>,
}

impl<E: Named> Outcome<[u64; 20], View> for Tells<E> {
    ghost use Rattle.ff_sched.specs.laws.Rule.{Exchanges};

    ghost then = { Exchanges E.event };
}

/// The cell of 20 machine words, under the rule of one history.
pub type Cell = RuledSeqCell<[u64; 20], View, OneHistory, 20>;

/// A pass of the cell, as the cell's own crate has it.
pub type Seat = seq_cell::Pass<[u64; 20], View>;
