//! The scheduler in its plain form, without a cell, which no program calls.
ghost use Rattle.std.specs.Prelude.{◌≡◌, ◌<◌, ◌^◌, true, false, [], IfOk, OnErr};
ghost use Rattle.ff_sched.specs.laws.Routes.{AreRoutes};
ghost use Rattle.ff_sched.specs.Events.{IsInRange, IsTold};
ghost use Rattle.ff_sched.specs.Unchoked.{Unchokes};
ghost use Rattle.ff_sched.specs.Histories.{IsLegal};
ghost use Rattle.ff_sched.specs.laws.Plain.{held_by, Heard, Offered};

use crate::cell::Grant;
use crate::choking::unchokes;
use crate::history::History;
use crate::routes::Routes;
use crate::state::{SchedState, step};
use ff_frame::{Event, Ticket};
use std::alloc::{AllocError, Global};
use std::marker::Model;
use std::snapshot::Snapshot;

/// The scheduler in one place, with no cell: the plain form of it, which no program calls. Contracts see its history.
#[derive(Drop)]
pub struct SchedNode {
    opening: Snapshot<SchedState>,
    state: SchedState,
    routes: Routes,
    events: Vec<Event>,
}

impl Model for SchedNode {
    ghost use Rattle.ff_sched.specs.laws.Plain.{Plain, IsPlain};

    ghost Value = { Plain };

    ghost view = { λ n. record { opening = n.opening.value; routes = n.routes; events = n.events.items } };

    ghost invariant = { λ n. IsPlain n.routes n.opening.value n.state n.events.items };
}

impl SchedNode {
    /// A scheduler in this state, to which nothing has happened.
    pub fn new(alloc: Global, state: SchedState, routes: Routes) -> SchedNode
        requires { AreRoutes routes }
        ensures { result ≡ record { opening = state; routes = routes; events = [] } }
    {
        SchedNode {
            opening: Snapshot::of(&state),
            state,
            routes,
            events: Vec::new(alloc),
        }
    }

    // Whether its state unchokes a source.
    fn unchokes(&self, source: u32) -> bool
        requires { source < self.now.routes.sources }
        ensures yes { result ≡ true → Unchokes self.now.routes (held_by self.now) source }
        ensures no { result ≡ false → Unchokes self.now.routes (held_by self.now) source → ⊥ }
    {
        unchokes(&self.state, &self.routes, source)
    }

    /// Its routes.
    pub fn routes(&self) -> &Routes
        ensures { result.now ≡ self.now.routes }
    {
        &self.routes
    }

    /// The state that it holds.
    pub fn state(&self) -> SchedState
        ensures { result ≡ held_by self.now }
    {
        self.state.again()
    }

    /// Adds an event that is no grant, and gives its place.
    pub fn hear(&mut self, event: Event) -> Result<u64, AllocError>
        requires count { (held_by self.old).count < 2 ^ 63 }
        requires range { IsInRange self.old.routes event }
        requires told { IsTold event }
        ensures ok { IfOk result (λ place. Heard self.old event place self.new) }
        ensures err { OnErr result (self.new ≡ self.old) }
    {
        self.events.reserve(1)?;
        let place = self.state.count();
        step(&mut self.state, event);
        self.events.push_reserved(event);
        Ok(place)
    }

    /// Adds a grant for a source where the state held unchokes it.
    pub fn offer(&mut self, source: u32) -> Result<Grant, AllocError>
        requires count { (held_by self.old).count < 2 ^ 63 }
        requires range { source < self.old.routes.sources }
        ensures ok { IfOk result (λ grant. Offered self.old source grant self.new) }
        ensures err { OnErr result (self.new ≡ self.old) }
    {
        if !self.unchokes(source) {
            return Ok(Grant::Choked(self.state()));
        }
        self.events.reserve(1)?;
        let place = self.state.count();
        step(&mut self.state, Event::Grant(source));
        self.events.push_reserved(Event::Grant(source));
        Ok(Grant::Go(Ticket { source, place }))
    }

    /// All that happened.
    pub fn into_history(self) -> History
        ensures events { result ≡ self.events }
        ensures legal { IsLegal self.routes self.opening result }
    {
        History {
            events: self.events,
        }
    }
}
