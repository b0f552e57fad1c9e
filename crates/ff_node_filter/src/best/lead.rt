//! The best input of a graph, and the events that tell of it.
ghost use Rattle.std.specs.Prelude.{◌≡◌, ℕ, ◌<◌, ◌≤◌, ◌^◌, [], ◌∷◌, ◌++◌, List, unwrap_or, length, IfOk, IfSome, OnOk, Some, None};
ghost use Rattle.std.specs.VecDeque.{deque_len, deque_capacity};
ghost use Rattle.ff_time.specs.Fraction.{Fraction};
ghost use Rattle.ff_stream.specs.declared.item.Item.{Item as AnItem};
ghost use Rattle.ff_frame.specs.declared.event.Event.{Event as AnEvent};
ghost use Rattle.ff_net.specs.Pasts.{Feed};
ghost use Rattle.ff_net.specs.Ways.{Flow, with_item_at};
ghost use Rattle.ff_node_filter.specs.best.Bests.{turned};
ghost use Rattle.ff_node_filter.specs.best.Inputs.{bases_of, bases_of_heads, kept_to, Keeps};
ghost use Rattle.ff_node_filter.specs.laws.best.Ends.{IsNear, ends_at};

use crate::best::choosing::earliest;
use crate::best::input::Input;
use ff_frame::{Event, StreamHead};
use std::alloc::{AllocError, Global};
use std::collections::VecDeque;

/// The best of a graph's inputs, and the events that wait to tell it.
#[derive(Drop)]
pub(crate) struct Lead {
    graph: u32,
    best: u32,
    /// What is known of each input.
    pub(crate) inputs: Vec<Input>,
    /// What is to be told, the oldest first.
    waiting: VecDeque<Event>,
    ghost few: { length inputs.items ≤ 2 ^ 32 },
}

// What is known of inputs of these heads, of which nothing came.
fn inputs_of(alloc: Global, heads: &[StreamHead]) -> Result<Vec<Input>, AllocError>
    ensures bases { IfOk result (λ is. bases_of is.items ≡ bases_of_heads heads.now) }
    ensures keeps { IfOk result (λ is. Keeps is.items []) }
{
    let mut inputs = Vec::with_capacity(alloc, heads.len())?;
    'heads: for p in 0..heads.len() {
        inputs.push(Input::new(&heads[p]))?;
    }
    Ok(inputs)
}

impl Lead {
    ghost use Rattle.ff_node_filter.specs.laws.best.Leads.{Tells, IsSame};

    /// Nothing came yet: input 0 is the best one.
    pub(crate) fn new(alloc: Global, graph: u32, heads: &[StreamHead]) -> Result<Lead, AllocError>
        requires few { length heads.now ≤ 2 ^ 32 }
        ensures tells { IfOk result (λ lead. Tells graph (bases_of_heads heads.now) lead [] []) }
        ensures count { IfOk result (λ lead. length lead.inputs.items ≡ length heads.now) }
    {
        let inputs = inputs_of(alloc, heads)?;
        Ok(Lead {
            graph,
            best: 0,
            inputs,
            waiting: VecDeque::new(alloc),
        })
    }

    /// The best input.
    pub(crate) fn best(&self) -> u32
        ensures { result ≡ self.now.best }
    {
        self.best
    }

    /// Whether an event waits to be told.
    pub(crate) fn waits(&self) -> bool {
        !self.waiting.is_empty()
    }

    /// Whether this input goes on.
    pub(crate) fn goes_on(&self, port: usize) -> bool {
        match self.inputs.get(port) {
            Some(input) => !input.closed,
            None => false,
        }
    }

    /// Makes room for one event more.
    pub(crate) fn reserve(&mut self) -> Result<(), AllocError>
        ensures same { IsSame self.old self.new }
        ensures room { OnOk result (deque_len self.new.waiting < deque_capacity self.new.waiting) }
    {
        self.waiting.reserve(1)
    }

    // Notes when the last item of an input ends, or that it has closed.
    fn keep(&mut self, port: usize, end: Option<i128>)
        requires there { port < length self.old.inputs.items }
        requires near { IfSome end IsNear }
        ensures keeps { (ss : List Flow) (x : AnItem) → end ≡ ends_at x → Keeps self.old.inputs.items ss → Keeps self.new.inputs.items (with_item_at ss port x) }
        ensures bases { bases_of self.new.inputs.items ≡ bases_of self.old.inputs.items }
        ensures graph { self.new.graph ≡ self.old.graph }
        ensures best { self.new.best ≡ self.old.best }
        ensures waiting { self.new.waiting ≡ self.old.waiting }
    {
        self.inputs[port].note(end);
    }

    // The best input by what is known.
    fn best_now(&self) -> u32
        ensures { result ≡ unwrap_or (kept_to self.now.inputs.items (length self.now.inputs.items)) self.now.best }
    {
        match earliest(&self.inputs) {
            Some(i) => i as u32,
            None => self.best,
        }
    }

    // Goes over to the best input, and has it told where it is another.
    fn turn(&mut self)
        requires { deque_len self.old.waiting < deque_capacity self.old.waiting }
        ensures best { self.new.best ≡ unwrap_or (kept_to self.old.inputs.items (length self.old.inputs.items)) self.old.best }
        ensures waiting { self.new.waiting.items ≡ self.old.waiting.items ++ turned self.old.graph self.old.best self.new.best }
        ensures inputs { self.new.inputs.items ≡ self.old.inputs.items }
        ensures graph { self.new.graph ≡ self.old.graph }
    {
        let best = self.best_now();
        if best != self.best {
            self.waiting
                .push_back_reserved(Event::Best(self.graph, best));
            self.best = best;
        }
    }

    /// Takes in what an input was fed: when the item ends, or that it closes the input.
    pub(crate) fn note(&mut self, port: usize, end: Option<i128>)
        requires there { port < length self.old.inputs.items }
        requires near { IfSome end IsNear }
        requires room { deque_len self.old.waiting < deque_capacity self.old.waiting }
        ensures tells { (graph : ℕ) (bases : List Fraction) (told : List AnEvent) (feeds : List Feed) (x : AnItem) → end ≡ ends_at x
            → Tells graph bases self.old told feeds → Tells graph bases self.new told (feeds ++ record { port = port; item = x } ∷ []) }
        ensures count { length self.new.inputs.items ≡ length self.old.inputs.items }
    {
        self.keep(port, end);
        self.turn();
    }

    /// The next event to tell; None where none waits.
    pub(crate) fn next(&mut self) -> Option<Event>
        ensures gives { (graph : ℕ) (bases : List Fraction) (told : List AnEvent) (feeds : List Feed) (e : AnEvent) → result ≡ Some e
            → Tells graph bases self.old told feeds → Tells graph bases self.new (told ++ e ∷ []) feeds }
        ensures none { result ≡ None → IsSame self.old self.new × (self.old.waiting.items ≡ []) }
        ensures count { length self.new.inputs.items ≡ length self.old.inputs.items }
    {
        self.waiting.pop_front()
    }
}
