//! The streams of one output under `-shortest`, each up to the end of the shortest.
ghost use Rattle.std.specs.Prelude.{◌≡◌, ◌↔◌, ◌<◌, length, IsTrue, IfOk, IsNone, Some, None, false};
ghost use Rattle.ff_stream.specs.declared.item.Item.{Item as AnItem};
ghost use Rattle.ff_filter.specs.Made.{mark_after};
ghost use Rattle.ff_filter.specs.Shifts.{start_ticks};
ghost use Rattle.ff_filter.specs.Views.{Gave, Waits, IsSpent};
ghost use Rattle.ff_node_sync.specs.Shortened.{Kept, both as both_of, fate_by as fate_by_of};
ghost use Rattle.ff_node_sync.specs.Lines.{lines_of, lanes_of, line_at, bases, reaches, stands, view_of, IsShortest, fate_is, fate_now, next_fate, AreNew};
ghost use Rattle.ff_node_sync.specs.Lines.{mark_now, is_done as is_done_of, done_to, shortest_spent};
ghost use Rattle.ff_node_sync.specs.laws.Moves.{IsClosedAt};
ghost use Rattle.ff_node_sync.specs.laws.ShortLaws.{shortest-grows, shortest-hides, shortest-settles, shortest-quiet, shortest-spent_only};
ghost use Rattle.ff_node_sync.specs.laws.ShortLaws.{shortest-shut_spent, shortest-done_spent};

use crate::end::is_before;
use crate::side::Side;
use ff_filter::{After, Filter, start_of_item};
use ff_frame::StreamHead;
use ff_stream::{Item, Refused, time_base};
use std::alloc::{AllocError, Global};

/// The streams of one output, each up to the end of the shortest: an input and an output for each of them.
#[derive(Drop)]
pub struct Shortest {
    /// The streams.
    pub sides: Vec<Side>,
}

// Of the streams that hold an item up, how they stand: whole where one is, else open while one is. None where none holds it up.
fn both(a: Option<After>, b: Option<After>) -> Option<After>
    ensures { fate_is result ≡ both_of (fate_is a) (fate_is b) }
{
    match (a, b) {
        (None, _) => b,
        (Some(_), None) => a,
        (Some(After::Whole), Some(_)) => a,
        (Some(After::Broke), Some(_)) => b,
        (Some(After::More), Some(After::Whole)) => b,
        (Some(After::More), Some(_)) => a,
    }
}

/// Streams of these heads, of which nothing came yet.
pub(crate) fn new_sides(alloc: Global, heads: &[StreamHead]) -> Result<Vec<Side>, AllocError>
    ensures new { IfOk result (λ sides. AreNew heads.now sides.items) }
{
    let mut sides = Vec::with_capacity(alloc, heads.len())?;
    'heads: for p in 0..heads.len() {
        sides.push(Side::new(alloc, heads[p]))?;
    }
    Ok(sides)
}

impl Shortest {
    /// The streams of these heads, of which nothing came yet.
    pub fn new(alloc: Global, heads: Vec<StreamHead>) -> Result<Shortest, AllocError>
        ensures new { IfOk result (λ m. IsShortest heads.items (view_of m.sides.items)) }
    {
        let sides = new_sides(alloc, &heads)?;
        Ok(Shortest { sides })
    }

    /// The same, of heads that are lent.
    pub(crate) fn of(alloc: Global, heads: &[StreamHead]) -> Result<Shortest, AllocError>
        ensures new { IfOk result (λ m. IsShortest heads.now (view_of m.sides.items)) }
    {
        let sides = new_sides(alloc, heads)?;
        Ok(Shortest { sides })
    }

    // What stream q makes of an item of stream p that starts then.
    fn fate_by(&self, p: usize, start: u64, q: usize) -> Option<After>
        requires there { p < length self.now.sides.items }
        requires other_there { q < length self.now.sides.items }
        ensures { (x : AnItem) → start ≡ start_ticks x → fate_is result
            ≡ fate_by_of (bases (lines_of self.now.sides.items)) (reaches (lines_of self.now.sides.items)) (stands (lines_of self.now.sides.items)) p q x }
    {
        if q == p {
            return None;
        }
        let own = time_base(&self.sides[p].head);
        let other = &self.sides[q];
        if is_before(start, own, other.reach, time_base(&other.head)) {
            return None;
        }
        Some(other.after)
    }

    // What all streams make of it.
    fn fate(&self, p: usize, start: u64) -> Option<After>
        requires there { p < length self.now.sides.items }
        ensures { (x : AnItem) → start ≡ start_ticks x → fate_is result ≡ fate_now (lines_of self.now.sides.items) p x }
    {
        let mut fate: Option<After> = None;
        'streams: for q in 0..self.sides.len() {
            fate = both(fate, self.fate_by(p, start, q));
        }
        fate
    }

    // What becomes of the next item of stream p; where none waits, how the stream stands.
    fn next(&self, p: usize) -> Option<After>
        requires there { p < length self.now.sides.items }
        ensures { fate_is result ≡ next_fate (lines_of self.now.sides.items) p (line_at (lines_of self.now.sides.items) p).waits }
    {
        match self.sides[p].start() {
            None => Some(self.sides[p].after),
            Some(start) => self.fate(p, start),
        }
    }

    // How output p stands after what is kept of all that came.
    fn mark(&self, p: usize) -> After
        requires there { p < length self.now.sides.items }
        ensures { mark_after result ≡ mark_now (lines_of self.now.sides.items) p }
    {
        let side = &self.sides[p];
        'items: for i in 0..side.queue.len() {
            let fate = self.fate(p, start_of_item(&side.queue[i]));
            if let Some(after) = fate {
                return after;
            }
        }
        side.after
    }

    // Whether output p is closed by what came, was closed, or isn't wanted.
    fn is_done(&self, p: usize) -> bool
        requires there { p < length self.now.sides.items }
        ensures { result ≡ is_done_of (lines_of self.now.sides.items) p }
    {
        let side = &self.sides[p];
        if side.stopped | side.ended {
            return true;
        }
        self.mark(p).is_over()
    }

    // The same of each output.
    fn all_done(&self) -> bool
        ensures { result ≡ done_to (lines_of self.now.sides.items) (length (lines_of self.now.sides.items)) }
    {
        'streams: for p in 0..self.sides.len() {
            if !self.is_done(p) {
                return false;
            }
        }
        true
    }

    /// Whether nothing more of an input can matter: exactly where it has closed, or each output that is wanted is closed by what
    /// was fed.
    pub fn is_spent(&self, port: usize) -> bool
        requires there { port < length self.now.sides.items }
        ensures exact { IsTrue result ↔ IsSpent (view_of self.now.sides.items) port }
        ensures is { result ≡ shortest_spent (lines_of self.now.sides.items) port }
    {
        if self.sides[port].is_shut() {
            return true;
        }
        self.all_done()
    }

    // Gives the next item of stream p.
    fn give(&mut self, p: usize) -> Option<Item>
        requires there { p < length self.old.sides.items }
        requires going { (line_at (lines_of self.old.sides.items) p).ended ≡ false }
        requires kept { next_fate (lines_of self.old.sides.items) p (line_at (lines_of self.old.sides.items) p).waits ≡ Kept }
        ensures gives { (x : AnItem) → result ≡ Some x → Gave (view_of self.old.sides.items) (view_of self.new.sides.items) p x }
        ensures some { IsNone result → ⊥ }
    {
        self.sides[p].give()
    }

    // Closes output p with an item that says so.
    fn close(&mut self, p: usize)
        requires there { p < length self.old.sides.items }
        ensures closed { IsClosedAt (lines_of self.old.sides.items) (lines_of self.new.sides.items) p }
        ensures lanes { lanes_of self.new.sides.items ≡ lanes_of self.old.sides.items }
    {
        self.sides[p].end();
    }

    // The next item of an output that wasn't closed, or its closing item.
    fn pull_on(&mut self, p: usize) -> Option<Item>
        requires there { p < length self.old.sides.items }
        requires going { (line_at (lines_of self.old.sides.items) p).ended ≡ false }
        ensures gives { (x : AnItem) → result ≡ Some x → Gave (view_of self.old.sides.items) (view_of self.new.sides.items) p x }
        ensures waits { result ≡ None → Waits (view_of self.old.sides.items) (view_of self.new.sides.items) p }
    {
        match self.next(p) {
            None => self.give(p),
            Some(After::More) => None,
            Some(After::Whole) => {
                self.close(p);
                Some(Item::End)
            }
            Some(After::Broke) => {
                self.close(p);
                Some(Item::Broken)
            }
        }
    }
}

impl Filter for Shortest {
    ghost view = { λ m. view_of m.sides.items };

    ghost spends = { λ m p. shortest_spent (lines_of m.sides.items) p };

    fn inputs(&self) -> usize {
        self.sides.len()
    }

    fn outputs(&self) -> usize {
        self.sides.len()
    }

    fn is_shut(&self, port: usize) -> bool {
        self.sides[port].is_shut()
    }

    fn is_stopped(&self, port: usize) -> bool {
        self.sides[port].stopped
    }

    fn feed(&mut self, port: usize, item: Item) -> Result<(), Refused> {
        match self.sides[port].feed(item) {
            Ok(()) => Ok(()),
            Err(refused) => Err(refused),
        }
    }

    fn pull(&mut self, port: usize) -> Result<Option<Item>, AllocError> {
        if self.sides[port].ended {
            return Ok(None);
        }
        Ok(self.pull_on(port))
    }

    fn stop(&mut self, port: usize) {
        self.sides[port].stop();
    }

    fn spent(&self, port: usize) -> bool {
        self.is_spent(port)
    }

    ghost grows = { λ m. shortest-grows (lanes_of m.sides.items) (lines_of m.sides.items) };

    ghost hides = { λ m. shortest-hides (lanes_of m.sides.items) (lines_of m.sides.items) };

    ghost settles = { λ m. shortest-settles m.sides.items };

    ghost quiet = { λ m q e ext. shortest-quiet (lanes_of m.sides.items) (lines_of m.sides.items) q e ext };

    ghost spent_only = { λ m p lt e. shortest-spent_only m.sides.items p lt e };

    ghost shut_spent = { λ m p lt e. shortest-shut_spent (lanes_of m.sides.items) (lines_of m.sides.items) p e };

    ghost done_spent = { λ m p lt z d. shortest-done_spent m.sides.items p d };
}
