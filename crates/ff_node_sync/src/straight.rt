//! The streams of one output without `-shortest`, as they are.
ghost use Rattle.std.specs.Prelude.{◌≡◌, ◌↔◌, ◌<◌, length, IsTrue, IfOk};
ghost use Rattle.ff_filter.specs.Views.{IsSpent};
ghost use Rattle.ff_node_sync.specs.Lines.{lines_of, lanes_of};
ghost use Rattle.ff_node_sync.specs.laws.Straights.{straight_of, IsStraight, is_through as is_through_of, through_to, straight_spent};
ghost use Rattle.ff_node_sync.specs.laws.StraightLaws.{straight-grows, straight-hides, straight-settles, straight-quiet};
ghost use Rattle.ff_node_sync.specs.laws.StraightLaws.{straight-spent_only, straight-shut_spent, straight-done_spent};

use crate::shortest::new_sides;
use crate::side::Side;
use ff_filter::Filter;
use ff_frame::StreamHead;
use ff_stream::{Item, Refused};
use std::alloc::{AllocError, Global};

/// The streams of one output as they are: an input and an output for each of them.
#[derive(Drop)]
pub struct Straight {
    /// The streams.
    pub sides: Vec<Side>,
}

impl Straight {
    /// The streams of these heads, of which nothing came yet.
    pub fn new(alloc: Global, heads: &[StreamHead]) -> Result<Straight, AllocError>
        ensures new { IfOk result (λ m. IsStraight heads.now (straight_of m.sides.items)) }
    {
        let sides = new_sides(alloc, heads)?;
        Ok(Straight { sides })
    }

    // Whether output p is closed by what came, was closed, or isn't wanted.
    fn is_through(&self, p: usize) -> bool
        requires there { p < length self.now.sides.items }
        ensures { result ≡ is_through_of (lines_of self.now.sides.items) p }
    {
        let side = &self.sides[p];
        side.stopped | (side.ended | side.is_shut())
    }

    // The same of each output.
    fn all_through(&self) -> bool
        ensures { result ≡ through_to (lines_of self.now.sides.items) (length (lines_of self.now.sides.items)) }
    {
        'streams: for p in 0..self.sides.len() {
            if !self.is_through(p) {
                return false;
            }
        }
        true
    }

    /// Whether nothing more of an input can matter: exactly where it has closed, or each output that is wanted is closed by what
    /// was fed.
    pub fn is_spent(&self, port: usize) -> bool
        requires there { port < length self.now.sides.items }
        ensures exact { IsTrue result ↔ IsSpent (straight_of self.now.sides.items) port }
        ensures is { result ≡ straight_spent (lines_of self.now.sides.items) port }
    {
        if self.sides[port].is_shut() {
            return true;
        }
        self.all_through()
    }
}

impl Filter for Straight {
    ghost view = { λ m. straight_of m.sides.items };

    ghost spends = { λ m p. straight_spent (lines_of m.sides.items) p };

    fn inputs(&self) -> usize {
        self.sides.len()
    }

    fn outputs(&self) -> usize {
        self.sides.len()
    }

    fn is_shut(&self, port: usize) -> bool {
        self.sides[port].is_shut()
    }

    fn is_stopped(&self, port: usize) -> bool {
        self.sides[port].stopped
    }

    fn feed(&mut self, port: usize, item: Item) -> Result<(), Refused> {
        match self.sides[port].feed(item) {
            Ok(()) => Ok(()),
            Err(refused) => Err(refused),
        }
    }

    fn pull(&mut self, port: usize) -> Result<Option<Item>, AllocError> {
        Ok(self.sides[port].pull())
    }

    fn stop(&mut self, port: usize) {
        self.sides[port].stop();
    }

    fn spent(&self, port: usize) -> bool {
        self.is_spent(port)
    }

    ghost grows = { λ m. straight-grows (lanes_of m.sides.items) (lines_of m.sides.items) };

    ghost hides = { λ m. straight-hides (lanes_of m.sides.items) (lines_of m.sides.items) };

    ghost settles = { λ m. straight-settles m.sides.items };

    ghost quiet = { λ m q e ext. straight-quiet (lanes_of m.sides.items) (lines_of m.sides.items) q e ext };

    ghost spent_only = { λ m p lt e. straight-spent_only m.sides.items p lt e };

    ghost shut_spent = { λ m p lt e. straight-shut_spent (lanes_of m.sides.items) (lines_of m.sides.items) p e };

    ghost done_spent = { λ m p lt z d. straight-done_spent m.sides.items p d };
}
