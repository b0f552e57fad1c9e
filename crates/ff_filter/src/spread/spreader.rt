//! The machine of one input and several outputs.
ghost use Rattle.std.specs.Prelude.{◌≡◌, ◌↔◌, length, IsTrue, IfOk};
ghost use Rattle.ff_filter.specs.Views.{IsSpent};
ghost use Rattle.ff_filter.specs.Made.{is_over};
ghost use Rattle.ff_filter.specs.laws.spread.Lines.{lines};
ghost use Rattle.ff_filter.specs.spread.Spreads.{spread_view, spread_start, spread_spent};
ghost use Rattle.ff_filter.specs.laws.spread.SpreadLaws.{spread-grows, spread-hides, spread-settles, spread-quiet, spread-spent_only, spread-shut_spent, spread-done_spent};

use crate::spread::outlets::{all_done, fresh_outlets, is_stopped, spread, stop_one, take_from};
use crate::spread::share::Share;
use crate::{After, Filter, Outlet, closing_of};
use ff_stream::{Item, Refused, discard};
use std::alloc::{AllocError, Global};

/// The machine of a `Share`.
#[derive(Drop)]
pub struct Spreader<S: Share> {
    /// What each output gets.
    pub share: S,
    /// What waits on each output.
    pub outlets: Vec<Outlet>,
    /// How the input stands.
    pub after: After,
    pub ghost count: { length (S.lanes_out share) ≡ length outlets.items },
}

impl<S: Share + Drop> Spreader<S> {
    /// Nothing was fed yet.
    pub fn new(alloc: Global, share: S, count: usize) -> Result<Spreader<S>, AllocError>
        requires count { length (S.lanes_out share) ≡ count }
        ensures view { IfOk result (λ m. spread_view (S.lane_in m.share) (S.lanes_out m.share) (S.shared m.share)
            (lines m.outlets.items) m.after
            ≡ spread_start (S.lane_in share) (S.lanes_out share) (S.shared share)) }
        ensures share { IfOk result (λ m. m.share ≡ share) }
    {
        let outlets = fresh_outlets(alloc, count)?;
        Ok(Spreader {
            share,
            outlets,
            after: After::More,
        })
    }

    /// Whether nothing more of the input can matter. That is exactly where it has closed, or where there are outputs
    /// and what was fed closes each one that is wanted.
    pub fn is_spent(&self) -> bool
        ensures exact { IsTrue result
            ↔ IsSpent (spread_view (S.lane_in self.now.share) (S.lanes_out self.now.share) (S.shared self.now.share)
            (lines self.now.outlets.items) self.now.after) 0 }
        ensures is { result ≡ spread_spent self.now.after self.now.outlets.items }
    {
        self.after.is_over() | ((0 < self.outlets.len()) & all_done(&self.outlets))
    }
}

impl<S: Share + Drop> Filter for Spreader<S> {
    ghost view = { λ m. spread_view (S.lane_in m.share) (S.lanes_out m.share) (S.shared m.share)
        (lines m.outlets.items) m.after };

    ghost spends = { λ m p. spread_spent m.after m.outlets.items };

    fn inputs(&self) -> usize {
        1
    }

    fn outputs(&self) -> usize {
        self.outlets.len()
    }

    fn is_shut(&self, _port: usize) -> bool {
        self.after.is_over()
    }

    fn is_stopped(&self, port: usize) -> bool {
        is_stopped(&self.outlets, port)
    }

    fn feed(&mut self, _port: usize, item: Item) -> Result<(), Refused> {
        match closing_of(&item) {
            Some(after) => {
                discard(item);
                self.after = after;
                Ok(())
            }
            None => spread(&self.share, &mut self.outlets, 0, item),
        }
    }

    fn pull(&mut self, port: usize) -> Result<Option<Item>, AllocError> {
        Ok(take_from(&mut self.outlets, port, self.after))
    }

    fn stop(&mut self, port: usize) {
        stop_one(&mut self.outlets, port);
    }

    fn spent(&self, _port: usize) -> bool {
        self.is_spent()
    }

    ghost grows = { λ m. spread-grows (S.lane_in m.share) (S.lanes_out m.share) (S.shared m.share)
        (lines m.outlets.items) m.after };

    ghost hides = { λ m. spread-hides (S.lane_in m.share) (S.lanes_out m.share) (S.shared m.share)
        (lines m.outlets.items) m.after };

    ghost settles = { λ m. spread-settles (S.lane_in m.share) (S.lanes_out m.share) (S.shared m.share)
        (lines m.outlets.items) m.after };

    ghost quiet = { λ m q e ext. spread-quiet (S.lane_in m.share) (S.lanes_out m.share) (S.shared m.share)
        (lines m.outlets.items) m.after q e ext };

    ghost spent_only = { λ m p lt e. spread-spent_only (S.lane_in m.share) (S.lanes_out m.share) (S.shared m.share)
        m.outlets.items m.after m.count p e };

    ghost shut_spent = { λ m p lt e. spread-shut_spent (S.lane_in m.share) (S.lanes_out m.share) (S.shared m.share)
        m.outlets.items m.after m.count e };

    ghost done_spent = { λ m p lt z d. spread-done_spent (S.lane_in m.share) (S.lanes_out m.share) (S.shared m.share)
        m.outlets.items m.after m.count z d };
}
