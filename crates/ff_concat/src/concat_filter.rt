//! `concat` as a filter.
ghost use Rattle.ff_concat.specs.laws.Tracks.{concat_view};
ghost use Rattle.ff_concat.specs.laws.TrackLaws.{concat_spent, concat-grows, concat-hides, concat-settles, concat-quiet};
ghost use Rattle.ff_concat.specs.laws.TrackLaws.{concat-spent_only, concat-shut_spent, concat-done_spent};

use crate::concat::Concat;
use ff_filter::Filter;
use ff_stream::{Item, Refused};
use std::alloc::AllocError;

impl Filter for Concat {
    ghost view = { λ m. concat_view m };

    ghost spends = { λ m p. concat_spent m p };

    fn inputs(&self) -> usize {
        self.reaches.len()
    }

    fn outputs(&self) -> usize {
        self.tracks.len()
    }

    fn is_shut(&self, port: usize) -> bool {
        self.reaches[port].after.is_over()
    }

    fn is_stopped(&self, port: usize) -> bool {
        self.tracks[port].stopped
    }

    fn feed(&mut self, port: usize, item: Item) -> Result<(), Refused> {
        self.take_in(port, item)
    }

    fn pull(&mut self, port: usize) -> Result<Option<Item>, AllocError> {
        self.take_out(port)
    }

    fn stop(&mut self, port: usize) {
        self.halt(port);
    }

    fn spent(&self, port: usize) -> bool {
        self.is_spent(port)
    }

    fn lacks(&self, port: usize) -> bool {
        self.draws_on(port)
    }

    ghost grows = { λ m. concat-grows m };

    ghost hides = { λ m. concat-hides m };

    ghost settles = { λ m. concat-settles m };

    ghost quiet = { λ m q e ext. concat-quiet m q e ext };

    ghost spent_only = { λ m p lt e. concat-spent_only m p e };

    ghost shut_spent = { λ m p lt e. concat-shut_spent m p e };

    ghost done_spent = { λ m p lt z d. concat-done_spent m p z d };
}
