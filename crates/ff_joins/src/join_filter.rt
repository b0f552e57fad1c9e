//! The machine of `join` as a filter.
ghost use Rattle.ff_joins.specs.laws.JoinSeen.{join_seen, join_spent};
ghost use Rattle.ff_joins.specs.laws.JoinLaws.{join-grows, join-hides, join-settles, join-quiet, join-spent_only, join-shut_spent, join-done_spent};

use crate::join::Join;
use ff_filter::Filter;
use ff_stream::{Item, Refused};
use std::alloc::AllocError;

impl Filter for Join {
    ghost view = { λ m. join_seen m };

    ghost spends = { λ m p. join_spent m p };

    fn inputs(&self) -> usize {
        self.inlets.len()
    }

    fn outputs(&self) -> usize {
        1
    }

    fn is_shut(&self, port: usize) -> bool {
        self.inlets[port].after.is_over()
    }

    fn is_stopped(&self, _port: usize) -> bool {
        self.stopped
    }

    fn feed(&mut self, port: usize, item: Item) -> Result<(), Refused> {
        self.take_in(port, item)
    }

    fn pull(&mut self, _port: usize) -> Result<Option<Item>, AllocError> {
        self.take()
    }

    fn stop(&mut self, _port: usize) {
        self.stopped = true;
    }

    fn spent(&self, port: usize) -> bool {
        self.is_spent(port)
    }

    ghost grows = { λ m. join-grows m };

    ghost hides = { λ m. join-hides m };

    ghost settles = { λ m. join-settles m };

    ghost quiet = { λ m q e ext. join-quiet m e ext };

    ghost spent_only = { λ m p lt e. join-spent_only m p e };

    ghost shut_spent = { λ m p lt e. join-shut_spent m p e };

    ghost done_spent = { λ m p lt z d. join-done_spent m p d };
}
