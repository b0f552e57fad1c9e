//! The machine of any filter.
ghost use Rattle.std.specs.Prelude.{◌≡◌};
ghost use Rattle.ff_stream.specs.declared.item.Lane.TheVariants.{Frames};
ghost use Rattle.ff_vfilter.specs.laws.RateLaws.{rate-grows, rate-hides, rate-settles, rate-quiet};
ghost use Rattle.ff_vfilter.specs.laws.RateSpent.{rate-spent_only, rate-shut_spent, rate-done_spent};
ghost use Rattle.ff_fsync.specs.laws.stacks.Limits.{limits-grows, limits-hides, limits-settles, limits-quiet};
ghost use Rattle.ff_fsync.specs.laws.stacks.Stacked.{sync_seen};
ghost use Rattle.ff_fsync.specs.laws.stacks.StackedLaws.{sync_grows, sync_hides, sync_settles, sync_quiet, stacked-spent_only, stacked-shut_spent, stacked-done_spent};
ghost use Rattle.ff_concat.specs.laws.TrackLaws.{concat-grows, concat-hides, concat-settles, concat-quiet};
ghost use Rattle.ff_concat.specs.laws.TrackLaws.{concat-spent_only, concat-shut_spent, concat-done_spent};
ghost use Rattle.ff_joins.specs.laws.JoinLaws.{join-grows, join-hides, join-settles, join-quiet, join-spent_only, join-shut_spent, join-done_spent};
ghost use Rattle.ff_filters.specs.contracts.step.AnyStepStep.TheImpl.Laws.{below-law, calm-law, settles-law};
ghost use Rattle.ff_filters.specs.laws.SingleLaws.{single-grows, single-hides, single-settles, single-quiet, single-spent_only, single-shut_spent, single-done_spent};
ghost use Rattle.ff_filters.specs.laws.SingleLaws.{shared-grows, shared-hides, shared-settles, shared-quiet, shared-spent_only, shared-shut_spent, shared-done_spent};

use crate::step::AnyStep;
use ff_afilter::Channels;
use ff_concat::Concat;
use ff_filter::{Copies, Filter, Limited, Spreader, Step, Stepper};
use ff_fsync::Stacked;
use ff_joins::Join;
use ff_stream::{Item, Refused};
use ff_vfilter::Rate;
use std::alloc::AllocError;

/// The machine of any filter. Video and audio filters whose machines are the same share a variant.
#[derive(Drop)]
pub enum AnyFilter {
    /// A function of one stream that gives at most one item for each.
    Step(Stepper<Limited<AnyStep>>),
    /// Frames at an even rate.
    Rate(Rate),
    /// The same stream on each of several outputs.
    Copies(Spreader<Copies>),
    /// One channel on each output.
    Channels(Spreader<Channels>),
    /// The frames of several inputs side by side or one below the other.
    Stacked(Stacked),
    /// Segments one after another.
    Concat(Concat),
    /// The channels of several inputs side by side.
    Join(Join),
}

impl Filter for AnyFilter {
    ghost use Rattle.ff_filters.specs.declared.any.AnyFilter.TheVariants as any;

    ghost view = { elim [
      | any.Step m ↦ ⟦<Stepper<Limited<AnyStep>> as Filter>⟧.view m
      | any.Rate m ↦ ⟦<Rate as Filter>⟧.view m
      | any.Copies m ↦ ⟦<Spreader<Copies> as Filter>⟧.view m
      | any.Channels m ↦ ⟦<Spreader<Channels> as Filter>⟧.view m
      | any.Stacked m ↦ ⟦<Stacked as Filter>⟧.view m
      | any.Concat m ↦ ⟦<Concat as Filter>⟧.view m
      | any.Join m ↦ ⟦<Join as Filter>⟧.view m
    ] };

    ghost spends = { elim [
      | any.Step m ↦ ⟦<Stepper<Limited<AnyStep>> as Filter>⟧.spends m
      | any.Rate m ↦ ⟦<Rate as Filter>⟧.spends m
      | any.Copies m ↦ ⟦<Spreader<Copies> as Filter>⟧.spends m
      | any.Channels m ↦ ⟦<Spreader<Channels> as Filter>⟧.spends m
      | any.Stacked m ↦ ⟦<Stacked as Filter>⟧.spends m
      | any.Concat m ↦ ⟦<Concat as Filter>⟧.spends m
      | any.Join m ↦ ⟦<Join as Filter>⟧.spends m
    ] };

    fn inputs(&self) -> usize {
        match self {
            AnyFilter::Step(filter) => filter.inputs(),
            AnyFilter::Rate(filter) => filter.inputs(),
            AnyFilter::Copies(filter) => filter.inputs(),
            AnyFilter::Channels(filter) => filter.inputs(),
            AnyFilter::Stacked(filter) => filter.inputs(),
            AnyFilter::Concat(filter) => filter.inputs(),
            AnyFilter::Join(filter) => filter.inputs(),
        }
    }

    fn outputs(&self) -> usize {
        match self {
            AnyFilter::Step(filter) => filter.outputs(),
            AnyFilter::Rate(filter) => filter.outputs(),
            AnyFilter::Copies(filter) => filter.outputs(),
            AnyFilter::Channels(filter) => filter.outputs(),
            AnyFilter::Stacked(filter) => filter.outputs(),
            AnyFilter::Concat(filter) => filter.outputs(),
            AnyFilter::Join(filter) => filter.outputs(),
        }
    }

    fn is_shut(&self, port: usize) -> bool {
        match self {
            AnyFilter::Step(filter) => filter.is_shut(port),
            AnyFilter::Rate(filter) => filter.is_shut(port),
            AnyFilter::Copies(filter) => filter.is_shut(port),
            AnyFilter::Channels(filter) => filter.is_shut(port),
            AnyFilter::Stacked(filter) => filter.is_shut(port),
            AnyFilter::Concat(filter) => filter.is_shut(port),
            AnyFilter::Join(filter) => filter.is_shut(port),
        }
    }

    fn is_stopped(&self, port: usize) -> bool {
        match self {
            AnyFilter::Step(filter) => filter.is_stopped(port),
            AnyFilter::Rate(filter) => filter.is_stopped(port),
            AnyFilter::Copies(filter) => filter.is_stopped(port),
            AnyFilter::Channels(filter) => filter.is_stopped(port),
            AnyFilter::Stacked(filter) => filter.is_stopped(port),
            AnyFilter::Concat(filter) => filter.is_stopped(port),
            AnyFilter::Join(filter) => filter.is_stopped(port),
        }
    }

    fn feed(&mut self, port: usize, item: Item) -> Result<(), Refused> {
        match self {
            AnyFilter::Step(filter) => filter.feed(port, item),
            AnyFilter::Rate(filter) => filter.feed(port, item),
            AnyFilter::Copies(filter) => filter.feed(port, item),
            AnyFilter::Channels(filter) => filter.feed(port, item),
            AnyFilter::Stacked(filter) => filter.feed(port, item),
            AnyFilter::Concat(filter) => filter.feed(port, item),
            AnyFilter::Join(filter) => filter.feed(port, item),
        }
    }

    fn pull(&mut self, port: usize) -> Result<Option<Item>, AllocError> {
        match self {
            AnyFilter::Step(filter) => filter.pull(port),
            AnyFilter::Rate(filter) => filter.pull(port),
            AnyFilter::Copies(filter) => filter.pull(port),
            AnyFilter::Channels(filter) => filter.pull(port),
            AnyFilter::Stacked(filter) => filter.pull(port),
            AnyFilter::Concat(filter) => filter.pull(port),
            AnyFilter::Join(filter) => filter.pull(port),
        }
    }

    fn stop(&mut self, port: usize) {
        match self {
            AnyFilter::Step(filter) => filter.stop(port),
            AnyFilter::Rate(filter) => filter.stop(port),
            AnyFilter::Copies(filter) => filter.stop(port),
            AnyFilter::Channels(filter) => filter.stop(port),
            AnyFilter::Stacked(filter) => filter.stop(port),
            AnyFilter::Concat(filter) => filter.stop(port),
            AnyFilter::Join(filter) => filter.stop(port),
        }
    }

    fn spent(&self, port: usize) -> bool {
        match self {
            AnyFilter::Step(filter) => filter.spent(port),
            AnyFilter::Rate(filter) => filter.spent(port),
            AnyFilter::Copies(filter) => filter.spent(port),
            AnyFilter::Channels(filter) => filter.spent(port),
            AnyFilter::Stacked(filter) => filter.spent(port),
            AnyFilter::Concat(filter) => filter.spent(port),
            AnyFilter::Join(filter) => filter.spent(port),
        }
    }

    fn lacks(&self, port: usize) -> bool {
        match self {
            AnyFilter::Step(filter) => filter.lacks(port),
            AnyFilter::Rate(filter) => filter.lacks(port),
            AnyFilter::Copies(filter) => filter.lacks(port),
            AnyFilter::Channels(filter) => filter.lacks(port),
            AnyFilter::Stacked(filter) => filter.lacks(port),
            AnyFilter::Concat(filter) => filter.lacks(port),
            AnyFilter::Join(filter) => filter.lacks(port),
        }
    }

    ghost grows = { elim [
      | any.Step m ↦ single-grows below-law m
      | any.Rate m ↦ rate-grows m.head m.given m.showing m.input.queue.items m.input.after m.ended m.stopped
      | any.Copies m ↦ shared-grows m
      | any.Channels m ↦ shared-grows m
      | any.Stacked m ↦ limits-grows (Frames m.sync.head) m.before (sync_seen m) (sync_grows m)
      | any.Concat m ↦ concat-grows m
      | any.Join m ↦ join-grows m
    ] };

    ghost hides = { elim [
      | any.Step m ↦ single-hides calm-law m
      | any.Rate m ↦ rate-hides m.head m.given m.showing m.input.queue.items m.input.after m.ended m.stopped
      | any.Copies m ↦ shared-hides m
      | any.Channels m ↦ shared-hides m
      | any.Stacked m ↦ limits-hides (Frames m.sync.head) m.before (sync_seen m) (sync_hides m)
      | any.Concat m ↦ concat-hides m
      | any.Join m ↦ join-hides m
    ] };

    ghost settles = { elim [
      | any.Step m ↦ single-settles settles-law m
      | any.Rate m ↦ rate-settles m.head m.given m.showing m.input.queue.items m.input.after m.ended m.stopped
      | any.Copies m ↦ shared-settles m
      | any.Channels m ↦ shared-settles m
      | any.Stacked m ↦ limits-settles (Frames m.sync.head) m.before (sync_seen m) (sync_settles m)
      | any.Concat m ↦ concat-settles m
      | any.Join m ↦ join-settles m
    ] };

    ghost quiet = { elim [
      | any.Step m ↦ single-quiet m
      | any.Rate m ↦ λ q e ext. rate-quiet m.head m.given m.showing m.input.queue.items m.input.after m.ended m.stopped q e ext
      | any.Copies m ↦ shared-quiet m
      | any.Channels m ↦ shared-quiet m
      | any.Stacked m ↦ λ q e ext. limits-quiet (Frames m.sync.head) m.before (sync_seen m) q ext (sync_quiet m q e ext)
      | any.Concat m ↦ λ q e ext. concat-quiet m q e ext
      | any.Join m ↦ λ q e ext. join-quiet m e ext
    ] };

    ghost spent_only = { elim [
      | any.Step m ↦ single-spent_only m
      | any.Rate m ↦ λ p lt e. rate-spent_only m p e
      | any.Copies m ↦ shared-spent_only m
      | any.Channels m ↦ shared-spent_only m
      | any.Stacked m ↦ λ p lt e. stacked-spent_only m p e
      | any.Concat m ↦ λ p lt e. concat-spent_only m p e
      | any.Join m ↦ λ p lt e. join-spent_only m p e
    ] };

    ghost shut_spent = { elim [
      | any.Step m ↦ single-shut_spent m
      | any.Rate m ↦ λ p lt e. rate-shut_spent m e
      | any.Copies m ↦ shared-shut_spent m
      | any.Channels m ↦ shared-shut_spent m
      | any.Stacked m ↦ λ p lt e. stacked-shut_spent m p e
      | any.Concat m ↦ λ p lt e. concat-shut_spent m p e
      | any.Join m ↦ λ p lt e. join-shut_spent m p e
    ] };

    ghost done_spent = { elim [
      | any.Step m ↦ single-done_spent m
      | any.Rate m ↦ λ p lt z d. rate-done_spent m d
      | any.Copies m ↦ shared-done_spent m
      | any.Channels m ↦ shared-done_spent m
      | any.Stacked m ↦ λ p lt z d. stacked-done_spent m p d
      | any.Concat m ↦ λ p lt z d. concat-done_spent m p z d
      | any.Join m ↦ λ p lt z d. join-done_spent m p d
    ] };
}
