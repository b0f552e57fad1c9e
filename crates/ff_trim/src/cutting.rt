//! A filter with a cut after each of its outputs.
ghost use Rattle.std.specs.Prelude.{◌≡◌, ◌<◌, map, length, Ok, IfOk, is_some, false, true};
ghost use Rattle.ff_stream.specs.declared.item.Lane.TheVariants.{Frames};
ghost use Rattle.ff_filter.specs.Made.{is_over};
ghost use Rattle.ff_filter.specs.Views.{IsNew, Gave};
ghost use Rattle.ff_trim.specs.laws.Taps.{ways_of, way_at, cut_view, Tied, IsTurn, AreNewWays, IsCutting};
ghost use Rattle.ff_trim.specs.laws.CuttingLaws.{cutting-grows, cutting-hides, cutting-settles, cutting-quiet, cutting-spent, cutting-done};

use crate::counted::OutputCut;
use crate::tap::{Tap, Turn};
use ff_filter::Filter;
use ff_frame::StreamHead;
use ff_stream::{Item, Refused};
use std::alloc::{AllocError, Global};

/// A filter with a cut after each of its outputs.
#[derive(Drop)]
pub struct Cutting<F: Filter> {
    /// The filter.
    pub filter: F,
    /// Its outputs.
    pub taps: Vec<Tap>,
    pub ghost tied: { Tied (F.view filter) (ways_of taps.items) },
}

// Outputs of these heads with these cuts, to which nothing came.
fn new_taps(alloc: Global, heads: &[StreamHead], cuts: &[OutputCut]) -> Result<Vec<Tap>, AllocError>
    requires each { length cuts.now ≡ length heads.now }
    ensures new { IfOk result (λ taps. AreNewWays heads.now cuts.now (ways_of taps.items)) }
{
    let mut taps = Vec::with_capacity(alloc, heads.len())?;
    'heads: for q in 0..heads.len() {
        taps.push(Tap::new(&heads[q], cuts[q]))?;
    }
    Ok(taps)
}

impl<F: Filter + Drop> Cutting<F> {
    /// A filter to which nothing was done, whose outputs have these heads, with a cut after each.
    pub fn new(
        alloc: Global,
        filter: F,
        heads: &[StreamHead],
        cuts: &[OutputCut],
    ) -> Result<Cutting<F>, AllocError>
        requires new { IsNew (F.view filter) }
        requires heads { (F.view filter).outs ≡ map Frames heads.now }
        requires each { length cuts.now ≡ length heads.now }
        ensures new { IfOk result (λ m. IsCutting heads.now cuts.now (F.view filter) (cut_view (F.view m.filter) m.taps.items)) }
    {
        let taps = new_taps(alloc, heads, cuts)?;
        Ok(Cutting { filter, taps })
    }
}

impl<F: Filter> Cutting<F> {
    // Closes output q; the filter is told that nothing more is wanted there.
    fn close(&mut self, q: usize) -> Item
        requires there { q < length self.old.taps.items }
        requires going { (way_at (ways_of self.old.taps.items) q).ended ≡ false }
        requires over { is_over (way_at (ways_of self.old.taps.items) q).after ≡ true }
        ensures gave { Gave (cut_view (F.view self.old.filter) self.old.taps.items) (cut_view (F.view self.new.filter) self.new.taps.items) q result }
        ensures long { length self.new.taps.items ≡ length self.old.taps.items }
    {
        self.filter.stop(q);
        self.taps[q].close()
    }

    // Takes the item that waits before the cut of output q to it.
    fn resume(&mut self, q: usize) -> Result<Turn, AllocError>
        requires there { q < length self.old.taps.items }
        requires going { (way_at (ways_of self.old.taps.items) q).ended ≡ false }
        requires more { is_over (way_at (ways_of self.old.taps.items) q).after ≡ false }
        requires held { is_some (way_at (ways_of self.old.taps.items) q).held ≡ true }
        ensures turn { IsTurn (F.view self.old.filter) self.old.taps.items (F.view self.new.filter) self.new.taps.items q result }
        ensures due { result ≡ Ok Turn.Waits → ⊥ }
    {
        self.taps[q].resume()
    }

    // Takes the next item of the filter to the cut of output q.
    fn draw(&mut self, q: usize) -> Result<Turn, AllocError>
        requires there { q < length self.old.taps.items }
        requires wanted { (way_at (ways_of self.old.taps.items) q).stopped ≡ false }
        requires going { (way_at (ways_of self.old.taps.items) q).ended ≡ false }
        requires more { is_over (way_at (ways_of self.old.taps.items) q).after ≡ false }
        requires free { is_some (way_at (ways_of self.old.taps.items) q).held ≡ false }
        ensures { IsTurn (F.view self.old.filter) self.old.taps.items (F.view self.new.filter) self.new.taps.items q result }
    {
        match self.filter.pull(q) {
            Err(error) => Err(error),
            Ok(None) => Ok(Turn::Waits),
            Ok(Some(item)) => self.taps[q].put(item),
        }
    }

    // One step towards output q.
    fn advance(&mut self, q: usize) -> Result<Turn, AllocError>
        requires there { q < length self.old.taps.items }
        requires wanted { (way_at (ways_of self.old.taps.items) q).stopped ≡ false }
        requires going { (way_at (ways_of self.old.taps.items) q).ended ≡ false }
        ensures { IsTurn (F.view self.old.filter) self.old.taps.items (F.view self.new.filter) self.new.taps.items q result }
    {
        if self.taps[q].is_over() {
            return Ok(Turn::Gave(self.close(q)));
        }
        if self.taps[q].holds() {
            return self.resume(q);
        }
        self.draw(q)
    }
}

impl<F: Filter> Filter for Cutting<F> {
    ghost view = { λ m. cut_view (F.view m.filter) m.taps.items };

    ghost spends = { λ m p. F.spends m.filter p };

    fn inputs(&self) -> usize {
        self.filter.inputs()
    }

    fn outputs(&self) -> usize {
        self.filter.outputs()
    }

    fn is_shut(&self, port: usize) -> bool {
        self.filter.is_shut(port)
    }

    fn is_stopped(&self, port: usize) -> bool {
        self.taps[port].stopped
    }

    fn feed(&mut self, port: usize, item: Item) -> Result<(), Refused> {
        self.filter.feed(port, item)
    }

    fn pull(&mut self, port: usize) -> Result<Option<Item>, AllocError> {
        if self.taps[port].ended {
            return Ok(None);
        }
        loop {
            match self.advance(port) {
                Err(error) => return Err(error),
                Ok(Turn::Gave(item)) => return Ok(Some(item)),
                Ok(Turn::Waits) => return Ok(None),
                Ok(Turn::On) => {}
            }
        }
    }

    fn stop(&mut self, port: usize) {
        self.filter.stop(port);
        self.taps[port].stop();
    }

    fn spent(&self, port: usize) -> bool {
        self.filter.spent(port)
    }

    fn lacks(&self, port: usize) -> bool {
        self.filter.lacks(port)
    }

    ghost grows = { λ m. cutting-grows (F.view m.filter) m.taps.items (F.grows m.filter) };

    ghost hides = { λ m. cutting-hides (F.view m.filter) m.taps.items (F.hides m.filter) };

    ghost settles = { λ m. cutting-settles (F.view m.filter) m.taps.items m.tied (F.settles m.filter) };

    ghost quiet = { λ m q e ext. cutting-quiet (F.view m.filter) m.taps.items q e ext };

    ghost spent_only = { λ m p lt e. cutting-spent (F.view m.filter) m.taps.items m.tied p (F.spent_only m.filter p lt e) };

    ghost shut_spent = { λ m p lt e. F.shut_spent m.filter p lt e };

    ghost done_spent = { λ m p lt z d. F.done_spent m.filter p lt z (cutting-done (F.view m.filter) m.taps.items m.tied d) };
}
