//! How `concat` is fed, pulled and stopped.
ghost use Rattle.std.specs.Prelude.{◌≡◌, ◌↔◌, IsTrue, ◌<◌, ◌%◌, ◌||◌, length, false, true, Ok, Some, None, OnOk, OnErr, IfErr};
ghost use Rattle.ff_stream.specs.declared.item.Item.{Item as AnItem};
ghost use Rattle.ff_filter.specs.Made.{is_over, closing};
ghost use Rattle.ff_filter.specs.Views.{closes, Fed, Same, Gave, Waits, Stopped, IsSpent};
ghost use Rattle.ff_concat.specs.laws.TrackLaws.{concat_spent};
ghost use Rattle.ff_concat.specs.laws.Tracks.{after_at, stopped_at, ended_at, each_done, concat_view};

use crate::concat::Concat;
use ff_filter::{After, closing_of};
use ff_stream::{Item, Refused, discard, end_ticks};
use std::alloc::AllocError;

impl Concat {
    // An input closes.
    fn shut(&mut self, port: usize, item: Item, after: After)
        requires there { port < length self.old.reaches.items }
        requires open { is_over (after_at self.old.reaches.items port) ≡ false }
        requires says { closing item ≡ Some after }
        ensures fed { Fed (concat_view self.old) (concat_view self.new) port item }
    {
        discard(item);
        self.reaches[port].close(after);
    }

    // Takes in an item for an output that doesn't go on: only how far the input has come.
    fn pass_over(&mut self, port: usize, item: Item)
        requires there { port < length self.old.reaches.items }
        requires open { is_over (after_at self.old.reaches.items port) ≡ false }
        requires goes_on { closes item ≡ false }
        requires done { (stopped_at self.old.tracks.items (port % length self.old.tracks.items)
            || ended_at self.old.tracks.items (port % length self.old.tracks.items)) ≡ true }
        ensures fed { Fed (concat_view self.old) (concat_view self.new) port item }
    {
        let end = end_ticks(&item);
        discard(item);
        self.reaches[port].pass(end);
    }

    // Keeps an item for its output. For want of memory it comes back, and nothing has changed.
    fn keep(&mut self, port: usize, item: Item) -> Result<(), Refused>
        requires there { port < length self.old.reaches.items }
        requires open { is_over (after_at self.old.reaches.items port) ≡ false }
        requires goes_on { closes item ≡ false }
        ensures fed { OnOk result (Fed (concat_view self.old) (concat_view self.new) port item) }
        ensures refused { IfErr result (λ r. r.item ≡ item) }
        ensures unchanged { OnErr result (Same (concat_view self.old) (concat_view self.new)) }
    {
        let end = end_ticks(&item);
        let width = self.tracks.len();
        match self.tracks[port % width].keep(port / width, item) {
            Err(refused) => Err(refused),
            Ok(()) => {
                self.reaches[port].pass(end);
                Ok(())
            }
        }
    }

    /// Takes an item in. For want of memory it comes back, and nothing has changed.
    pub(crate) fn take_in(&mut self, port: usize, item: Item) -> Result<(), Refused>
        requires there { port < length self.old.reaches.items }
        requires open { is_over (after_at self.old.reaches.items port) ≡ false }
        ensures fed { OnOk result (Fed (concat_view self.old) (concat_view self.new) port item) }
        ensures refused { IfErr result (λ r. r.item ≡ item) }
        ensures unchanged { OnErr result (Same (concat_view self.old) (concat_view self.new)) }
    {
        match closing_of(&item) {
            Some(after) => {
                self.shut(port, item, after);
                Ok(())
            }
            None => {
                let number = port % self.tracks.len();
                if self.tracks[number].is_done() {
                    self.pass_over(port, item);
                    return Ok(());
                }
                self.keep(port, item)
            }
        }
    }

    /// The next item of an output, or its closing one. None where nothing is due.
    pub(crate) fn take_out(&mut self, port: usize) -> Result<Option<Item>, AllocError>
        requires there { port < length self.old.tracks.items }
        ensures gives { (x : AnItem) → result ≡ Ok (Some x) → Gave (concat_view self.old) (concat_view self.new) port x }
        ensures waits { result ≡ Ok None → Waits (concat_view self.old) (concat_view self.new) port }
        ensures unchanged { OnErr result (Same (concat_view self.old) (concat_view self.new)) }
    {
        self.tracks[port].pull(
            self.alloc,
            self.reaches.as_slice(),
            self.ticks.as_slice(),
            port,
        )
    }

    /// An output isn't wanted any more.
    pub(crate) fn halt(&mut self, port: usize)
        requires there { port < length self.old.tracks.items }
        ensures stopped { Stopped (concat_view self.old) (concat_view self.new) port }
    {
        self.tracks[port].stop();
    }

    // Whether nothing more is to come of each output.
    fn is_done(&self) -> bool
        ensures { result ≡ each_done self.now.ticks.items 0 self.now.tracks.items self.now.reaches.items }
    {
        'outputs: for q in 0..self.tracks.len() {
            if !self.tracks[q].is_over(self.ticks.as_slice(), self.reaches.as_slice(), q) {
                return false;
            }
        }
        true
    }

    /// Whether nothing more of an input can matter. That is exactly where it has closed, or where each output isn't
    /// wanted or is closed by what was fed.
    pub fn is_spent(&self, port: usize) -> bool
        requires { port < length self.now.reaches.items }
        ensures exact { IsTrue result ↔ IsSpent (concat_view self.now) port }
        ensures is { result ≡ concat_spent self.now port }
    {
        self.reaches[port].after.is_over() | (0 < self.tracks.len() && self.is_done())
    }

    // Whether an output makes its next items of an input.
    pub(crate) fn draws_on(&self, port: usize) -> bool {
        let width = self.tracks.len();
        'outputs: for q in 0..width {
            if self.tracks[q].draws_on(self.reaches.as_slice(), width, q, port) {
                return true;
            }
        }
        false
    }
}
