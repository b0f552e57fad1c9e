//! The trait of what each of several outputs gets of an item.
ghost use Rattle.std.specs.Prelude.{◌≡◌, ℕ, List, IfOk, false};
ghost use Rattle.ff_stream.specs.declared.item.Item.{Item as AnItem};
ghost use Rattle.ff_stream.specs.declared.item.Lane.{Lane};
ghost use Rattle.ff_filter.specs.Views.{closes};

use ff_stream::Item;
use std::alloc::AllocError;

/// What each output gets of an item: one item.
pub trait Share {
    /// The lane of the input.
    ghost lane_in: { Self → Lane };

    /// The lanes of the outputs.
    ghost lanes_out: { Self → List Lane };

    /// What an output gets of an item.
    ghost shared: { Self → ℕ → AnItem → AnItem };

    /// What an output gets of an item that others need too.
    fn copy(&self, port: usize, item: &Item) -> Result<Item, AllocError>
        requires goes_on { closes item.now ≡ false }
        ensures is { IfOk result (λ y. y ≡ shared self.now port item.now) };

    /// What an output gets of an item that no other needs.
    fn turn(&self, port: usize, item: Item) -> Item
        requires goes_on { closes item ≡ false }
        ensures is { result ≡ shared self.now port item };

    /// What is made of an item that closes nothing closes nothing.
    ghost goes_on: { (m : Self) (q : ℕ) (x : AnItem) → closes x ≡ false → closes (shared m q x) ≡ false };
}
