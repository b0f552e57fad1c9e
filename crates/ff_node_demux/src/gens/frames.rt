//! What gives frames one after another.
ghost use Rattle.std.specs.Prelude.{◌≡◌, ◌∷◌, [], ◌↔◌, List, Ok, Some, None, OnErr};
ghost use Rattle.ff_stream.specs.declared.item.Item.{Item};

use ff_source::GenSource;
use ff_stream::Item;
use std::alloc::AllocError;

/// Gives frames one after another, and reads nothing.
pub trait FrameSource {
    /// The frames that it has still to give.
    ghost left: { Self → List Item };

    /// The next frame. None exactly where all were given.
    fn next_frame(&mut self) -> Result<Option<Item>, AllocError>
        ensures gives { (x : Item) → result ≡ Ok (Some x) → left self.old ≡ x ∷ left self.new }
        ensures over { (result ≡ Ok None) ↔ (left self.old ≡ []) }
        ensures unchanged { OnErr result (self.new ≡ self.old) };
}

impl FrameSource for GenSource {
    ghost use Rattle.ff_source.specs.laws.Left.{left as left_of};

    ghost left = { left_of };

    fn next_frame(&mut self) -> Result<Option<Item>, AllocError> {
        self.next()
    }
}
