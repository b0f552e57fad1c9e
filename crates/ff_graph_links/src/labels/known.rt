//! The trait that says which filters and streams there are.
ghost use Rattle.std.specs.Prelude.{◌≡◌, ℕ, Bool, List, IfOk};

use std::alloc::{AllocError, Global};

/// What the names and labels of graphs may name besides labels.
pub trait Known {
    /// Which names are filters.
    ghost filter: { Self → List ℕ → Bool };

    /// Which labels are streams of inputs.
    ghost stream: { Self → List ℕ → Bool };

    /// Whether there is a filter of this name.
    fn is_filter(&self, name: &str) -> bool
        ensures { result ≡ filter self.now name.now };

    /// Whether a label is a stream of an input.
    fn is_stream(&self, alloc: Global, label: &str) -> Result<bool, AllocError>
        ensures { IfOk result (λ is. is ≡ stream self.now label.now) };
}
