//! How far the inputs have come.
ghost use Rattle.std.specs.Prelude.{◌≡◌, ◌≤◌, ◌^◌};

use ff_filter::After;

/// How far an input has come.
#[derive(Debug, Drop)]
pub struct Reach {
    /// The end of the last item that came, in ticks; 0 where none did.
    pub end: u128,
    /// How it stands.
    pub after: After,
    pub ghost near: { end ≤ 2 ^ 65 },
}

impl Reach {
    /// Nothing came.
    pub fn new() -> Reach
        ensures end { result.end ≡ 0 }
        ensures after { result.after ≡ After.More }
    {
        Reach {
            end: 0,
            after: After::More,
        }
    }

    /// An item came that ends so.
    pub fn pass(&mut self, end: u128)
        requires { end ≤ 2 ^ 65 }
        ensures end { self.new.end ≡ end }
        ensures after { self.new.after ≡ self.old.after }
    {
        self.end = end;
    }

    /// It closes so.
    pub fn close(&mut self, after: After)
        ensures end { self.new.end ≡ self.old.end }
        ensures after { self.new.after ≡ after }
    {
        self.after = after;
    }
}
