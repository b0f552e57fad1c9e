//! The trait of a function of one stream that gives at most one item for each.
ghost use Rattle.std.specs.Prelude.{◌≡◌, OnErr, IfOk, IfErr, IfSome, false};
ghost use Rattle.ff_stream.specs.declared.item.Item.TheVariants.{End, Broken};
ghost use Rattle.ff_stream.specs.declared.item.Lane.{Lane};
ghost use Rattle.ff_stream.specs.Stream.{LiesBelow, opened};
ghost use Rattle.ff_stream.specs.Ports.{nothing, IsClosed};
ghost use Rattle.ff_filter.specs.Joins.{Flow, one, before, joined};
ghost use Rattle.ff_filter.specs.Views.{closes};
ghost use Rattle.ff_filter.specs.Made.{made_of};

use crate::after::After;
use ff_stream::{Item, Refused};

/// What a step gives for an item, and how the output stands after it.
#[derive(Drop)]
pub struct Given {
    /// At most one item, which closes nothing.
    pub item: Option<Item>,
    /// Whether more can come.
    pub after: After,
}

/// A function of one stream that gives at most one item for each.
pub trait Step {
    /// The lane of its input.
    ghost lane_in: { Self → Lane };

    /// The lane of its output.
    ghost lane_out: { Self → Lane };

    /// What it makes of the stream that comes.
    ghost runs: { Self → Flow → Flow };

    /// What it makes of an item that closes nothing. A refused item comes back, and nothing has changed.
    fn step(&mut self, item: Item) -> Result<Given, Refused>
        requires goes_on { closes item ≡ false }
        ensures lane_in { lane_in self.new ≡ lane_in self.old }
        ensures lane_out { lane_out self.new ≡ lane_out self.old }
        ensures made { IfOk result (λ given. (t : Flow) → runs self.old (before item t) ≡ joined (made_of given.item given.after) (runs self.new t)) }
        ensures data { IfOk result (λ given. IfSome given.item (λ y. closes y ≡ false)) }
        ensures refused { IfErr result (λ r. r.item ≡ item) }
        ensures unchanged { OnErr result ((t : Flow) → runs self.new t ≡ runs self.old t) };

    /// Of nothing it makes nothing.
    ghost waits: { (m : Self) → runs m nothing ≡ nothing };

    /// Streams further on give streams further on.
    ghost below: { (m : Self) (r s : Flow) → LiesBelow r s → LiesBelow (runs m r) (runs m s) };

    /// Whoever isn't told of a break gets no less.
    ghost calm: { (m : Self) (r : Flow) → LiesBelow (opened (runs m r)) (runs m (opened r)) };

    /// Where the input closes, so does the output.
    ghost settles: { (m : Self) (r : Flow) → IsClosed r → IsClosed (runs m r) };

    /// Where the input ends, so does the output.
    ghost ends: { (m : Self) → runs m (one End) ≡ one End };

    /// Where the input breaks off, so does the output.
    ghost breaks: { (m : Self) → runs m (one Broken) ≡ one Broken };
}
