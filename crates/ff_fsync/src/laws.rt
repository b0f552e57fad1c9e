//! A law of what framesync shows: a function that does nothing, whose clause holds of all values.
ghost use Rattle.std.specs.Prelude.{ℕ, Bool, List};
ghost use Rattle.ff_stream.specs.declared.item.Item.{Item};
ghost use Rattle.ff_stream.specs.laws.Breaks.{KeepsBrokenRule};
ghost use Rattle.ff_fsync.specs.laws.SyncBreaks.{AreRisen};
ghost use Rattle.ff_fsync.specs.Pictures.{timed, shown_of};

/// Of streams with rising times, what is shown keeps the broken rule. A broken input counts as open without a further
/// item. The output is broken exactly where an input is, it isn't whole, and no continuation of the inputs adds an
/// item or makes it whole.
pub fn framesync_keeps_the_broken_rule()
    ensures { (n : ℕ) (shortest : Bool) (show : ℕ → List Item → Item) → KeepsBrokenRule (AreRisen (timed n shortest)) (shown_of n shortest show) }
{}
