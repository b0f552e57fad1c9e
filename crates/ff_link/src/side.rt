//! The rules of a link's two queues, and what each step of an end adds to what it knows.
use atomic_table::{Join, Split};
use crossbeam_queue::protocol::{Lesson, Outcome, Protocol};
use crossbeam_queue::{Pass, RuledArrayQueue};
use ff_stream::{Item, Lane};
use std::collections::LinkedList;
use std::marker::PhantomData;

/// What a link carries, and whether that is claimed to be valid. No value of it is made.
pub struct Way {
    /// Whether the items are claimed to be valid for the lane.
    pub claims: bool,
    /// The lane that says which items it carries.
    pub lane: Lane,
}

/// What a pass of a queue may do, what it was told of the link, what it put and what it took. No value of it is made.
pub struct Side<T> {
    /// Whether the pass may put.
    pub puts: bool,
    /// Whether the pass may take.
    pub takes: bool,
    /// What the link carries.
    pub way: Way,
    /// How many items the queue holds at most.
    pub room: u64,
    /// What was put.
    pub sent: LinkedList<T>,
    /// What was taken.
    pub taken: LinkedList<T>,
}

/// Whether what is sent over a link is claimed to be valid for its lane. No value says so at run time.
///
/// A caller that can't know it, since its source doesn't tell what comes, claims nothing. Then the link still carries
/// in order what it is given.
pub trait Claims {
    ghost use Rattle.std.specs.Prelude.{Bool};

    ghost claims: { Bool };
}

impl Claims for std::marker::Brand {
    ghost use Rattle.std.specs.Prelude.{true};

    ghost claims = { true };
}

/// What a link carries, and its room, which the call that makes it picks.
pub trait Fixed {
    ghost use Rattle.std.specs.Prelude.{ℕ};
    ghost use Rattle.ff_link.specs.declared.side.Way.{Way};

    ghost way: { Way };

    ghost room: { ℕ };
}

impl Fixed for std::marker::Brand {
    ghost use Rattle.ff_link.specs.laws.Flow.{no_way};

    ghost way = { no_way };

    ghost room = { 0 };
}

/// The rule of the items.
pub struct Items;

impl Protocol<Item, Side<Item>> for Items {
    ghost use Rattle.ff_link.specs.laws.Flow.{ItemsFlow, both_of, no_way};

    ghost holds = { ItemsFlow };

    ghost first = { both_of no_way 0 };
}

/// The rule of the count that goes up.
pub struct Counts;

impl Protocol<u64, Side<u64>> for Counts {
    ghost use Rattle.ff_link.specs.laws.Flow.{CountsFlow, both_of, no_way};

    ghost holds = { CountsFlow };

    ghost first = { both_of no_way 0 };
}

/// Cuts the first view in two, and fixes the way and the room. The pass that is cut puts, and the new one takes.
pub struct PutsHere<F> {
    fixed: PhantomData<F>,
}

impl<T, F: Fixed> Split<Side<T>> for PutsHere<F> {
    ghost use Rattle.ff_link.specs.laws.Flow.{putter, taker};

    ghost left = { λ v. putter F.way F.room v.sent };

    ghost right = { λ v. taker F.way F.room v.taken };
}

/// Joins the view that puts with the view that takes.
pub struct Whole;

impl<T> Join<Side<T>> for Whole {
    ghost use Rattle.ff_link.specs.laws.Flow.{whole, nobody, no_way};

    ghost both = { whole };

    ghost spent = { nobody };
}

/// A put and a full look.
pub struct Puts;

impl<T> Outcome<T, Side<T>> for Puts {
    ghost use Rattle.ff_link.specs.laws.Flow.{with_sent};
    ghost use Rattle.std.specs.Prelude.{◌≡◌, [], ◌∷◌, ◌++◌};

    ghost then = { λ v x w. w ≡ with_sent v (v.sent ++ x ∷ []) };
}

impl<T> Lesson<T, Side<T>> for Puts {
    ghost use Rattle.ff_link.specs.laws.Flow.{IsRest};

    ghost fact = { λ v items. IsRest v.sent items };
}

/// A take of an item, and an empty look.
pub struct Takes;

impl Outcome<Item, Side<Item>> for Takes {
    ghost use Rattle.ff_link.specs.laws.Flow.{TakesNext};

    ghost then = { TakesNext };
}

impl Lesson<Item, Side<Item>> for Takes {
    ghost use Rattle.ff_link.specs.laws.Flow.{IsNext};

    ghost fact = { λ v items. IsNext v.taken items };
}

/// A take of the count, and a look that finds none.
pub struct Hears;

impl Outcome<u64, Side<u64>> for Hears {
    ghost use Rattle.ff_link.specs.laws.Flow.{with_taken};
    ghost use Rattle.std.specs.Prelude.{◌≡◌, [], ◌∷◌, ◌++◌};

    ghost then = { λ v x w. w ≡ with_taken v (v.taken ++ x ∷ []) };
}

impl Lesson<u64, Side<u64>> for Hears {
    ghost use Rattle.ff_link.specs.laws.Flow.{IsNext};

    ghost fact = { λ v items. IsNext v.taken items };
}

/// What both views of the items know together.
pub struct AllItems;

impl Lesson<Item, Side<Item>> for AllItems {
    ghost use Rattle.ff_link.specs.laws.Flow.{IsTotal, IsCarried};

    ghost fact = { λ v items. IsTotal IsCarried v items };
}

/// What both views of the count know together.
pub struct AllCounts;

impl Lesson<u64, Side<u64>> for AllCounts {
    ghost use Rattle.ff_link.specs.laws.Flow.{IsTotal, AnyCounts};

    ghost fact = { λ v items. IsTotal AnyCounts v items };
}

/// The queue of the items, from the sender to the receiver.
pub type Down = RuledArrayQueue<Item, Side<Item>, Items>;

/// A pass of the queue of the items.
pub type DownPass = Pass<Item, Side<Item>>;

/// The queue of the one count, from the receiver to the sender.
pub type Up = RuledArrayQueue<u64, Side<u64>, Counts>;

/// A pass of the queue of the count.
pub type UpPass = Pass<u64, Side<u64>>;
