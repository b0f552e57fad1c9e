//! The answers of a link to puts and takes, and its final counts.
use ff_stream::Item;

/// The answer to a put.
#[derive(Debug, Drop)]
pub enum Put {
    /// The link has the item.
    Done,
    /// The link had no room. The item is handed back.
    Full(Item),
    /// The receiver has finished and takes nothing more. The item is handed back, with the count that the receiver
    /// sent up.
    Finished(Item, u64),
}

/// The answer to a take.
#[derive(Debug, Drop)]
pub enum Take {
    /// The oldest item of the link, which the receiver now has.
    Item(Item),
    /// The link held no item.
    Empty,
}

/// How many items were sent over a link, and how many of them were taken.
#[derive(Clone, Copy, Debug, PartialEq, Eq)]
pub struct Settled {
    /// The number of items sent, a closing one among them.
    pub sent: u64,
    /// The number of items taken: the first of those sent.
    pub taken: u64,
}
