//! The state of an output stream after an item.
ghost use Rattle.std.specs.Prelude.{◌≡◌};
ghost use Rattle.ff_filter.specs.Made.{closing, is_over};

use ff_stream::Item;

/// How a stream goes on after an item.
#[derive(Clone, Copy, PartialEq, Eq, Debug)]
pub enum After {
    /// More may come.
    More,
    /// That was all.
    Whole,
    /// It breaks off here.
    Broke,
}

impl After {
    /// Whether the stream goes on no further.
    pub fn is_over(self) -> bool
        ensures { result ≡ is_over self }
    {
        self != After::More
    }
}

/// What an item that closes its stream says of it.
pub fn closing_of(item: &Item) -> Option<After>
    ensures { result ≡ closing item.now }
{
    match item {
        Item::Audio(_) | Item::Video(_) | Item::Packet(_) | Item::Trailer(_) => None,
        Item::End => Some(After::Whole),
        Item::Broken => Some(After::Broke),
    }
}
