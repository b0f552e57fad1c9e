//! The totals of streams, as their items come.
ghost use Rattle.std.specs.Prelude.{◌≡◌};
ghost use Rattle.ff_node_mux.specs.Muxing.{totals_on, left_with};

use ff_frame::Totals;
use ff_stream::Item;

/// The totals that were told, once this item has come too on the input of this number.
pub(crate) fn totals_on(port: usize, totals: Option<Totals>, item: &Item) -> Option<Totals>
    ensures { result ≡ totals_on port totals item.now }
{
    if port > 0 {
        return totals;
    }
    match item {
        Item::Trailer(told) => Some(*told),
        Item::Audio(_) | Item::Video(_) | Item::Packet(_) | Item::End | Item::Broken => totals,
    }
}

/// Of so many streams that haven't ended whole, how many there are once this item has come on one of them.
pub(crate) fn left_with(unended: usize, item: &Item) -> usize
    ensures { result ≡ left_with unended item.now }
{
    match item {
        Item::End => unended.saturating_sub(1),
        Item::Audio(_) | Item::Video(_) | Item::Packet(_) | Item::Trailer(_) | Item::Broken =>
            unended,
    }
}
