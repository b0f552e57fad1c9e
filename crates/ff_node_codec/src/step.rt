//! The step of a machine on its outputs for an item that it is fed.
ghost use Rattle.std.specs.Prelude.{◌≡◌, ℕ};
ghost use Rattle.ff_stream.specs.declared.item.Item.{Item};
ghost use Rattle.ff_stream.specs.Items.{Closes};
ghost use Rattle.ff_node_codec.specs.Making.{Outcome};
ghost use Rattle.ff_node_codec.specs.laws.Steps.{FollowsFrom, GivesBack};

use ff_filter::After;
use ff_stream::Item;

/// What is to be done on the outputs.
#[derive(Drop)]
pub enum Step {
    /// An item is put on each, the last one where the input is damaged at an offset.
    Puts {
        made: Item,
        /// Whether more can come after it.
        after: After,
        damage: Option<u64>,
        /// The item that was fed, where it may have to be given back.
        spare: Option<Item>,
    },
    /// Nothing.
    Passes,
}

/// An input that closes closes each output.
pub fn closing(item: Item) -> Step
    requires { Closes item }
    ensures follows { (f : Item → Outcome) → FollowsFrom f item result }
    ensures back { GivesBack item result }
{
    match item {
        Item::End => Step::Puts {
            made: Item::End,
            after: After::More,
            damage: None,
            spare: Some(Item::End),
        },
        Item::Broken => Step::Puts {
            made: Item::Broken,
            after: After::More,
            damage: None,
            spare: Some(Item::Broken),
        },
        Item::Audio(_) | Item::Video(_) | Item::Packet(_) | Item::Trailer(_) => unreachable!(),
    }
}
