//! Items, and the lanes that say which items a stream carries.
ghost use Rattle.std.specs.Prelude.{◌≡◌, ◌↔◌, IsTrue, IfOk};
ghost use Rattle.ff_stream.specs.Items.{Closes};

use ff_frame::{AFrame, Pkt, StreamHead, Totals, VFrame};
use std::alloc::{AllocError, Global};

/// What travels from one part of a run to the next.
#[derive(Debug, Drop)]
pub enum Item {
    /// A decoded audio frame.
    Audio(AFrame),
    /// A decoded video frame.
    Video(VFrame),
    /// A coded packet.
    Packet(Pkt),
    /// What an encoder knows of the whole stream, after its last packet.
    Trailer(Totals),
    /// Nothing more comes: all has come.
    End,
    /// Nothing more comes: the rest was lost to damage or a fault.
    Broken,
}

/// An item that found no memory, given back.
#[derive(Debug, Drop)]
pub struct Refused {
    /// The item, as it was.
    pub item: Item,
}

/// Which items a way carries.
#[derive(Debug, Drop)]
pub enum Lane {
    /// Decoded frames of this head.
    Frames(StreamHead),
    /// Packets of this head.
    Packets(StreamHead),
}

/// Lets an item go that nobody wants.
pub fn discard(_item: Item) {}

impl Lane {
    /// An equal lane.
    pub fn copy(&self) -> Lane
        ensures { result ≡ self.now }
    {
        match self {
            Lane::Frames(head) => Lane::Frames(*head),
            Lane::Packets(head) => Lane::Packets(*head),
        }
    }
}

impl Item {
    /// Whether nothing comes after it.
    pub fn closes(&self) -> bool
        ensures { IsTrue result ↔ Closes self.now }
    {
        match self {
            Item::Audio(_) | Item::Video(_) | Item::Packet(_) | Item::Trailer(_) => false,
            Item::End | Item::Broken => true,
        }
    }

    /// An equal item.
    pub fn try_copy(&self, alloc: Global) -> Result<Item, AllocError>
        ensures { IfOk result (λ copy. copy ≡ self.now) }
    {
        match self {
            Item::Audio(frame) => {
                let frame = frame.try_copy(alloc)?;
                Ok(Item::Audio(frame))
            }
            Item::Video(frame) => {
                let frame = frame.try_copy(alloc)?;
                Ok(Item::Video(frame))
            }
            Item::Packet(packet) => {
                let packet = packet.try_copy(alloc)?;
                Ok(Item::Packet(packet))
            }
            Item::Trailer(totals) => Ok(Item::Trailer(*totals)),
            Item::End => Ok(Item::End),
            Item::Broken => Ok(Item::Broken),
        }
    }
}
