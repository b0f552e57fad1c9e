//! The encoder node, whatever the codec.
ghost use Rattle.std.specs.Prelude.{◌≡◌, ◌↔◌, [], ◌∷◌, true, None, Some, Option, IsTrue, IfOk, IfErr, OnOk, OnErr};
ghost use Rattle.ff_stream.specs.declared.item.Item.{Item};
ghost use Rattle.ff_stream.specs.Items.{Closes};
ghost use Rattle.ff_node_codec.specs.Encoding.{encoded_item};
ghost use Rattle.ff_node_codec.specs.laws.Steps.{FollowsFrom, GivesBack};
ghost use Rattle.ff_node_codec.specs.laws.Taken.{IsTakenFrame};

use crate::codecs::Encoder;
use crate::spread::Spread;
use crate::step::{Step, closing};
use ff_filter::After;
use ff_frame::{Event, StreamHead, Ticket};
use ff_net::{Fault, Machine};
use ff_stream::{Item, Refused, discard};
use std::alloc::{AllocError, Global};

/// Encodes the frames of a stream, whatever the codec: gives a packet for each frame, and how the stream ends.
#[derive(Drop)]
pub struct Enc<E> {
    alloc: Global,
    encoder: E,
    head: StreamHead,
    spread: Spread,
}

impl<E: Encoder + Drop> Enc<E> {
    ghost use Rattle.ff_stream.specs.declared.item.Lane.TheVariants.{Frames, Packets};
    ghost use Rattle.ff_net.specs.Pasts.{start};
    ghost use Rattle.ff_node_codec.specs.Encoding.{enc_task};
    ghost use Rattle.ff_node_codec.specs.laws.Coders.{enc_in_lanes, enc_out_lanes, enc_fault, enc_stands};

    /// An encoder of this head's frames, to which nothing was fed.
    pub fn new(alloc: Global, encoder: E, head: StreamHead) -> Result<Enc<E>, AllocError>
        requires serves { E.serves encoder head }
        ensures in_lanes { IfOk result (λ m. enc_in_lanes m ≡ Frames head ∷ []) }
        ensures out_lanes { IfOk result (λ m. enc_out_lanes E.coded m ≡ Packets (E.coded encoder head) ∷ []) }
        ensures fault { IfOk result (λ m. enc_fault m ≡ None) }
        ensures stands { IfOk result (λ m. enc_stands E.serves E.coded E.made m (start (enc_task (E.made encoder)))) }
    {
        let spread = Spread::new(alloc, 1, false)?;
        Ok(Enc {
            alloc,
            encoder,
            head,
            spread,
        })
    }
}

// What a frame gives: its packet.
fn encode<E: Encoder>(
    alloc: Global,
    encoder: &E,
    frame: Item,
    shared: bool,
) -> Result<Step, Refused>
    requires takes { E.takes encoder.now frame }
    requires goes_on { Closes frame → ⊥ }
    ensures follows { IfOk result (λ step. FollowsFrom (encoded_item (E.made encoder.now)) frame step) }
    ensures spare { IfOk result (λ step. shared ≡ true → GivesBack frame step) }
    ensures back { IfErr result (λ refused. refused.item ≡ frame) }
{
    let spare = match copy_if(alloc, &frame, shared) {
        Ok(spare) => spare,
        Err(_) => return Err(Refused { item: frame }),
    };
    match encoder.encode(frame) {
        Ok(packet) => Ok(Step::Puts {
            made: Item::Packet(packet),
            after: After::More,
            damage: None,
            spare,
        }),
        Err(frame) => Err(Refused { item: frame }),
    }
}

// An equal frame, where one may have to be given back.
fn copy_if(alloc: Global, frame: &Item, shared: bool) -> Result<Option<Item>, AllocError>
    ensures { IfOk result (λ copy. shared ≡ true → copy ≡ Some frame.now) }
{
    if !shared {
        return Ok(None);
    }
    let copy = frame.try_copy(alloc)?;
    Ok(Some(copy))
}

// What is to be done for an item.
fn step<E: Encoder>(alloc: Global, encoder: &E, item: Item, shared: bool) -> Result<Step, Refused>
    ensures follows { IfOk result (λ step. IsTakenFrame (E.takes encoder.now) item → FollowsFrom (encoded_item (E.made encoder.now)) item step) }
    ensures spare { IfOk result (λ step. shared ≡ true → GivesBack item step) }
    ensures back { IfErr result (λ refused. refused.item ≡ item) }
{
    if item.closes() {
        return Ok(closing(item));
    }
    if !encoder.can_take(&item) {
        discard(item);
        return Ok(Step::Passes);
    }
    encode(alloc, encoder, item, shared)
}

impl<E: Encoder + Drop> Machine for Enc<E> {
    ghost use Rattle.ff_node_codec.specs.laws.Kinds.{enc_view, enc_laws};

    ghost view = { enc_view E.serves E.coded E.made };

    fn inputs(&self) -> usize {
        1
    }

    fn outputs(&self) -> usize {
        self.spread.count()
    }

    fn source(&self) -> Option<u32> {
        None
    }

    fn fault(&self) -> Option<Fault> {
        self.spread.fault()
    }

    fn allow(&mut self, ticket: Ticket) -> Option<Ticket> {
        Some(ticket)
    }

    fn feed(&mut self, _port: usize, item: Item) -> Result<(), Refused> {
        if self.spread.is_closed() {
            discard(item);
            return Ok(());
        }
        if self.spread.reserve().is_err() {
            return Err(Refused { item });
        }
        match step(self.alloc, &self.encoder, item, self.spread.is_shared()) {
            Ok(step) => self.spread.follow(self.alloc, step),
            Err(refused) => Err(refused),
        }
    }

    fn pull(&mut self, port: usize) -> Result<Option<Item>, AllocError> {
        Ok(self.spread.take(port))
    }

    fn stop(&mut self, port: usize) {
        self.spread.stop(port);
    }

    fn spent(&self, _port: usize) -> bool {
        self.spread.is_spent()
    }

    fn next_event(&mut self) -> Option<Event> {
        None
    }

    ghost laws = { enc_laws E.serves E.coded E.made };
}
