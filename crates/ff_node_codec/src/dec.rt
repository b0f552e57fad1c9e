//! The decoder node, whatever the codec.
ghost use Rattle.std.specs.Prelude.{◌≡◌, ◌↔◌, [], ◌∷◌, replicate, true, None, Some, Option, IsTrue, IfOk, IfErr, OnOk, OnErr};
ghost use Rattle.ff_frame.specs.declared.packet.Pkt.{Pkt};
ghost use Rattle.ff_stream.specs.declared.item.Item.{Item};
ghost use Rattle.ff_stream.specs.declared.item.Item.TheVariants.{Packet};
ghost use Rattle.ff_node_codec.specs.Decoding.{decoded_item};
ghost use Rattle.ff_node_codec.specs.laws.Steps.{FollowsFrom, GivesBack};
ghost use Rattle.ff_node_codec.specs.laws.Taken.{IsTakenPacket};

use crate::codecs::{AnyDecoder, Decoder};
use crate::cut::{cut_step, is_uncut, starts_over};
use crate::spread::Spread;
use crate::step::{Step, closing};
use ff_filter::After;
use ff_flac_dec::FrameReceiver;
use ff_frame::{Event, Pkt, StreamHead, Ticket};
use ff_net::{Fault, Machine};
use ff_stream::{Item, Refused, discard};
use ff_time::TimeCut;
use std::alloc::{AllocError, Global};

/// Decodes the packets of a stream, whatever its codec. It gives what a cut leaves of the frame of each packet on
/// each output, and how the stream ends. A packet that has no frame breaks it off, with the fault that the input is
/// damaged there. After the end of the cut no packet is looked at.
#[derive(Drop)]
pub struct Dec<D> {
    alloc: Global,
    decoder: D,
    head: StreamHead,
    cut: TimeCut,
    spread: Spread,
}

impl<D: Decoder + Drop> Dec<D> {
    ghost use Rattle.std.specs.Prelude.{◌≤◌};
    ghost use Rattle.ff_stream.specs.declared.item.Lane.TheVariants.{Frames, Packets};
    ghost use Rattle.ff_net.specs.Pasts.{start};
    ghost use Rattle.ff_node_codec.specs.Decoding.{dec_task};
    ghost use Rattle.ff_node_codec.specs.laws.Coders.{dec_in_lanes, dec_out_lanes, dec_fault, dec_stands};

    /// A decoder of this head's packets to which nothing was fed, with a cut of its frames, the same on each of so many outputs.
    pub fn new(
        alloc: Global,
        decoder: D,
        head: StreamHead,
        cut: TimeCut,
        outputs: usize,
    ) -> Result<Dec<D>, AllocError>
        requires head { head ≡ D.head decoder }
        requires some { 1 ≤ outputs }
        ensures in_lanes { IfOk result (λ m. dec_in_lanes D.head m ≡ Packets (D.head decoder) ∷ []) }
        ensures out_lanes { IfOk result (λ m. dec_out_lanes D.head m ≡ replicate outputs (Frames (D.head decoder))) }
        ensures fault { IfOk result (λ m. dec_fault m ≡ None) }
        ensures stands { IfOk result (λ m. dec_stands D.head D.made m (start (dec_task head (D.made decoder) cut outputs))) }
    {
        let spread = Spread::new(alloc, outputs, starts_over(cut))?;
        Ok(Dec {
            alloc,
            decoder,
            head,
            cut,
            spread,
        })
    }
}

impl Dec<AnyDecoder> {
    /// Has it take the frames that a cut of FLAC sends, so that it needn't read these packets itself. It gives what it gave.
    pub fn take_frames_from(&mut self, frames: FrameReceiver)
        ensures { self.new ≡ self.old }
    {
        self.decoder.take_frames_from(frames);
    }
}

// What a packet gives: its frame, or the break where it has none.
fn decode<D: Decoder>(
    alloc: Global,
    decoder: &mut D,
    packet: Pkt,
    spared: bool,
) -> Result<Step, Refused>
    requires { D.takes decoder.old packet }
    ensures follows { IfOk result (λ step. FollowsFrom (decoded_item (D.made decoder.old)) (Packet packet) step) }
    ensures spare { IfOk result (λ step. spared ≡ true → GivesBack (Packet packet) step) }
    ensures back { IfErr result (λ refused. refused.item ≡ Packet packet) }
    ensures same { decoder.new ≡ decoder.old }
{
    let spare = match copy_if(alloc, &packet, spared) {
        Ok(spare) => spare,
        Err(_) => {
            return Err(Refused {
                item: Item::Packet(packet),
            });
        }
    };
    let offset = packet.pos;
    match decoder.decode(packet) {
        Ok(Some(frame)) => Ok(Step::Puts {
            made: frame,
            after: After::More,
            damage: None,
            spare,
        }),
        Ok(None) => Ok(Step::Puts {
            made: Item::Broken,
            after: After::More,
            damage: Some(offset),
            spare,
        }),
        Err(packet) => Err(Refused {
            item: Item::Packet(packet),
        }),
    }
}

// An equal packet, where one may have to be given back.
fn copy_if(alloc: Global, packet: &Pkt, spared: bool) -> Result<Option<Item>, AllocError>
    ensures { IfOk result (λ copy. spared ≡ true → copy ≡ Some (Packet packet.now)) }
{
    if !spared {
        return Ok(None);
    }
    let copy = packet.try_copy(alloc)?;
    Ok(Some(Item::Packet(copy)))
}

// What is to be done for an item.
fn step<D: Decoder>(
    alloc: Global,
    decoder: &mut D,
    item: Item,
    spared: bool,
) -> Result<Step, Refused>
    ensures follows { IfOk result (λ step. IsTakenPacket (D.takes decoder.old) item → FollowsFrom (decoded_item (D.made decoder.old)) item step) }
    ensures spare { IfOk result (λ step. spared ≡ true → GivesBack item step) }
    ensures back { IfErr result (λ refused. refused.item ≡ item) }
    ensures same { decoder.new ≡ decoder.old }
{
    if item.closes() {
        return Ok(closing(item));
    }
    match item {
        Item::Packet(packet) => if decoder.can_take(&packet) {
            decode(alloc, decoder, packet, spared)
        } else {
            discard(Item::Packet(packet));
            Ok(Step::Passes)
        },
        Item::Trailer(_totals) => Ok(Step::Passes),
        Item::Audio(frame) => {
            discard(Item::Audio(frame));
            Ok(Step::Passes)
        }
        Item::Video(frame) => {
            discard(Item::Video(frame));
            Ok(Step::Passes)
        }
        Item::End | Item::Broken => unreachable!(),
    }
}

impl<D: Decoder + Drop> Machine for Dec<D> {
    ghost use Rattle.ff_node_codec.specs.laws.Kinds.{dec_view, dec_laws};

    ghost view = { dec_view D.head D.made };

    fn inputs(&self) -> usize {
        1
    }

    fn outputs(&self) -> usize {
        self.spread.count()
    }

    fn source(&self) -> Option<u32> {
        None
    }

    fn fault(&self) -> Option<Fault> {
        self.spread.fault()
    }

    fn allow(&mut self, ticket: Ticket) -> Option<Ticket> {
        Some(ticket)
    }

    fn feed(&mut self, _port: usize, item: Item) -> Result<(), Refused> {
        if self.spread.is_closed() {
            discard(item);
            return Ok(());
        }
        if self.spread.reserve().is_err() {
            return Err(Refused { item });
        }
        let spared = self.spread.is_shared() | !is_uncut(self.cut);
        match step(self.alloc, &mut self.decoder, item, spared) {
            Ok(step) => match cut_step(&self.head, self.cut, step) {
                Ok(left) => self.spread.follow(self.alloc, left),
                Err(refused) => Err(refused),
            },
            Err(refused) => Err(refused),
        }
    }

    fn pull(&mut self, port: usize) -> Result<Option<Item>, AllocError> {
        Ok(self.spread.take(port))
    }

    fn stop(&mut self, port: usize) {
        self.spread.stop(port);
    }

    fn spent(&self, _port: usize) -> bool {
        self.spread.is_spent()
    }

    fn next_event(&mut self) -> Option<Event> {
        None
    }

    ghost laws = { dec_laws D.head D.made };
}
