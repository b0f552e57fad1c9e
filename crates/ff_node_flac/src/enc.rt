//! The FLAC encoder as a machine.
ghost use Rattle.std.specs.Prelude.{◌≡◌, ◌∷◌, [], ◌+◌, ◌≤◌, ◌<◌, false, true, None, IfOk, IfErr, OnOk, OnErr};
ghost use Rattle.ff_frame.specs.declared.head.StreamHead.{StreamHead};
ghost use Rattle.ff_stream.specs.declared.item.Item.{Item};
ghost use Rattle.ff_stream.specs.declared.item.Item.TheVariants.{Audio};
ghost use Rattle.ff_stream.specs.Items.{Closes};
ghost use Rattle.ff_flac_enc.specs.declared.format.Format.{Format};
ghost use Rattle.ff_node_flac.specs.Coding.{CanCode};
ghost use Rattle.ff_node_flac.specs.laws.Encoders.{IsFormatOf, goes_on};

use crate::coder::Coder;
use crate::queue::{Given, Queue, coded};
use crate::shut::Shut;
use ff_flac_enc::Format;
use ff_frame::{AFrame, Event, StreamHead, Ticket};
use ff_net::{Fault, Machine};
use ff_stream::{Item, Refused, discard};
use std::alloc::{AllocError, Global};

/// Encodes the frames of an audio stream as FLAC. It gives a packet of each block of 4,096 sample frames, the last
/// one of the rest, and after them the totals. A stream with more than 2^31 packets breaks off as too long.
#[derive(Drop)]
pub struct FlacEnc<C> {
    coder: C,
    head: StreamHead,
    queue: Queue,
    shut: Shut,
    /// Whether the totals were given.
    told: bool,
    /// Whether the closing item was given.
    over: bool,
    /// Whether the receiver has finished.
    stopped: bool,
    /// Whether the stream was too long.
    long: bool,
    ghost on: { goes_on shut queue ≡ true },
}

// The format that frames of this head are coded in.
fn format_of(head: &StreamHead) -> Format
    requires { CanCode head.now }
    ensures is { IsFormatOf head.now result }
    ensures few_bits { result.bits ≤ 24 }
    ensures rate { result.rate < 1048576 }
{
    match head {
        StreamHead::Audio {
            rate,
            bits,
            channels,
            ..
        } => Format {
            rate: *rate,
            bits: coded(*bits),
            channels: *channels,
        },
        StreamHead::Video { .. } => unreachable!(),
    }
}

impl<C: Coder + Drop> FlacEnc<C> {
    ghost use Rattle.ff_net.specs.Pasts.{start};
    ghost use Rattle.ff_node_flac.specs.Coding.{flac_task};
    ghost use Rattle.ff_node_flac.specs.laws.Machines.{enc_view, KeepsHead};

    /// An encoder of this head's frames, to which nothing was fed.
    pub fn new(alloc: Global, coder: C, head: StreamHead) -> FlacEnc<C>
        requires { CanCode head }
        ensures lanes { KeepsHead head (enc_view result) }
        ensures fault { (enc_view result).fault ≡ None }
        ensures stands { (enc_view result).stands (start flac_task) }
    {
        FlacEnc {
            coder,
            head,
            queue: Queue::new(alloc, format_of(&head)),
            shut: Shut::Open,
            told: false,
            over: false,
            stopped: false,
            long: false,
        }
    }
}

impl<C> FlacEnc<C> {
    ghost use Rattle.ff_node_flac.specs.laws.Steps.{IsFed, IsKeptOn};

    // Takes a frame, where one is wanted.
    fn take(&mut self, frame: AFrame) -> Result<(), Refused>
        requires { self.old.shut ≡ Shut.Open }
        ensures fed { OnOk result (IsFed self.old self.new (Audio frame)) }
        ensures back { IfErr result (λ refused. refused.item ≡ Audio frame) }
        ensures kept { OnErr result (IsKeptOn self.old self.new) }
        ensures head { self.new.head ≡ self.old.head }
        ensures long { self.new.long ≡ self.old.long }
    {
        if self.stopped | self.over {
            discard(Item::Audio(frame));
            return Ok(());
        }
        if !self.queue.takes(&frame) {
            discard(Item::Audio(frame));
            return Ok(());
        }
        self.queue.feed(frame)
    }
}

impl<C: Coder + Drop> Machine for FlacEnc<C> {
    ghost use Rattle.ff_node_flac.specs.laws.Machines.{enc_view, enc_laws};

    ghost view = { enc_view };

    fn inputs(&self) -> usize {
        1
    }

    fn outputs(&self) -> usize {
        1
    }

    fn source(&self) -> Option<u32> {
        None
    }

    fn fault(&self) -> Option<Fault> {
        if self.long {
            Some(Fault::TooLong)
        } else {
            None
        }
    }

    fn allow(&mut self, ticket: Ticket) -> Option<Ticket> {
        Some(ticket)
    }

    fn feed(&mut self, _port: usize, item: Item) -> Result<(), Refused> {
        if self.shut != Shut::Open {
            discard(item);
            return Ok(());
        }
        match item {
            Item::Audio(frame) => self.take(frame),
            Item::Video(_frame) => Ok(()),
            Item::Packet(_packet) => Ok(()),
            Item::Trailer(_totals) => Ok(()),
            Item::End => {
                self.queue.end();
                self.shut = Shut::Whole;
                Ok(())
            }
            Item::Broken => {
                self.shut = Shut::Broken;
                Ok(())
            }
        }
    }

    fn pull(&mut self, _port: usize) -> Result<Option<Item>, AllocError> {
        if self.stopped | self.over {
            return Ok(None);
        }
        if self.told {
            self.over = true;
            return Ok(Some(Item::End));
        }
        match self.queue.pull(&self.coder)? {
            Given::Packet(packet) => Ok(Some(Item::Packet(packet))),
            Given::Nothing => match self.shut {
                Shut::Open => Ok(None),
                Shut::Whole => {
                    self.told = true;
                    Ok(Some(Item::Trailer(self.queue.totals())))
                }
                Shut::Broken => {
                    self.over = true;
                    Ok(Some(Item::Broken))
                }
            },
            Given::TooLong => {
                self.long = true;
                self.over = true;
                Ok(Some(Item::Broken))
            }
        }
    }

    fn stop(&mut self, _port: usize) {
        self.stopped = true;
    }

    fn spent(&self, _port: usize) -> bool {
        (self.shut != Shut::Open) | self.over | self.stopped
    }

    fn next_event(&mut self) -> Option<Event> {
        None
    }

    ghost laws = { enc_laws };
}
