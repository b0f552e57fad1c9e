//! The packets of an AVI input, in the order in which they lie.
ghost use Rattle.std.specs.Prelude.{◌≡◌, ◌≢◌, ◌+◌, ◌-◌, ◌^◌, ◌≤◌, ◌<◌, ℕ, [], ◌++◌, Some, None, Ok, true, false, min, length, OnOk, OnErr, IfOk, IsOk, pos};
ghost use Rattle.ff_frame.specs.declared.cut.Cut.{Cut};
ghost use Rattle.ff_frame.specs.Packet.{packet_at};
ghost use Rattle.ff_avi.specs.Sound.{IsHead};

use crate::data::{DataState, DataUnit, Turn, turn_at};
use crate::head::AviHead;
use crate::lane::{Lanes, lanes_in};
use ff_frame::{Bytes, Cut, Pkt};
use ff_reader::Held;
use std::alloc::{AllocError, Global};

/// The packets of an AVI input, from pieces of any size.
#[derive(Drop)]
pub struct AviCut {
    alloc: Global,
    lanes: Lanes,
    /// The number of the first used stream.
    first: u32,
    /// What the data so far says.
    known: DataState,
    /// The offset in the input of the first byte that waits.
    place: u64,
    /// The offset of what is passed over.
    from: u64,
    /// How many bytes of it follow.
    left: u64,
    /// Whether its pad byte follows, as a number of bytes.
    pad: u64,
    held: Held,
    ended: bool,
    ghost streams: { (lanes.pictures.stream ≤ 1) × (lanes.sound.stream ≤ 1) },
    ghost sizes: { (lanes.pictures.size ≤ 805306368) × (lanes.sound.size ≤ 32) },
    ghost near: { place + left + pad + known.left + known.pad ≤ 2 ^ 41 },
    ghost one_pad: { known.pad ≤ 1 },
    ghost pictures: { known.pictures ≤ place + left },
    ghost samples: { known.samples ≤ place + left },
}

// The packet of a unit at this offset, whose bytes these are.
fn packet(unit: &DataUnit, at: u64, bytes: Vec<u8>) -> Pkt
    requires place { at + unit.now.skip < 2 ^ 64 }
    requires times { (unit.now.time < 2 ^ 63) × (unit.now.duration < 2 ^ 63) }
    ensures { result ≡ packet_at (pos unit.now.time) (pos unit.now.duration) (at + unit.now.skip) bytes.items }
{
    Pkt {
        pts: unit.time as i64,
        dts: unit.time as i64,
        duration: unit.duration as i64,
        pos: at + unit.skip,
        bytes: Bytes::new(bytes),
    }
}

impl AviCut {
    ghost use Rattle.ff_avi.specs.declared.data.Turn.TheVariants.{Pass, Give};
    ghost use Rattle.ff_avi.specs.Data.{turn, Steps};
    ghost use Rattle.ff_avi.specs.laws.Cuts.{Cuts, has_ended, first_of, waiting_in, room_in, Feeds, KeepsCut, IsPart, Stops, Tells, IsPassed};

    /// A cut of an input with this head, which was read, that gives the packets of the streams of these numbers.
    pub fn new(alloc: Global, head: &AviHead, used: &[u32]) -> AviCut
        requires head { IsHead head.now }
        requires used { 1 ≤ length used.now }
        ensures cuts { Cuts result head.now used.now [] 0 }
        ensures goes_on { has_ended result ≡ false }
    {
        AviCut {
            alloc,
            lanes: lanes_in(head, used),
            first: used[0],
            known: DataState {
                pictures: 0,
                samples: 0,
                left: 0,
                pad: 0,
            },
            place: head.start,
            from: head.start,
            left: 0,
            pad: 0,
            held: Held::new(alloc),
            ended: false,
        }
    }

    /// Takes further bytes of the input, those after the head. The input must not have ended.
    pub fn feed(&mut self, bytes: &[u8]) -> Result<(), AllocError>
        requires { has_ended self.old ≡ false }
        ensures ok { OnOk result (Feeds self.old self.new bytes.now) }
        ensures held { OnOk result (waiting_in self.new ≡ waiting_in self.old ++ bytes.now) }
        ensures succeeds { length bytes.now ≤ room_in self.old → IsOk result }
        ensures err { OnErr result (self.new ≡ self.old) }
        ensures ended { has_ended self.new ≡ has_ended self.old }
        ensures first { first_of self.new ≡ first_of self.old }
    {
        self.held.push(bytes)
    }

    /// Makes room for so many bytes more, which `feed` then takes without fail.
    pub fn reserve(&mut self, count: usize) -> Result<(), AllocError>
        ensures cuts { KeepsCut self.old self.new }
        ensures held { waiting_in self.new ≡ waiting_in self.old }
        ensures room { OnOk result (count ≤ room_in self.new) }
        ensures err { OnErr result (self.new ≡ self.old) }
        ensures ended { has_ended self.new ≡ has_ended self.old }
        ensures first { first_of self.new ≡ first_of self.old }
    {
        self.held.reserve(count)
    }

    /// The input ended: nothing more is fed.
    pub fn end(&mut self)
        requires { has_ended self.old ≡ false }
        ensures cuts { KeepsCut self.old self.new }
        ensures ended { has_ended self.new ≡ true }
        ensures first { first_of self.new ≡ first_of self.old }
    {
        self.ended = true;
    }

    /// How many bytes are kept: those fed since the end of the last packet given, or of what was passed over.
    pub fn held(&self) -> u64
        ensures { result ≡ length (waiting_in self.now) }
    {
        self.held.len() as u64
    }

    // Lets go of the bytes that are passed over, as far as they are there.
    fn pass(&mut self)
        ensures cuts { KeepsCut self.old self.new }
        ensures ended { has_ended self.new ≡ has_ended self.old }
        ensures first { first_of self.new ≡ first_of self.old }
        ensures all { IsPassed self.new }
        ensures over { length (waiting_in self.new) ≤ length (waiting_in self.old) - min self.old.left (length (waiting_in self.old)) }
    {
        let over = self.left.min(self.held.len() as u64);
        self.held.skip(over as usize);
        self.place += over;
        self.left -= over;
        if self.left == 0 {
            self.pass_pad();
        }
    }

    // Lets go of the pad byte behind them.
    fn pass_pad(&mut self)
        requires { self.old.left ≡ 0 }
        ensures cuts { KeepsCut self.old self.new }
        ensures ended { has_ended self.new ≡ has_ended self.old }
        ensures first { first_of self.new ≡ first_of self.old }
        ensures all { IsPassed self.new }
        ensures over { length (waiting_in self.new) ≤ length (waiting_in self.old) }
    {
        let over = self.pad.min(self.held.len() as u64);
        self.held.skip(over as usize);
        self.place += over;
        self.pad -= over;
    }

    // What comes where no whole unit waits.
    fn unfinished(&self) -> Cut
        requires part { IsPart self.now }
        requires few { length (waiting_in self.now) < 2 ^ 30 }
        ensures { Stops self.now result }
    {
        if !self.ended {
            return Cut::NotYet;
        }
        if self.left > 0 {
            return Cut::Broken { offset: self.from };
        }
        if self.known.left > 0 || self.held.len() > 0 {
            return Cut::Broken { offset: self.place };
        }
        Cut::End
    }

    // Begins to pass over so many bytes after the first one that waits.
    fn begin(&mut self, rest: u64, pad: u64, next: DataState)
        requires passed { (self.old.left ≡ 0) × (self.old.pad ≡ 0) × (self.old.held.bytes ≢ []) }
        requires turn { turn self.old.lanes self.old.known self.old.place self.old.held.bytes ≡ Pass rest pad next }
        requires step { Steps self.old.place self.old.known (rest + 1) pad next }
        ensures cuts { KeepsCut self.old self.new }
        ensures ended { has_ended self.new ≡ has_ended self.old }
        ensures first { first_of self.new ≡ first_of self.old }
        ensures all { IsPassed self.new }
        ensures shorter { length (waiting_in self.new) < length (waiting_in self.old) }
    {
        self.from = self.place;
        self.left = rest + 1;
        self.pad = pad;
        self.known = next;
        self.pass();
    }

    // Gives the packet of a unit that waits.
    fn give(&mut self, unit: DataUnit, pad: u64, next: DataState) -> Result<Pkt, AllocError>
        requires passed { (self.old.left ≡ 0) × (self.old.pad ≡ 0) }
        requires turn { turn self.old.lanes self.old.known self.old.place self.old.held.bytes ≡ Give unit pad next }
        requires step { Steps self.old.place self.old.known (unit.skip + unit.size) pad next }
        requires there { (1 ≤ unit.size) × (unit.skip + unit.size ≤ length self.old.held.bytes) }
        requires times { (unit.time < 2 ^ 63) × (unit.duration < 2 ^ 63) }
        ensures ok { IfOk result (λ p. Tells self.old self.new unit.stream (Cut.Pkt p)) }
        ensures err { OnErr result (self.new ≡ self.old) }
        ensures ended { has_ended self.new ≡ has_ended self.old }
        ensures first { first_of self.new ≡ first_of self.old }
    {
        let bytes = self.held.take_out(unit.skip as usize, unit.size as usize)?;
        let p = packet(&unit, self.place, bytes);
        self.from = self.place;
        self.place += unit.skip + unit.size;
        self.pad = pad;
        self.known = next;
        Ok(p)
    }

    // Goes on by one unit. None: it gave nothing, and fewer bytes wait.
    fn advance(&mut self) -> Result<Option<(u32, Cut)>, AllocError>
        requires { IsPassed self.old }
        ensures tells { (stream : ℕ) (told : Cut) → result ≡ Ok (Some (stream, told)) → Tells self.old self.new stream told }
        ensures on { result ≡ Ok None → KeepsCut self.old self.new × IsPassed self.new × (length (waiting_in self.new) < length (waiting_in self.old)) }
        ensures err { OnErr result (self.new ≡ self.old) }
        ensures ended { has_ended self.new ≡ has_ended self.old }
        ensures first { first_of self.new ≡ first_of self.old }
    {
        if self.held.len() == 0 {
            return Ok(Some((self.first, self.unfinished())));
        }
        match turn_at(&self.lanes, &self.known, self.place, self.held.as_slice()) {
            Turn::Wait => Ok(Some((self.first, self.unfinished()))),
            Turn::Broken => Ok(Some((self.first, Cut::Broken { offset: self.place }))),
            Turn::Pass(rest, pad, next) => {
                self.begin(rest, pad, next);
                Ok(None)
            }
            Turn::Give(unit, pad, next) => {
                let p = self.give(unit, pad, next)?;
                Ok(Some((unit.stream as u32, Cut::Pkt(p))))
            }
        }
    }

    /// The next packet of the bytes so far, and the number of its stream; where there is none, that of the first used
    /// stream.
    pub fn pull(&mut self) -> Result<(u32, Cut), AllocError>
        ensures ok { IfOk result (λ told. Tells self.old self.new told.0 told.1) }
        ensures err { OnErr result (KeepsCut self.old self.new) }
        ensures ended { has_ended self.new ≡ has_ended self.old }
        ensures first { first_of self.new ≡ first_of self.old }
    {
        self.pass();
        'units: loop {
            if let Some(told) = self.advance()? {
                return Ok(told);
            }
        }
    }
}
