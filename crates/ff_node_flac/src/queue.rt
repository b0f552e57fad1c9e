//! Blocks on their way from frames to packets.
ghost use Rattle.std.specs.Prelude.{◌≡◌, ◌+◌, ◌*◌, ◌^◌, ◌<◌, ◌≤◌, ◌⊎◌, ℕ, pos, take, List, [], ◌∷◌, ◌++◌, Ok, true, false, length, slice_index, IfOk, IfErr, OnOk, OnErr, All};
ghost use Rattle.ff_frame.specs.declared.audio.AFrame.{AFrame};
ghost use Rattle.ff_frame.specs.declared.packet.Pkt.{Pkt};
ghost use Rattle.ff_frame.specs.Audio.{IsAudio};
ghost use Rattle.ff_frame.specs.Packet.{packet_at};
ghost use Rattle.ff_stream.specs.declared.item.Item.{Item};
ghost use Rattle.ff_flac_enc.specs.laws.Cuts.{format_in};
ghost use Rattle.ff_flac_enc.specs.Gathered.{EndInTime};
ghost use Rattle.ff_flac_enc.specs.Totals.{counted, sample_frames};
ghost use Rattle.ff_node_flac.specs.Packets.{at_coded, coded_bits};
ghost use Rattle.ff_node_flac.specs.laws.Kept.{IsCut, AllCut-prop, IsFormat, IsFormat-prop, IsTaken};

use crate::coder::Coder;
use ff_bits::know_bytes;
use ff_flac_enc::{Blocks, Counter, Format};
use ff_frame::{AFrame, Bytes, Pkt, Totals};
use ff_pcm::{depth_change, is_audio};
use ff_stream::{Item, Refused};
use std::alloc::{AllocError, Global};
use std::mem;

/// What is due next.
#[derive(Drop)]
pub enum Given {
    /// The packet of the next block.
    Packet(Pkt),
    /// Nothing is due.
    Nothing,
    /// The next packet can't be told: its number has more than 31 bits, or its size more than 24.
    TooLong,
}

/// Takes the frames of an audio stream and gives the packets of its blocks. All complete blocks that wait, up to eight, are coded
/// at once; they are kept and given one by one.
#[derive(Drop)]
pub struct Queue {
    alloc: Global,
    /// What the frames are coded in.
    format: Format,
    blocks: Blocks,
    /// The blocks that were cut and not given yet.
    cut: Vec<AFrame>,
    /// The bytes of the first of them.
    codes: Vec<Bytes>,
    counter: Counter,
    /// How many blocks were given.
    given: u32,
    ghost few_bits: { format.bits ≤ 24 },
    ghost rate: { format.rate < 1048576 },
    ghost alike: { IsFormat format (format_in blocks) } by { IsFormat-prop format (format_in blocks) },
    ghost each: { All IsCut cut.items } by { AllCut-prop cut.items },
    ghost few: { length cut.items ≤ 8 },
    ghost coded: { length codes.items ≤ length cut.items },
    ghost numbers: { given + length codes.items ≤ 2 ^ 31 },
    ghost sums: { counted counter ≤ 65535 * given },
}

// A frame at the depth that is coded, where it isn't its own.
fn at_depth(alloc: Global, frame: &AFrame) -> Result<AFrame, AllocError>
    requires sound { IsAudio frame.now.bits frame.now.channels frame.now.samples }
    requires deep { 25 ≤ frame.now.bits }
    ensures is { IfOk result (λ f. f ≡ at_coded frame.now) }
    ensures sound { IfOk result (λ f. IsAudio f.bits f.channels f.samples) }
{
    let mut changed = frame.try_copy(alloc)?;
    depth_change(&mut changed, 24);
    Ok(changed)
}

/// The depth that samples of so many bits are coded at: their own of 4 to 24 bits, and else 24.
pub fn coded(bits: u8) -> u8
    ensures { result ≡ coded_bits bits }
{
    if 4 <= bits && bits <= 24 { bits } else { 24 }
}

// The first blocks, so many.
fn up_to(blocks: &[AFrame], count: usize) -> &[AFrame]
    requires { count ≤ length blocks.now }
    ensures { result.now ≡ take count blocks.now }
{
    &blocks[..count]
}

// How many bytes a code has, which are numbers below 256.
fn size_of_code(code: &Bytes) -> usize
    ensures size { result ≡ length code.now }
    ensures bytes { (i : ℕ) → slice_index code.now i < 256 }
{
    let bytes = code.as_slice();
    know_bytes(bytes);
    bytes.len()
}

// The packet of a block with this code.
fn packet(block: &AFrame, bytes: Bytes) -> Pkt
    requires { IsCut block.now }
    ensures { result ≡ packet_at block.now.pts (pos (sample_frames block.now)) 0 bytes }
{
    Pkt {
        pts: block.pts,
        dts: block.pts,
        duration: sample_frames_of(block),
        pos: 0,
        bytes,
    }
}

// How many sample frames a block has.
fn sample_frames_of(block: &AFrame) -> i64
    requires { IsCut block.now }
    ensures { result ≡ pos (sample_frames block.now) }
{
    (block.samples.as_slice().len() / usize::from(block.channels)) as i64
}

impl Queue {
    ghost use Rattle.ff_node_flac.specs.laws.Queues.{format_of_queue, queue_ended, Queues, StillQueues, AllCut, AllCutSince, HasGivenAll, GivesNext, IsTooLong};
    ghost use Rattle.ff_flac_enc.specs.Totals.{totals_of};
    ghost use Rattle.ff_node_flac.specs.Packets.{added_from};

    /// Fed nothing, it has given nothing.
    pub fn new(alloc: Global, format: Format) -> Queue
        requires few_bits { format.bits ≤ 24 }
        requires rate { format.rate < 1048576 }
        ensures queues { Queues result [] [] }
        ensures goes_on { queue_ended result ≡ false }
        ensures format { format_of_queue result ≡ format }
    {
        Queue {
            alloc,
            format,
            blocks: Blocks::new(alloc),
            cut: Vec::new(alloc),
            codes: Vec::new(alloc),
            counter: Counter::new(alloc),
            given: 0,
        }
    }

    // Cuts the next block that is due, if there is one.
    fn cut_one(&mut self) -> Result<bool, AllocError>
        requires { length self.old.cut.items < 8 }
        ensures still { StillQueues self.old self.new }
        ensures more { result ≡ Ok true → length self.new.cut.items ≡ length self.old.cut.items + 1 }
        ensures none { result ≡ Ok false → AllCut self.new }
        ensures ended { queue_ended self.new ≡ queue_ended self.old }
        ensures format { format_of_queue self.new ≡ format_of_queue self.old }
        ensures codes { self.new.codes.items ≡ self.old.codes.items }
    {
        self.cut.reserve(1)?;
        match self.blocks.pull()? {
            None => Ok(false),
            Some(block) => {
                self.cut.push_reserved(block);
                Ok(true)
            }
        }
    }

    // Cuts the blocks that are due, until eight wait.
    fn cut_all(&mut self) -> Result<(), AllocError>
        ensures still { StillQueues self.old self.new }
        ensures all { OnOk result (length self.new.cut.items ≡ 0 → AllCut self.new) }
        ensures ended { queue_ended self.new ≡ queue_ended self.old }
        ensures format { format_of_queue self.new ≡ format_of_queue self.old }
        ensures codes { self.new.codes.items ≡ self.old.codes.items }
    {
        for turn in self.cut.len()..8 {
            if !self.cut_one()? {
                return Ok(());
            }
        }
        Ok(())
    }

    // Codes the blocks that wait, as many as have numbers of 31 bits.
    fn code<C: Coder>(&mut self, coder: &C) -> Result<(), AllocError>
        requires { length self.old.codes.items ≡ 0 }
        ensures still { StillQueues self.old self.new }
        ensures left { OnOk result (length self.new.codes.items ≡ 0 → (length self.new.cut.items ≡ 0) ⊎ (self.new.given ≡ 2 ^ 31)) }
        ensures cut { self.new.cut.items ≡ self.old.cut.items }
        ensures ended { queue_ended self.new ≡ queue_ended self.old }
        ensures format { format_of_queue self.new ≡ format_of_queue self.old }
    {
        let numbers = (1 << 31) - self.given;
        let count = self.cut.len().min(numbers as usize);
        if count == 0 {
            return Ok(());
        }
        let blocks = up_to(&self.cut, count);
        let codes = coder.code(self.alloc, blocks, self.given)?;
        self.codes = codes;
        Ok(())
    }

    // Where none is coded: cuts and codes the blocks that are due.
    fn refill<C: Coder>(&mut self, coder: &C) -> Result<(), AllocError>
        ensures still { StillQueues self.old self.new }
        ensures left { OnOk result (length self.new.codes.items ≡ 0
            → ((length self.new.cut.items ≡ 0) × AllCutSince self.old self.new) ⊎ ((1 ≤ length self.new.cut.items) × (self.new.given ≡ 2 ^ 31))) }
        ensures ended { queue_ended self.new ≡ queue_ended self.old }
        ensures format { format_of_queue self.new ≡ format_of_queue self.old }
    {
        if !self.codes.is_empty() {
            return Ok(());
        }
        self.cut_all()?;
        self.code(coder)
    }

    // The first block that is coded.
    fn give(&mut self) -> Result<Given, AllocError>
        requires { 1 ≤ length self.old.codes.items }
        ensures gives { (p : Pkt) → result ≡ Ok (Given.Packet p) → (fed done : List AFrame) → Queues self.old fed done → GivesNext self.new p fed done }
        ensures long { result ≡ Ok Given.TooLong → (fed done : List AFrame) → Queues self.old fed done → IsTooLong self.old fed done }
        ensures something { result ≡ Ok Given.Nothing → ⊥ }
        ensures err { OnErr result (StillQueues self.old self.new) }
        ensures ended { queue_ended self.new ≡ queue_ended self.old }
        ensures format { format_of_queue self.new ≡ format_of_queue self.old }
    {
        let len = size_of_code(&self.codes[0]);
        if len >= 1 << 24 {
            return Ok(Given::TooLong);
        }
        self.counter.add(&self.cut[0], len as u32)?;
        let block = self.cut.remove(0);
        let bytes = self.codes.remove(0);
        self.given += 1;
        Ok(Given::Packet(packet(&block, bytes)))
    }

    /// The next block's packet, where one is due.
    pub fn pull<C: Coder>(&mut self, coder: &C) -> Result<Given, AllocError>
        ensures gives { (p : Pkt) → result ≡ Ok (Given.Packet p) → (fed done : List AFrame) → Queues self.old fed done → GivesNext self.new p fed done }
        ensures nothing { result ≡ Ok Given.Nothing → (fed done : List AFrame) → Queues self.old fed done → Queues self.new fed done × HasGivenAll self.new fed done }
        ensures long { result ≡ Ok Given.TooLong → (fed done : List AFrame) → Queues self.old fed done → IsTooLong self.old fed done }
        ensures err { OnErr result (StillQueues self.old self.new) }
        ensures ended { queue_ended self.new ≡ queue_ended self.old }
        ensures format { format_of_queue self.new ≡ format_of_queue self.old }
    {
        self.refill(coder)?;
        if !self.codes.is_empty() {
            return self.give();
        }
        if self.cut.is_empty() {
            return Ok(Given::Nothing);
        }
        Ok(Given::TooLong)
    }

    /// Takes a further frame; the input must not have ended. For want of memory the frame comes back.
    pub fn feed(&mut self, frame: AFrame) -> Result<(), Refused>
        requires goes_on { queue_ended self.old ≡ false }
        requires sound { IsAudio frame.bits frame.channels frame.samples }
        requires taken { IsTaken (format_of_queue self.old) frame }
        ensures ok { OnOk result ((fed done : List AFrame) → Queues self.old fed done → EndInTime (fed ++ at_coded frame ∷ [])
            → Queues self.new (fed ++ at_coded frame ∷ []) done) }
        ensures back { IfErr result (λ refused. refused.item ≡ Item.Audio frame) }
        ensures err { OnErr result (StillQueues self.old self.new) }
        ensures ended { queue_ended self.new ≡ false }
        ensures format { format_of_queue self.new ≡ format_of_queue self.old }
    {
        if frame.bits <= 24 {
            return self.blocks.feed(frame);
        }
        let Ok(changed) = at_depth(self.alloc, &frame) else {
            return Err(Refused {
                item: Item::Audio(frame),
            });
        };
        match self.blocks.feed(changed) {
            Ok(()) => {
                let _ = frame;
                Ok(())
            }
            Err(_) => Err(Refused {
                item: Item::Audio(frame),
            }),
        }
    }

    /// Whether this frame can be fed.
    pub fn takes(&self, frame: &AFrame) -> bool
        ensures sound { result ≡ true → IsAudio frame.now.bits frame.now.channels frame.now.samples }
        ensures taken { result ≡ true → IsTaken (format_of_queue self.now) frame.now }
        ensures all { IsAudio frame.now.bits frame.now.channels frame.now.samples → IsTaken (format_of_queue self.now) frame.now → result ≡ true }
    {
        let format = &self.format;
        is_audio(frame)
            && frame.rate == format.rate
            && coded(frame.bits) == format.bits
            && frame.channels == format.channels
    }

    /// The input ended: nothing more is fed.
    pub fn end(&mut self)
        requires { queue_ended self.old ≡ false }
        ensures still { StillQueues self.old self.new }
        ensures ended { queue_ended self.new ≡ true }
        ensures format { format_of_queue self.new ≡ format_of_queue self.old }
    {
        self.blocks.end();
    }

    /// The totals of the blocks that were given. Nothing more is given afterwards.
    pub fn totals(&mut self) -> Totals
        ensures is { (fed done : List AFrame) → Queues self.old fed done → result ≡ totals_of (added_from 0 done) }
        ensures ended { queue_ended self.new ≡ queue_ended self.old }
        ensures format { format_of_queue self.new ≡ format_of_queue self.old }
    {
        let counter = mem::replace(&mut self.counter, Counter::new(self.alloc));
        counter.totals()
    }
}
