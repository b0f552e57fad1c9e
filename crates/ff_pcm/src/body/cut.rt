//! The packets of a body of linear PCM.
ghost use Rattle.std.specs.Prelude.{◌≡◌, ◌+◌, ◌-◌, ◌*◌, ◌/◌, ◌^◌, ◌≤◌, ◌<◌, ◌⊎◌, ◌↔◌, ℕ, List, [], ◌++◌, Option, Some, None, true, false, min, length, take, drop, IfOk, OnOk, OnErr, IsOk, IsTrue, slice_get, pos};
ghost use Rattle.std.specs.Option.{option_map};
ghost use Rattle.ff_frame.specs.declared.packet.Pkt.{Pkt};
ghost use Rattle.ff_reader.specs.Cutters.{Feeds, KeepsCut, GivesPacket, GaveAll, SameElsewhere};
ghost use Rattle.ff_pcm.specs.declared.body.head.PcmHead.{PcmHead};
ghost use Rattle.ff_pcm.specs.body.Packets.{block_of, whole_len, body, packet_count, demuxed, IsHead, IsStream};
ghost use Rattle.ff_frame.specs.Codecs.{IsPcmCodec, sample_bytes};
ghost use Rattle.ff_frame.specs.Packet.{packet_at as packet_from};

use crate::body::head::PcmHead;
use crate::size_of_sample;
use ff_frame::{Bytes, Cut, Pkt, StreamHead};
use ff_reader::{Held, PacketCut};
use std::alloc::{AllocError, Global};

/// The packets of a body, from pieces of any size.
#[derive(Drop)]
pub struct PcmCut {
    alloc: Global,
    head: PcmHead,
    /// Bytes of a sample frame.
    block: usize,
    /// The size of the body, in whole sample frames.
    len: Option<u64>,
    /// The first sample frame that belongs to no packet given yet.
    first: u64,
    held: Held,
    ended: bool,
    /// Whether a short packet was given, which is the last.
    done: bool,
    ghost some: { 1 ≤ block },
    ghost few: { block ≤ 32 },
    ghost start: { head.start ≤ 2 ^ 28 + 8 },
}

// The bytes of a sample frame.
fn block_of_head(head: &StreamHead) -> usize
    requires { IsStream head.now }
    ensures value { result ≡ block_of head.now }
    ensures some { 1 ≤ result }
    ensures few { result ≤ 32 }
{
    match *head {
        StreamHead::Audio {
            channels,
            codec,
            ..
        } => channels as usize * size_of_sample(codec),
        StreamHead::Video { .. } => unreachable!(),
    }
}

// A size in whole sample frames.
fn whole_size(len: Option<u64>, block: u64) -> Option<u64>
    requires { 1 ≤ block }
    ensures { result ≡ option_map (λ n. n / block * block) len }
{
    match len {
        Some(n) => Some(n / block * block),
        None => None,
    }
}

// How many of the bytes that wait belong to the body, and whether all its bytes are there.
fn within(len: Option<u64>, used: u64, waiting: usize) -> (usize, bool)
    ensures none { len ≡ None → (result.0 ≡ waiting) × (result.1 ≡ false) }
    ensures some { (n : ℕ) → len ≡ Some n → (result.0 ≡ min waiting (n - used)) × (IsTrue result.1 ↔ (n - used ≤ waiting)) }
    ensures all { result.1 ≡ false → result.0 ≡ waiting }
    ensures bound { result.0 ≤ waiting }
{
    match len {
        None => (waiting, false),
        Some(n) => {
            let left = n.saturating_sub(used);
            if left <= waiting as u64 {
                (left as usize, true)
            } else {
                (waiting, false)
            }
        }
    }
}

// The packet of so many sample frames at the start.
fn packet(
    alloc: Global,
    start: u64,
    first: u64,
    block: usize,
    count: usize,
    bytes: &[u8],
) -> Result<Pkt, AllocError>
    requires place { start + first * block < 2 ^ 63 }
    requires some { 1 ≤ block }
    requires there { count * block ≤ length bytes.now }
    ensures { IfOk result (λ p. p ≡ packet_from (pos first) (pos count) (start + first * block) (take (count * block) bytes.now)) }
{
    let bytes = bytes[..count * block].to_vec(alloc)?;
    Ok(Pkt {
        pts: first as i64,
        dts: first as i64,
        duration: count as i64,
        pos: start + first * block as u64,
        bytes: Bytes::new(bytes),
    })
}

impl PcmCut {
    ghost use Rattle.ff_pcm.specs.body.Cuts.{ReachesLen, IsBodyEnded, Cuts};

    // How many of the bytes that wait belong to the body, and whether no further byte of it comes.
    fn look(&self) -> (usize, bool)
        requires { self.now.head.start + self.now.first * self.now.block ≤ 2 ^ 50 }
        ensures bound { result.0 ≤ length self.now.held.bytes }
        ensures all { result.1 ≡ false → (result.0 ≡ length self.now.held.bytes) × (self.now.ended ≡ false) }
        ensures exact { (head : PcmHead) (fed : List ℕ) (n : ℕ) → Cuts self.now head fed n → self.now.done ≡ false
            → self.now.first * self.now.block + result.0 ≡ length (body (whole_len head) fed) }
        ensures yes { (head : PcmHead) (fed : List ℕ) (n : ℕ) → Cuts self.now head fed n → self.now.done ≡ false → result.1 ≡ true → IsBodyEnded (whole_len head) self.now.ended fed }
        ensures no { (head : PcmHead) (fed : List ℕ) (n : ℕ) → Cuts self.now head fed n → self.now.done ≡ false → result.1 ≡ false → (self.now.ended ≡ false) × (ReachesLen (whole_len head) fed → ⊥) }
    {
        let used = self.first * self.block as u64;
        let (usable, reached) = within(self.len, used, self.held.len());
        (usable, self.ended || reached)
    }
}

impl PacketCut for PcmCut {
    ghost use Rattle.ff_pcm.specs.body.Cuts.{pcm_cutter, ReachesLen, Cuts, head_of, place_of, has_ended, is_done, waiting_in, room_in, full_packet};

    type Head = PcmHead;

    ghost is = { pcm_cutter };

    fn stream_head(head: &PcmHead) -> StreamHead {
        head.head
    }

    fn start(head: &PcmHead) -> u64 {
        head.start
    }

    fn new(alloc: Global, head: &PcmHead) -> PcmCut {
        let block = block_of_head(&head.head);
        PcmCut {
            alloc,
            head: *head,
            block,
            len: whole_size(head.len, block as u64),
            first: 0,
            held: Held::new(alloc),
            ended: false,
            done: false,
        }
    }

    fn feed(&mut self, bytes: &[u8]) -> Result<(), AllocError>
        requires { has_ended self.old ≡ false }
        ensures ok { OnOk result (Feeds pcm_cutter self.old self.new bytes.now) }
        ensures err { OnErr result (self.new ≡ self.old) }
        ensures succeeds { length bytes.now ≤ room_in self.old → IsOk result }
        ensures same { OnOk result (SameElsewhere pcm_cutter self.old self.new) }
        ensures held { OnOk result (waiting_in self.new ≡ waiting_in self.old ++ bytes.now) }
        ensures unit { OnOk result (full_packet self.new ≡ full_packet self.old) }
        ensures done { OnOk result (is_done self.new ≡ is_done self.old) }
    {
        self.held.push(bytes)
    }

    fn reserve(&mut self, count: usize) -> Result<(), AllocError>
        ensures cuts { KeepsCut pcm_cutter self.old self.new }
        ensures same { SameElsewhere pcm_cutter self.old self.new }
        ensures held { waiting_in self.new ≡ waiting_in self.old }
        ensures room { OnOk result (count ≤ room_in self.new) }
        ensures err { OnErr result (self.new ≡ self.old) }
        ensures unit { full_packet self.new ≡ full_packet self.old }
        ensures done { is_done self.new ≡ is_done self.old }
    {
        self.held.reserve(count)
    }

    fn end(&mut self) {
        self.ended = true;
    }

    /// How many bytes are kept: those fed since the end of the last packet given, until a short packet was given.
    fn held(&self) -> u64
        ensures length { result ≡ length (waiting_in self.now) }
        ensures exact { (head : PcmHead) (fed : List ℕ) (n : ℕ) → Cuts self.now head fed n → is_done self.now ≡ false
            → result ≡ length fed - 1024 * n * block_of head.head }
    {
        self.held.len() as u64
    }

    /// The next packet of the bytes so far. The packets given so far end at or before byte 2^50. A packet has 1,024
    /// sample frames, the last one the rest; its times are the numbers of its first sample frame.
    fn pull(&mut self) -> Result<Cut, AllocError>
        requires { place_of self.old ≤ 2 ^ 50 }
        ensures gives { (p : Pkt) → result ≡ Ok (Cut.Pkt p) → GivesPacket pcm_cutter self.old self.new p }
        ensures ends { result ≡ Ok Cut.End → GaveAll pcm_cutter self.old None }
        ensures unbroken { (offset : ℕ) → result ≡ Ok (Cut.Broken offset) → ⊥ }
        // Not yet exactly where neither the input nor the body ended, and no packet is whole.
        ensures undecided { (head : PcmHead) (fed : List ℕ) (n : ℕ) → Cuts self.old head fed n → result ≡ Ok Cut.NotYet
            → (ReachesLen (whole_len head) fed → ⊥) × (length fed < 1024 * (n + 1) * block_of head.head) }
        ensures wanted { (head : PcmHead) (fed : List ℕ) (n : ℕ) → Cuts self.old head fed n → has_ended self.old ≡ false
            → (ReachesLen (whole_len head) fed → ⊥) → length fed < 1024 * (n + 1) * block_of head.head → result ≡ Ok Cut.NotYet }
        ensures not_yet { result ≡ Ok Cut.NotYet → (has_ended self.old ≡ false) × (length (waiting_in self.old) < full_packet self.old) }
        ensures few { full_packet self.old ≤ 2 ^ 15 }
        ensures still { result ≡ Ok Cut.NotYet → self.new ≡ self.old }
        ensures stops { result ≡ Ok Cut.End → self.new ≡ self.old }
        ensures err { OnErr result (self.new ≡ self.old) }
        ensures ended { has_ended self.new ≡ has_ended self.old }
        ensures head { head_of self.new ≡ head_of self.old }
        ensures place { (p : Pkt) → result ≡ Ok (Cut.Pkt p) → place_of self.new ≤ p.pos + length p.bytes }
        ensures last { (p : Pkt) → result ≡ Ok (Cut.Pkt p) → p.pos + length p.bytes ≤ place_of self.old + full_packet self.old }
        ensures unit { full_packet self.new ≡ full_packet self.old }
    {
        if self.done {
            return Ok(Cut::End);
        }
        let (usable, body_ended) = self.look();
        if usable >= 1024 * self.block {
            let p = packet(
                self.alloc,
                self.head.start,
                self.first,
                self.block,
                1024,
                self.held.as_slice(),
            )?;
            self.held.skip(1024 * self.block);
            self.first += 1024;
            return Ok(Cut::Pkt(p));
        }
        if !body_ended {
            return Ok(Cut::NotYet);
        }
        let count = usable / self.block;
        if count == 0 {
            return Ok(Cut::End);
        }
        let p = packet(
            self.alloc,
            self.head.start,
            self.first,
            self.block,
            count,
            self.held.as_slice(),
        )?;
        self.held.skip(count * self.block);
        self.done = true;
        Ok(Cut::Pkt(p))
    }
}
