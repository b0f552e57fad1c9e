//! The packets of a FLAC input, one frame each.
ghost use Rattle.std.specs.Prelude.{◌≡◌, ◌≢◌, ◌+◌, ◌*◌, ◌^◌, ◌≤◌, ◌<◌, ◌↔◌, ℕ, List, [], ◌++◌, Some, None, true, false, length, IfOk, OnOk, OnErr, IsOk, slice_get, pos};
ghost use Rattle.ff_frame.specs.Packet.{packet_at};
ghost use Rattle.ff_frame.specs.Codecs.{IsFlac};
ghost use Rattle.ff_frame.specs.declared.packet.Pkt.{Pkt};
ghost use Rattle.ff_flac_frame.specs.Frame.{IsStream};
ghost use Rattle.ff_reader.specs.Cutters.{GaveAll, GivesPacket};
ghost use Rattle.ff_flac_dec.specs.declared.head.FlacHead.{FlacHead};
ghost use Rattle.ff_flac_dec.specs.declared.front.Front.TheVariants.{Wait};
ghost use Rattle.ff_flac_dec.specs.Streams.{stream_of, IsHead};
ghost use Rattle.ff_flac_dec.specs.Packets.{unit, demuxed, broken_at};
ghost use Rattle.ff_flac_dec.specs.laws.Trails.{MayGoOn};

use crate::front::{Front, front_sent};
use crate::hand_over::FrameSender;
use crate::head::FlacHead;
use crate::trailer::behind_frames;
use ff_frame::{Bytes, Cut, Pkt, StreamHead};
use ff_lists::front;
use ff_reader::{Held, PacketCut};
use std::alloc::{AllocError, Global};

/// The packets of a FLAC input, from pieces of any size. Each is one frame (RFC 9639, section 9).
///
/// A frame says nowhere how long it is, so `pull` reads the frame in hand from its first byte. It reads it once where
/// it is there whole, and once more for each earlier `pull` that answered NotYet. A frame of n bytes that is fed in
/// pieces of k bytes with a `pull` after each is read n / k times in part. These are n * n / (2 * k) bytes together.
/// So feed pieces that are longer than most frames, or as many bytes as `held` tells before the next `pull`. Then
/// each byte is read three times at most.
#[derive(Drop)]
pub struct FlacCut {
    alloc: Global,
    head: FlacHead,
    /// The bytes of the frames given so far.
    used: u64,
    /// The sample frames of the frames given so far.
    count: u64,
    held: Held,
    ended: bool,
    /// Where the frames go that it has read.
    sender: FrameSender,
    ghost start: { head.start ≤ 2 ^ 28 },
    ghost frames: { IsStream (stream_of head.head) },
    ghost few: { 8 * count ≤ 65535 * used },
}

// The packet of a frame at this offset, with this first sample frame.
fn packet(
    alloc: Global,
    place: u64,
    first: u64,
    block: u32,
    frame: &[u8],
) -> Result<Pkt, AllocError>
    requires { first < 2 ^ 63 }
    ensures { IfOk result (λ p. p ≡ packet_at (pos first) (pos block) place frame.now) }
{
    let bytes = frame.to_vec(alloc)?;
    Ok(Pkt {
        pts: first as i64,
        dts: first as i64,
        duration: i64::from(block),
        pos: place,
        bytes: Bytes::new(bytes),
    })
}

impl FlacCut {
    ghost use Rattle.ff_flac_dec.specs.Cuts.{place_of};

    /// Has it send the frames that it reads from now on to a decoder. Its packets stay the same.
    pub fn send_frames_to(&mut self, sender: FrameSender)
        ensures { self.new ≡ self.old }
    {
        self.sender = sender;
    }
}

impl PacketCut for FlacCut {
    ghost use Rattle.ff_flac_dec.specs.Cuts.{flac_cutter, Cuts, head_of, place_of, has_ended, waiting_in, longest_frame};

    type Head = FlacHead;

    ghost is = { flac_cutter };

    fn stream_head(head: &FlacHead) -> StreamHead {
        head.head
    }

    fn start(head: &FlacHead) -> u64 {
        head.start
    }

    fn new(alloc: Global, head: &FlacHead) -> FlacCut {
        FlacCut {
            alloc,
            head: *head,
            used: 0,
            count: 0,
            held: Held::new(alloc),
            ended: false,
            sender: FrameSender::of_none(),
        }
    }

    fn feed(&mut self, bytes: &[u8]) -> Result<(), AllocError> {
        self.held.push(bytes)
    }

    fn reserve(&mut self, count: usize) -> Result<(), AllocError> {
        self.held.reserve(count)
    }

    fn end(&mut self) {
        self.ended = true;
    }

    /// How many bytes are kept: those fed since the end of the last frame given.
    fn held(&self) -> u64
        ensures length { result ≡ length (waiting_in self.now) }
        ensures exact { (head : FlacHead) (fed : List ℕ) (n : ℕ) → Cuts self.now head fed n → place_of self.now + result ≡ head.start + length fed }
    {
        self.held.len() as u64
    }

    /// The next packet of the bytes so far: the next frame. The frames given so far end at or before byte 2^50. A packet's
    /// times are the number of its first sample frame; its duration is its number of sample frames.
    fn pull(&mut self) -> Result<Cut, AllocError>
        requires { place_of self.old ≤ 2 ^ 50 }
        ensures gives { (p : Pkt) → result ≡ Ok (Cut.Pkt p) → GivesPacket flac_cutter self.old self.new p }
        // It is the next packet of the input, whatever follows, also after an end.
        ensures settles { (p : Pkt) → result ≡ Ok (Cut.Pkt p) → (head : FlacHead) (fed : List ℕ) (n : ℕ) → Cuts self.old head fed n
            → Cuts self.new head fed (n + 1) × ((more : List ℕ) → slice_get (demuxed head (fed ++ more)) n ≡ Some p) }
        ensures ends { result ≡ Ok Cut.End → GaveAll flac_cutter self.old None }
        ensures breaks { (offset : ℕ) → result ≡ Ok (Cut.Broken offset) → GaveAll flac_cutter self.old (Some offset) }
        // Not yet only where the input goes on, and what waits may be the beginning of a frame and is no whole one, or of tags;
        ensures not_yet { result ≡ Ok Cut.NotYet → (has_ended self.old ≡ false) × MayGoOn (stream_of (head_of self.old).head) (waiting_in self.old) }
        // and in a frame, unless memory runs out.
        ensures waits { has_ended self.old ≡ false → unit (stream_of (head_of self.old).head) (waiting_in self.old) ≡ Wait → IfOk result (λ cut. cut ≡ Cut.NotYet) }
        ensures err { OnErr result (self.new ≡ self.old) }
        ensures ended { has_ended self.new ≡ has_ended self.old }
        ensures still { result ≡ Ok Cut.NotYet → (self.new ≡ self.old) × (length (waiting_in self.old) < longest_frame) }
        ensures few { result ≡ Ok Cut.NotYet → (has_ended self.old ≡ false) × (length (waiting_in self.old) < longest_frame) }
        ensures stops { result ≡ Ok Cut.End → self.new ≡ self.old }
        ensures stays { (offset : ℕ) → result ≡ Ok (Cut.Broken offset) → (self.new ≡ self.old) × (offset ≡ place_of self.old) }
        ensures head { head_of self.new ≡ head_of self.old }
        ensures further { place_of self.new ≤ place_of self.old + length (waiting_in self.old) }
        ensures lasts { (p : Pkt) → result ≡ Ok (Cut.Pkt p) → IsFlac p }
        ensures place { (p : Pkt) → result ≡ Ok (Cut.Pkt p) → (p.pos ≡ place_of self.old)
            × (place_of self.new ≡ place_of self.old + length p.bytes) × (8 ≤ length p.bytes) }
        ensures near { (p : Pkt) → result ≡ Ok (Cut.Pkt p) → place_of self.new ≤ p.pos + length p.bytes + 2 ^ 30 }
        ensures last { (p : Pkt) → result ≡ Ok (Cut.Pkt p) → p.pos + length p.bytes < 2 ^ 64 }
    {
        let stream = self.head.stream();
        let offset = self.head.start + self.used;
        let found = front_sent(
            self.alloc,
            &mut self.sender,
            offset,
            self.held.as_slice(),
            &stream,
        )?;
        match found {
            Front::Whole(len, block) => {
                let p = packet(
                    self.alloc,
                    offset,
                    self.count,
                    block,
                    front(self.held.as_slice(), len),
                )?;
                self.held.skip(len);
                self.used += len as u64;
                self.count += u64::from(block);
                Ok(Cut::Pkt(p))
            }
            Front::Other => Ok(behind_frames(self.held.as_slice(), self.ended, offset)),
            Front::Wait => Ok(self.held.unfinished(self.ended, offset)),
        }
    }
}
