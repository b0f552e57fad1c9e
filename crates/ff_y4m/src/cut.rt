//! The packets of a YUV4MPEG2 input, one frame each.
ghost use Rattle.std.specs.Prelude.{◌≡◌, ◌≢◌, ◌+◌, ◌-◌, ◌^◌, ◌≤◌, ◌<◌, ◌⊎◌, ◌↔◌, ℕ};
ghost use Rattle.std.specs.Prelude.{List, [], ◌++◌, Some, None, true, false, length, take, drop, IfOk, OnOk, OnErr, IsOk, slice_get, pos};
ghost use Rattle.ff_frame.specs.Packet.{packet_at};
ghost use Rattle.ff_frame.specs.declared.packet.Pkt.{Pkt};
ghost use Rattle.ff_reader.specs.Cutters.{GaveAll};
ghost use Rattle.ff_y4m.specs.declared.head.Y4mHead.{Y4mHead};
ghost use Rattle.ff_y4m.specs.declared.frame.Front.TheVariants.{Wait, Other};
ghost use Rattle.ff_y4m.specs.Packets.{unit, packet_in, demuxed, broken_at, IsHead};

use crate::frame::{Front, front_of};
use crate::head::Y4mHead;
use ff_frame::{Bytes, Cut, Pkt, StreamHead};
use ff_reader::{Held, PacketCut};
use std::alloc::{AllocError, Global};

/// The packets of a YUV4MPEG2 input, from pieces of any size.
#[derive(Drop)]
pub struct Y4mCut {
    alloc: Global,
    head: Y4mHead,
    /// The bytes of the frames given so far, with their lines.
    used: u64,
    /// The number of frames given so far.
    count: u64,
    held: Held,
    ended: bool,
    ghost start: { head.start ≤ 1024 },
    ghost size: { head.frame_bytes ≤ 805306368 },
    ghost few: { count ≤ used },
}

// The packet of a frame, whose planes these are.
fn packet(place: u64, count: u64, planes: Vec<u8>) -> Pkt
    requires small { count < 2 ^ 63 }
    ensures { result ≡ packet_at (pos count) (pos 1) place planes.items }
{
    Pkt {
        pts: count as i64,
        dts: count as i64,
        duration: 1,
        pos: place,
        bytes: Bytes::new(planes),
    }
}

impl PacketCut for Y4mCut {
    ghost use Rattle.ff_y4m.specs.Cuts.{y4m_cutter, Cuts, head_of, place_of, has_ended, waiting_in, full_frame};

    type Head = Y4mHead;

    ghost is = { y4m_cutter };

    fn stream_head(head: &Y4mHead) -> StreamHead {
        head.head
    }

    fn start(head: &Y4mHead) -> u64 {
        head.start
    }

    fn new(alloc: Global, head: &Y4mHead) -> Y4mCut {
        Y4mCut {
            alloc,
            head: *head,
            used: 0,
            count: 0,
            held: Held::new(alloc),
            ended: false,
        }
    }

    fn feed(&mut self, bytes: &[u8]) -> Result<(), AllocError> {
        self.held.push(bytes)
    }

    /// Makes room for so many bytes more, which `feed` then takes without fail, and for the rest of the frame in
    /// hand. That is no more than came so far, since the head alone may promise frames that never come.
    fn reserve(&mut self, count: usize) -> Result<(), AllocError> {
        let waits = self.held.len();
        let frame = 1024 + self.head.frame_bytes as usize;
        let came = waits.max(self.used as usize);
        let lacking = frame.saturating_sub(waits).min(came);
        self.held.reserve(count.saturating_add(lacking))
    }

    fn end(&mut self) {
        self.ended = true;
    }

    /// How many bytes are kept: those fed since the end of the last frame given.
    fn held(&self) -> u64
        ensures length { result ≡ length (waiting_in self.now) }
        ensures exact { (head : Y4mHead) (fed : List ℕ) (n : ℕ) → Cuts self.now head fed n → place_of self.now + result ≡ head.start + length fed }
    {
        self.held.len() as u64
    }

    /// The next packet of the bytes so far: the planes of the next frame. The frames given so far end at or before byte
    /// 2^50. A packet's times are its number; its duration is 1.
    fn pull(&mut self) -> Result<Cut, AllocError>
        requires { place_of self.old ≤ 2 ^ 50 }
        // It is the next packet of the input, whatever follows.
        ensures gives { (p : Pkt) → result ≡ Ok (Cut.Pkt p) → (head : Y4mHead) (fed : List ℕ) (n : ℕ) → Cuts self.old head fed n
            → Cuts self.new head fed (n + 1) × ((more : List ℕ) → slice_get (demuxed head (fed ++ more)) n ≡ Some p) }
        ensures ends { result ≡ Ok Cut.End → GaveAll y4m_cutter self.old None }
        ensures breaks { (offset : ℕ) → result ≡ Ok (Cut.Broken offset) → GaveAll y4m_cutter self.old (Some offset) }
        // Not yet exactly where the input goes on, and what waits may be the beginning of a frame and is no whole one (`frames_are_decided`).
        ensures not_yet { (result ≡ Ok Cut.NotYet) ↔ ((has_ended self.old ≡ false) × (unit (head_of self.old).frame_bytes (waiting_in self.old) ≡ Wait)) }
        ensures err { OnErr result (self.new ≡ self.old) }
        ensures ended { has_ended self.new ≡ has_ended self.old }
        ensures still { result ≡ Ok Cut.NotYet → (self.new ≡ self.old) × (length (waiting_in self.old) < full_frame self.old) }
        ensures stops { result ≡ Ok Cut.End → self.new ≡ self.old }
        ensures stays { (offset : ℕ) → result ≡ Ok (Cut.Broken offset) → (self.new ≡ self.old) × (offset ≡ place_of self.old) }
        ensures head { head_of self.new ≡ head_of self.old }
        ensures unit { full_frame self.new ≡ full_frame self.old }
        ensures size { full_frame self.old ≤ 2 ^ 30 }
        ensures further { place_of self.new ≤ place_of self.old + full_frame self.old }
        ensures place { (p : Pkt) → result ≡ Ok (Cut.Pkt p) → (p.pos ≡ place_of self.old) × (place_of self.old < place_of self.new)
            × (place_of self.new ≤ place_of self.old + full_frame self.old) }
        ensures last { (p : Pkt) → result ≡ Ok (Cut.Pkt p) → p.pos + length p.bytes < 2 ^ 64 }
    {
        let size = self.head.frame_bytes as usize;
        match front_of(size, self.held.as_slice()) {
            Front::Frame(line) => {
                let planes = self.held.take_out(line + 1, size)?;
                let p = packet(self.head.start + self.used, self.count, planes);
                self.used += (line + 1 + size) as u64;
                self.count += 1;
                Ok(Cut::Pkt(p))
            }
            Front::Other => Ok(Cut::Broken {
                offset: self.head.start + self.used,
            }),
            Front::Wait => Ok(
                self.held
                    .unfinished(self.ended, self.head.start + self.used),
            ),
        }
    }
}
