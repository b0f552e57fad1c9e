//! The trait of what cuts the bytes of an input into packets.
ghost use Rattle.std.specs.Prelude.{◌≡◌, ◌+◌, ◌≤◌, ◌<◌, ◌^◌, ℕ, [], ◌++◌, Some, None, false, true, length, OnOk, OnErr, IsOk};
ghost use Rattle.ff_frame.specs.declared.packet.Pkt.{Pkt};
ghost use Rattle.ff_reader.specs.Cutters.{Cutter, Feeds, KeepsCut, GivesPacket, GaveAll, SameElsewhere};

use ff_frame::{Cut, StreamHead};
use std::alloc::{AllocError, Global};

/// The packets of a format's input, from pieces of any size.
///
/// A format writes what a head is, which packets follow it and where they break off. It writes how its state is tied
/// to what it was fed and gave. Whoever reads by a cut is written once, for every format.
pub trait PacketCut {
    /// What comes before the packets.
    type Head;

    /// All that contracts see of it.
    ghost is: { Cutter Self.Head Self };

    /// What a head tells of its stream.
    fn stream_head(head: &Self::Head) -> StreamHead
        ensures { result ≡ is.stream_head head.now };

    /// The offset in the input of what follows a head.
    fn start(head: &Self::Head) -> u64
        requires { is.IsHead head.now }
        ensures value { result ≡ is.start head.now }
        ensures near { result ≤ 2 ^ 50 };

    /// A cut of an input with this head, which was read: fed nothing, it has given no packet.
    fn new(alloc: Global, head: &Self::Head) -> Self
        requires { is.IsHead head.now }
        ensures cuts { is.cuts result head.now [] 0 }
        ensures goes_on { is.has_ended result ≡ false }
        ensures none { is.waiting result ≡ [] }
        ensures head { is.head_of result ≡ head.now }
        ensures place { is.place result ≡ is.start head.now };

    /// Takes further bytes of the input, those after the head. The input must not have ended.
    fn feed(&mut self, bytes: &[u8]) -> Result<(), AllocError>
        requires { is.has_ended self.old ≡ false }
        ensures ok { OnOk result (Feeds is self.old self.new bytes.now) }
        ensures err { OnErr result (self.new ≡ self.old) }
        ensures succeeds { length bytes.now ≤ is.room self.old → IsOk result }
        ensures same { OnOk result (SameElsewhere is self.old self.new) }
        ensures held { OnOk result (is.waiting self.new ≡ is.waiting self.old ++ bytes.now) };

    /// Makes room for so many bytes more, which `feed` then takes without fail.
    fn reserve(&mut self, count: usize) -> Result<(), AllocError>
        ensures cuts { KeepsCut is self.old self.new }
        ensures same { SameElsewhere is self.old self.new }
        ensures held { is.waiting self.new ≡ is.waiting self.old }
        ensures room { OnOk result (count ≤ is.room self.new) }
        ensures err { OnErr result (self.new ≡ self.old) };

    /// The input ended: nothing more is fed.
    fn end(&mut self)
        requires { is.has_ended self.old ≡ false }
        ensures cuts { KeepsCut is self.old self.new }
        ensures ended { is.has_ended self.new ≡ true }
        ensures head { is.head_of self.new ≡ is.head_of self.old }
        ensures place { is.place self.new ≡ is.place self.old }
        ensures held { is.waiting self.new ≡ is.waiting self.old };

    /// How many bytes are kept.
    fn held(&self) -> u64
        ensures { result ≡ length (is.waiting self.now) };

    /// The next packet of the bytes so far. What was given so far ends at or before byte 2^50.
    fn pull(&mut self) -> Result<Cut, AllocError>
        requires { is.place self.old ≤ 2 ^ 50 }
        // It is the next packet of the input, whatever follows.
        ensures gives { (p : Pkt) → result ≡ Ok (Cut.Pkt p) → GivesPacket is self.old self.new p }
        // All were given, whatever follows, and the input ended after the last.
        ensures ends { result ≡ Ok Cut.End → GaveAll is self.old None }
        // All were given, whatever follows, and none begins where the last ended, or one that isn't whole.
        ensures breaks { (offset : ℕ) → result ≡ Ok (Cut.Broken offset) → GaveAll is self.old (Some offset) }
        // More bytes are wanted only where the input goes on and few wait.
        ensures not_yet { result ≡ Ok Cut.NotYet → (is.has_ended self.old ≡ false) × (length (is.waiting self.old) < is.longest) }
        ensures still { result ≡ Ok Cut.NotYet → self.new ≡ self.old }
        ensures stops { result ≡ Ok Cut.End → self.new ≡ self.old }
        ensures stays { (offset : ℕ) → result ≡ Ok (Cut.Broken offset) → self.new ≡ self.old }
        ensures err { OnErr result (self.new ≡ self.old) }
        ensures ended { is.has_ended self.new ≡ is.has_ended self.old }
        ensures head { is.head_of self.new ≡ is.head_of self.old }
        ensures last { (p : Pkt) → result ≡ Ok (Cut.Pkt p) → p.pos + length p.bytes < 2 ^ 64 }
        ensures place { (p : Pkt) → result ≡ Ok (Cut.Pkt p) → is.place self.new ≤ p.pos + length p.bytes + 2 ^ 30 };
}
