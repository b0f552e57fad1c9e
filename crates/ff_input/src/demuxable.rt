//! The trait of a format whose inputs can be demuxed.
ghost use Rattle.std.specs.Prelude.{◌≡◌, ◌+◌, ◌≤◌, ◌<◌, ◌^◌, ℕ, None, Some, Ok, false, length, OnErr};
ghost use Rattle.ff_frame.specs.declared.packet.Pkt.{Pkt};
ghost use Rattle.ff_reader.specs.Cutters.{GivesPacket, GaveAll};

use crate::one_of::OneOf;
use ff_flac_dec::{FlacCut, FrameSender};
use ff_frame::Cut;
use ff_pcm::PcmCut;
use ff_reader::PacketCut;
use ff_y4m::Y4mCut;
use std::alloc::AllocError;

/// An input is read in pieces of at most so many bytes, where the rest of a packet is no reason for more.
pub const PIECE: usize = 65536;

/// A format whose inputs can be demuxed. The packets of each are in shape for their lane. More is read only where
/// what was read leaves the next packet undecided, or how the packets end.
pub trait Demuxable: PacketCut {
    ghost use Rattle.ff_input.specs.laws.Owed.{Owes};
    ghost use Rattle.ff_input.specs.laws.Reading.{LeavesOpen};

    /// How many bytes are asked for where more are wanted.
    ghost asks: { Self → ℕ };

    /// How many bytes of its input to ask for where more are wanted.
    fn piece(&self) -> usize
        ensures value { result ≡ asks self.now }
        ensures some { 0 < result };

    /// The next packet, as `pull` gives it. What was given so far ends at or before byte 2^50.
    fn next_cut(&mut self) -> Result<Cut, AllocError>
        requires { Self.is.place self.old ≤ 2 ^ 50 }
        // NotYet comes only where what was fed leaves the next packet undecided, or how the packets end.
        ensures undecided { result ≡ Ok Cut.NotYet → LeavesOpen Self.is self.old }
        ensures gives { (p : Pkt) → result ≡ Ok (Cut.Pkt p) → GivesPacket Self.is self.old self.new p }
        ensures ends { result ≡ Ok Cut.End → GaveAll Self.is self.old None }
        ensures breaks { (offset : ℕ) → result ≡ Ok (Cut.Broken offset) → GaveAll Self.is self.old (Some offset) }
        ensures not_yet { result ≡ Ok Cut.NotYet → (Self.is.has_ended self.old ≡ false) × (length (Self.is.waiting self.old) < Self.is.longest) }
        ensures still { result ≡ Ok Cut.NotYet → self.new ≡ self.old }
        ensures stops { result ≡ Ok Cut.End → self.new ≡ self.old }
        ensures stays { (offset : ℕ) → result ≡ Ok (Cut.Broken offset) → self.new ≡ self.old }
        ensures err { OnErr result (self.new ≡ self.old) }
        ensures ended { Self.is.has_ended self.new ≡ Self.is.has_ended self.old }
        ensures head { Self.is.head_of self.new ≡ Self.is.head_of self.old }
        ensures last { (p : Pkt) → result ≡ Ok (Cut.Pkt p) → p.pos + length p.bytes < 2 ^ 64 }
        ensures place { (p : Pkt) → result ≡ Ok (Cut.Pkt p) → Self.is.place self.new ≤ p.pos + length p.bytes + 2 ^ 30 };

    /// Whether it can send frames to a decoder.
    fn sends_frames(&self) -> bool;

    /// Has it send the frames that it reads from now on to a decoder, if it can. It gives what it gave.
    fn send_frames_to(&mut self, sender: FrameSender)
        ensures { self.new ≡ self.old };

    /// Its packets are in shape for their lane, and its stream is one that is read.
    ghost owes: { Owes Self.is };
}

impl Demuxable for PcmCut {
    ghost use Rattle.ff_input.specs.laws.Reading.{piece_size};
    ghost use Rattle.ff_input.specs.laws.PcmShapes.{pcm_owes};

    ghost asks = { λ cut. piece_size };

    fn piece(&self) -> usize {
        PIECE
    }

    fn next_cut(&mut self) -> Result<Cut, AllocError> {
        self.pull()
    }

    fn sends_frames(&self) -> bool {
        false
    }

    fn send_frames_to(&mut self, _: FrameSender) {}

    ghost owes = { pcm_owes };
}

impl Demuxable for Y4mCut {
    ghost use Rattle.ff_input.specs.laws.Reading.{piece_size};
    ghost use Rattle.ff_input.specs.laws.Y4mShapes.{y4m_owes};

    ghost asks = { λ cut. piece_size };

    fn piece(&self) -> usize {
        PIECE
    }

    fn next_cut(&mut self) -> Result<Cut, AllocError> {
        self.pull()
    }

    fn sends_frames(&self) -> bool {
        false
    }

    fn send_frames_to(&mut self, _: FrameSender) {}

    ghost owes = { y4m_owes };
}

impl Demuxable for FlacCut {
    ghost use Rattle.ff_input.specs.laws.FlacShapes.{flac_asks, flac_owes};

    ghost asks = { flac_asks };

    /// As many bytes as wait, where these are more than a piece. So a frame that isn't whole yet is read anew only
    /// once it has doubled, and not once for each piece.
    fn piece(&self) -> usize {
        PIECE.max(self.held() as usize)
    }

    fn next_cut(&mut self) -> Result<Cut, AllocError> {
        self.pull()
    }

    fn sends_frames(&self) -> bool {
        true
    }

    fn send_frames_to(&mut self, sender: FrameSender) {
        FlacCut::send_frames_to(self, sender);
    }

    ghost owes = { flac_owes };
}

impl<A: Demuxable, B: Demuxable> Demuxable for OneOf<A, B> {
    ghost use Rattle.ff_input.specs.Either.{either};
    ghost use Rattle.ff_input.specs.laws.Owed.{either_owes};

    ghost asks = { either A.asks B.asks };

    fn piece(&self) -> usize {
        match self {
            OneOf::First(cut) => cut.piece(),
            OneOf::Other(cut) => cut.piece(),
        }
    }

    fn next_cut(&mut self) -> Result<Cut, AllocError> {
        match self {
            OneOf::First(cut) => cut.next_cut(),
            OneOf::Other(cut) => cut.next_cut(),
        }
    }

    fn sends_frames(&self) -> bool {
        match self {
            OneOf::First(cut) => cut.sends_frames(),
            OneOf::Other(cut) => cut.sends_frames(),
        }
    }

    fn send_frames_to(&mut self, sender: FrameSender) {
        match self {
            OneOf::First(cut) => cut.send_frames_to(sender),
            OneOf::Other(cut) => cut.send_frames_to(sender),
        }
    }

    ghost owes = { either_owes A.owes B.owes };
}
