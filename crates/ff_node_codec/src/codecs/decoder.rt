//! The trait of a decoder.
ghost use Rattle.std.specs.Prelude.{◌≡◌, ◌↔◌, Option, IsTrue, IfOk, IfErr};
ghost use Rattle.ff_frame.specs.declared.head.StreamHead.{StreamHead};
ghost use Rattle.ff_frame.specs.declared.packet.Pkt.{Pkt};
ghost use Rattle.ff_stream.specs.declared.item.Item.{Item};
ghost use Rattle.ff_stream.specs.declared.item.Item.TheVariants.{Packet};
ghost use Rattle.ff_stream.specs.Lanes.{FitsPackets};
ghost use Rattle.ff_node_codec.specs.laws.codecs.Made.{IsDecoded};

use ff_frame::Pkt;
use ff_stream::Item;

/// Makes a frame of each packet of a stream.
pub trait Decoder {
    /// The head of its stream.
    ghost head: { Self → StreamHead };

    /// What packets it can be given.
    ghost takes: { Self → Pkt → Type 0 };

    /// The frame that a packet stands for; none where its bytes stand for no frame.
    ghost made: { Self → Pkt → Option Item };

    /// Whether it can be given this packet.
    fn can_take(&self, packet: &Pkt) -> bool
        ensures { IsTrue result ↔ takes self.now packet.now };

    /// The frame of a packet; None where its bytes stand for none. Without memory the packet comes back. It decodes other packets
    /// as before.
    fn decode(&mut self, packet: Pkt) -> Result<Option<Item>, Pkt>
        requires { takes self.old packet }
        ensures made { IfOk result (λ frame. frame ≡ made self.old packet) }
        ensures back { IfErr result (λ back. back ≡ packet) }
        ensures same { self.new ≡ self.old };

    /// What the lane of its packets carries it can be given, and the frame fits the lane of frames and has the packet's times.
    ghost carries: { (d : Self) (p : Pkt) → FitsPackets (head d) (Packet p) → IsDecoded (head d) p (takes d p) (made d p) };
}
