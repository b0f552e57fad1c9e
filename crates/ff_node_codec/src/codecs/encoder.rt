//! The trait of an encoder.
ghost use Rattle.std.specs.Prelude.{◌≡◌, ◌↔◌, Option, Some, IsTrue, IfOk, IfErr};
ghost use Rattle.ff_frame.specs.declared.head.StreamHead.{StreamHead};
ghost use Rattle.ff_frame.specs.declared.packet.Pkt.{Pkt};
ghost use Rattle.ff_stream.specs.declared.item.Item.{Item};
ghost use Rattle.ff_stream.specs.Lanes.{FitsFrames};
ghost use Rattle.ff_node_codec.specs.laws.codecs.Made.{HasSameTimes, IsEncoded};

use ff_frame::Pkt;
use ff_stream::Item;

/// Makes a packet of each frame of a stream.
pub trait Encoder {
    /// What streams it encodes, and the head of what it makes of one.
    ghost serves: { Self → StreamHead → Type 0 };

    ghost coded: { Self → StreamHead → StreamHead };

    /// What frames it can be given.
    ghost takes: { Self → Item → Type 0 };

    /// The packet of a frame.
    ghost made: { Self → Item → Option Pkt };

    /// Whether it can be given this item.
    fn can_take(&self, frame: &Item) -> bool
        ensures { IsTrue result ↔ takes self.now frame.now };

    /// The packet of a frame. Without memory the frame comes back.
    fn encode(&self, frame: Item) -> Result<Pkt, Item>
        requires { takes self.now frame }
        ensures made { IfOk result (λ packet. made self.now frame ≡ Some packet) }
        ensures back { IfErr result (λ back. back ≡ frame) };

    /// What the lane of such frames carries it can be given, and the packet fits the lane of packets and has the frame's times.
    ghost carries: { (e : Self) (h : StreamHead) (x : Item) → serves e h → FitsFrames h x → IsEncoded (coded e h) x (takes e x) (made e x) };

    /// What it makes of a stream has the stream's times.
    ghost keeps_times: { (e : Self) (h : StreamHead) → serves e h → HasSameTimes h (coded e h) };
}
