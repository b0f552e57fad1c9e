//! The function of a stream that changes each video frame by itself.
ghost use Rattle.std.specs.Prelude.{◌≡◌, refl, false, IsTrue, IfOk, IfErr};
ghost use Rattle.ff_frame.specs.declared.video.VFrame.{VFrame};
ghost use Rattle.ff_frame.specs.Video.{IsVideo};
ghost use Rattle.ff_stream.specs.declared.item.Lane.TheVariants.{Frames};
ghost use Rattle.ff_stream.specs.Stream.{opened};
ghost use Rattle.ff_stream.specs.laws.Order.{below_self};
ghost use Rattle.ff_vfilter.specs.Pictures.{agrees as fields_agree, repainted, repainted-below};

use ff_filter::{After, Given, Step};
use ff_frame::{StreamHead, VFrame};
use ff_stream::{Item, Refused};

/// What becomes of each frame.
pub trait Paint {
    /// The frame that becomes of a frame.
    ghost painted: { Self → VFrame → VFrame };

    /// What becomes of this frame. For want of memory it comes back as it was.
    fn paint(&self, frame: VFrame) -> Result<VFrame, VFrame>
        ensures made { IfOk result (λ f. f ≡ painted self.now frame) }
        ensures refused { IfErr result (λ f. f ≡ frame) };
}

/// The function of a stream that gives what becomes of each frame; other items pass.
#[derive(Drop)]
pub struct Repaint<P: Paint> {
    /// What becomes of a frame.
    pub paint: P,
    /// The head of its input.
    pub head: StreamHead,
    /// The head of its output.
    pub shown: StreamHead,
}

/// Whether the fields of a frame agree.
pub(crate) fn agrees(frame: &VFrame) -> bool
    ensures is { result ≡ fields_agree frame.now }
    ensures video { IsTrue result → IsVideo frame.now.format frame.now.width frame.now.height frame.now.planes }
{
    if frame.width < 1 || frame.width > 16384 || frame.height < 1 || frame.height > 16384 {
        return false;
    }
    frame.planes.as_slice().len() == frame.format.frame_size(frame.width, frame.height)
}

impl<P: Paint> Step for Repaint<P> {
    ghost lane_in = { λ m. Frames m.head };

    ghost lane_out = { λ m. Frames m.shown };

    ghost runs = { λ m s. repainted (P.painted m.paint) s };

    fn step(&mut self, item: Item) -> Result<Given, Refused> {
        match item {
            Item::Video(frame) => match self.paint.paint(frame) {
                Ok(frame) => Ok(Given {
                    item: Some(Item::Video(frame)),
                    after: After::More,
                }),
                Err(frame) => Err(Refused {
                    item: Item::Video(frame),
                }),
            },
            Item::Audio(frame) => Ok(Given {
                item: Some(Item::Audio(frame)),
                after: After::More,
            }),
            Item::Packet(packet) => Ok(Given {
                item: Some(Item::Packet(packet)),
                after: After::More,
            }),
            Item::Trailer(totals) => Ok(Given {
                item: Some(Item::Trailer(totals)),
                after: After::More,
            }),
            Item::End => Ok(Given {
                item: None,
                after: After::Whole,
            }),
            Item::Broken => Ok(Given {
                item: None,
                after: After::Broke,
            }),
        }
    }

    ghost waits = { λ m. refl };

    ghost below = { λ m r s h. repainted-below (P.painted m.paint) r s h };

    ghost calm = { λ m r. below_self (opened (repainted (P.painted m.paint) r)) };

    ghost settles = { λ m r c. c };

    ghost ends = { λ m. refl };

    ghost breaks = { λ m. refl };
}
