//! The filter `hflip`.
ghost use Rattle.std.specs.Prelude.{IfOk, IfErr};

use crate::repaint::{Paint, Repaint, agrees};
use ff_filter::{After, Filter, Limited, NoSettings, Stepper, machine_of, video_settings};
use ff_frame::{Bytes, ConfigError, StreamHead, VFrame};
use ff_lang::Arg;
use ff_planes::hflip;
use std::alloc::Global;

/// `hflip`: each frame mirrored left to right, in its own memory.
#[derive(Clone, Copy, Debug)]
pub struct HFlip {}

impl Paint for HFlip {
    ghost use Rattle.ff_vfilter.specs.HFlips.{hflip_frame};

    ghost painted = { λ m f. hflip_frame f };

    fn paint(&self, frame: VFrame) -> Result<VFrame, VFrame> {
        if !agrees(&frame) {
            return Ok(frame);
        }
        let mut frame = frame;
        let mut planes = frame.planes.into_vec();
        hflip(frame.format, frame.width, frame.height, &mut planes);
        frame.planes = Bytes::new(planes);
        Ok(frame)
    }
}

impl HFlip {
    ghost use Rattle.ff_filter.specs.Options.{IsMade, IsRefused};
    ghost use Rattle.ff_vfilter.specs.HFlips.{IsHFlip, hflip_view};

    /// The filter by its arguments, of which it takes none, and the head of its input; the head of its output beside it.
    /// It refuses in this order: `Pads`, `Kind`, `UnknownOption` of the first argument.
    pub fn configure(
        alloc: Global,
        args: &[Arg],
        heads: &[StreamHead],
    ) -> Result<(Stepper<Limited<Repaint<HFlip>>>, Vec<StreamHead>), ConfigError>
        ensures made { IfOk result (λ r. IsMade (IsHFlip args.now heads.now) hflip_view (λ head. head)
            (⟦<Stepper<Limited<Repaint<HFlip>>> as Filter>⟧.view r.0) r.1.items) }
        ensures refused { IfErr result (IsRefused (IsHFlip args.now heads.now)) }
    {
        match video_settings(NoSettings {}, args, heads) {
            Err(error) => Err(error),
            Ok((head, _settings)) => {
                let step = Repaint {
                    paint: HFlip {},
                    head,
                    shown: head,
                };
                machine_of(alloc, step, &head, After::More)
            }
        }
    }
}
