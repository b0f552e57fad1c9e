//! The stack that is shown of the frames of all inputs.
ghost use Rattle.std.specs.Prelude.{◌≡◌, ◌<◌, ◌^◌, true, IfOk, [], ◌∷◌};
ghost use Rattle.ff_frame.specs.Video.{IsSide};
ghost use Rattle.ff_fsync.specs.stacks.Shapes.{end_ticks, fits_stack, planes_by, stacked_planes, lasts as lasts_at};

use crate::Stack;
use crate::stacks::shape::{Direction, Shape};
use ff_frame::{Bytes, VFrame};
use ff_planes::{hstack, vstack};
use std::alloc::{AllocError, Global};

// The most ticks that a frame is shown.
const LONGEST: u64 = 9_223_372_036_854_775_807;

/// Stacks frames of one format.
#[derive(Drop)]
pub struct Stacking {
    /// How, and what that makes.
    pub shape: Shape,
    /// Where the memory of the stacks comes from.
    pub alloc: Global,
    pub ghost columns: { IsSide shape.width },
    pub ghost rows: { IsSide shape.height },
}

/// When a frame ends, in ticks from 0; what lies before 0 counts as 0.
pub(crate) fn end_of(picture: &VFrame) -> u64
    ensures { result ≡ end_ticks picture.now }
{
    let end = picture.pts as i128 + picture.duration as i128;
    if end < 0 { 0 } else { end as u64 }
}

/// How long what is made of frames of which this is the first is shown at a time.
pub(crate) fn lasts_of(time: u64, picture: &VFrame) -> u64
    requires { time < 2 ^ 63 }
    ensures is { result ≡ lasts_at time (picture.now ∷ []) }
    ensures near { result < 2 ^ 63 }
{
    let end = end_of(picture);
    let later = if end < time + 1 { time + 1 } else { end };
    let lasts = later - time;
    if lasts < LONGEST { lasts } else { LONGEST }
}

// How long what is made of frames is shown at a time.
fn lasts(time: u64, pictures: &[VFrame]) -> u64
    requires { time < 2 ^ 63 }
    ensures is { result ≡ lasts_at time pictures.now }
    ensures near { result < 2 ^ 63 }
{
    if pictures.is_empty() {
        return 1;
    }
    lasts_of(time, &pictures[0])
}

impl Stacking {
    // The planes of frames that fit.
    fn planes(&self, pictures: &[VFrame]) -> Result<Vec<u8>, AllocError>
        requires { fits_stack self.now.shape pictures.now ≡ true }
        ensures { IfOk result (λ out. out.items ≡ planes_by self.now.shape.direction self.now.shape pictures.now) }
    {
        let shape = self.shape;
        match shape.direction {
            Direction::Beside => hstack(
                self.alloc,
                shape.format,
                shape.width,
                shape.height,
                pictures,
            ),
            Direction::Below => vstack(
                self.alloc,
                shape.format,
                shape.width,
                shape.height,
                pictures,
            ),
        }
    }

    // The planes of the stack, where the frames fit; else none.
    fn any_planes(&self, pictures: &[VFrame]) -> Result<Vec<u8>, AllocError>
        ensures { IfOk result (λ out. out.items ≡ stacked_planes self.now.shape pictures.now) }
    {
        if self.shape.fits(pictures) {
            return self.planes(pictures);
        }
        Ok(Vec::new(self.alloc))
    }
}

impl Stack for Stacking {
    ghost use Rattle.ff_fsync.specs.stacks.Shapes.{stacked};

    ghost shows = { λ m t fs. stacked m.shape t fs };

    fn show(&self, time: u64, pictures: &[VFrame]) -> Result<VFrame, AllocError> {
        let duration = lasts(time, pictures);
        let planes = self.any_planes(pictures)?;
        let shape = self.shape;
        Ok(VFrame {
            pts: time as i64,
            duration: duration as i64,
            format: shape.format,
            width: shape.width,
            height: shape.height,
            planes: Bytes::new(planes),
        })
    }
}
