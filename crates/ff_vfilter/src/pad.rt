//! The filter `pad`.
ghost use Rattle.std.specs.Prelude.{◌≡◌, ◌↔◌, false, IsNone, IfSome, IfOk, IfErr};
ghost use Rattle.ff_frame.specs.Video.{IsSide};
ghost use Rattle.ff_planes.specs.Parts.{IsPart};

use crate::repaint::{Paint, Repaint, agrees};
use crate::sizes::{Sizes, height_of, sized, width_of, x_of, y_of};
use ff_filter::{After, Filter, Limited, Settings, Stepper, machine_of, video_settings};
use ff_frame::{Bytes, ConfigError, Format, StreamHead, VFrame, is_side};
use ff_lang::Arg;
use ff_planes::{Rectangle, pad};
use ff_time::read_number;
use std::alloc::Global;

/// Shows each frame in a rectangle of its size, on black.
#[derive(Drop)]
pub struct Pad {
    /// Columns of the result.
    pub width: u32,
    /// Rows of the result.
    pub height: u32,
    /// Where the frame lies.
    pub part: Rectangle,
    /// Where the memory of the results comes from.
    pub alloc: Global,
    pub ghost columns: { IsSide width },
    pub ghost rows: { IsSide height },
    pub ghost inside: { IsPart width height part },
}

impl Paint for Pad {
    ghost use Rattle.ff_vfilter.specs.Pads.{pad_frame};

    ghost painted = { λ m f. pad_frame m.width m.height m.part f };

    fn paint(&self, frame: VFrame) -> Result<VFrame, VFrame> {
        let part = self.part;
        if !agrees(&frame) || frame.width != part.width || frame.height != part.height {
            return Ok(frame);
        }
        let padded = pad(
            self.alloc,
            frame.format,
            self.width,
            self.height,
            part,
            frame.planes.as_slice(),
        );
        let Ok(planes) = padded else {
            return Err(frame);
        };
        let mut frame = frame;
        frame.width = self.width;
        frame.height = self.height;
        frame.planes = Bytes::new(planes);
        Ok(frame)
    }
}

/// The settings of `pad`.
#[derive(Clone, Copy, Debug)]
pub struct PadSettings {
    /// The size and the place.
    pub sizes: Sizes,
}

impl Settings for PadSettings {
    ghost use Rattle.ff_vfilter.specs.Pads.{pad_manual};

    ghost manual = { pad_manual };

    fn option(key: &str) -> Option<usize> {
        if key == "w" || key == "width" {
            Some(0)
        } else if key == "h" || key == "height" {
            Some(1)
        } else if key == "x" {
            Some(2)
        } else if key == "y" {
            Some(3)
        } else {
            None
        }
    }

    fn places() -> usize {
        4
    }

    fn set(self, option: usize, value: &str) -> Option<PadSettings> {
        match read_number(value, 5) {
            None => None,
            Some(number) => Some(PadSettings {
                sizes: self.sizes.with(option, number),
            }),
        }
    }
}

impl Pad {
    ghost use Rattle.ff_filter.specs.Options.{IsMade, IsRefused};
    ghost use Rattle.ff_vfilter.specs.Pads.{IsPad, pad_head, pad_view, pad_of, can_pad};

    // What settings make of frames of this format and size. None where the larger one has no size, or doesn't hold them.
    fn of(
        alloc: Global,
        head: &StreamHead,
        format: Format,
        width: u32,
        height: u32,
        settings: PadSettings,
    ) -> Option<Pad>
        ensures none { IsNone result ↔ (can_pad (pad_of head.now format width height settings) ≡ false) }
        ensures some { IfSome result (λ p. (p.width ≡ (pad_of head.now format width height settings).width)
            × (p.height ≡ (pad_of head.now format width height settings).height)
            × (p.part ≡ (pad_of head.now format width height settings).part)) }
    {
        let columns = width_of(format, settings.sizes.width, width);
        let rows = height_of(format, settings.sizes.height, height);
        let x = x_of(format, settings.sizes.x, 0);
        let y = y_of(format, settings.sizes.y, 0);
        if !is_side(columns)
            || !is_side(rows)
            || (width as u64) > columns
            || (height as u64) > rows
        {
            return None;
        }
        if x > columns - width as u64 || y > rows - height as u64 {
            return None;
        }
        let part = Rectangle {
            x: x as u32,
            y: y as u32,
            width,
            height,
        };
        Some(Pad {
            width: columns as u32,
            height: rows as u32,
            part,
            alloc,
        })
    }

    /// The filter by its arguments and the head of its input; the head of its output beside it. The options are `w` or
    /// `width`, `h` or `height`, `x` and `y`: whole numbers of at most 5 digits, in this order of places. It refuses in this
    /// order: `Pads`, `Kind`, `UnknownOption` and `BadOption` by argument, `BadSize`.
    pub fn configure(
        alloc: Global,
        args: &[Arg],
        heads: &[StreamHead],
    ) -> Result<(Stepper<Limited<Repaint<Pad>>>, Vec<StreamHead>), ConfigError>
        ensures made { IfOk result (λ r. IsMade (IsPad args.now heads.now) pad_view pad_head (⟦<Stepper<Limited<Repaint<Pad>>> as Filter>⟧.view r.0) r.1.items) }
        ensures refused { IfErr result (IsRefused (IsPad args.now heads.now)) }
    {
        match video_settings(PadSettings { sizes: Sizes::NONE }, args, heads) {
            Err(error) => Err(error),
            Ok((head, settings)) => match head {
                StreamHead::Audio { .. } => Err(ConfigError::BadSize),
                StreamHead::Video {
                    format,
                    width,
                    height,
                    ..
                } => {
                    match Pad::of(alloc, &head, format, width, height, settings) {
                        None => Err(ConfigError::BadSize),
                        Some(paint) => {
                            let shown = sized(&head, paint.width, paint.height);
                            let step = Repaint { paint, head, shown };
                            machine_of(alloc, step, &shown, After::More)
                        }
                    }
                }
            },
        }
    }
}
