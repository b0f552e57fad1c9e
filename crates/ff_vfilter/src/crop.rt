//! The filter `crop`.
ghost use Rattle.std.specs.Prelude.{◌≡◌, if◌then◌else◌, Some, None, IfOk, IfErr};
ghost use Rattle.ff_vfilter.specs.Crops.{lies_in};

use crate::repaint::{Paint, Repaint, agrees};
use crate::sizes::{Sizes, height_of, sized, width_of, x_of, y_of};
use ff_filter::{After, Filter, Limited, Settings, Stepper, machine_of, video_settings};
use ff_frame::{Bytes, ConfigError, Format, StreamHead, VFrame, is_side};
use ff_lang::Arg;
use ff_planes::{Rectangle, crop};
use ff_time::read_number;
use std::alloc::Global;

/// Shows a part of each frame.
#[derive(Drop)]
pub struct Crop {
    /// The part.
    pub part: Rectangle,
    /// Where the memory of the parts comes from.
    pub alloc: Global,
}

impl Paint for Crop {
    ghost use Rattle.ff_vfilter.specs.Crops.{crop_frame, lies_in};

    ghost painted = { λ m f. crop_frame m.part f };

    fn paint(&self, frame: VFrame) -> Result<VFrame, VFrame> {
        let part = self.part;
        if !agrees(&frame) || !shows(part, &frame) {
            return Ok(frame);
        }
        let cut = crop(
            self.alloc,
            frame.format,
            frame.width,
            frame.height,
            part,
            frame.planes.as_slice(),
        );
        let Ok(planes) = cut else {
            return Err(frame);
        };
        let mut frame = frame;
        frame.width = part.width;
        frame.height = part.height;
        frame.planes = Bytes::new(planes);
        Ok(frame)
    }
}

// Whether a rectangle lies in a frame.
fn shows(part: Rectangle, frame: &VFrame) -> bool
    ensures { result ≡ lies_in frame.now part }
{
    part.x as u64 + part.width as u64 <= frame.width as u64
        && part.y as u64 + part.height as u64 <= frame.height as u64
}

/// The settings of `crop`.
#[derive(Clone, Copy, Debug)]
pub struct CropSettings {
    /// The size and the place.
    pub sizes: Sizes,
}

impl Settings for CropSettings {
    ghost use Rattle.ff_vfilter.specs.Crops.{crop_manual};

    ghost manual = { crop_manual };

    fn option(key: &str) -> Option<usize> {
        if key == "w" || key == "out_w" {
            Some(0)
        } else if key == "h" || key == "out_h" {
            Some(1)
        } else if key == "x" {
            Some(2)
        } else if key == "y" {
            Some(3)
        } else {
            None
        }
    }

    fn places() -> usize {
        4
    }

    fn set(self, option: usize, value: &str) -> Option<CropSettings> {
        match read_number(value, 5) {
            None => None,
            Some(number) => Some(CropSettings {
                sizes: self.sizes.with(option, number),
            }),
        }
    }
}

impl Crop {
    ghost use Rattle.ff_planes.specs.declared.rectangle.Rectangle.{Rectangle as Part};
    ghost use Rattle.ff_filter.specs.Options.{IsMade, IsRefused};
    ghost use Rattle.ff_vfilter.specs.Crops.{IsCrop, crop_head, crop_view, crop_part, can_crop};

    // The part that settings show of frames of this format and size. None where it has no size, or doesn't lie in them.
    fn part_of(format: Format, width: u32, height: u32, settings: CropSettings) -> Option<Rectangle>
        ensures { result ≡ (if can_crop width height (crop_part format width height settings) then Some (crop_part format width height settings) else None) }
    {
        let columns = width_of(format, settings.sizes.width, width);
        let rows = height_of(format, settings.sizes.height, height);
        if !is_side(columns) || !is_side(rows) || columns > width as u64 || rows > height as u64 {
            return None;
        }
        let x = x_of(format, settings.sizes.x, (width as u64 - columns) / 2);
        let y = y_of(format, settings.sizes.y, (height as u64 - rows) / 2);
        if x > width as u64 - columns || y > height as u64 - rows {
            return None;
        }
        Some(Rectangle {
            x: x as u32,
            y: y as u32,
            width: columns as u32,
            height: rows as u32,
        })
    }

    /// The filter by its arguments and the head of its input; the head of its output beside it. The options are `w` or
    /// `out_w`, `h` or `out_h`, `x` and `y`: whole numbers of at most 5 digits, in this order of places. It refuses in this
    /// order: `Pads`, `Kind`, `UnknownOption` and `BadOption` by argument, `BadSize`.
    pub fn configure(
        alloc: Global,
        args: &[Arg],
        heads: &[StreamHead],
    ) -> Result<(Stepper<Limited<Repaint<Crop>>>, Vec<StreamHead>), ConfigError>
        ensures made { IfOk result (λ r. IsMade (IsCrop args.now heads.now) crop_view crop_head (⟦<Stepper<Limited<Repaint<Crop>>> as Filter>⟧.view r.0) r.1.items) }
        ensures refused { IfErr result (IsRefused (IsCrop args.now heads.now)) }
    {
        match video_settings(CropSettings { sizes: Sizes::NONE }, args, heads) {
            Err(error) => Err(error),
            Ok((head, settings)) => match head {
                StreamHead::Audio { .. } => Err(ConfigError::BadSize),
                StreamHead::Video {
                    format,
                    width,
                    height,
                    ..
                } => {
                    match Crop::part_of(format, width, height, settings) {
                        None => Err(ConfigError::BadSize),
                        Some(part) => {
                            let shown = sized(&head, part.width, part.height);
                            let step = Repaint {
                                paint: Crop { part, alloc },
                                head,
                                shown,
                            };
                            machine_of(alloc, step, &shown, After::More)
                        }
                    }
                }
            },
        }
    }
}
