//! Pictures of one colour.
ghost use Rattle.std.specs.Prelude.{◌≡◌, ◌<◌, ◌^◌, IfOk};
ghost use Rattle.ff_frame.specs.Video.{IsSide};
ghost use Rattle.ff_source.specs.Colors.{color_named, luma_of, color_planes, color_frame, color_head};

use ff_frame::{Bytes, Format, StreamHead, VFrame};
use ff_stream::Item;
use ff_time::Rational;
use std::alloc::{AllocError, Global};

/// The colours that there are.
#[derive(Clone, Copy, Debug, PartialEq, Eq)]
pub enum Color {
    /// Y is 16.
    Black,
    /// Y is 235.
    White,
}

impl Color {
    /// The colour of this name.
    pub(crate) fn read(name: &str) -> Option<Color>
        ensures { result ≡ color_named name.now }
    {
        if name == "black" {
            Some(Color::Black)
        } else if name == "white" {
            Some(Color::White)
        } else {
            None
        }
    }

    // Each sample of Y.
    fn luma(self) -> u8
        ensures { result ≡ luma_of self }
    {
        match self {
            Color::Black => 16,
            Color::White => 235,
        }
    }
}

// The planes of a picture.
fn planes(alloc: Global, color: Color, width: u32, height: u32) -> Result<Vec<u8>, AllocError>
    requires columns { IsSide width }
    requires rows { IsSide height }
    ensures { IfOk result (λ out. out.items ≡ color_planes color width height) }
{
    let luma = width as usize * height as usize;
    let size = Format::C420.frame_size(width, height);
    let mut out = Vec::with_capacity(alloc, size)?;
    out.resize(luma, color.luma())?;
    out.resize(size, 128)?;
    Ok(out)
}

/// Pictures of one colour, each for one tick.
#[derive(Clone, Copy, Debug)]
pub struct Pictures {
    /// Their colour.
    pub color: Color,
    /// Their columns.
    pub width: u32,
    /// Their rows.
    pub height: u32,
    /// The time base, which is one over the pictures a second.
    pub base: Rational,
    /// How many there are.
    pub count: u64,
}

impl Pictures {
    /// The head of their stream.
    pub(crate) fn head(&self) -> StreamHead
        ensures { result ≡ color_head self.now.base self.now.width self.now.height }
    {
        StreamHead::Video {
            tb: self.base,
            format: Format::C420,
            width: self.width,
            height: self.height,
            sar_num: 1,
            sar_den: 1,
        }
    }

    /// The picture of this number.
    pub(crate) fn frame(&self, alloc: Global, number: u64) -> Result<Item, AllocError>
        requires columns { IsSide self.now.width }
        requires rows { IsSide self.now.height }
        requires near { number < 2 ^ 63 }
        ensures { IfOk result (λ item. item ≡ color_frame self.now.color self.now.width self.now.height number) }
    {
        let planes = planes(alloc, self.color, self.width, self.height)?;
        let frame = VFrame::make(
            number as i64,
            1,
            Format::C420,
            self.width,
            self.height,
            Bytes::new(planes),
        );
        Ok(Item::Video(frame))
    }
}
