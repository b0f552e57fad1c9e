//! The direction and the size of a stack.
ghost use Rattle.std.specs.Prelude.{◌≡◌, ◌≤◌, true};
ghost use Rattle.ff_planes.specs.declared.component.Component.TheVariants.{Luma, Blue};
ghost use Rattle.ff_fsync.specs.Synced.{each_of};
ghost use Rattle.ff_fsync.specs.stacks.Shapes.{same_format as is_same_format, is_like, is_full, along, fills_stack, fits_stack};

use ff_frame::{Format, VFrame};

/// In which direction frames are stacked.
#[derive(Clone, Copy, Debug, PartialEq, Eq)]
pub enum Direction {
    /// Side by side, the first at the left.
    Beside,
    /// One below the other, the first at the top.
    Below,
}

/// How frames are stacked, and what that makes.
#[derive(Clone, Copy, Debug)]
pub struct Shape {
    /// In which direction.
    pub direction: Direction,
    /// The format of each frame and of the stack.
    pub format: Format,
    /// Columns of the stack.
    pub width: u32,
    /// Rows of the stack.
    pub height: u32,
}

/// Whether two formats are one.
pub(crate) fn same_format(a: Format, b: Format) -> bool
    ensures { result ≡ is_same_format a b }
{
    match a {
        Format::C420 => matches!(b, Format::C420),
        Format::C422 => matches!(b, Format::C422),
        Format::C444 => matches!(b, Format::C444),
        Format::Mono => matches!(b, Format::Mono),
    }
}

impl Direction {
    /// How long a frame is in this direction, in pixels of Y.
    fn luma_along(self, picture: &VFrame) -> u32
        ensures { result ≡ along self picture.now.format Luma picture.now }
    {
        match self {
            Direction::Beside => picture.width,
            Direction::Below => picture.height,
        }
    }

    /// How long a frame is in this direction, in pixels of Cb.
    fn chroma_along(self, format: Format, picture: &VFrame) -> u32
        requires columns { picture.now.width ≤ 16384 }
        requires rows { picture.now.height ≤ 16384 }
        ensures { result ≡ along self format Blue picture.now }
    {
        match self {
            Direction::Beside => format.chroma_width(picture.width),
            Direction::Below => format.chroma_height(picture.height),
        }
    }
}

impl Shape {
    // Whether a frame is of this format and as high, or as wide, as the stack.
    fn is_like(self, picture: &VFrame) -> bool
        ensures { result ≡ is_like self picture.now }
    {
        if picture.width < 1
            || picture.width > 16384
            || picture.height < 1
            || picture.height > 16384
        {
            return false;
        }
        if picture.planes.as_slice().len()
            != picture.format.frame_size(picture.width, picture.height)
        {
            return false;
        }
        let across = match self.direction {
            Direction::Beside => picture.height == self.height,
            Direction::Below => picture.width == self.width,
        };
        same_format(picture.format, self.format) && across
    }

    // Whether all of these frames are.
    fn are_like(self, pictures: &[VFrame]) -> bool
        ensures { result ≡ each_of (is_like self) pictures.now }
    {
        'pictures: for i in 0..pictures.len() {
            if !self.is_like(&pictures[i]) {
                return false;
            }
        }
        true
    }

    // Whether so many columns, or rows, of Y and of Cb fill the stack.
    fn is_full(self, luma: u128, chroma: u128) -> bool
        requires columns { self.width ≤ 16384 }
        requires rows { self.height ≤ 16384 }
        ensures { result ≡ is_full self luma chroma }
    {
        let (long, half) = match self.direction {
            Direction::Beside => (self.width, self.format.chroma_width(self.width)),
            Direction::Below => (self.height, self.format.chroma_height(self.height)),
        };
        luma == long as u128 && chroma == half as u128
    }

    // Whether these frames fill the stack.
    fn is_filled(self, pictures: &[VFrame]) -> bool
        requires columns { self.width ≤ 16384 }
        requires rows { self.height ≤ 16384 }
        requires like { each_of (is_like self) pictures.now ≡ true }
        ensures { result ≡ fills_stack self pictures.now }
    {
        let mut luma: u128 = 0;
        let mut chroma: u128 = 0;
        'pictures: for i in 0..pictures.len() {
            luma += self.direction.luma_along(&pictures[i]) as u128;
            chroma += self.direction.chroma_along(self.format, &pictures[i]) as u128;
        }
        self.is_full(luma, chroma)
    }

    /// Whether these frames fit: each is of this format and as high, or as wide, as the stack, and they fill it.
    pub fn fits(self, pictures: &[VFrame]) -> bool
        requires columns { self.width ≤ 16384 }
        requires rows { self.height ≤ 16384 }
        ensures { result ≡ fits_stack self pictures.now }
    {
        self.are_like(pictures) && self.is_filled(pictures)
    }
}
