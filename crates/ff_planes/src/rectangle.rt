//! Rectangles of a video frame.
use ff_frame::Format;

/// A rectangle of a video frame, in pixels of Y.
#[derive(Clone, Copy, Debug, PartialEq, Eq)]
pub struct Rectangle {
    /// The columns left of it.
    pub x: u32,
    /// The rows above it.
    pub y: u32,
    /// Its columns.
    pub width: u32,
    /// Its rows.
    pub height: u32,
}

impl Rectangle {
    ghost use Rattle.std.specs.Prelude.{◌≡◌, ◌≤◌};
    ghost use Rattle.ff_planes.specs.Parts.{in_chroma as chroma_part};

    /// What it is in Cb and in Cr.
    pub(crate) fn in_chroma(self, format: Format) -> Rectangle
        requires columns { self.width ≤ 16384 }
        requires rows { self.height ≤ 16384 }
        ensures { result ≡ chroma_part format self }
    {
        let (x, y) = match format {
            Format::C420 => (self.x / 2, self.y / 2),
            Format::C422 => (self.x / 2, self.y),
            Format::C444 => (self.x, self.y),
            Format::Mono => (0, 0),
        };
        Rectangle {
            x,
            y,
            width: format.chroma_width(self.width),
            height: format.chroma_height(self.height),
        }
    }
}
