//! The planes of a video frame.
use ff_frame::Format;

/// Which plane of a video frame.
#[derive(Clone, Copy, Debug, PartialEq, Eq)]
pub enum Component {
    /// Y, how light it is.
    Luma,
    /// Cb, how blue.
    Blue,
    /// Cr, how red.
    Red,
}

impl Component {
    ghost use Rattle.std.specs.Prelude.{◌≡◌, ◌≤◌, ◌*◌, length};
    ghost use Rattle.ff_frame.specs.Video.{IsVideo};
    ghost use Rattle.ff_planes.specs.Grid.{columns as columns_of, rows as rows_of, plane as plane_of};

    /// The columns of this plane, for so many of Y.
    pub fn columns(self, format: Format, width: u32) -> usize
        requires { width ≤ 16384 }
        ensures { result ≡ columns_of format width self }
    {
        match self {
            Component::Luma => width as usize,
            Component::Blue | Component::Red => format.chroma_width(width) as usize,
        }
    }

    /// The rows of this plane, for so many of Y.
    pub fn rows(self, format: Format, height: u32) -> usize
        requires { height ≤ 16384 }
        ensures { result ≡ rows_of format height self }
    {
        match self {
            Component::Luma => height as usize,
            Component::Blue | Component::Red => format.chroma_height(height) as usize,
        }
    }

    /// This plane of a frame.
    pub fn plane(self, format: Format, width: u32, height: u32, planes: &[u8]) -> &[u8]
        requires { IsVideo format width height planes.now }
        ensures bytes { result.now ≡ plane_of format width height planes.now self }
        ensures long { length result.now ≡ rows_of format height self * columns_of format width self }
    {
        let luma_size = height as usize * width as usize;
        let chroma_size = format.chroma_height(height) as usize
            * format.chroma_width(width) as usize;
        match self {
            Component::Luma => &planes[..luma_size],
            Component::Blue => &planes[luma_size..luma_size + chroma_size],
            Component::Red => &planes[luma_size + chroma_size..],
        }
    }
}
