//! Video frames and their pixel formats.
ghost use Rattle.std.specs.Prelude.{◌≡◌, ◌≤◌, IfOk};
ghost use Rattle.ff_frame.specs.Video.{chroma_width as width_of_chroma, chroma_height as height_of_chroma, frame_size as size_of_frame, IsVideo};

use crate::lists::Bytes;
use std::alloc::{AllocError, Global};

/// Which samples a video frame has, each of one byte (yuv4mpeg(5), the tag `C`).
#[derive(Clone, Copy, Debug, PartialEq, Eq)]
pub enum Format {
    /// 4:2:0: Cb and Cr have half of the columns and half of the rows, rounded up.
    C420,
    /// 4:2:2: Cb and Cr have half of the columns, rounded up.
    C422,
    /// 4:4:4: Cb and Cr are as large as Y.
    C444,
    /// Y alone.
    Mono,
}

impl Format {
    /// The columns of Cb and of Cr, for so many of Y.
    pub fn chroma_width(self, width: u32) -> u32
        requires { width ≤ 16384 }
        ensures { result ≡ width_of_chroma self width }
    {
        match self {
            Format::C420 | Format::C422 => (width + 1) / 2,
            Format::C444 => width,
            Format::Mono => 0,
        }
    }

    /// The rows of Cb and of Cr, for so many of Y.
    pub fn chroma_height(self, height: u32) -> u32
        requires { height ≤ 16384 }
        ensures { result ≡ height_of_chroma self height }
    {
        match self {
            Format::C420 => (height + 1) / 2,
            Format::C422 | Format::C444 => height,
            Format::Mono => 0,
        }
    }

    /// The bytes of a frame's planes, for so many columns and rows.
    pub fn frame_size(self, width: u32, height: u32) -> usize
        requires columns { width ≤ 16384 }
        requires rows { height ≤ 16384 }
        ensures size { result ≡ size_of_frame self width height }
        ensures few { result ≤ 805306368 }
    {
        let luma = width as usize * height as usize;
        let chroma = self.chroma_width(width) as usize * self.chroma_height(height) as usize;
        luma + 2 * chroma
    }
}

/// A decoded video frame.
#[derive(Debug, Drop)]
pub struct VFrame {
    /// When it is shown, in ticks of its stream's time base.
    pub pts: i64,
    /// How long it is shown, in the same ticks.
    pub duration: i64,
    /// Its pixel format.
    pub format: Format,
    /// Columns, 1 to 16,384.
    pub width: u32,
    /// Rows, 1 to 16,384.
    pub height: u32,
    /// The planes Y, Cb and Cr one after the other, each row by row without padding; of a gray frame Y alone.
    pub planes: Bytes,
}

impl VFrame {
    ghost use Rattle.ff_frame.specs.Frame.{video_frame};

    /// The frame of these fields, which agree: 1 to 16,384 columns and rows, and all samples of the planes.
    pub fn make(
        pts: i64,
        duration: i64,
        format: Format,
        width: u32,
        height: u32,
        planes: Bytes,
    ) -> VFrame
        requires { IsVideo format width height planes }
        ensures { result ≡ video_frame pts duration format width height planes }
    {
        VFrame {
            pts,
            duration,
            format,
            width,
            height,
            planes,
        }
    }

    /// An equal frame.
    pub fn try_copy(&self, alloc: Global) -> Result<VFrame, AllocError>
        ensures { IfOk result (λ copy. copy ≡ self.now) }
    {
        let planes = self.planes.try_copy(alloc)?;
        Ok(VFrame {
            pts: self.pts,
            duration: self.duration,
            format: self.format,
            width: self.width,
            height: self.height,
            planes,
        })
    }
}
