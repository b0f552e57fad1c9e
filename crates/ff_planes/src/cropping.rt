//! Crops of video frames.
ghost use Rattle.std.specs.Prelude.{◌≡◌, ◌+◌, ◌*◌, ◌≤◌, ◌++◌, length, OnOk, IfOk};
ghost use Rattle.ff_frame.specs.Video.{IsVideo};
ghost use Rattle.ff_planes.specs.Parts.{IsPart, cropped, part_of};

use crate::component::Component;
use crate::rectangle::Rectangle;
use ff_frame::Format;
use std::alloc::{AllocError, Global};

// Adds what a rectangle shows of a plane.
fn push_part(
    out: &mut Vec<u8>,
    columns: usize,
    rows: usize,
    part: Rectangle,
    bytes: &[u8],
) -> Result<(), AllocError>
    requires size { length bytes.now ≡ rows * columns }
    requires inside { IsPart columns rows part }
    ensures { OnOk result (out.new.items ≡ out.old.items ++ part_of columns bytes.now part) }
{
    'rows: for row in part.y as usize..part.y as usize + part.height as usize {
        let start = row * columns + part.x as usize;
        out.extend_from_slice(&bytes[start..start + part.width as usize])?;
    }
    Ok(())
}

/// The part of a frame that a rectangle shows; of a frame with colour, with the pixels of Cb and Cr that stand for it.
pub fn crop(
    alloc: Global,
    format: Format,
    width: u32,
    height: u32,
    part: Rectangle,
    planes: &[u8],
) -> Result<Vec<u8>, AllocError>
    requires picture { IsVideo format width height planes.now }
    requires inside { IsPart width height part }
    ensures { IfOk result (λ out. out.items ≡ cropped format width height part planes.now) }
{
    let chroma_part = part.in_chroma(format);
    let columns = format.chroma_width(width) as usize;
    let rows = format.chroma_height(height) as usize;
    let luma = Component::Luma.plane(format, width, height, planes);
    let blue = Component::Blue.plane(format, width, height, planes);
    let red = Component::Red.plane(format, width, height, planes);
    let mut out = Vec::with_capacity(alloc, format.frame_size(part.width, part.height))?;
    push_part(&mut out, width as usize, height as usize, part, luma)?;
    push_part(&mut out, columns, rows, chroma_part, blue)?;
    push_part(&mut out, columns, rows, chroma_part, red)?;
    Ok(out)
}
