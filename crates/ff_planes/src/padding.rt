//! Video frames put on black.
ghost use Rattle.std.specs.Prelude.{◌≡◌, ◌+◌, ◌*◌, ◌^◌, ◌≤◌, ◌++◌, length, replicate, OnOk, IfOk};
ghost use Rattle.ff_frame.specs.Video.{IsSide, IsVideo};
ghost use Rattle.ff_planes.specs.Grid.{lines};
ghost use Rattle.ff_planes.specs.Parts.{IsPart, padded, on_black, between_values};

use crate::component::Component;
use crate::rectangle::Rectangle;
use ff_frame::Format;
use std::alloc::{AllocError, Global};

// Adds so many bytes of one value.
fn push_value(out: &mut Vec<u8>, count: u32, value: u8) -> Result<(), AllocError>
    ensures { OnOk result (out.new.items ≡ out.old.items ++ replicate count value) }
{
    out.resize(out.len() + count as usize, value)
}

// Adds so many rows, each between pixels of one value.
fn push_rows(
    out: &mut Vec<u8>,
    value: u8,
    left: u32,
    right: u32,
    columns: usize,
    rows: usize,
    bytes: &[u8],
) -> Result<(), AllocError>
    requires { length bytes.now ≡ rows * columns }
    ensures { OnOk result (out.new.items ≡ out.old.items ++ lines rows (between_values value left right columns bytes.now)) }
{
    'rows: for row in 0..rows {
        let start = row * columns;
        push_value(out, left, value)?;
        out.extend_from_slice(&bytes[start..start + columns])?;
        push_value(out, right, value)?;
    }
    Ok(())
}

// Adds a plane of so many columns and rows that shows another in a rectangle, and has one value elsewhere.
fn push_on_black(
    out: &mut Vec<u8>,
    value: u8,
    columns: u32,
    rows: u32,
    part: Rectangle,
    bytes: &[u8],
) -> Result<(), AllocError>
    requires size { length bytes.now ≡ part.height * part.width }
    requires inside { IsPart columns rows part }
    requires wide { columns ≤ 16384 }
    requires high { rows ≤ 16384 }
    ensures { OnOk result (out.new.items ≡ out.old.items ++ on_black value columns rows part bytes.now) }
{
    let right = columns - part.x - part.width;
    let below = rows - part.y - part.height;
    push_value(out, part.y * columns, value)?;
    push_rows(
        out,
        value,
        part.x,
        right,
        part.width as usize,
        part.height as usize,
        bytes,
    )?;
    push_value(out, below * columns, value)?;
    Ok(())
}

/// The frame of so many columns and rows that shows a frame in a rectangle of its size, and is black elsewhere.
pub fn pad(
    alloc: Global,
    format: Format,
    width: u32,
    height: u32,
    part: Rectangle,
    planes: &[u8],
) -> Result<Vec<u8>, AllocError>
    requires picture { IsVideo format part.width part.height planes.now }
    requires columns { IsSide width }
    requires rows { IsSide height }
    requires inside { IsPart width height part }
    ensures { IfOk result (λ out. out.items ≡ padded format width height part planes.now) }
{
    let chroma_part = part.in_chroma(format);
    let columns = format.chroma_width(width);
    let rows = format.chroma_height(height);
    let luma = Component::Luma.plane(format, part.width, part.height, planes);
    let blue = Component::Blue.plane(format, part.width, part.height, planes);
    let red = Component::Red.plane(format, part.width, part.height, planes);
    let mut out = Vec::with_capacity(alloc, format.frame_size(width, height))?;
    push_on_black(&mut out, 16, width, height, part, luma)?;
    push_on_black(&mut out, 128, columns, rows, chroma_part, blue)?;
    push_on_black(&mut out, 128, columns, rows, chroma_part, red)?;
    Ok(out)
}
