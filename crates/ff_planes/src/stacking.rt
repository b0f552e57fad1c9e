//! Video frames side by side, or one below the other.
ghost use Rattle.std.specs.Prelude.{◌≡◌, ◌<◌, ◌≤◌, ◌++◌, All, OnOk, IfOk};
ghost use Rattle.std.specs.List.{flat_map};
ghost use Rattle.ff_frame.specs.Video.{IsSide};
ghost use Rattle.ff_planes.specs.Grid.{rows, line, lines, columns as columns_of, plane as plane_of};
ghost use Rattle.ff_planes.specs.Stacks.{IsAsHigh, IsAsWide, FillColumns, FillRows, hstacked, vstacked, beside_row, below_plane};

use crate::component::Component;
use ff_frame::{Format, VFrame};
use std::alloc::{AllocError, Global};

// Adds a row of frames side by side.
fn push_row(
    out: &mut Vec<u8>,
    format: Format,
    height: u32,
    component: Component,
    row: usize,
    pictures: &[VFrame],
) -> Result<(), AllocError>
    requires alike { All (IsAsHigh format height) pictures.now }
    requires there { row < rows format height component }
    ensures { OnOk result (out.new.items ≡ out.old.items ++ beside_row format height component pictures.now row) }
{
    'pictures: for picture in pictures {
        let columns = component.columns(format, picture.width);
        let plane = component.plane(format, picture.width, height, picture.planes.as_slice());
        let start = row * columns;
        out.extend_from_slice(&plane[start..start + columns])?;
    }
    Ok(())
}

// Adds a plane of frames side by side.
fn push_beside(
    out: &mut Vec<u8>,
    format: Format,
    height: u32,
    component: Component,
    pictures: &[VFrame],
) -> Result<(), AllocError>
    requires alike { All (IsAsHigh format height) pictures.now }
    requires side { height ≤ 16384 }
    ensures { OnOk result (out.new.items ≡ out.old.items ++ lines (rows format height component) (beside_row format height component pictures.now)) }
{
    let rows = component.rows(format, height);
    'rows: for row in 0..rows {
        push_row(out, format, height, component, row, pictures)?;
    }
    Ok(())
}

// Adds a plane of frames one below the other.
fn push_below(
    out: &mut Vec<u8>,
    format: Format,
    width: u32,
    component: Component,
    pictures: &[VFrame],
) -> Result<(), AllocError>
    requires { All (IsAsWide format width) pictures.now }
    ensures { OnOk result (out.new.items ≡ out.old.items ++ below_plane format width component pictures.now) }
{
    'pictures: for picture in pictures {
        out.extend_from_slice(component.plane(
            format,
            width,
            picture.height,
            picture.planes.as_slice(),
        ))?;
    }
    Ok(())
}

/// Frames of one format and one height, side by side in their order. They have so many columns in all; each but the last
/// has a whole number of pixels of Cb and of Cr.
pub fn hstack(
    alloc: Global,
    format: Format,
    width: u32,
    height: u32,
    pictures: &[VFrame],
) -> Result<Vec<u8>, AllocError>
    requires columns { IsSide width }
    requires rows { IsSide height }
    requires alike { All (IsAsHigh format height) pictures.now }
    requires filled { FillColumns format width pictures.now }
    ensures { IfOk result (λ out. out.items ≡ hstacked format width height pictures.now) }
{
    let mut out = Vec::with_capacity(alloc, format.frame_size(width, height))?;
    push_beside(&mut out, format, height, Component::Luma, pictures)?;
    push_beside(&mut out, format, height, Component::Blue, pictures)?;
    push_beside(&mut out, format, height, Component::Red, pictures)?;
    Ok(out)
}

/// Frames of one format and one width, one below the other in their order. They have so many rows in all; each but the
/// last has a whole number of pixels of Cb and of Cr.
pub fn vstack(
    alloc: Global,
    format: Format,
    width: u32,
    height: u32,
    pictures: &[VFrame],
) -> Result<Vec<u8>, AllocError>
    requires columns { IsSide width }
    requires rows { IsSide height }
    requires alike { All (IsAsWide format width) pictures.now }
    requires filled { FillRows format height pictures.now }
    ensures { IfOk result (λ out. out.items ≡ vstacked format width height pictures.now) }
{
    let mut out = Vec::with_capacity(alloc, format.frame_size(width, height))?;
    push_below(&mut out, format, width, Component::Luma, pictures)?;
    push_below(&mut out, format, width, Component::Blue, pictures)?;
    push_below(&mut out, format, width, Component::Red, pictures)?;
    Ok(out)
}
