//! Video frames mirrored in place.
ghost use Rattle.std.specs.Prelude.{◌≡◌, ◌≢◌, ℕ, ◌+◌, ◌-◌, ◌*◌, ◌<◌, ◌≤◌, ◌++◌, length, take, drop};
ghost use Rattle.ff_frame.specs.Video.{IsVideo};
ghost use Rattle.ff_planes.specs.Grid.{line};
ghost use Rattle.ff_planes.specs.Flips.{hflipped, vflipped, mirrored, turned_over};

use ff_frame::Format;

// Each row of a plane from its last column to its first.
fn mirror_rows(columns: usize, rows: usize, bytes: &mut [u8])
    requires { length bytes.old ≡ rows * columns }
    ensures { bytes.new ≡ mirrored columns rows bytes.old }
{
    'rows: for row in 0..rows {
        let start = row * columns;
        bytes[start..start + columns].reverse();
    }
}

// Two rows of a plane change places.
fn swap_rows(columns: usize, rows: usize, upper: usize, lower: usize, bytes: &mut [u8])
    requires size { length bytes.old ≡ rows * columns }
    requires order { upper < lower }
    requires there { lower < rows }
    ensures upper { line columns bytes.new upper ≡ line columns bytes.old lower }
    ensures lower { line columns bytes.new lower ≡ line columns bytes.old upper }
    ensures others { (row : ℕ) → row < rows → row ≢ upper → row ≢ lower → line columns bytes.new row ≡ line columns bytes.old row }
{
    let start = upper * columns;
    let (front, back) = bytes.split_at_mut(lower * columns);
    front[start..start + columns].swap_with_slice(&mut back[..columns]);
}

// The rows of a plane from its last to its first.
fn turn_over(columns: usize, rows: usize, bytes: &mut [u8])
    requires { length bytes.old ≡ rows * columns }
    ensures { bytes.new ≡ turned_over columns rows bytes.old }
{
    'rows: for row in 0..rows / 2 {
        swap_rows(columns, rows, row, rows - 1 - row, bytes);
    }
}

/// Mirrors a video frame in its own memory: left and right change places.
pub fn hflip(format: Format, width: u32, height: u32, planes: &mut [u8])
    requires { IsVideo format width height planes.old }
    ensures { planes.new ≡ hflipped format width height planes.old }
{
    let columns = format.chroma_width(width) as usize;
    let rows = format.chroma_height(height) as usize;
    let (luma, chroma) = planes.split_at_mut(height as usize * width as usize);
    let (blue, red) = chroma.split_at_mut(rows * columns);
    mirror_rows(width as usize, height as usize, luma);
    mirror_rows(columns, rows, blue);
    mirror_rows(columns, rows, red);
}

/// Mirrors a video frame in its own memory: top and bottom change places.
pub fn vflip(format: Format, width: u32, height: u32, planes: &mut [u8])
    requires { IsVideo format width height planes.old }
    ensures { planes.new ≡ vflipped format width height planes.old }
{
    let columns = format.chroma_width(width) as usize;
    let rows = format.chroma_height(height) as usize;
    let (luma, chroma) = planes.split_at_mut(height as usize * width as usize);
    let (blue, red) = chroma.split_at_mut(rows * columns);
    turn_over(width as usize, height as usize, luma);
    turn_over(columns, rows, blue);
    turn_over(columns, rows, red);
}
