//! The sizes and places that the arguments of `crop` and `pad` give, on the grid of chroma.
ghost use Rattle.std.specs.Prelude.{◌≡◌};
ghost use Rattle.ff_vfilter.specs.Sizes.{on_columns as columns_on, on_rows as rows_on, size_of, place_of, sized as head_sized};

use ff_frame::{Format, StreamHead};

/// Sizes and places, as far as arguments give them.
#[derive(Clone, Copy, Debug)]
pub struct Sizes {
    /// Columns.
    pub width: Option<u64>,
    /// Rows.
    pub height: Option<u64>,
    /// Columns to the left.
    pub x: Option<u64>,
    /// Rows above.
    pub y: Option<u64>,
}

impl Sizes {
    ghost use Rattle.std.specs.Prelude.{◌≡◌};
    ghost use Rattle.ff_vfilter.specs.Sizes.{put};

    /// None is given.
    pub const NONE: Sizes = Sizes {
        width: None,
        height: None,
        x: None,
        y: None,
    };

    /// The same with this number as the width, the height, x or y, by the number of the option.
    pub(crate) fn with(self, option: usize, number: u64) -> Sizes
        ensures { result ≡ put self option number }
    {
        let mut sizes = self;
        if option == 0 {
            sizes.width = Some(number);
        } else if option == 1 {
            sizes.height = Some(number);
        } else if option == 2 {
            sizes.x = Some(number);
        } else {
            sizes.y = Some(number);
        }
        sizes
    }
}

// Rounded down to where Cb and Cr have whole columns.
fn on_columns(format: Format, number: u64) -> u64
    ensures { result ≡ columns_on format number }
{
    match format {
        Format::C420 | Format::C422 => number / 2 * 2,
        Format::C444 | Format::Mono => number,
    }
}

// Rounded down to where Cb and Cr have whole rows.
fn on_rows(format: Format, number: u64) -> u64
    ensures { result ≡ rows_on format number }
{
    match format {
        Format::C420 => number / 2 * 2,
        Format::C422 | Format::C444 | Format::Mono => number,
    }
}

/// The columns that are given, on the grid; else the whole.
pub(crate) fn width_of(format: Format, given: Option<u64>, whole: u32) -> u64
    ensures { result ≡ size_of (columns_on format) given whole }
{
    match given {
        None => whole as u64,
        Some(number) => on_columns(format, number),
    }
}

/// The rows that are given, on the grid; else the whole.
pub(crate) fn height_of(format: Format, given: Option<u64>, whole: u32) -> u64
    ensures { result ≡ size_of (rows_on format) given whole }
{
    match given {
        None => whole as u64,
        Some(number) => on_rows(format, number),
    }
}

/// The columns to the left that are given, else these; on the grid.
pub(crate) fn x_of(format: Format, given: Option<u64>, place: u64) -> u64
    ensures { result ≡ place_of (columns_on format) given place }
{
    match given {
        None => on_columns(format, place),
        Some(number) => on_columns(format, number),
    }
}

/// The rows above that are given, else these; on the grid.
pub(crate) fn y_of(format: Format, given: Option<u64>, place: u64) -> u64
    ensures { result ≡ place_of (rows_on format) given place }
{
    match given {
        None => on_rows(format, place),
        Some(number) => on_rows(format, number),
    }
}

/// The head with other columns and rows.
pub(crate) fn sized(head: &StreamHead, width: u32, height: u32) -> StreamHead
    ensures { result ≡ head_sized head.now width height }
{
    match *head {
        StreamHead::Audio { .. } => *head,
        StreamHead::Video {
            tb,
            format,
            sar_num,
            sar_den,
            ..
        } => StreamHead::Video {
            tb,
            format,
            width,
            height,
            sar_num,
            sar_den,
        },
    }
}
