//! Whether a stream is already what an output asks of its streams.
ghost use Rattle.std.specs.Prelude.{◌≡◌};
ghost use Rattle.ff_plan_layout.specs.Asking.{same_format as is_same_format, same_base as is_same_base, has_number as number_fits, has_format as format_fits};
ghost use Rattle.ff_plan_layout.specs.Asking.{has_base as base_fits, has_size as size_fits, is_as_asked as is_so};

use ff_frame::{Format, StreamHead};
use ff_time::Rational;
use ff_words::{Asked, Size};

fn same_format(a: Format, b: Format) -> bool
    ensures { result ≡ is_same_format a b }
{
    match a {
        Format::C420 => matches!(b, Format::C420),
        Format::C422 => matches!(b, Format::C422),
        Format::C444 => matches!(b, Format::C444),
        Format::Mono => matches!(b, Format::Mono),
    }
}

fn same_base(a: Rational, b: Rational) -> bool
    ensures { result ≡ is_same_base a b }
{
    a.num() == b.num() && a.den() == b.den()
}

fn has_number(asked: Option<u32>, number: u32) -> bool
    ensures { result ≡ number_fits asked number }
{
    match asked {
        Some(wanted) => wanted == number,
        None => true,
    }
}

fn has_format(asked: Option<Format>, format: Format) -> bool
    ensures { result ≡ format_fits asked format }
{
    match asked {
        Some(wanted) => same_format(wanted, format),
        None => true,
    }
}

fn has_base(asked: Option<Rational>, tb: Rational) -> bool
    ensures { result ≡ base_fits asked tb }
{
    match asked {
        Some(wanted) => same_base(wanted, tb),
        None => true,
    }
}

fn has_size(asked: Option<Size>, width: u32, height: u32) -> bool
    ensures { result ≡ size_fits asked width height }
{
    match asked {
        Some(wanted) => wanted.width == width && wanted.height == height,
        None => true,
    }
}

/// Whether a stream with this head is what it is asked to be.
pub(crate) fn is_as_asked(asked: Asked, head: StreamHead) -> bool
    ensures { result ≡ is_so asked head }
{
    match head {
        StreamHead::Audio { rate, channels, .. } => {
            has_number(asked.rate, rate) && has_number(asked.channels, u32::from(channels))
        }
        StreamHead::Video {
            tb,
            format,
            width,
            height,
            ..
        } => {
            has_format(asked.pixels, format)
                && has_base(asked.base, tb)
                && has_size(asked.size, width, height)
        }
    }
}
