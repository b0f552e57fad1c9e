//! The parameters of the first line (yuv4mpeg(5), "Stream Header").
ghost use Rattle.std.specs.Prelude.{◌≡◌, ◌<◌, ◌^◌, IfOk};
ghost use Rattle.ff_frame.specs.Video.{IsSide};
ghost use Rattle.ff_y4m.specs.Parameters.{AreSane, side_in, base_or, base_in, aspect_in, is_progressive, format_of};
ghost use Rattle.ff_y4m.specs.Parameters.{with_width, with_height, with_base, with_aspect, with_format, lettered};
ghost use Rattle.ff_y4m.specs.Numbers.{whole as whole_number, pair as pair_of, base_of};

use crate::number::{pair, time_base, whole};
use ff_frame::Format;
use ff_reader::HeadFault;
use ff_time::Rational;

/// What the parameters so far say.
#[derive(Clone, Copy, PartialEq, Eq, Debug)]
pub struct Parameters {
    /// Columns, by `W`.
    pub width: Option<u32>,
    /// Rows, by `H`.
    pub height: Option<u32>,
    /// The time base, one over the frames a second, by `F`.
    pub base: Option<Rational>,
    /// The width of a sample, by `A`.
    pub sar_num: u32,
    /// Its height, by `A`.
    pub sar_den: u32,
    /// The pixel format, by `C`.
    pub format: Format,
}

fn side(at: u64, value: &[u8]) -> Result<u32, HeadFault>
    ensures value { result ≡ side_in at (whole_number value.now) }
    ensures side { IfOk result IsSide }
{
    let Some(n) = whole(value) else {
        return Err(HeadFault::Damaged { offset: at });
    };
    if n >= 1 && n <= 16384 {
        Ok(n as u32)
    } else {
        Err(HeadFault::Unsupported { offset: at })
    }
}

fn base(at: u64, value: &[u8]) -> Result<Rational, HeadFault>
    ensures { result ≡ base_in at (pair_of value.now) }
{
    let Some((num, den)) = pair(value) else {
        return Err(HeadFault::Damaged { offset: at });
    };
    match time_base(den, num) {
        Some(base) => Ok(base),
        None => Err(HeadFault::Unsupported { offset: at }),
    }
}

fn aspect(at: u64, value: &[u8]) -> Result<(u32, u32), HeadFault>
    ensures { result ≡ aspect_in at (pair_of value.now) }
{
    let Some((num, den)) = pair(value) else {
        return Err(HeadFault::Damaged { offset: at });
    };
    if num < 1 << 32 && den < 1 << 32 {
        if num == 0 || den == 0 {
            return Ok((0, 0));
        }
        return Ok((num as u32, den as u32));
    }
    Err(HeadFault::Unsupported { offset: at })
}

#[tactic(auto, unfolding(crate::specs::Parameters::is_progressive))]
fn has_no_fields(value: &[u8]) -> bool
    ensures { result ≡ is_progressive value.now }
{
    value == b"p".as_slice() || value == b"?".as_slice()
}

#[tactic(auto, unfolding(crate::specs::Parameters::format_of))]
fn format(value: &[u8]) -> Option<Format>
    ensures { result ≡ format_of value.now }
{
    if value == b"420".as_slice()
        || value == b"420jpeg".as_slice()
        || value == b"420mpeg2".as_slice()
        || value == b"420paldv".as_slice()
    {
        return Some(Format::C420);
    }
    if value == b"422".as_slice() {
        return Some(Format::C422);
    }
    if value == b"444".as_slice() {
        return Some(Format::C444);
    }
    if value == b"mono".as_slice() {
        return Some(Format::Mono);
    }
    None
}

fn set_width(so_far: Parameters, at: u64, value: &[u8]) -> Result<Parameters, HeadFault>
    ensures value { result ≡ with_width so_far (side_in at (whole_number value.now)) }
    ensures sane { AreSane so_far → IfOk result AreSane }
{
    let width = Some(side(at, value)?);
    Ok(Parameters { width, ..so_far })
}

fn set_height(so_far: Parameters, at: u64, value: &[u8]) -> Result<Parameters, HeadFault>
    ensures value { result ≡ with_height so_far (side_in at (whole_number value.now)) }
    ensures sane { AreSane so_far → IfOk result AreSane }
{
    let height = Some(side(at, value)?);
    Ok(Parameters { height, ..so_far })
}

fn set_base(so_far: Parameters, at: u64, value: &[u8]) -> Result<Parameters, HeadFault>
    ensures value { result ≡ with_base so_far (base_in at (pair_of value.now)) }
    ensures sane { AreSane so_far → IfOk result AreSane }
{
    let base = Some(base(at, value)?);
    Ok(Parameters { base, ..so_far })
}

fn set_aspect(so_far: Parameters, at: u64, value: &[u8]) -> Result<Parameters, HeadFault>
    ensures value { result ≡ with_aspect so_far (aspect_in at (pair_of value.now)) }
    ensures sane { AreSane so_far → IfOk result AreSane }
{
    let (sar_num, sar_den) = aspect(at, value)?;
    Ok(Parameters {
        sar_num,
        sar_den,
        ..so_far
    })
}

fn set_format(so_far: Parameters, at: u64, value: &[u8]) -> Result<Parameters, HeadFault>
    ensures value { result ≡ with_format at so_far (format_of value.now) }
    ensures sane { AreSane so_far → IfOk result AreSane }
{
    match format(value) {
        Some(format) => Ok(Parameters { format, ..so_far }),
        None => Err(HeadFault::Unsupported { offset: at }),
    }
}

/// The parameters with one more, of this letter and value, which lies at this offset.
#[tactic(auto, unfolding(crate::specs::Parameters::lettered))]
pub(crate) fn with_parameter(
    so_far: Parameters,
    at: u64,
    letter: u8,
    value: &[u8],
) -> Result<Parameters, HeadFault>
    ensures value { result ≡ lettered at letter value.now so_far }
    ensures sane { AreSane so_far → IfOk result AreSane }
{
    match letter {
        b'W' => set_width(so_far, at, value),
        b'H' => set_height(so_far, at, value),
        b'F' => set_base(so_far, at, value),
        b'A' => set_aspect(so_far, at, value),
        b'I' if has_no_fields(value) => Ok(so_far),
        b'I' => Err(HeadFault::Unsupported { offset: at }),
        b'C' => set_format(so_far, at, value),
        _ => Ok(so_far),
    }
}
