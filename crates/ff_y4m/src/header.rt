//! The first line of a file that is written.
ghost use Rattle.std.specs.Prelude.{◌≡◌, ◌++◌, IfOk, OnOk, string_bytes};
ghost use Rattle.ff_y4m.specs.Header.{IsVideoHead, format_name, sides, ratio, header};

use ff_frame::{Format, StreamHead};
use std::alloc::{AllocError, Global};

fn name_of_format(format: Format) -> &'static str
    ensures { result.now ≡ format_name format }
{
    match format {
        Format::C420 => "420jpeg",
        Format::C422 => "422",
        Format::C444 => "444",
        Format::Mono => "mono",
    }
}

#[tactic(auto, unfolding(crate::specs::Header::sides))]
fn name_of_sides(alloc: Global, width: u32, height: u32) -> Result<String, AllocError>
    ensures { IfOk result (λ name. string_bytes name ≡ sides width height) }
{
    format!(in alloc; "YUV4MPEG2 W{width} H{height}")
}

fn add_sides(alloc: Global, out: &mut Vec<u8>, width: u32, height: u32) -> Result<(), AllocError>
    ensures { OnOk result (out.new.items ≡ out.old.items ++ sides width height) }
{
    let text = name_of_sides(alloc, width, height)?;
    out.extend_from_slice(text.as_bytes())
}

#[tactic(auto, unfolding(crate::specs::Header::ratio))]
fn add_ratio(
    alloc: Global,
    out: &mut Vec<u8>,
    letter: &str,
    num: u64,
    den: u64,
) -> Result<(), AllocError>
    ensures { OnOk result (out.new.items ≡ out.old.items ++ ratio letter.now num den) }
{
    let text = format!(in alloc; "{letter}{num}:{den}")?;
    out.extend_from_slice(text.as_bytes())
}

/// The first line of a file with this stream, which is video (yuv4mpeg(5), "Stream Header"). It has columns and rows,
/// frames a second, the letter of frames without fields, the aspect of a sample as held, and the format.
pub fn y4m_header(alloc: Global, head: &StreamHead) -> Result<Vec<u8>, AllocError>
    requires { IsVideoHead head.now }
    ensures { IfOk result (λ bytes. bytes.items ≡ header head.now) }
{
    let StreamHead::Video {
        tb,
        format,
        width,
        height,
        sar_num,
        sar_den,
    } = *head
    else {
        unreachable!()
    };
    let mut out = Vec::new(alloc);
    add_sides(alloc, &mut out, width, height)?;
    add_ratio(
        alloc,
        &mut out,
        " F",
        tb.den().unsigned_abs(),
        tb.num().unsigned_abs(),
    )?;
    add_ratio(
        alloc,
        &mut out,
        " Ip A",
        u64::from(sar_num),
        u64::from(sar_den),
    )?;
    out.extend_from_slice(b" C")?;
    out.extend_from_slice(name_of_format(format).as_bytes())?;
    out.push(b'\n')?;
    Ok(out)
}
