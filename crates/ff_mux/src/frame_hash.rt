//! The lines of a framehash file, in the pieces in which they are written.
ghost use Rattle.std.specs.Prelude.{◌≡◌, ℕ, ◌<◌, ◌^◌, ◌++◌, IfOk, OnOk, decimal, length, string_bytes};
ghost use Rattle.std.specs.Fmt.{signed_decimal};
ghost use Rattle.ff_mux.specs.FrameHash.{base_name, layout_name, size_name, aspect_name, about, stream_lines, column};
ghost use Rattle.ff_mux.specs.HashTexts.{digest_by, first_by, streams_from, text_before, fields, line_by};

use crate::digest::digest_text;
use ff_frame::{Codec, Format, HashKind, Pkt, StreamHead};
use ff_time::Rational;
use std::alloc::{AllocError, Global};

/// The line after those on the streams, over the columns of the packets.
const COLUMNS: &[u8] = b"#stream#, dts,        pts, duration,     size, hash\n";

/// The length of a packet's line, where its numbers keep to their columns.
const LINE_LEN: usize = 114;

// The lines before those on the streams.
#[tactic(auto, unfolding(crate::specs::HashTexts::first_by))]
fn first_lines(kind: HashKind) -> &'static [u8]
    ensures { result.now ≡ first_by kind }
{
    match kind {
        HashKind::Sha256 => b"#format: frame checksums\n#version: 2\n#hash: SHA256\n",
        HashKind::Md5 => b"#format: frame checksums\n#version: 2\n#hash: MD5\n",
    }
}

fn name_of_layout(alloc: Global, channels: u8) -> Result<String, AllocError>
    ensures { IfOk result (λ name. string_bytes name ≡ layout_name channels) }
{
    match channels {
        1 => String::from_str(alloc, "mono"),
        2 => String::from_str(alloc, "stereo"),
        _ => format!(in alloc; "{channels} channels"),
    }
}

fn name_of_fraction(alloc: Global, num: u64, den: u64) -> Result<String, AllocError>
    ensures { IfOk result (λ name. string_bytes name ≡ base_name (record { num = num; den = den })) }
{
    format!(in alloc; "{num}/{den}")
}

fn name_of_base(alloc: Global, base: Rational) -> Result<String, AllocError>
    ensures { IfOk result (λ name. string_bytes name ≡ base_name base) }
{
    let num = base.num().unsigned_abs();
    let den = base.den().unsigned_abs();
    name_of_fraction(alloc, num, den)
}

// Adds the line that a stream has this value of a property.
#[tactic(auto, unfolding(crate::specs::FrameHash::about))]
fn push_about(
    alloc: Global,
    out: &mut Vec<u8>,
    property: &str,
    stream: u32,
    value: &str,
) -> Result<(), AllocError>
    ensures { OnOk result (out.new.items ≡ out.old.items ++ about property.now stream value.now) }
{
    let line = format!(in alloc; "#{property} {stream}: {value}\n")?;
    out.extend_from_slice(line.as_bytes())
}

// Adds the lines on an audio stream.
fn push_audio(
    alloc: Global,
    out: &mut Vec<u8>,
    stream: u32,
    tb: Rational,
    rate: u32,
    channels: u8,
    codec: Codec,
) -> Result<(), AllocError>
    ensures { (bits : ℕ) → OnOk result (out.new.items ≡ out.old.items ++ stream_lines stream (StreamHead.Audio tb rate bits channels codec)) }
{
    let base = name_of_base(alloc, tb)?;
    let rate = rate.to_string(alloc)?;
    let layout = name_of_layout(alloc, channels)?;
    push_about(alloc, out, "tb", stream, base.as_str())?;
    push_about(alloc, out, "media_type", stream, "audio")?;
    push_about(alloc, out, "codec_id", stream, codec.name())?;
    push_about(alloc, out, "sample_rate", stream, rate.as_str())?;
    push_about(alloc, out, "channel_layout_name", stream, layout.as_str())?;
    Ok(())
}

fn name_of_size(alloc: Global, width: u32, height: u32) -> Result<String, AllocError>
    ensures { IfOk result (λ name. string_bytes name ≡ size_name width height) }
{
    format!(in alloc; "{width}x{height}")
}

fn name_of_aspect(alloc: Global, num: u32, den: u32) -> Result<String, AllocError>
    ensures { IfOk result (λ name. string_bytes name ≡ aspect_name num den) }
{
    if num == 0 && den == 0 {
        return String::from_str(alloc, "0/1");
    }
    name_of_fraction(alloc, u64::from(num), u64::from(den))
}

// Adds the lines on a video stream.
fn push_video(
    alloc: Global,
    out: &mut Vec<u8>,
    stream: u32,
    tb: Rational,
    width: u32,
    height: u32,
    sar_num: u32,
    sar_den: u32,
) -> Result<(), AllocError>
    ensures { (format : Format) → OnOk result (out.new.items ≡ out.old.items ++ stream_lines stream (StreamHead.Video tb format width height sar_num sar_den)) }
{
    let base = name_of_base(alloc, tb)?;
    let size = name_of_size(alloc, width, height)?;
    let aspect = name_of_aspect(alloc, sar_num, sar_den)?;
    push_about(alloc, out, "tb", stream, base.as_str())?;
    push_about(alloc, out, "media_type", stream, "video")?;
    push_about(alloc, out, "codec_id", stream, "rawvideo")?;
    push_about(alloc, out, "dimensions", stream, size.as_str())?;
    push_about(alloc, out, "sar", stream, aspect.as_str())?;
    Ok(())
}

// Adds the lines on a stream.
fn push_stream(
    alloc: Global,
    out: &mut Vec<u8>,
    stream: u32,
    head: &StreamHead,
) -> Result<(), AllocError>
    ensures { OnOk result (out.new.items ≡ out.old.items ++ stream_lines stream head.now) }
{
    match *head {
        StreamHead::Audio {
            tb,
            rate,
            channels,
            codec,
            ..
        } => push_audio(alloc, out, stream, tb, rate, channels, codec),
        StreamHead::Video {
            tb,
            width,
            height,
            sar_num,
            sar_den,
            ..
        } => push_video(alloc, out, stream, tb, width, height, sar_num, sar_den),
    }
}

// Adds the lines on these streams.
pub(crate) fn push_streams(
    alloc: Global,
    out: &mut Vec<u8>,
    heads: &[StreamHead],
) -> Result<(), AllocError>
    requires { length heads.now < 2 ^ 32 }
    ensures { OnOk result (out.new.items ≡ out.old.items ++ streams_from 0 heads.now) }
{
    'streams: for i in 0..heads.len() {
        push_stream(alloc, out, i as u32, &heads[i])?;
    }
    Ok(())
}

/// The lines before those of the packets, of a file with these streams. They tell which digest stands for the bytes
/// of a packet, and what is known of each stream.
#[tactic(auto, unfolding(crate::specs::HashTexts::text_before, crate::specs::FrameHash::columns))]
pub(crate) fn hash_header(
    alloc: Global,
    kind: HashKind,
    heads: &[StreamHead],
) -> Result<Vec<u8>, AllocError>
    requires { length heads.now < 2 ^ 32 }
    ensures { IfOk result (λ text. text.items ≡ text_before kind heads.now) }
{
    let mut text = Vec::from_slice(alloc, first_lines(kind))?;
    push_streams(alloc, &mut text, heads)?;
    text.extend_from_slice(COLUMNS)?;
    Ok(text)
}

// Adds a string at the right of a further column of a packet's line.
#[tactic(auto, unfolding(crate::specs::FrameHash::column))]
fn push_column(
    alloc: Global,
    line: &mut Vec<u8>,
    width: usize,
    text: &str,
) -> Result<(), AllocError>
    ensures { OnOk result (line.new.items ≡ line.old.items ++ column width text.now) }
{
    let blanks = vec![in alloc; b' '; width.saturating_sub(text.len())]?;
    line.extend_from_slice(b", ")?;
    line.extend_from_slice(&blanks)?;
    line.extend_from_slice(text.as_bytes())
}

// Adds a column with a time or a duration, which may be negative.
fn push_ticks(alloc: Global, line: &mut Vec<u8>, width: usize, ticks: i64) -> Result<(), AllocError>
    ensures { OnOk result (line.new.items ≡ line.old.items ++ column width (signed_decimal ticks)) }
{
    let text = ticks.to_string(alloc)?;
    push_column(alloc, line, width, text.as_str())
}

// Adds a column with a number of bytes.
fn push_size(alloc: Global, line: &mut Vec<u8>, width: usize, size: usize) -> Result<(), AllocError>
    ensures { OnOk result (line.new.items ≡ line.old.items ++ column width (decimal size)) }
{
    let text = size.to_string(alloc)?;
    push_column(alloc, line, width, text.as_str())
}

// Adds the number of a stream.
fn push_number(alloc: Global, line: &mut Vec<u8>, number: u32) -> Result<(), AllocError>
    ensures { OnOk result (line.new.items ≡ line.old.items ++ decimal number) }
{
    let text = number.to_string(alloc)?;
    line.extend_from_slice(text.as_bytes())
}

// Adds the digest of some bytes.
fn push_digest(
    alloc: Global,
    line: &mut Vec<u8>,
    kind: HashKind,
    bytes: &[u8],
) -> Result<(), AllocError>
    ensures { OnOk result (line.new.items ≡ line.old.items ++ digest_by kind bytes.now) }
{
    let digest = digest_text(alloc, kind, bytes)?;
    line.extend_from_slice(digest.as_bytes())
}

/// Adds what stands before the digest in the line of a packet of a stream: its times, duration and size, each of them
/// right in its column.
pub(crate) fn push_fields(
    alloc: Global,
    line: &mut Vec<u8>,
    stream: u32,
    pkt: &Pkt,
) -> Result<(), AllocError>
    ensures { OnOk result (line.new.items ≡ line.old.items ++ fields stream pkt.now) }
{
    push_number(alloc, line, stream)?;
    push_ticks(alloc, line, 10, pkt.dts)?;
    push_ticks(alloc, line, 10, pkt.pts)?;
    push_ticks(alloc, line, 8, pkt.duration)?;
    push_size(alloc, line, 8, pkt.bytes.as_slice().len())?;
    Ok(())
}

/// The line of a packet of a stream. It has its times, duration and size, each of them right in its column, and the
/// digest of its bytes.
#[tactic(auto, unfolding(crate::specs::HashTexts::line_by))]
pub(crate) fn hash_line(
    alloc: Global,
    kind: HashKind,
    stream: u32,
    pkt: &Pkt,
) -> Result<Vec<u8>, AllocError>
    ensures { IfOk result (λ line. line.items ≡ line_by kind stream pkt.now) }
{
    let mut line = Vec::with_capacity(alloc, LINE_LEN)?;
    push_fields(alloc, &mut line, stream, pkt)?;
    line.extend_from_slice(b", ")?;
    push_digest(alloc, &mut line, kind, pkt.bytes.as_slice())?;
    line.push(b'\n')?;
    Ok(line)
}
