//! Calls on raw video frames, and on the first line of YUV4MPEG2.
ghost use Rattle.std.specs.Prelude.{◌≤◌, IfSome};
ghost use Rattle.ff_frame.specs.Video.{IsVideo};

use crate::heads::name_of_format;
use crate::table::Stop;
use crate::told::Told;
use crate::words::Call;
use ff_frame::{Bytes, Format, Pkt, StreamHead, VFrame};
use ff_pcm::{raw_decode, raw_encode};
use ff_time::Rational;
use ff_y4m::y4m_header;

fn format_at(call: &mut Call, at: usize) -> Format {
    match call.text(at) {
        "420" => Format::C420,
        "422" => Format::C422,
        "444" => Format::C444,
        "mono" => Format::Mono,
        _ => {
            call.misread();
            Format::Mono
        }
    }
}

fn tell_frame(told: &mut Told, frame: &VFrame) {
    told.number(frame.pts);
    told.text(" ");
    told.number(frame.duration);
    told.texts(&[" ", name_of_format(frame.format), " "]);
    told.counts(" ", &[u64::from(frame.width), u64::from(frame.height)]);
    told.text(" ");
}

// Tells the planes of a frame as a packet's bytes, decoded, copied and encoded again.
fn tell_again(
    call: &Call,
    told: &mut Told,
    tb: Rational,
    format: Format,
    width: u32,
    height: u32,
    bytes: Vec<u8>,
)
    requires { IsVideo format width height bytes.items }
{
    let head = StreamHead::Video {
        tb,
        format,
        width,
        height,
        sar_num: 0,
        sar_den: 0,
    };
    let packet = Pkt {
        pts: 7,
        dts: 7,
        duration: 1,
        pos: 100,
        bytes: Bytes::new(bytes),
    };
    let Ok(frame) = raw_decode(call.alloc, &head, &packet) else {
        return told.fail(Stop::Broken);
    };
    let Ok(frame) = frame.try_copy(call.alloc) else {
        return told.fail(Stop::Broken);
    };
    tell_frame(told, &frame);
    told.made_hex(raw_encode(call.alloc, &frame));
}

// A number of columns or rows.
fn side_at(call: &mut Call, at: usize) -> Option<u32>
    ensures { IfSome result (λ side. (1 ≤ side) × (side ≤ 16384)) }
{
    let side = call.up_to(at, 16384);
    if side < 1 {
        call.misread();
        return None;
    }
    Some(side as u32)
}

/// `picture FORMAT WIDTH HEIGHT PLANES`: the frame of a packet of these planes, at time 7. It has its time, duration,
/// format, columns and rows, and the bytes of its packet again.
pub fn picture(call: &mut Call, told: &mut Told) {
    let format = format_at(call, 0);
    let bytes = call.bytes(3);
    let (Some(width), Some(height), Some(tb)) = (
        side_at(call, 1),
        side_at(call, 2),
        call.base_of(1, 25),
    ) else {
        return;
    };
    if bytes.len() != format.frame_size(width, height) {
        return told.text("out of range");
    }
    tell_again(call, told, tb, format, width, height, bytes);
}

/// `y4m_line BASE FORMAT WIDTH HEIGHT NUM DEN`: the line before the frames of a stream with this time base, format, sides
/// and aspect.
pub fn line(call: &mut Call, told: &mut Told) {
    let format = format_at(call, 1);
    let (width, height) = (call.wide(2), call.wide(3));
    let (sar_num, sar_den) = (call.wide(4), call.wide(5));
    let Some(tb) = call.base(0) else {
        return;
    };
    let head = StreamHead::Video {
        tb,
        format,
        width,
        height,
        sar_num,
        sar_den,
    };
    told.made_text(y4m_header(call.alloc, &head));
}
