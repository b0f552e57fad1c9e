//! Calls of the framehash writer: the lines before those of the packets, and the line of a packet.
use crate::heads::codec_named;
use crate::told::Told;
use crate::words::Call;
use ff_frame::{Bytes, Format, HashKind, Pkt, StreamHead};
use ff_mux::HashPut;

/// More streams than any row has.
const MANY: usize = 16;

/// The digest that the argument at this place names.
pub fn kind_at(call: &mut Call, at: usize) -> HashKind {
    match call.text(at) {
        "sha256" => HashKind::Sha256,
        "md5" => HashKind::Md5,
        _ => {
            call.misread();
            HashKind::Sha256
        }
    }
}

// `RATE CHANNELS CODEC` from this place on.
fn sound_head(call: &mut Call, at: usize) -> Option<StreamHead> {
    let (rate, channels) = (call.wide(at), call.small(at.saturating_add(1)));
    let codec = codec_named(call.text(at.saturating_add(2)));
    let codec = call.read(codec)?;
    let tb = call.base_of(1, i64::from(rate))?;
    Some(StreamHead::Audio {
        tb,
        rate,
        bits: 8,
        channels,
        codec,
    })
}

// `RATE WIDTH HEIGHT SAR_NUM SAR_DEN` from this place on.
fn picture_head(call: &mut Call, at: usize) -> Option<StreamHead> {
    let rate = call.wide(at);
    let (width, height) = (
        call.wide(at.saturating_add(1)),
        call.wide(at.saturating_add(2)),
    );
    let (sar_num, sar_den) = (
        call.wide(at.saturating_add(3)),
        call.wide(at.saturating_add(4)),
    );
    let tb = call.base_of(1, i64::from(rate))?;
    Some(StreamHead::Video {
        tb,
        format: Format::Mono,
        width,
        height,
        sar_num,
        sar_den,
    })
}

// Notes where there are more or fewer arguments.
fn want(call: &mut Call, count: usize) {
    if call.len() != count {
        call.misread();
    }
}

fn tell_first(call: &mut Call, told: &mut Told, kind: HashKind, heads: &[Option<StreamHead>]) {
    let mut all = Vec::new(call.alloc);
    for head in heads {
        if let Some(head) = head {
            call.note(all.push(*head));
        }
    }
    if all.len() > MANY {
        return call.misread();
    }
    told.made_text(HashPut::new(call.alloc, kind, all).first());
}

/// The lines before those of the packets of an audio stream: `RATE CHANNELS CODEC`.
pub fn sound(call: &mut Call, told: &mut Told) {
    want(call, 3);
    let head = sound_head(call, 0);
    tell_first(call, told, HashKind::Sha256, &[head]);
}

/// The lines before those of the packets of a video stream: `RATE WIDTH HEIGHT SAR_NUM SAR_DEN`.
pub fn pictures(call: &mut Call, told: &mut Told) {
    want(call, 5);
    let head = picture_head(call, 0);
    tell_first(call, told, HashKind::Sha256, &[head]);
}

/// The lines before those of the packets of a video stream and an audio stream:
/// `sha256|md5 RATE WIDTH HEIGHT SAR_NUM SAR_DEN RATE CHANNELS CODEC`.
pub fn both(call: &mut Call, told: &mut Told) {
    want(call, 9);
    let kind = kind_at(call, 0);
    let heads = [picture_head(call, 1), sound_head(call, 6)];
    tell_first(call, told, kind, &heads);
}

/// The line of a packet: `sha256|md5 STREAM DTS PTS DURATION HEX`.
pub fn line(call: &mut Call, told: &mut Told) {
    want(call, 6);
    let (kind, stream) = (kind_at(call, 0), call.wide(1));
    let hex = call.text(5);
    let packet = Pkt {
        dts: call.signed(2),
        pts: call.signed(3),
        duration: call.signed(4),
        pos: 7,
        bytes: Bytes::new(call.hex(hex)),
    };
    let put = HashPut::new(call.alloc, kind, Vec::new(call.alloc));
    told.made_text(put.line(stream, &packet));
}
