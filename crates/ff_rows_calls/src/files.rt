//! Calls of the writers of the formats, on files of packets.
ghost use Rattle.std.specs.Prelude.{IfSome};
ghost use Rattle.ff_mux.specs.FlacHead.{CanHold};

use crate::framehash::kind_at;
use crate::table::Stop;
use crate::told::Told;
use crate::wav::head_of;
use crate::words::Call;
use ff_format::{Rf64, Writer};
use ff_frame::{Bytes, Codec, Format, Pkt, StreamHead, Totals};
use ff_mux::{AnyWriter, FlacWriter, HashWriter};
use ff_wav::WavPut;
use ff_y4m::Y4mWriter;

// The packet of this number, a tick long, of the bytes that the argument at this place says.
fn packet(call: &mut Call, at: usize, number: i64) -> Pkt {
    Pkt {
        pts: number,
        dts: number,
        duration: 1,
        pos: 0,
        bytes: Bytes::new(call.bytes(at)),
    }
}

// Tells what is written of a packet.
fn tell_packet(call: &mut Call, told: &mut Told, writer: &mut AnyWriter, packet: Pkt) {
    if writer.add(0, &packet).is_err() {
        return call.misread();
    }
    told.made_hex(writer.text(0, packet));
}

// Tells what is written of the packets of the arguments from a place on.
fn tell_packets(call: &mut Call, told: &mut Told, writer: &mut AnyWriter, from: usize) {
    let mut number = 0;
    for at in from..call.len() {
        let packet = packet(call, at, number);
        tell_packet(call, told, writer, packet);
        number = number.saturating_add(1);
    }
}

// Tells the file as a whole, and after a blank what takes the place of bytes of it with these totals, and from which place on.
fn tell_file_with(
    call: &mut Call,
    told: &mut Told,
    from: usize,
    writer: AnyWriter,
    totals: Option<Totals>,
) {
    let mut writer = writer;
    told.made_hex(writer.first());
    tell_packets(call, told, &mut writer, from);
    told.made_hex(writer.tail(call.alloc));
    match writer.last(totals) {
        Ok(None) => {}
        Ok(Some(patch)) => {
            told.text(" ");
            told.count(patch.at);
            told.text(" ");
            told.hex(patch.bytes.as_slice());
        }
        Err(_) => told.fail(Stop::Broken),
    }
}

fn tell_file(call: &mut Call, told: &mut Told, from: usize, writer: AnyWriter) {
    tell_file_with(call, told, from, writer, None);
}

/// `wav_file CODEC CHANNELS PACKET..`: the WAV of these packets, at 44,100 sample frames a second.
pub fn wav(call: &mut Call, told: &mut Told) {
    let Some(head) = head_of(call) else {
        return call.misread();
    };
    let writer = AnyWriter::Wav(WavPut::new(call.alloc, &head, Rf64::Never));
    tell_file(call, told, 2, writer);
}

// The head of `RATE BITS CHANNELS`.
fn flac_head(call: &mut Call) -> Option<StreamHead>
    ensures { IfSome result CanHold }
{
    let (rate, bits, channels) = (call.up_to(0, 1048575), call.up_to(1, 24), call.up_to(2, 8));
    let tb = call.base_of(1, rate as i64)?;
    if bits < 4 || channels < 1 {
        call.misread();
        return None;
    }
    Some(StreamHead::Audio {
        tb,
        rate: rate as u32,
        bits: bits as u8,
        channels: channels as u8,
        codec: Codec::Flac,
    })
}

fn digest_at(call: &mut Call, at: usize) -> [u8; 16] {
    let bytes = call.bytes(at);
    let mut digest = [0; 16];
    if bytes.len() != 16 {
        call.misread();
        return digest;
    }
    digest.copy_from_slice(bytes.as_slice());
    digest
}

/// `flac_file RATE BITS CHANNELS PACKET..`: the FLAC of these packets, of whose stream no totals were told.
pub fn flac(call: &mut Call, told: &mut Told) {
    if let Some(head) = flac_head(call) {
        let writer = AnyWriter::Flac(FlacWriter::new(call.alloc, head));
        tell_file(call, told, 3, writer);
    }
}

/// `flac_file_told RATE BITS CHANNELS LEAST GREATEST SAMPLES MD5 PACKET..`: the same, of whose stream these totals were told.
pub fn flac_told(call: &mut Call, told: &mut Told) {
    let totals = Totals {
        min_frame: call.wide(3),
        max_frame: call.wide(4),
        samples: call.number(5),
        md5: digest_at(call, 6),
    };
    if let Some(head) = flac_head(call) {
        let writer = AnyWriter::Flac(FlacWriter::new(call.alloc, head));
        tell_file_with(call, told, 7, writer, Some(totals));
    }
}

/// `y4m_file PACKET..`: the YUV4MPEG2 of these packets, of 2 columns and 1 row of Y alone, 25 frames a second.
pub fn y4m(call: &mut Call, told: &mut Told) {
    let Some(tb) = call.base_of(1, 25) else {
        return;
    };
    let head = StreamHead::Video {
        tb,
        format: Format::Mono,
        width: 2,
        height: 1,
        sar_num: 0,
        sar_den: 0,
    };
    let writer = AnyWriter::Y4m(Y4mWriter::new(call.alloc, head));
    tell_file(call, told, 0, writer);
}

/// `hash_file CODEC CHANNELS sha256|md5 PACKET..`: the framehash of these packets, at 44,100 sample frames a second.
pub fn hashes(call: &mut Call, told: &mut Told) {
    let kind = kind_at(call, 2);
    let Some(head) = head_of(call) else {
        return call.misread();
    };
    let mut heads = Vec::new(call.alloc);
    if !call.note(heads.push(head)) {
        return;
    }
    let writer = AnyWriter::Hash(HashWriter::new(call.alloc, kind, heads));
    tell_file(call, told, 3, writer);
}
