//! Calls that cut inputs into packets.
ghost use Rattle.std.specs.Prelude.{◌≤◌, IfSome};

use crate::cutter::Cutter;
use crate::runs::Runs;
use crate::table::Stop;
use crate::told::Told;
use crate::words::Call;
use ff_flac_dec::FlacCut;
use ff_frame::{Cut, Pkt};
use ff_lists::front;
use ff_reader::PacketCut;
use ff_wav::WavCut;
use ff_y4m::Y4mCut;
use std::alloc::Global;

/// How an input is fed.
#[derive(Clone, Copy, PartialEq, Eq)]
enum Way {
    /// Packets are taken after each piece, and when the input ended.
    Soon,
    /// Packets are taken when the input ended.
    Late,
    /// Packets are taken after each piece, and the input goes on.
    Open,
}

// The packets that an input gave, what came after them and then again, and how many bytes are held.
#[derive(Drop)]
struct Given {
    packets: Vec<Pkt>,
    last: Cut,
    again: Cut,
    held: u64,
}

// Takes the packets there are, and answers what came after them.
fn drain<C: PacketCut + Drop>(
    cut: Cutter<C>,
    packets: &mut Vec<Pkt>,
) -> Result<(Cutter<C>, Cut), Stop> {
    let mut cut = cut;
    for _ in 0..10_000 {
        let (next, answer) = cut.pull()?;
        cut = next;
        match answer {
            Cut::Pkt(packet) => packets.push(packet)?,
            other => return Ok((cut, other)),
        }
    }
    Err(Stop::Unreadable)
}

// Feeds a cut in pieces of this size, and takes the packets into `packets`.
fn feed_all<C: PacketCut + Drop>(
    cut: Cutter<C>,
    bytes: &[u8],
    way: Way,
    piece: usize,
    packets: &mut Vec<Pkt>,
) -> Result<Cutter<C>, Stop>
    requires { 1 ≤ piece }
{
    let mut cut = cut;
    for part in bytes.chunks(piece) {
        cut = cut.feed(part)?;
        if way != Way::Late {
            let (next, _) = drain(cut, packets)?;
            cut = next;
        }
    }
    if way == Way::Open { Ok(cut) } else { cut.end() }
}

// What an input with this head gave that was fed so.
fn take_all<C: PacketCut + Drop>(
    alloc: Global,
    head: &C::Head,
    bytes: &[u8],
    way: Way,
    piece: usize,
) -> Result<Given, Stop>
    requires some { 1 ≤ piece }
    requires head { C.is.IsHead head.now }
{
    let mut packets = Vec::new(alloc);
    let (cut, body) = Cutter::<C>::new(alloc, head, bytes)?;
    let cut = feed_all(cut, body, way, piece, &mut packets)?;
    let (cut, last) = drain(cut, &mut packets)?;
    let held = cut.held();
    let (_, again) = cut.pull()?;
    Ok(Given {
        packets,
        last,
        again,
        held,
    })
}

// A format whose packets are cut.
#[derive(Clone, Copy)]
enum Format {
    Wav,
    Y4m,
    Flac,
}

// How an input is cut: by which format, and how it is fed.
#[derive(Clone, Copy)]
struct Manner {
    format: Format,
    way: Way,
}

// The packets of an input of this format that is fed so.
fn given_by(alloc: Global, manner: Manner, bytes: &[u8], piece: usize) -> Result<Given, Stop>
    requires { 1 ≤ piece }
{
    match manner.format {
        Format::Wav => match ff_wav::read_head(bytes, true) {
            Ok(head) => take_all::<WavCut>(alloc, &head, bytes, manner.way, piece),
            Err(_) => Err(Stop::Unreadable),
        },
        Format::Y4m => match ff_y4m::read_head(bytes, true) {
            Ok(head) => take_all::<Y4mCut>(alloc, &head, bytes, manner.way, piece),
            Err(_) => Err(Stop::Unreadable),
        },
        Format::Flac => match ff_flac_dec::read_head(bytes, true) {
            Ok(head) => take_all::<FlacCut>(alloc, &head, bytes, manner.way, piece),
            Err(_) => Err(Stop::Unreadable),
        },
    }
}

fn tell_packet(told: &mut Told, packet: &Pkt) {
    told.text("packet ");
    told.count(packet.pos);
    for time in &[packet.pts, packet.dts, packet.duration] {
        told.text(" ");
        told.number(*time);
    }
    told.text(" ");
    told.count(packet.bytes.as_slice().len() as u64);
}

fn tell_cut(told: &mut Told, last: &Cut) {
    match last {
        Cut::Pkt(_) => told.text("more"),
        Cut::NotYet => told.text("not yet"),
        Cut::End => told.text("end"),
        Cut::Broken { offset } => {
            told.text("broken at ");
            told.count(*offset);
        }
    }
}

// Whether the two are told alike.
fn are_alike(last: &Cut, again: &Cut) -> bool {
    match (last, again) {
        (Cut::Pkt(_), Cut::Pkt(_)) | (Cut::NotYet, Cut::NotYet) | (Cut::End, Cut::End) => true,
        (Cut::Broken { offset }, Cut::Broken { offset: other }) => offset == other,
        _ => false,
    }
}

// Tells what came after the packets, what then came again where that differs, and what is held.
fn tell_end(told: &mut Told, given: &Given) {
    tell_cut(told, &given.last);
    if !are_alike(&given.last, &given.again) {
        told.text(", then ");
        tell_cut(told, &given.again);
    }
    told.text(", held ");
    told.count(given.held);
}

fn tell_given(told: &mut Told, given: &Given) {
    for packet in given.packets.as_slice() {
        tell_packet(told, packet);
        told.text(", ");
    }
    tell_end(told, given);
}

fn tell_bytes(told: &mut Told, given: &Given) {
    for packet in given.packets.as_slice() {
        told.hex(packet.bytes.as_slice());
        told.text(" ");
    }
    tell_end(told, given);
}

fn format_at(call: &mut Call, at: usize) -> Option<Format> {
    match call.text(at) {
        "wav" => Some(Format::Wav),
        "y4m" => Some(Format::Y4m),
        "flac" => Some(Format::Flac),
        _ => call.read(None),
    }
}

fn way_at(call: &mut Call, at: usize) -> Option<Way> {
    match call.text(at) {
        "soon" => Some(Way::Soon),
        "late" => Some(Way::Late),
        "open" => Some(Way::Open),
        _ => call.read(None),
    }
}

// `FORMAT soon|late|open`
fn manner_of(call: &mut Call) -> Option<Manner> {
    let (format, way) = (format_at(call, 0), way_at(call, 1));
    Some(Manner {
        format: format?,
        way: way?,
    })
}

fn size_at(call: &mut Call, at: usize) -> Option<usize>
    ensures { IfSome result (λ size. 1 ≤ size) }
{
    let size = call.up_to(at, 1_000_000);
    if size < 1 {
        call.misread();
        return None;
    }
    Some(size as usize)
}

// Tells the packets of an input that is fed so.
fn tell_input(alloc: Global, told: &mut Told, manner: Manner, bytes: &[u8], piece: usize)
    requires { 1 ≤ piece }
{
    match given_by(alloc, manner, bytes, piece) {
        Ok(given) => tell_given(told, &given),
        Err(stop) => told.fail(stop),
    }
}

/// `cut FORMAT soon|late|open PIECE BYTES`: the packets of an input that is fed in pieces of this size. Each is
/// `packet PLACE PTS DTS DURATION SIZE`. Then comes what comes after them, and how many bytes are held then. `soon`:
/// packets are taken after each piece; `late`: when the input ended; `open`: as `soon`, and the input doesn't end.
pub fn cut(call: &mut Call, told: &mut Told) {
    let bytes = call.bytes(3);
    if let (Some(manner), Some(piece)) = (manner_of(call), size_at(call, 2)) {
        tell_input(call.alloc, told, manner, bytes.as_slice(), piece);
    }
}

/// `packets FORMAT soon|late|open PIECE BYTES`: the bytes of the same packets.
pub fn packets(call: &mut Call, told: &mut Told) {
    let bytes = call.bytes(3);
    let (Some(manner), Some(piece)) = (manner_of(call), size_at(call, 2)) else {
        return;
    };
    match given_by(call.alloc, manner, bytes.as_slice(), piece) {
        Ok(given) => tell_bytes(told, &given),
        Err(stop) => told.fail(stop),
    }
}

/// `cut_pieces FORMAT soon|late|open MOST BYTES`: `cut` for pieces of each size from 1 to this.
pub fn cut_pieces(call: &mut Call, told: &mut Told) {
    let bytes = call.bytes(3);
    let (Some(manner), Some(most)) = (manner_of(call), size_at(call, 2)) else {
        return;
    };
    let mut runs = Runs::new();
    for piece in 1..=most {
        let mut one = Told::new(call.alloc);
        tell_input(call.alloc, &mut one, manner, bytes.as_slice(), piece);
        if !runs.add(told, piece, one) {
            return;
        }
    }
    runs.end(told);
}

/// `cut_fronts FORMAT soon|late|open PIECE FROM BYTES`: `cut` for each prefix of these bytes, from so many bytes to all.
pub fn cut_fronts(call: &mut Call, told: &mut Told) {
    let bytes = call.bytes(4);
    let (Some(manner), Some(piece), Some(from)) = (
        manner_of(call),
        size_at(call, 2),
        size_at(call, 3),
    ) else {
        return;
    };
    let mut runs = Runs::new();
    for length in from..=bytes.len() {
        let front = front(bytes.as_slice(), length);
        let mut one = Told::new(call.alloc);
        tell_input(call.alloc, &mut one, manner, front, piece);
        if !runs.add(told, length, one) {
            return;
        }
    }
    runs.end(told);
}
