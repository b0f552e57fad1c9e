//! The list of one stream: its header `strh` and its format `strf` (AVISTREAMHEADER, BITMAPINFOHEADER, WAVEFORMATEX).
ghost use Rattle.std.specs.Prelude.{◌≡◌, ◌+◌, ◌≤◌, ◌<◌, ◌^◌, length, Ok};
ghost use Rattle.ff_wav.specs.Chunks.{number_32};
ghost use Rattle.std.specs.Str.{bytes_eq};
ghost use Rattle.ff_avi.specs.Streams.{padded as padded_len, word as word_at, is_pictures, is_sound, base_in, header_of};
ghost use Rattle.ff_avi.specs.Streams.{pictures_of, pictures_in, told_by, format_in, behind_header, stream_in};

use crate::head::AviState;
use crate::kind::StreamKind;
use ff_frame::{Format, StreamHead, is_side};
use ff_lists::from_place;
use ff_reader::{HeadFault, Step};
use ff_time::Rational;
use ff_wav::{ChunkStep, at_32, format_chunk_at, has_id};
use ff_y4m::time_base;

/// A stream, or the fault for which there is none; None: more bytes are wanted.
pub(crate) type Told = Option<Result<StreamHead, HeadFault>>;

/// A size with its pad byte.
pub(crate) fn padded(size: u32) -> u64
    ensures { result ≡ padded_len size }
{
    size as u64 + size as u64 % 2
}

/// Whether four bytes stand at a place.
pub(crate) fn has_word(bytes: &[u8], place: usize, word: &[u8]) -> bool
    requires { place + 4 ≤ length bytes.now }
    ensures { result ≡ bytes_eq (word_at place bytes.now) word.now }
{
    has_id(from_place(bytes, place), word)
}

// Whether a stream of pictures is known, and one of sound.
fn kinds_in(stream: Option<StreamHead>) -> (bool, bool)
    ensures pictures { result.0 ≡ is_pictures stream }
    ensures sound { result.1 ≡ is_sound stream }
{
    match stream {
        None => (false, false),
        Some(StreamHead::Audio { .. }) => (false, true),
        Some(StreamHead::Video { .. }) => (true, false),
    }
}

// The time base of pictures.
fn base(at: u64, scale: u32, rate: u32) -> Result<Rational, HeadFault>
    requires { at < 2 ^ 32 }
    ensures { result ≡ base_in at scale rate }
{
    if scale == 0 {
        return Err(HeadFault::Unsupported { offset: at + 40 });
    }
    if rate == 0 {
        return Err(HeadFault::Unsupported { offset: at + 44 });
    }
    match time_base(scale as u64, rate as u64) {
        Some(base) => Ok(base),
        // Numbers of 32 bits with a divisor above 1 are below 2^31 in lowest terms.
        None if scale >= 1 << 31 => Err(HeadFault::Unsupported { offset: at + 40 }),
        None => Err(HeadFault::Unsupported { offset: at + 44 }),
    }
}

// What the header says of a list whose first 76 bytes are there.
#[tactic(auto, unfolding(crate::specs::Streams::header_of))]
fn header(known: &AviState, at: u64, bytes: &[u8]) -> Result<StreamKind, HeadFault>
    requires place { at < 2 ^ 32 }
    requires there { 76 ≤ length bytes.now }
    ensures { result ≡ header_of known.now at bytes.now }
{
    let first = kinds_in(known.first);
    let second = kinds_in(known.second);
    if has_word(bytes, 20, b"vids") && !(first.0 || second.0) {
        return match base(at, at_32(bytes, 40), at_32(bytes, 44)) {
            Ok(base) => Ok(StreamKind::Video(base)),
            Err(fault) => Err(fault),
        };
    }
    if has_word(bytes, 20, b"auds") && !(first.1 || second.1) {
        return Ok(StreamKind::Audio);
    }
    Err(HeadFault::Unsupported { offset: at + 20 })
}

// The stream of pictures by the fields of its format.
#[tactic(auto, unfolding(crate::specs::Streams::pictures_of))]
fn pictures(at: u64, tb: Rational, bytes: &[u8]) -> Result<StreamHead, HeadFault>
    requires place { at < 2 ^ 33 }
    requires there { 48 ≤ length bytes.now }
    ensures { result ≡ pictures_of at tb (number_32 12 bytes.now) (number_32 16 bytes.now) (word_at 24 bytes.now) }
{
    let width = at_32(bytes, 12);
    let height = at_32(bytes, 16);
    if !is_side(width as u64) {
        return Err(HeadFault::Unsupported { offset: at + 12 });
    }
    if !is_side(height as u64) {
        return Err(HeadFault::Unsupported { offset: at + 16 });
    }
    if !(has_word(bytes, 24, b"I420") || has_word(bytes, 24, b"IYUV")) {
        return Err(HeadFault::Unsupported { offset: at + 24 });
    }
    Ok(StreamHead::Video {
        tb,
        format: Format::C420,
        width,
        height,
        sar_num: 0,
        sar_den: 0,
    })
}

// What the format of pictures says that begins the bytes.
#[tactic(auto, unfolding(crate::specs::Streams::pictures_in))]
fn video_format(at: u64, tb: Rational, bytes: &[u8]) -> Told
    requires place { at < 2 ^ 33 }
    requires there { 8 ≤ length bytes.now }
    ensures { result ≡ pictures_in at tb bytes.now }
{
    if at_32(bytes, 4) < 40 {
        return Some(Err(HeadFault::Damaged { offset: at }));
    }
    if bytes.len() < 48 {
        return None;
    }
    Some(pictures(at, tb, bytes))
}

// What a WAV's `fmt ` chunk of these bytes tells of its stream.
fn told(step: ChunkStep) -> Told
    ensures { result ≡ told_by step }
{
    match step {
        Step::Wait => None,
        Step::Decide(Ok(found)) => Some(Ok(found.head)),
        Step::Decide(Err(fault)) => Some(Err(fault)),
        Step::Skip(_, None) => None,
        Step::Skip(_, Some(head)) => Some(Ok(head)),
    }
}

// What the format says that begins the bytes.
fn format(at: u64, kind: StreamKind, bytes: &[u8]) -> Told
    requires place { at < 2 ^ 33 }
    requires there { 8 ≤ length bytes.now }
    ensures { result ≡ format_in at kind bytes.now }
{
    match kind {
        StreamKind::Video(tb) => video_format(at, tb, bytes),
        StreamKind::Audio => told(format_chunk_at(None, at, bytes)),
    }
}

// What the list says behind its header.
fn after_header(at: u64, place: u64, kind: StreamKind, bytes: &[u8]) -> Told
    requires offset { at < 2 ^ 32 }
    requires place { place < 2 ^ 33 }
    requires there { 8 ≤ length bytes.now }
    ensures { result ≡ behind_header at place (Ok kind) bytes.now }
{
    if (at_32(bytes, 4) as u64) < place {
        return Some(Err(HeadFault::Damaged { offset: at }));
    }
    if (bytes.len() as u64) < place + 8 {
        return None;
    }
    if !has_word(bytes, place as usize, b"strf") {
        return Some(Err(HeadFault::Damaged { offset: at }));
    }
    format(at + place, kind, from_place(bytes, place as usize))
}

/// What the list of a stream says that begins the bytes. Its type is there.
#[tactic(auto, unfolding(crate::specs::Streams::stream_in))]
pub(crate) fn stream(known: &AviState, at: u64, bytes: &[u8]) -> Told
    requires place { at < 2 ^ 32 }
    requires there { 12 ≤ length bytes.now }
    ensures { result ≡ stream_in known.now at bytes.now }
{
    if at_32(bytes, 4) < 12 {
        return Some(Err(HeadFault::Damaged { offset: at }));
    }
    if bytes.len() < 20 {
        return None;
    }
    if !has_word(bytes, 12, b"strh") || at_32(bytes, 16) < 56 {
        return Some(Err(HeadFault::Damaged { offset: at }));
    }
    if bytes.len() < 76 {
        return None;
    }
    match header(known, at, bytes) {
        Ok(kind) => after_header(at, 20 + padded(at_32(bytes, 16)), kind, bytes),
        Err(fault) => Some(Err(fault)),
    }
}
