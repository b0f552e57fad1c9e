//! The data behind a head, one unit at a time (AVI RIFF File Reference).
ghost use Rattle.std.specs.Prelude.{◌≡◌, ◌+◌, ◌*◌, ◌≤◌, ◌<◌, ◌^◌, ℕ, length};
ghost use Rattle.ff_avi.specs.Data.{is_data, one_picture, picture as picture_turn, next_count, sound as sound_turn};
ghost use Rattle.ff_avi.specs.Data.{entered, chunk as chunk_turn, turn as turn_in, IsStep};

use crate::lane::{Lane, Lanes};
use crate::stream::has_word;
use ff_wav::at_32;

/// What the data so far says.
#[derive(Clone, Copy)]
pub struct DataState {
    /// The number of chunks of pictures.
    pub pictures: u64,
    /// The number of sample frames.
    pub samples: u64,
    /// How many bytes of the chunk of sound in hand follow; outside of one 0.
    pub left: u64,
    /// Whether a pad byte follows that chunk, as a number of bytes.
    pub pad: u64,
}

/// A packet in the data, from its unit's first byte on.
#[derive(Clone, Copy)]
pub struct DataUnit {
    /// The number of its stream.
    pub stream: u8,
    /// How many bytes come before its own.
    pub skip: u64,
    /// How many bytes it has.
    pub size: u64,
    /// Its times, in ticks of its stream's time base.
    pub time: u64,
    /// How long it lasts, in the same ticks.
    pub duration: u64,
}

/// What a unit does that begins some bytes.
#[derive(Clone, Copy)]
pub enum Turn {
    /// More bytes are wanted.
    Wait,
    /// No unit begins here.
    Broken,
    /// So many bytes after the first are passed over, and then perhaps a pad byte.
    Pass(u64, u64, DataState),
    /// A packet is there, and then perhaps a pad byte.
    Give(DataUnit, u64, DataState),
}

// Whether the chunk is data of this stream, with these letters.
fn is_of(lane: &Lane, letters: &[u8; 2], bytes: &[u8]) -> bool
    requires stream { lane.now.stream ≤ 1 }
    requires there { 8 ≤ length bytes.now }
    ensures { result ≡ is_data lane.now letters.now bytes.now }
{
    0 < lane.size
        && has_word(
            bytes,
            0,
            &[b'0', b'0' + lane.stream, letters[0], letters[1]],
        )
}

// One chunk of pictures more.
fn with_picture(known: &DataState) -> DataState
    requires { known.now.pictures ≤ 2 ^ 41 }
    ensures { result ≡ one_picture known.now }
{
    DataState {
        pictures: known.pictures + 1,
        ..*known
    }
}

// A chunk of pictures of this size.
#[tactic(auto, unfolding(crate::specs::Data::picture))]
fn picture(lane: &Lane, known: &DataState, size: u64, bytes: &[u8]) -> Turn
    requires count { known.now.pictures ≤ 2 ^ 41 }
    requires size { size < 2 ^ 32 }
    requires few { lane.now.size ≤ 805306368 }
    requires known { (known.now.left ≡ 0) × (known.now.pad ≤ 1) }
    ensures value { result ≡ picture_turn lane.now known.now size bytes.now }
    ensures near { (at : ℕ) → at ≤ 2 ^ 40 → IsStep at known.now (length bytes.now) result }
{
    let next = with_picture(known);
    if size == 0 {
        return Turn::Pass(7, 0, next);
    }
    if size != lane.size {
        return Turn::Broken;
    }
    if !lane.is_used {
        return Turn::Pass(7 + size, size % 2, next);
    }
    if (bytes.len() as u64) < 8 + size {
        return Turn::Wait;
    }
    let unit = DataUnit {
        stream: lane.stream,
        skip: 8,
        size,
        time: known.pictures,
        duration: 1,
    };
    Turn::Give(unit, size % 2, next)
}

// How many sample frames the next packet has.
fn count_of(lane: &Lane, left: u64) -> u64
    ensures value { result ≡ next_count lane.now left }
    ensures few { result ≤ 1024 }
    ensures within { result * lane.now.size ≤ left }
{
    // Without sound there is no chunk of it.
    if lane.size == 0 {
        return 0;
    }
    (left / lane.size).min(1024)
}

// Within a chunk of sound.
#[tactic(auto, unfolding(crate::specs::Data::samples))]
fn sound(lane: &Lane, known: &DataState, bytes: &[u8]) -> Turn
    requires count { known.now.samples ≤ 2 ^ 41 }
    requires few { lane.now.size ≤ 32 }
    requires some { 0 < known.now.left }
    requires pad { known.now.pad ≤ 1 }
    ensures value { result ≡ sound_turn lane.now known.now bytes.now }
    ensures near { (at : ℕ) → at + known.now.left + known.now.pad ≤ 2 ^ 41 → IsStep at known.now (length bytes.now) result }
{
    let count = count_of(lane, known.left);
    if count == 0 {
        return Turn::Pass(
            known.left - 1,
            known.pad,
            DataState {
                left: 0,
                pad: 0,
                ..*known
            },
        );
    }
    let size = count * lane.size;
    let pad = if known.left == size { known.pad } else { 0 };
    let next = DataState {
        samples: known.samples + count,
        left: known.left - size,
        pad: known.pad - pad,
        ..*known
    };
    if !lane.is_used {
        return Turn::Pass(size - 1, pad, next);
    }
    if (bytes.len() as u64) < size {
        return Turn::Wait;
    }
    let unit = DataUnit {
        stream: lane.stream,
        skip: 0,
        size,
        time: known.samples,
        duration: count,
    };
    Turn::Give(unit, pad, next)
}

// A list, whose type is among the first 12 bytes.
fn list(known: &DataState, size: u64, bytes: &[u8]) -> Turn
    requires size { size < 2 ^ 32 }
    requires there { 8 ≤ length bytes.now }
    requires known { (known.now.left ≡ 0) × (known.now.pad ≤ 1) }
    ensures value { result ≡ entered known.now size bytes.now }
    ensures near { (at : ℕ) → at ≤ 2 ^ 40 → IsStep at known.now (length bytes.now) result }
{
    if bytes.len() < 12 {
        return Turn::Wait;
    }
    if has_word(bytes, 8, b"rec ") {
        return Turn::Pass(11, 0, *known);
    }
    Turn::Pass(7 + size, size % 2, *known)
}

// A chunk, whose first 8 bytes are there.
#[tactic(auto, unfolding(crate::specs::Data::chunk))]
fn chunk(lanes: &Lanes, known: &DataState, size: u64, bytes: &[u8]) -> Turn
    requires streams { (lanes.now.pictures.stream ≤ 1) × (lanes.now.sound.stream ≤ 1) }
    requires sizes { lanes.now.pictures.size ≤ 805306368 }
    requires count { known.now.pictures ≤ 2 ^ 41 }
    requires size { size < 2 ^ 32 }
    requires there { 8 ≤ length bytes.now }
    requires known { (known.now.left ≡ 0) × (known.now.pad ≤ 1) }
    ensures value { result ≡ chunk_turn lanes.now known.now size bytes.now }
    ensures near { (at : ℕ) → at ≤ 2 ^ 40 → IsStep at known.now (length bytes.now) result }
{
    if is_of(&lanes.pictures, b"dc", bytes) || is_of(&lanes.pictures, b"db", bytes) {
        return picture(&lanes.pictures, known, size, bytes);
    }
    if is_of(&lanes.sound, b"wb", bytes) {
        let pad = if size == 0 { 0 } else { size % 2 };
        return Turn::Pass(
            7,
            0,
            DataState {
                left: size,
                pad,
                ..*known
            },
        );
    }
    if has_word(bytes, 0, b"LIST") && size >= 4 {
        return list(known, size, bytes);
    }
    Turn::Pass(7 + size, size % 2, *known)
}

/// What the unit is that begins the bytes.
#[tactic(auto, unfolding(crate::specs::Data::turn))]
pub(crate) fn turn_at(lanes: &Lanes, known: &DataState, at: u64, bytes: &[u8]) -> Turn
    requires streams { (lanes.now.pictures.stream ≤ 1) × (lanes.now.sound.stream ≤ 1) }
    requires sizes { (lanes.now.pictures.size ≤ 805306368) × (lanes.now.sound.size ≤ 32) }
    requires pictures { known.now.pictures ≤ 2 ^ 41 }
    requires samples { known.now.samples ≤ 2 ^ 41 }
    requires near { at + known.now.left + known.now.pad ≤ 2 ^ 41 }
    requires pad { known.now.pad ≤ 1 }
    ensures value { result ≡ turn_in lanes.now known.now at bytes.now }
    ensures near { IsStep at known.now (length bytes.now) result }
{
    if known.left != 0 {
        return sound(&lanes.sound, known, bytes);
    }
    if at > 1 << 40 || bytes.len() >= 4 && has_word(bytes, 0, b"RIFF") {
        return Turn::Broken;
    }
    if bytes.len() < 8 {
        return Turn::Wait;
    }
    chunk(lanes, known, at_32(bytes, 4) as u64, bytes)
}
