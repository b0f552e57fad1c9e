//! The reader of heads (yuv4mpeg(5), "Stream Header").
ghost use Rattle.std.specs.Prelude.{◌≡◌, ◌<◌, ◌≤◌, ◌↔◌, List, ◌++◌, Err, false, length, take, drop, IfOk, IfSome, ℕ};
ghost use Rattle.ff_y4m.specs.Packets.{IsHead};
ghost use Rattle.ff_y4m.specs.Parameters.{no_parameters, AreSane};
ghost use Rattle.ff_y4m.specs.Heads.{word_len, parameters, complete, line_head, reading, head, answered, IsOpen};
ghost use Rattle.ff_reader.specs.declared.fault.HeadFault.{HeadFault};

use crate::head::Y4mHead;
use crate::line::{LONGEST_LINE, begins, line_end};
use crate::number::{from_place, front, place_of};
use crate::parameters::{Parameters, with_parameter};
use ff_frame::{Format, HeadEnd, StreamHead};
use ff_reader::{HeadFault, answer_to};

/// What an input begins with.
const MAGIC: &[u8] = b"YUV4MPEG2";

/// The bytes by which the format is known: those, and a space or a line feed.
const SHORTEST: usize = 10;

// Before the first parameter.
fn nothing_said() -> Parameters
    ensures value { result ≡ no_parameters }
    ensures sane { AreSane result }
{
    Parameters {
        width: None,
        height: None,
        base: None,
        sar_num: 0,
        sar_den: 0,
        format: Format::C420,
    }
}

// The bytes before the next space.
fn word_length(bytes: &[u8]) -> usize
    ensures value { result ≡ word_len bytes.now }
    ensures there { result ≤ length bytes.now }
{
    match place_of(b' ', bytes) {
        Some(place) => place,
        None => bytes.len(),
    }
}

// Passes over a space, or reads the parameter at this place: the next place, and what the parameters say up to there.
fn step(line: &[u8], at: usize, so_far: Parameters) -> Result<(usize, Parameters), HeadFault>
    requires there { at < length line.now }
    requires short { length line.now < 1024 }
    requires sane { AreSane so_far }
    ensures goes_on { IfOk result (λ r. parameters 0 at so_far (drop at line.now) ≡ parameters 0 r.0 r.1 (drop r.0 line.now)) }
    ensures ends { (e : HeadFault) → result ≡ Err e → parameters 0 at so_far (drop at line.now) ≡ Err e }
    ensures further { IfOk result (λ r. (at < r.0) × (r.0 ≤ length line.now)) }
    ensures sane { IfOk result (λ r. AreSane r.1) }
{
    if line[at] == b' ' {
        return Ok((at + 1, so_far));
    }
    let rest = from_place(line, at + 1);
    let length = word_length(rest);
    match with_parameter(so_far, at as u64, line[at], front(rest, length)) {
        Ok(next) => Ok((at + 1 + length, next)),
        Err(fault) => Err(fault),
    }
}

// What the parameters of a line say, which stand after its first word.
fn read_parameters(line: &[u8]) -> Result<Parameters, HeadFault>
    requires { length line.now < 1024 }
    ensures value { result ≡ parameters 0 9 no_parameters (drop 9 line.now) }
    ensures sane { IfOk result AreSane }
{
    let mut so_far = nothing_said();
    let mut at = 9;
    'words: while at < line.len() {
        match step(line, at, so_far) {
            Ok((place, next)) => {
                at = place;
                so_far = next;
            }
            Err(fault) => return Err(fault),
        }
    }
    Ok(so_far)
}

// The head of these parameters, in a line that ends at this offset.
fn head_of(at: u64, so_far: Parameters) -> Result<Y4mHead, HeadFault>
    requires short { at < 1024 }
    requires sane { AreSane so_far }
    ensures value { result ≡ complete at so_far so_far.width so_far.height so_far.base }
    ensures sound { IfOk result IsHead }
{
    let Some(width) = so_far.width else {
        return Err(HeadFault::Damaged { offset: at });
    };
    let Some(height) = so_far.height else {
        return Err(HeadFault::Damaged { offset: at });
    };
    let Some(tb) = so_far.base else {
        return Err(HeadFault::Damaged { offset: at });
    };
    Ok(Y4mHead {
        head: StreamHead::Video {
            tb,
            format: so_far.format,
            width,
            height,
            sar_num: so_far.sar_num,
            sar_den: so_far.sar_den,
        },
        start: at + 1,
        frame_bytes: so_far.format.frame_size(width, height) as u64,
    })
}

#[tactic(auto, unfolding(crate::specs::Heads::line_head))]
fn head_in(line: &[u8]) -> Result<Y4mHead, HeadFault>
    requires { length line.now < 1024 }
    ensures value { result ≡ line_head line.now }
    ensures sound { IfOk result IsHead }
{
    match read_parameters(line) {
        Ok(said) => head_of(line.len() as u64, said),
        Err(fault) => Err(fault),
    }
}

// The head or its fault, if these bytes decide it.
#[tactic(auto, unfolding(crate::specs::Heads::reading))]
fn decide(bytes: &[u8]) -> Option<Result<Y4mHead, HeadFault>>
    ensures value { result ≡ reading bytes.now }
    ensures sound { IfSome result (λ found. IfOk found IsHead) }
{
    if !begins(MAGIC, bytes) {
        return Some(Err(HeadFault::Unsupported { offset: 0 }));
    }
    let Some(end) = line_end(LONGEST_LINE, bytes) else {
        return None;
    };
    if end >= LONGEST_LINE {
        return Some(Err(HeadFault::Damaged {
            offset: LONGEST_LINE as u64,
        }));
    }
    Some(head_in(front(bytes, end)))
}

/// The head of an input that begins with these bytes, and where `whole` ends with them (yuv4mpeg(5), "Stream
/// Header"). Unsupported at 0 where the first word isn't `YUV4MPEG2`. Damaged at 1,024 where the first line is
/// longer, and at the input's length where it ends before the line does. Of the parameters the first fault from left
/// to right counts, at the parameter's first byte: Damaged where a value can't be read, Unsupported where it isn't
/// taken. Taken are 1 to 16,384 columns and rows, and a rate of two positive numbers, below 2^31 in lowest terms.
/// Taken are an aspect of two numbers below 2^32, frames without fields, and 4:2:0, 4:2:2, 4:4:4 or Y alone, of 8
/// bits. Damaged at the line feed where columns, rows or rate are missing.
pub fn read_head(bytes: &[u8], whole: bool) -> Result<Y4mHead, HeadEnd>
    // Not yet exactly where the input goes on, and some bytes decide otherwise than others.
    ensures not_yet { (result ≡ Err HeadEnd.NotYet) ↔ ((whole ≡ false) × IsOpen bytes.now) }
    // Any other answer is the head of the input,
    ensures decided { (result ≡ Err HeadEnd.NotYet → ⊥) → result ≡ answered (head bytes.now) }
    // and a head is a sound one,
    ensures sound { IfOk result IsHead }
    // whatever follows.
    ensures stays { (result ≡ Err HeadEnd.NotYet → ⊥) → whole ≡ false
        → (more : List ℕ) → head (bytes.now ++ more) ≡ head bytes.now }
{
    answer_to(decide(bytes), SHORTEST, bytes, whole)
}
