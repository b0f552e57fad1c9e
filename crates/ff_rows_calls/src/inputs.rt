//! Calls that read heads in the format that is given, or that their first bytes tell.
use crate::heads::{is_whole, tell_avi, tell_end, tell_flac, tell_pcm, tell_stream, tell_y4m};
use crate::runs::Runs;
use crate::table::Stop;
use crate::told::Told;
use crate::words::Call;
use ff_format::FileFormat;
use ff_frame::HeadEnd;
use ff_input::{InputHead, InputWalk, OneOf, read_input_head};
use ff_lists::front;

fn format_at(call: &mut Call, at: usize) -> Option<FileFormat> {
    match call.text(at) {
        "any" => None,
        "wav" => Some(FileFormat::Wav),
        "au" => Some(FileFormat::Au),
        "y4m" => Some(FileFormat::Y4m),
        "flac" => Some(FileFormat::Flac),
        "avi" => Some(FileFormat::Avi),
        "framehash" => Some(FileFormat::FrameHash),
        _ => call.read(None),
    }
}

fn tell_head(told: &mut Told, head: &InputHead) {
    match head {
        OneOf::First(OneOf::First(head)) => {
            told.text("wav ");
            tell_pcm(told, head);
        }
        OneOf::First(OneOf::Other(OneOf::First(head))) => {
            told.text("y4m ");
            tell_y4m(told, head);
        }
        OneOf::First(OneOf::Other(OneOf::Other(OneOf::First(head)))) => {
            told.text("flac ");
            tell_flac(told, head);
        }
        OneOf::First(OneOf::Other(OneOf::Other(OneOf::Other(head)))) => {
            told.text("au ");
            tell_pcm(told, head);
        }
        OneOf::Other(head) => tell_avi(told, head),
    }
}

fn tell_answer(told: &mut Told, length: usize, answer: Result<InputHead, HeadEnd>) {
    match answer {
        Ok(head) => tell_head(told, &head),
        Err(end) => tell_end(told, length, end),
    }
}

/// `input FORMAT|any whole|begun BYTES`: the head of an input that is these bytes, or goes on after them.
pub fn head(call: &mut Call, told: &mut Told) {
    let (format, whole) = (format_at(call, 0), is_whole(call, 1));
    let bytes = call.bytes(2);
    let answer = read_input_head(format, bytes.as_slice(), whole);
    tell_answer(told, bytes.len(), answer);
}

/// `input_fronts FORMAT|any whole|begun BYTES`: the same of each prefix of these bytes, from none to all.
pub fn head_fronts(call: &mut Call, told: &mut Told) {
    let (format, whole) = (format_at(call, 0), is_whole(call, 1));
    let bytes = call.bytes(2);
    let mut runs = Runs::new();
    for length in 0..=bytes.len() {
        let answer = read_input_head(format, front(bytes.as_slice(), length), whole);
        let mut one = Told::new(call.alloc);
        tell_answer(&mut one, length, answer);
        runs.add(told, length, one);
    }
    runs.end(told);
}

// Tells what a walk answers to each prefix of these bytes, and answers whether it read a head.
fn tell_walk(
    call: &Call,
    told: &mut Told,
    runs: &mut Runs,
    walk: &mut InputWalk,
    bytes: &[u8],
) -> bool {
    for length in 0..=bytes.len() {
        let answer = walk.read(front(bytes, length), false);
        let decided = answer.is_ok();
        let mut one = Told::new(call.alloc);
        tell_answer(&mut one, length, answer);
        if !runs.add(told, length, one) || decided {
            return true;
        }
    }
    false
}

/// `input_pieces FORMAT|any BYTES`: the answers of one walk, to which one byte more is shown at a time, and at last that the
/// input ends.
pub fn pieces(call: &mut Call, told: &mut Told) {
    let mut walk = InputWalk::new(format_at(call, 0));
    let bytes = call.bytes(1);
    let mut runs = Runs::new();
    if !tell_walk(call, told, &mut runs, &mut walk, bytes.as_slice()) {
        let mut last = Told::new(call.alloc);
        let answer = walk.read(bytes.as_slice(), true);
        tell_answer(&mut last, bytes.len(), answer);
        runs.add(told, bytes.len() + 1, last);
    }
    runs.end(told);
}

/// `input_streams FORMAT|any BYTES`: the heads of the streams of an input.
pub fn streams(call: &mut Call, told: &mut Told) {
    let format = format_at(call, 0);
    let Ok(head) = read_input_head(format, call.bytes(1).as_slice(), true) else {
        return call.misread();
    };
    let Ok(streams) = head.streams(call.alloc) else {
        return call.fail(Stop::Broken);
    };
    for stream in streams.as_slice() {
        told.text("stream ");
        tell_stream(told, stream);
    }
}
