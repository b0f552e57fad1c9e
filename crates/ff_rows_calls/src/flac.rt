//! Calls that read and decode FLAC frames and heads.
ghost use Rattle.std.specs.Prelude.{IfSome};
ghost use Rattle.ff_flac_frame.specs.Frame.{IsStream};
ghost use Rattle.ff_flac_dec.specs.Streams.{stream_of};

use crate::heads::{tell_end, tell_flac};
use crate::pcm::tell_samples;
use crate::runs::Runs;
use crate::table::Stop;
use crate::told::Told;
use crate::words::Call;
use ff_flac_dec::{DecodeEnd, FlacHead, FlacWalk, decode};
use ff_flac_frame::{FlacFrame, FlacStream, FrameEnd, SubKind, Subframe, frame_at};
use ff_frame::{AFrame, Codec, StreamHead};
use ff_lists::front;
use ff_time::Rational;
use std::alloc::Global;

fn name_of(kind: SubKind) -> &'static str {
    match kind {
        SubKind::Constant => "constant",
        SubKind::Verbatim => "verbatim",
        SubKind::Fixed => "fixed",
        SubKind::Lpc => "lpc",
    }
}

// A name, and a number after it.
fn tell_field(told: &mut Told, name: &str, number: u64) {
    told.text(name);
    told.count(number);
}

fn tell_subframe(told: &mut Told, subframe: &Subframe) {
    told.texts(&["; ", name_of(subframe.kind)]);
    tell_field(told, " ", u64::from(subframe.order));
    told.text(" warm");
    tell_samples(told, subframe.warm.as_slice());
    told.text(" rest");
    tell_samples(told, subframe.rest.as_slice());
}

fn tell_frame(told: &mut Told, frame: &FlacFrame) {
    told.count(frame.len as u64);
    tell_field(told, " bytes block ", u64::from(frame.block));
    tell_field(told, " form ", u64::from(frame.form));
    for subframe in frame.subframes.as_slice() {
        tell_subframe(told, subframe);
    }
}

fn tell_no_frame(told: &mut Told, end: FrameEnd) {
    match end {
        FrameEnd::NotYet => told.text("not yet"),
        FrameEnd::Never => told.text("never"),
        FrameEnd::NoMemory => told.fail(Stop::Broken),
    }
}

// `RATE BITS CHANNELS`
fn stream_at(call: &mut Call) -> Option<FlacStream>
    ensures { IfSome result IsStream }
{
    let (rate, bits, channels) = (call.up_to(0, 1048575), call.up_to(1, 24), call.up_to(2, 8));
    if rate < 1 || bits < 4 || channels < 1 {
        call.misread();
        return None;
    }
    Some(FlacStream {
        rate: rate as u32,
        bits: bits as u8,
        channels: channels as u8,
    })
}

fn tell_frame_at(alloc: Global, told: &mut Told, stream: &FlacStream, bytes: &[u8])
    requires { IsStream stream.now }
{
    match frame_at(alloc, bytes, stream) {
        Ok(frame) => tell_frame(told, &frame),
        Err(end) => tell_no_frame(told, end),
    }
}

/// `flac_frame RATE BITS CHANNELS BYTES`: the frame with which bytes begin: its size, its block size and channel
/// code. Of each subframe there are the kind, the order, the warm-up samples and the residuals.
pub fn frame(call: &mut Call, told: &mut Told) {
    let bytes = call.bytes(3);
    if let Some(stream) = stream_at(call) {
        tell_frame_at(call.alloc, told, &stream, bytes.as_slice());
    }
}

/// `flac_frame_fronts RATE BITS CHANNELS BYTES`: the same of each prefix of these bytes, from none to all.
pub fn frame_fronts(call: &mut Call, told: &mut Told) {
    let bytes = call.bytes(3);
    let Some(stream) = stream_at(call) else {
        return;
    };
    let mut runs = Runs::new();
    for length in 0..=bytes.len() {
        let mut one = Told::new(call.alloc);
        tell_frame_at(
            call.alloc,
            &mut one,
            &stream,
            front(bytes.as_slice(), length),
        );
        runs.add(told, length, one);
    }
    runs.end(told);
}

// The head of such a stream.
fn head_of(stream: FlacStream) -> Option<FlacHead>
    requires { IsStream stream }
    ensures { IfSome result (λ head. IsStream (stream_of head.head)) }
{
    let FlacStream {
        rate,
        bits,
        channels,
    } = stream;
    let tb = Rational::new(1, i64::from(rate)).ok()?;
    Some(FlacHead {
        head: StreamHead::Audio {
            tb,
            rate,
            bits,
            channels,
            codec: Codec::Flac,
        },
        start: 42,
    })
}

fn tell_sound(told: &mut Told, size: usize, sound: &AFrame) {
    told.count(size as u64);
    told.text(" bytes time ");
    told.number(sound.pts);
    tell_field(told, " rate ", u64::from(sound.rate));
    tell_field(told, " bits ", u64::from(sound.bits));
    tell_field(told, " channels ", u64::from(sound.channels));
    told.text(":");
    tell_samples(told, sound.samples.as_slice());
}

// Tells the audio of the frame with which bytes begin.
fn tell_decoded(alloc: Global, told: &mut Told, head: &FlacHead, pts: i64, bytes: &[u8])
    requires { IsStream (stream_of head.now.head) }
{
    let frame = match ff_flac_dec::frame_at(alloc, bytes, head) {
        Ok(frame) => frame,
        Err(end) => return tell_no_frame(told, end),
    };
    match decode(alloc, &frame, head, pts) {
        Ok(sound) => tell_sound(told, frame.len, &sound),
        Err(DecodeEnd::OutOfDepth) => told.text("out of depth"),
        Err(DecodeEnd::NoMemory) => told.fail(Stop::Broken),
    }
}

/// `flac_sound RATE BITS CHANNELS TIME BYTES`: the samples of the frame with which bytes begin, decoded at this time.
pub fn sound(call: &mut Call, told: &mut Told) {
    let bytes = call.bytes(4);
    let time = call.signed(3);
    let Some(stream) = stream_at(call) else {
        return;
    };
    match head_of(stream) {
        Some(head) => tell_decoded(call.alloc, told, &head, time, bytes.as_slice()),
        None => call.misread(),
    }
}

/// `flac_walk BYTES`: what one walk over a head answers to each prefix of these bytes, from none to all. Beside it
/// stands the offset of the block that it reads at last.
pub fn walk(call: &mut Call, told: &mut Told) {
    let bytes = call.bytes(0);
    let mut walk = FlacWalk::new();
    let mut runs = Runs::new();
    for length in 0..=bytes.len() {
        let mut one = Told::new(call.alloc);
        match walk.read(front(bytes.as_slice(), length), false) {
            Ok(head) => tell_flac(&mut one, &head),
            Err(end) => tell_end(&mut one, length, end),
        }
        runs.add(told, length, one);
    }
    runs.end(told);
    tell_field(told, "; at ", walk.units.at as u64);
}
