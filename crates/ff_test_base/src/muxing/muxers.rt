//! Tests of muxers, one format after another.
ghost use Rattle.std.specs.Prelude.{◌≡◌, IfSome};
ghost use Rattle.ff_wav.specs.Codecs.{IsWavCoded};
ghost use Rattle.ff_mux.specs.FlacHead.{CanHold};
ghost use Rattle.ff_y4m.specs.Header.{IsVideoHead};

use ff_format::{FileFormat, OutputOptions, Rf64, Writer};
use ff_frame::{Bytes, Codec, Event, Format, HashKind, Pkt, StreamHead, Ticket, Totals};
use ff_host::{FailAt, Host, HostCall, MemHost, MemSink, Sink};
use ff_mux::{AnyWriter, writer_of};
use ff_net::{Fault, Machine};
use ff_node_mux::Mux;
use ff_stream::Item;
use ff_time::Rational;
use std::alloc::{AllocError, Global};

type OutMux = Mux<MemSink, AnyWriter>;

// The header of a WAV of 8-bit samples with sizes 0, and of bodies of 0, 3 and 6 bytes.
const OPEN: &str =
    "524946460000000057415645666d7420100000000100010044ac000044ac0000010008006461746100000000";

const OF_0: &str =
    "524946462400000057415645666d7420100000000100010044ac000044ac0000010008006461746100000000";

const OF_3: &str =
    "524946462800000057415645666d7420100000000100010044ac000044ac0000010008006461746103000000";

const OF_6: &str =
    "524946462a00000057415645666d7420100000000100010044ac000044ac0000010008006461746106000000";

// The number of the output stream.
const STREAM: u32 = 2;

// The bytes of a packet, `abc`.
const ABC: &str = "616263";

// The first line of video of 2 columns and 1 row, and the line of a frame.
const PICTURES: &str = "595556344d50454732205732204831204632353a312049702041303a3020436d6f6e6f0a";

const FRAME: &str = "4652414d450a";

// What stands before the frames of a FLAC file without totals and with those of three samples, and the frame of these.
const FLAC_OPEN: &str =
    "664c6143800000221000100000000000000001f400700000000000000000000000000000000000000000";

const FLAC_TOLD: &str =
    "664c6143800000221000100000000d00000d01f4007000000003900150983cd24fb0d6963f7d28e17f72";

const CODED: &str = "fff8640200026a126100092050";

fn sound() -> Option<StreamHead>
    ensures { IfSome result (λ head. IsWavCoded head) }
{
    let tb = Rational::new(1, 44100).ok()?;
    Some(StreamHead::Audio {
        tb,
        rate: 44100,
        bits: 8,
        channels: 1,
        codec: Codec::PcmU8,
    })
}

fn coded() -> Option<StreamHead>
    ensures { IfSome result (λ head. CanHold head) }
{
    let tb = Rational::new(1, 8000).ok()?;
    Some(StreamHead::Audio {
        tb,
        rate: 8000,
        bits: 8,
        channels: 1,
        codec: Codec::Flac,
    })
}

fn pictures() -> Option<StreamHead>
    ensures { IfSome result (λ head. IsVideoHead head) }
{
    let tb = Rational::new(1, 25).ok()?;
    Some(StreamHead::Video {
        tb,
        format: Format::Mono,
        width: 2,
        height: 1,
        sar_num: 0,
        sar_den: 0,
    })
}

// A sink of which the call of this kind and number fails.
fn sink(alloc: Global, call: HostCall, number: u32) -> Result<MemSink, AllocError> {
    let name = String::from_str(alloc, "out")?;
    let plan = vec![in alloc; FailAt { name, call, number }]?;
    let mut host = MemHost::new(alloc, Vec::new(alloc), plan)?;
    match host.create_sink("out") {
        Ok(snk) => Ok(snk),
        Err(_) => Err(AllocError),
    }
}

fn made(mux: Result<OutMux, MemSink>) -> Result<OutMux, AllocError> {
    match mux {
        Ok(mux) => Ok(mux),
        Err(_) => Err(AllocError),
    }
}

fn with(hash: HashKind) -> OutputOptions
    ensures { result.hash ≡ hash }
{
    OutputOptions {
        hash,
        rf64: Rf64::Never,
        streamed: false,
    }
}

fn wav(alloc: Global, snk: MemSink) -> Result<OutMux, AllocError> {
    let Some(head) = sound() else {
        return Err(AllocError);
    };
    let heads = [head];
    let writer = writer_of(alloc, FileFormat::Wav, with(HashKind::Sha256), &heads)?;
    made(Mux::new(alloc, STREAM, snk, writer, &heads))
}

fn y4m(alloc: Global, snk: MemSink) -> Result<OutMux, AllocError> {
    let Some(head) = pictures() else {
        return Err(AllocError);
    };
    let heads = [head];
    let writer = writer_of(alloc, FileFormat::Y4m, with(HashKind::Sha256), &heads)?;
    made(Mux::new(alloc, STREAM, snk, writer, &heads))
}

fn flac(alloc: Global, snk: MemSink) -> Result<OutMux, AllocError> {
    let Some(head) = coded() else {
        return Err(AllocError);
    };
    let heads = [head];
    let writer = writer_of(alloc, FileFormat::Flac, with(HashKind::Sha256), &heads)?;
    made(Mux::new(alloc, STREAM, snk, writer, &heads))
}

fn digests(alloc: Global, snk: MemSink) -> Result<OutMux, AllocError> {
    let Some(head) = sound() else {
        return Err(AllocError);
    };
    let heads = [head];
    let writer = writer_of(alloc, FileFormat::FrameHash, with(HashKind::Md5), &heads)?;
    made(Mux::new(alloc, STREAM, snk, writer, &heads))
}

// Audio, and then video.
fn two(alloc: Global, snk: MemSink) -> Result<OutMux, AllocError> {
    let Some(first) = sound() else {
        return Err(AllocError);
    };
    let Some(second) = pictures() else {
        return Err(AllocError);
    };
    let heads = [first, second];
    let writer = writer_of(alloc, FileFormat::FrameHash, with(HashKind::Md5), &heads)?;
    made(Mux::new(alloc, STREAM, snk, writer, &heads))
}

fn packet(alloc: Global, time: i64) -> Result<Item, AllocError> {
    Ok(Item::Packet(Pkt {
        pts: time,
        dts: time,
        duration: 3,
        pos: 0,
        bytes: Bytes::new("abc".as_bytes().to_vec(alloc)?),
    }))
}

// Feeds an item to an input that is there.
fn feed_at<K: Sink + Drop, W: Writer + Drop>(
    mux: &mut Mux<K, W>,
    port: usize,
    item: Item,
) -> Result<(), AllocError> {
    if port >= mux.inputs() {
        return Err(AllocError);
    }
    match mux.feed(port, item) {
        Ok(()) => Ok(()),
        Err(_) => Err(AllocError),
    }
}

// Whether an input is there, and spent.
fn is_spent<K: Sink + Drop, W: Writer + Drop>(mux: &Mux<K, W>, port: usize) -> bool {
    port < mux.inputs() && mux.spent(port)
}

// Feeds so many packets, and then an item that closes the stream.
fn feed_all<K: Sink + Drop, W: Writer + Drop>(
    alloc: Global,
    mux: &mut Mux<K, W>,
    packets: u8,
    breaks: bool,
) -> Result<(), AllocError> {
    for number in 0..packets {
        let item = packet(alloc, 3 * i64::from(number))?;
        feed_at(mux, 0, item)?;
    }
    let last = if breaks { Item::Broken } else { Item::End };
    feed_at(mux, 0, last)
}

// Feeds the frame of three samples, their totals, where they are told, and an item that closes the stream.
fn feed_coded<K: Sink + Drop, W: Writer + Drop>(
    alloc: Global,
    mux: &mut Mux<K, W>,
    tells: bool,
    breaks: bool,
) -> Result<(), AllocError> {
    let Ok(bytes) = hex::decode(alloc, CODED) else {
        return Err(AllocError);
    };
    let frame = Pkt {
        pts: 0,
        dts: 0,
        duration: 3,
        pos: 0,
        bytes: Bytes::new(bytes),
    };
    feed_at(mux, 0, Item::Packet(frame))?;
    if tells {
        let totals = Totals {
            min_frame: 13,
            max_frame: 13,
            samples: 3,
            md5: [
                0x90, 0x01, 0x50, 0x98, 0x3c, 0xd2, 0x4f, 0xb0, 0xd6, 0x96, 0x3f, 0x7d, 0x28, 0xe1,
                0x7f, 0x72,
            ],
        };
        feed_at(mux, 0, Item::Trailer(totals))?;
    }
    let last = if breaks { Item::Broken } else { Item::End };
    feed_at(mux, 0, last)
}

// Whether the sink holds the bytes of these strings.
fn holds(alloc: Global, snk: MemSink, texts: [&'static str; 3]) -> Result<bool, AllocError> {
    let held = hex::encode(alloc, snk.bytes())?;
    let mut wanted = String::new(alloc);
    wanted.push_str(texts[0])?;
    wanted.push_str(texts[1])?;
    wanted.push_str(texts[2])?;
    Ok(held.as_str() == wanted.as_str())
}

// Whether so many packets and their end, and no less, spend the muxer's input, with this fault. Its sink then has to
// hold the bytes of these strings.
fn leaves(
    alloc: Global,
    mux: OutMux,
    packets: u8,
    breaks: bool,
    texts: [&'static str; 3],
    fault: Option<Fault>,
) -> Result<bool, AllocError> {
    let mut mux = mux;
    let before = is_spent(&mux, 0);
    feed_all(alloc, &mut mux, packets, breaks)?;
    let ended = !before & is_spent(&mux, 0) & (mux.fault() == fault);
    Ok(ended & holds(alloc, mux.into_sink(), texts)?)
}

#[test]
fn writes_sound(rt: HostRuntime) -> Result<(), AllocError> {
    // packets, whether the stream breaks, the call that fails; the strings that are held, the fault
    for (packets, breaks, call, number, texts, fault) in [
        (0, false, HostCall::Append, 0, [OF_0, "", ""], None),
        (1, false, HostCall::Append, 0, [OF_3, ABC, "00"], None),
        (2, false, HostCall::Append, 0, [OF_6, ABC, ABC], None),
        (1, true, HostCall::Append, 0, [OPEN, ABC, ""], None),
        (0, true, HostCall::Append, 0, [OPEN, "", ""], None),
        (
            1,
            false,
            HostCall::Append,
            1,
            ["", "", ""],
            Some(Fault::Device),
        ),
        (
            1,
            false,
            HostCall::Append,
            2,
            [OPEN, "", ""],
            Some(Fault::Device),
        ),
        (
            1,
            false,
            HostCall::Append,
            3,
            [OPEN, ABC, ""],
            Some(Fault::Device),
        ),
        (
            1,
            false,
            HostCall::Patch,
            1,
            [OPEN, ABC, "00"],
            Some(Fault::Device),
        ),
        (1, true, HostCall::Patch, 1, [OPEN, ABC, ""], None),
    ] {
        let mux = wav(rt.alloc(), sink(rt.alloc(), call, number)?)?;
        let came = leaves(rt.alloc(), mux, packets, breaks, texts, fault)?;
        assert!(rt; came, "{packets} packets, {number}");
    }
    Ok(())
}

#[test]
fn writes_coded_sound(rt: HostRuntime) -> Result<(), AllocError> {
    // whether totals are told and the stream breaks, the call that fails; the string before the frame that is held then, the fault
    for (tells, breaks, call, number, before, fault) in [
        (true, false, HostCall::Patch, 0, FLAC_TOLD, None),
        (false, false, HostCall::Patch, 0, FLAC_OPEN, None),
        (true, true, HostCall::Patch, 0, FLAC_OPEN, None),
        (
            true,
            false,
            HostCall::Patch,
            1,
            FLAC_OPEN,
            Some(Fault::Device),
        ),
        (false, false, HostCall::Patch, 1, FLAC_OPEN, None),
    ] {
        let mut mux = flac(rt.alloc(), sink(rt.alloc(), call, number)?)?;
        feed_coded(rt.alloc(), &mut mux, tells, breaks)?;
        let events = (mux.next_event(), mux.next_event(), mux.next_event());
        let told = (
            Some(Event::Sent(STREAM, 0)),
            Some(Event::Finished(STREAM)),
            None,
        );
        assert_eq!(rt; (mux.fault(), events), (fault, told));
        let held = holds(rt.alloc(), mux.into_sink(), [before, CODED, ""])?;
        assert!(rt; held, "{tells} {breaks} {number}");
    }
    Ok(())
}

#[test]
fn writes_pictures(rt: HostRuntime) -> Result<(), AllocError> {
    let mux = y4m(rt.alloc(), sink(rt.alloc(), HostCall::Patch, 1)?)?;
    let came = leaves(rt.alloc(), mux, 1, false, [PICTURES, FRAME, ABC], None)?;
    assert!(rt; came);
    Ok(())
}

#[test]
fn writes_digests(rt: HostRuntime) -> Result<(), AllocError> {
    let mux = digests(rt.alloc(), sink(rt.alloc(), HostCall::Append, 2)?)?;
    let text =
        "23666f726d61743a206672616d6520636865636b73756d730a2376657273696f6e3a20320a23686173683a204d44350a23746220303a20312f34343130300a236d656469615f7479706520303a20617564696f0a23636f6465635f696420303a2070636d5f75380a2373616d706c655f7261746520303a2034343130300a236368616e6e656c5f6c61796f75745f6e616d6520303a206d6f6e6f0a2373747265616d232c206474732c20202020202020207074732c206475726174696f6e2c202020202073697a652c20686173680a";
    let came = leaves(
        rt.alloc(),
        mux,
        1,
        false,
        [text, "", ""],
        Some(Fault::Device),
    )?;
    assert!(rt; came);
    Ok(())
}

#[test]
fn gives_nothing(rt: HostRuntime) -> Result<(), AllocError> {
    let mut mux = wav(rt.alloc(), sink(rt.alloc(), HostCall::Append, 0)?)?;
    let ticket = Ticket {
        source: 0,
        place: 0,
    };
    let ports = (mux.inputs(), mux.outputs(), mux.source());
    assert_eq!(rt; (ports, mux.allow(ticket)), ((1, 0, None), Some(ticket)));
    let pulled = matches!(mux.pull(0), Ok(None));
    mux.stop(0);
    assert_eq!(rt; (pulled, is_spent(&mux, 0)), (true, false));
    assert!(rt; mux.into_sink().bytes().is_empty());
    Ok(())
}

#[test]
fn tells_of_its_stream(rt: HostRuntime) -> Result<(), AllocError> {
    // the append that fails, if any
    for number in [0, 2] {
        let mut mux = wav(rt.alloc(), sink(rt.alloc(), HostCall::Append, number)?)?;
        let before = mux.next_event();
        feed_all(rt.alloc(), &mut mux, 2, false)?;
        let packets = (mux.next_event(), mux.next_event());
        let end = (mux.next_event(), mux.next_event());
        let times = (Some(Event::Sent(STREAM, 0)), Some(Event::Sent(STREAM, 68)));
        assert_eq!(rt;
            (before, packets, end),
            (None, times, (Some(Event::Finished(STREAM)), None))
        );
    }
    Ok(())
}

// The lines before those of the packets of two streams.
const TWO: &str = "#format: frame checksums
#version: 2
#hash: MD5
#tb 0: 1/44100
#media_type 0: audio
#codec_id 0: pcm_u8
#sample_rate 0: 44100
#channel_layout_name 0: mono
#tb 1: 1/25
#media_type 1: video
#codec_id 1: rawvideo
#dimensions 1: 2x1
#sar 1: 0/1
#stream#, dts,        pts, duration,     size, hash
";

// The lines of three packets, in the order of their times and streams.
const AT_0: &str = "0,          0,          0,        3,        3, 900150983cd24fb0d6963f7d28e17f72
";

const PICTURE_AT_0: &str =
    "1,          0,          0,        3,        3, 900150983cd24fb0d6963f7d28e17f72
";

const AT_3: &str = "0,          3,          3,        3,        3, 900150983cd24fb0d6963f7d28e17f72
";

#[test]
fn writes_two_streams(rt: HostRuntime) -> Result<(), AllocError> {
    // whether the video breaks; the last line that is held then
    for (breaks, last) in [(false, AT_3), (true, "")] {
        let mut mux = two(rt.alloc(), sink(rt.alloc(), HostCall::Append, 0)?)?;
        let picture = packet(rt.alloc(), 0)?;
        feed_at(&mut mux, 1, picture)?;
        feed_all(rt.alloc(), &mut mux, 2, false)?;
        let before = (is_spent(&mux, 0), is_spent(&mux, 1));
        let close = if breaks { Item::Broken } else { Item::End };
        feed_at(&mut mux, 1, close)?;
        assert_eq!(rt;
            (before, is_spent(&mux, 1), mux.fault()),
            ((true, false), true, None)
        );
        let packets = (mux.next_event(), mux.next_event(), mux.next_event());
        let ends = (mux.next_event(), mux.next_event(), mux.next_event());
        let picture = Some(Event::Sent(STREAM + 1, 0));
        let times = (Some(Event::Sent(STREAM, 0)), Some(Event::Sent(STREAM, 68)));
        assert_eq!(rt; packets, (picture, times.0, times.1));
        let told = (
            Some(Event::Finished(STREAM)),
            Some(Event::Finished(STREAM + 1)),
            None,
        );
        assert_eq!(rt; ends, told);
        let mut wanted = String::new(rt.alloc());
        wanted.push_str(TWO)?;
        wanted.push_str(AT_0)?;
        wanted.push_str(PICTURE_AT_0)?;
        wanted.push_str(last)?;
        let snk = mux.into_sink();
        assert!(rt; snk.bytes() == wanted.as_bytes(), "{breaks}");
    }
    Ok(())
}
