//! Tests of a demuxer by itself. The head is written out by hand from the RIFF WAVE layout.
ghost use Rattle.std.specs.Prelude.{◌+◌, ◌<◌, ◌≤◌, ◌^◌, length, IfOk};

use ff_frame::{Bytes, Codec, Event, Pkt, StreamHead, Ticket};
use ff_host::{FailAt, Failed, Host, HostCall, MemHost, MemSource, Source};
use ff_input::{OneOf, SingleCut, read_input_head};
use ff_net::{Fault, Machine};
use ff_node_demux::{Demux, is_long};
use ff_stream::Item;
use ff_time::Rational;
use std::alloc::{AllocError, Global};

// 8-bit samples on one channel at 8,000 a second, a body of 2,500 bytes.
const HEAD: [u8; 44] = [
    0x52, 0x49, 0x46, 0x46, 0xe8, 9, 0, 0, 0x57, 0x41, 0x56, 0x45, 0x66, 0x6d, 0x74, 0x20, 0x10, 0,
    0, 0, 1, 0, 1, 0, 0x40, 0x1f, 0, 0, 0x40, 0x1f, 0, 0, 1, 0, 8, 0, 0x64, 0x61, 0x74, 0x61, 0xc4,
    9, 0, 0,
];

// What a pull gave: of a packet its time, duration, place and number of bytes.
#[derive(Clone, Copy, PartialEq, Eq, Debug)]
enum Given {
    /// A packet.
    Packet(i64, i64, u64, usize),
    /// The end.
    End,
    /// Nothing is due.
    Nothing,
    /// Anything else.
    Other,
}

// The file `in`.
fn files(alloc: Global) -> Result<Vec<(String, Vec<u8>)>, AllocError> {
    let mut bytes = HEAD.to_vec(alloc)?;
    for _ in 0..2500 {
        bytes.push(128)?;
    }
    let mut files = Vec::new(alloc);
    files.push((String::from_str(alloc, "in")?, bytes))?;
    Ok(files)
}

// A demuxer of that file, whose calls fail as planned.
fn demuxer(alloc: Global, plan: Vec<FailAt>) -> Result<Demux<MemSource, SingleCut>, AllocError> {
    let mut host = MemHost::new(alloc, files(alloc)?, plan)?;
    let (Ok(src), Ok(OneOf::First(head))) = (
        host.open_source("in"),
        read_input_head(None, &HEAD, false),
    ) else {
        return Err(AllocError);
    };
    match Demux::new(alloc, 7, src, &head) {
        Ok(demux) => Ok(demux),
        Err(_) => Err(AllocError),
    }
}

fn next<S: Source + Drop>(demux: &mut Demux<S, SingleCut>) -> Given {
    match demux.pull(0) {
        Ok(Some(Item::Packet(p))) => {
            Given::Packet(p.pts, p.duration, p.pos, p.bytes.as_slice().len())
        }
        Ok(Some(Item::End)) => Given::End,
        Ok(None) => Given::Nothing,
        _ => Given::Other,
    }
}

const TICKET: Ticket = Ticket {
    source: 7,
    place: 0,
};

// What comes with the next ticket, where nothing came before, and there is no room for a second one.
fn next_allowed<S: Source + Drop>(demux: &mut Demux<S, SingleCut>) -> Given {
    let before = next(demux);
    let first = demux.allow(TICKET);
    let second = demux.allow(TICKET);
    if (before == Given::Nothing) & first.is_none() & (second == Some(TICKET)) {
        next(demux)
    } else {
        Given::Other
    }
}

#[test]
fn packets(rt: HostRuntime) -> Result<(), AllocError> {
    let mut demux = demuxer(rt.alloc(), Vec::new(rt.alloc()))?;
    for expected in [
        Given::Packet(0, 1024, 44, 1024),
        Given::Packet(1024, 1024, 1068, 1024),
        Given::Packet(2048, 452, 2092, 452),
        Given::End,
    ] {
        assert_eq!(rt; next_allowed(&mut demux), expected);
    }
    let last = (next(&mut demux), demux.source(), demux.fault());
    assert_eq!(rt; last, (Given::Nothing, Some(7), None));
    Ok(())
}

// The first read of `in` fails.
fn first_read(alloc: Global) -> Result<Vec<FailAt>, AllocError> {
    let mut plan = Vec::new(alloc);
    plan.push(FailAt {
        name: String::from_str(alloc, "in")?,
        call: HostCall::Read,
        number: 1,
    })?;
    Ok(plan)
}

#[test]
fn device(rt: HostRuntime) -> Result<(), AllocError> {
    let mut demux = demuxer(rt.alloc(), first_read(rt.alloc())?)?;
    let allowed = demux.allow(TICKET);
    let first = (next(&mut demux), demux.fault());
    let second = (next(&mut demux), demux.fault());
    let failed = (Given::Nothing, Some(Fault::Device));
    assert_eq!(rt; (allowed, first, second), (None, failed, failed));
    let mut src = demux.into_source();
    assert_eq!(rt; src.read(&mut [0; 4]), Err(Failed));
    Ok(())
}

// What a demuxer tells once it gives nothing more: its output has closed, was stopped, or a read failed.
const EXITED: Option<Event> = Some(Event::Exited(7));

#[test]
fn exits_at_the_end(rt: HostRuntime) -> Result<(), AllocError> {
    let mut demux = demuxer(rt.alloc(), Vec::new(rt.alloc()))?;
    for tried in [0, 1, 2, 3] {
        assert_eq!(rt; (demux.tried(), demux.next_event()), (tried, None));
        let _ = next_allowed(&mut demux);
    }
    assert_eq!(rt; (demux.tried(), demux.next_event()), (4, EXITED));
    assert_eq!(rt; demux.next_event(), None);
    Ok(())
}

#[test]
fn exits_before_the_end(rt: HostRuntime) -> Result<(), AllocError> {
    let mut stopped = demuxer(rt.alloc(), Vec::new(rt.alloc()))?;
    stopped.stop(0);
    assert_eq!(rt; (stopped.tried(), stopped.next_event()), (0, EXITED));
    let mut failed = demuxer(rt.alloc(), first_read(rt.alloc())?)?;
    let nothing = next_allowed(&mut failed);
    assert_eq!(rt; (nothing, failed.next_event()), (Given::Nothing, EXITED));
    Ok(())
}

// A packet of one byte.
fn packet(alloc: Global, pts: i64, pos: u64) -> Result<Pkt, AllocError>
    requires { pos ≤ 2 ^ 41 }
    ensures { IfOk result (λ packet. packet.pos + length packet.bytes < 2 ^ 64) }
{
    let bytes = vec![in alloc; 128u8; 1]?;
    Ok(Pkt {
        pts,
        dts: pts,
        duration: 1,
        pos,
        bytes: Bytes::new(bytes),
    })
}

fn head() -> Option<StreamHead> {
    Some(StreamHead::Audio {
        tb: Rational::new(1, 1).ok()?,
        rate: 1,
        bits: 8,
        channels: 1,
        codec: Codec::PcmU8,
    })
}

// Whether it is long at one tick a second.
fn is_long_at(alloc: Global, before: u64, pts: i64, pos: u64) -> Result<Option<bool>, AllocError> {
    let packet = packet(alloc, pts, pos.min(1 << 41))?;
    Ok(match head() {
        Some(head) => Some(is_long(&head, before.min(1 << 40), &packet)),
        None => None,
    })
}

// At one tick a second: the first second past the last, the first number past the last, the first byte past the last.
#[test]
fn limits(rt: HostRuntime) -> Result<(), AllocError> {
    for (before, pts, pos, long) in [
        (0, 0, 0, false),
        (1_099_511_627_775, 999_999_999, 1_099_511_627_775, false),
        (1_099_511_627_776, 999_999_999, 1_099_511_627_775, true),
        (1_099_511_627_775, 1_000_000_000, 1_099_511_627_775, true),
        (1_099_511_627_775, 999_999_999, 1_099_511_627_776, true),
    ] {
        assert_eq!(rt; is_long_at(rt.alloc(), before, pts, pos)?, Some(long));
    }
    Ok(())
}
