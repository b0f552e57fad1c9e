//! Tests of blocks that are coded at the same time.
ghost use Rattle.std.specs.Prelude.{IfSome};
ghost use Rattle.ff_flac_enc.specs.Frame.{IsBlock};

use ff_flac_enc::{Gate, NoGate, encode_blocks};
use ff_frame::{AFrame, Bytes, Samples};
use ff_pcm::is_audio;
use std::alloc::{AllocError, Global};
use std::sync::atomic::{AtomicBool, AtomicU32, Ordering};
use std::test::Fail;
use std::thread;
use std::thread::Threads;

const TURNS: u32 = 10_000_000;

// Counts the calls that enter. It holds call 0 until another has entered, for so many turns, and then tells of a failure.
#[derive(Drop)]
struct Meeting {
    first: AtomicU32,
    others: AtomicU32,
    failed: AtomicBool,
}

impl Gate for Meeting {
    fn enter(&self, i: usize) {
        if i != 0 {
            self.others.fetch_add(1, Ordering::SeqCst);
            return;
        }
        self.first.fetch_add(1, Ordering::SeqCst);
        for _ in 0..TURNS {
            if self.others.load(Ordering::SeqCst) != 0 {
                return;
            }
            thread::yield_now();
        }
        self.failed.store(true, Ordering::SeqCst);
    }
}

// The block of one channel of these samples of 8 bits, if it is one.
fn block(samples: Vec<i32>) -> Option<AFrame>
    ensures { IfSome result IsBlock }
{
    if samples.len() > 4096 {
        return None;
    }
    let frame = AFrame {
        pts: 0,
        rate: 8000,
        bits: 8,
        channels: 1,
        samples: Samples::new(samples),
    };
    if is_audio(&frame) { Some(frame) } else { None }
}

// The codes of three samples and of one, coded at once.
fn both_of<R: Threads + Sync, G: Gate + Sync>(
    rt: &R,
    alloc: Global,
    gate: &G,
) -> Result<Vec<Bytes>, AllocError> {
    let first = block(Vec::from_slice(alloc, &[97, 98, 99])?);
    let second = block(Vec::from_slice(alloc, &[97])?);
    let (Some(first), Some(second)) = (first, second) else {
        return Ok(Vec::new(alloc));
    };
    let mut blocks = Vec::new(alloc);
    blocks.push(first)?;
    blocks.push(second)?;
    encode_blocks(rt, alloc, &blocks, 0, gate)
}

const THREE: [u8; 13] = [
    0xff, 0xf8, 0x64, 0x02, 0x00, 0x02, 0x6a, 0x12, 0x61, 0x00, 0x09, 0x20, 0x50,
];

#[test]
fn at_once(rt: HostRuntime) -> Result<(), Fail> {
    let codes = both_of(&rt, rt.alloc(), &NoGate)?;
    assert_eq!(rt; codes.len(), 2);
    assert_eq!(rt; codes[0].as_slice(), THREE.as_slice());
    assert_eq!(rt; codes[1].as_slice().len(), 11);
    Ok(())
}

#[test]
fn two_blocks_meet(rt: HostRuntime) -> Result<(), Fail> {
    let gate = Meeting {
        first: AtomicU32::new(0),
        others: AtomicU32::new(0),
        failed: AtomicBool::new(false),
    };
    let codes = both_of(&rt, rt.alloc(), &gate)?;
    assert_eq!(rt; codes.len(), 2);
    assert!(rt; !gate.failed.load(Ordering::SeqCst));
    assert_eq!(rt; gate.first.load(Ordering::SeqCst), 1);
    assert_eq!(rt; gate.others.load(Ordering::SeqCst), 1);
    Ok(())
}
