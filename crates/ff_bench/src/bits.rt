//! Bits read and written, and the two checksums, measured.

ghost use Rattle.std.specs.Prelude.{◌≤◌, ◌<◌, ◌^◌, ◌*◌, length, vec_len, IfOk};

use ff_bits::{BitReader, BitWriter, crc8, crc16};
use std::alloc::{AllocError, Global};
use std::io;
use std::rt::Clock;
use std::time::{Duration, Instant};

/// How many bytes the sums go over.
const BYTES: u32 = 1 << 26;

/// How many values are written, and how many are read.
const VALUES: u32 = 1 << 25;

/// How many bits a plain value has.
const WIDTH: u32 = 12;

/// How many low bits a value has that is written as zeros, a one and low bits.
const LOW: u32 = 3;

/// Prints the speed of each call, and a number that depends on all that was done.
pub fn measure(rt: &(impl Print + AllocGlobal + Clock)) -> io::Result<()> {
    sums(rt)?;
    plain(rt)?;
    zeros(rt)
}

fn sums(rt: &(impl Print + AllocGlobal + Clock)) -> io::Result<()> {
    let bytes = noisy_bytes(rt.alloc(), BYTES)?;
    let start = Instant::now(rt)?;
    let sum = crc8(bytes.as_slice());
    report(rt, "crc8", BYTES, start.elapsed(rt)?, sum as u64)?;
    let start = Instant::now(rt)?;
    let sum = crc16(bytes.as_slice());
    report(rt, "crc16", BYTES, start.elapsed(rt)?, sum as u64)
}

fn plain(rt: &(impl Print + AllocGlobal + Clock)) -> io::Result<()> {
    let start = Instant::now(rt)?;
    let bytes = written(rt.alloc())?;
    report(
        rt,
        "put of 12 bits",
        VALUES,
        start.elapsed(rt)?,
        bytes.len() as u64,
    )?;
    let start = Instant::now(rt)?;
    let sum = taken(bytes.as_slice());
    report(rt, "take of 12 bits", VALUES, start.elapsed(rt)?, sum)
}

fn zeros(rt: &(impl Print + AllocGlobal + Clock)) -> io::Result<()> {
    let start = Instant::now(rt)?;
    let bytes = written_with_zeros(rt.alloc())?;
    report(
        rt,
        "put of a Rice code",
        VALUES,
        start.elapsed(rt)?,
        bytes.len() as u64,
    )?;
    let start = Instant::now(rt)?;
    let sum = counted(bytes.as_slice());
    report(
        rt,
        "unary and take of a Rice code",
        VALUES,
        start.elapsed(rt)?,
        sum,
    )
}

/// Prints how many millions a second there were.
fn report(rt: &impl Print, name: &str, count: u32, time: Duration, check: u64) -> io::Result<()> {
    let millions = count as f64 / 1e6 / time.as_secs_f64();
    println!(rt; "{name}: {millions:.0} million a second ({check})")
}

/// Numbers without an order to see.
#[derive(Drop)]
struct Noise {
    state: u32,
}

impl Noise {
    fn next(&mut self) -> u32
        ensures { result < 2 ^ 24 }
    {
        self.state = self
            .state
            .wrapping_mul(1_664_525)
            .wrapping_add(1_013_904_223);
        self.state >> 8
    }
}

fn noisy_bytes(alloc: Global, count: u32) -> Result<Vec<u8>, AllocError> {
    let mut noise = Noise { state: 1 };
    let mut bytes = Vec::with_capacity(alloc, count as usize)?;
    for _ in 0..count {
        bytes.push((noise.next() >> 16) as u8)?;
    }
    Ok(bytes)
}

/// Values of 12 bits.
fn written(alloc: Global) -> Result<Vec<u8>, AllocError> {
    let mut noise = Noise { state: 1 };
    let mut writer = BitWriter::new(alloc);
    for _ in 0..VALUES {
        writer.put((noise.next() & 0xfff) as u64, WIDTH)?;
    }
    writer.pad()?;
    Ok(writer.into_bytes())
}

fn taken(bytes: &[u8]) -> u64 {
    let mut reader = BitReader::new(bytes);
    let mut sum = 0u64;
    for _ in 0..VALUES {
        match reader.take(WIDTH) {
            Ok(value) => sum = sum.wrapping_add(value),
            Err(_) => return 0,
        }
    }
    sum
}

/// Values as zeros, a one and three low bits, of which most have few zeros.
fn written_with_zeros(alloc: Global) -> Result<Vec<u8>, AllocError> {
    let mut noise = Noise { state: 1 };
    let mut writer = BitWriter::new(alloc);
    for _ in 0..VALUES {
        let bits = noise.next();
        let zeros = (bits | 0x80).trailing_zeros();
        writer.put((8 + (bits >> 8 & 7)) as u64, zeros + 1 + LOW)?;
    }
    writer.put(1, 1)?;
    writer.pad()?;
    Ok(writer.into_bytes())
}

fn counted(bytes: &[u8]) -> u64 {
    if bytes.len() > 1 << 40 {
        return 0;
    }
    let mut reader = BitReader::new(bytes);
    let mut sum = 0u64;
    for _ in 0..VALUES {
        match reader.unary() {
            Ok(zeros) => sum = sum.wrapping_add(zeros),
            Err(_) => return 0,
        }
        match reader.take(LOW) {
            Ok(low) => sum = sum.wrapping_add(low),
            Err(_) => return 0,
        }
    }
    sum
}
