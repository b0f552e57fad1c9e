//! The header of a frame, and its end.

ghost use Rattle.std.specs.Prelude.{◌≡◌, ◌+◌, ◌-◌, ◌*◌, ◌^◌, ◌<◌, ◌≤◌, ◌%◌, ◌++◌, length, IfOk, OnOk};
ghost use Rattle.std.specs.List.{flat_map};
ghost use Rattle.ff_bits.specs.Bits.{bits, bits_of};
ghost use Rattle.ff_bits.specs.Number.{shortest};
ghost use Rattle.ff_flac_enc.specs.Head.{IsHead, block_code, block_bits_by, rate_code, depth_code, codes_bits, header_bits, opened, closed};

use ff_bits::{BitWriter, crc8, crc16};
use ff_flac_frame::FlacStream;
use std::alloc::{AllocError, Global};

/// What a frame's header says beside its channel code.
#[derive(Clone, Copy)]
pub struct Head {
    /// The rate, depth and channels of the stream.
    pub stream: FlacStream,
    /// Which block of the stream it is.
    pub number: u32,
    /// How many sample frames it has.
    pub block: u32,
}

/// The block size code.
#[tactic(auto, unfolding(crate::specs::Head::block_code))]
fn code_of_block(block: u32) -> u64
    ensures is { result ≡ block_code block }
    ensures small { result < 16 }
{
    match block {
        192 => 1,
        576 => 2,
        1152 => 3,
        2304 => 4,
        4608 => 5,
        256 => 8,
        512 => 9,
        1024 => 10,
        2048 => 11,
        4096 => 12,
        8192 => 13,
        16384 => 14,
        32768 => 15,
        _ => { if block <= 256 { 6 } else { 7 } }
    }
}

/// The rate code.
#[tactic(auto, unfolding(crate::specs::Head::rate_code))]
fn code_of_rate(rate: u32) -> u64
    ensures is { result ≡ rate_code rate }
    ensures small { result < 16 }
{
    match rate {
        88200 => 1,
        176400 => 2,
        192000 => 3,
        8000 => 4,
        16000 => 5,
        22050 => 6,
        24000 => 7,
        32000 => 8,
        44100 => 9,
        48000 => 10,
        96000 => 11,
        _ => 0,
    }
}

/// The depth code.
#[tactic(auto, unfolding(crate::specs::Head::depth_code))]
fn code_of_depth(bits: u8) -> u64
    ensures is { result ≡ depth_code bits }
    ensures small { result < 8 }
{
    match bits {
        8 => 1,
        12 => 2,
        16 => 4,
        20 => 5,
        24 => 6,
        _ => 0,
    }
}

/// Writes the block size that the code asks for.
#[tactic(auto, unfolding(crate::specs::Head::block_bits_by))]
fn put_block(out: &mut BitWriter, code: u64, block: u32) -> Result<(), AllocError>
    requires some { 1 ≤ block }
    requires few { block ≤ 4096 }
    requires code { code ≡ block_code block }
    ensures { OnOk result (out.new ≡ out.old ++ block_bits_by code block) }
{
    if code == 6 {
        out.put(block as u64 - 1, 8)?;
        return Ok(());
    }
    if code == 7 {
        out.put(block as u64 - 1, 16)?;
    }
    Ok(())
}

/// The first four bytes of a frame.
#[tactic(auto, unfolding(crate::specs::Head::codes_bits))]
fn codes(alloc: Global, head: &Head, form: u8) -> Result<BitWriter, AllocError>
    requires form { form < 16 }
    ensures { IfOk result (λ out. out ≡ codes_bits head.now form) }
{
    let mut out = BitWriter::new(alloc);
    out.put(32764, 15)?;
    out.put(0, 1)?;
    out.put(code_of_block(head.block), 4)?;
    out.put(code_of_rate(head.stream.rate), 4)?;
    out.put(form as u64, 4)?;
    out.put(code_of_depth(head.stream.bits), 3)?;
    out.put(0, 1)?;
    Ok(out)
}

/// The bytes of the header without its sum.
#[tactic(auto, unfolding(crate::specs::Head::header_bits))]
fn header(alloc: Global, head: &Head, form: u8) -> Result<Vec<u8>, AllocError>
    requires head { IsHead head.now }
    requires form { form < 16 }
    ensures { IfOk result (λ v. bits v.items ≡ header_bits head.now form) }
{
    let mut out = codes(alloc, head, form)?;
    out.put_number(head.number as u64)?;
    put_block(&mut out, code_of_block(head.block), head.block)?;
    Ok(out.into_bytes())
}

/// Writes bytes.
fn put_bytes(out: &mut BitWriter, bytes: &[u8]) -> Result<(), AllocError>
    ensures { OnOk result (out.new ≡ out.old ++ flat_map (bits_of 8) bytes.now) }
{
    for byte in bytes {
        out.put(*byte as u64, 8)?;
    }
    Ok(())
}

/// The header of a frame under a channel code, and its sum.
pub fn open_frame(alloc: Global, head: &Head, form: u8) -> Result<BitWriter, AllocError>
    requires head { IsHead head.now }
    requires form { form < 16 }
    ensures { IfOk result (λ out. out ≡ opened head.now form) }
{
    let bytes = header(alloc, head, form)?;
    let mut out = BitWriter::new(alloc);
    put_bytes(&mut out, &bytes)?;
    out.put(crc8(&bytes) as u64, 8)?;
    Ok(out)
}

/// The bytes of a frame whose subframes were written, with its padding and its sum.
pub fn close_frame(mut out: BitWriter) -> Result<Vec<u8>, AllocError>
    ensures { IfOk result (λ v. bits v.items ≡ closed out) }
{
    out.pad()?;
    let mut bytes = out.into_bytes();
    let sum = crc16(&bytes);
    bytes.push((sum >> 8) as u8)?;
    bytes.push((sum % 256) as u8)?;
    Ok(bytes)
}
