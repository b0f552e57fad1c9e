//! Frame headers (RFC 9639, section 9.1).
ghost use Rattle.std.specs.Prelude.{◌≡◌, ◌<◌, ◌≤◌, if◌then◌else◌, slice_index};
ghost use Rattle.ff_bits.specs.Reading.{field, give};
ghost use Rattle.ff_bits.specs.NumberGrammar.{coded_below, of_31_bits, of_36_bits};
ghost use Rattle.ff_flac_frame.specs.Codes.{block_table};
ghost use Rattle.ff_flac_frame.specs.Frame.{block_of, rate_of, header};
ghost use Rattle.ff_flac_frame.specs.laws.Gives.{Gives};
ghost use Rattle.ff_flac_frame.specs.laws.Parts.{header_of};

use crate::end::FrameEnd;
use crate::field::read_field;
use crate::rule::Rule;
use crate::stream::FlacStream;
use ff_bits::{BitEnd, BitReader};

/// What a frame's header says.
#[derive(Clone, Copy, Debug)]
pub struct Header {
    /// Its coded number: which block it is, or which sample frame is its first.
    pub number: u64,
    /// The block size: sample frames.
    pub block: u32,
    /// The channel code (RFC 9639, section 9.1.3).
    pub form: u8,
}

/// The coded number, of at most 31 bits where blocks have one size, and of at most 36 where they do not.
fn read_number(reader: &mut BitReader, varies: bool) -> Result<u64, FrameEnd>
    ensures { Gives (λ v. v) result (coded_below (if varies then of_36_bits else of_31_bits) reader.old) reader.new }
{
    let end = if varies { 0xff } else { 0xfe };
    match reader.number_below(end) {
        Ok(number) => Ok(number),
        Err(BitEnd::Short) => Err(FrameEnd::NotYet),
        Err(BitEnd::BadNumber) => Err(FrameEnd::Never),
    }
}

/// The block size of a code.
fn table_block(code: u64) -> u32
    requires { code < 16 }
    ensures { result ≡ slice_index block_table code }
{
    match code {
        1 => 192,
        2 => 576,
        3 => 1152,
        4 => 2304,
        5 => 4608,
        8 => 256,
        9 => 512,
        10 => 1024,
        11 => 2048,
        12 => 4096,
        13 => 8192,
        14 => 16384,
        15 => 32768,
        _ => 0,
    }
}

#[tactic(auto, unfolding(crate::specs::Frame::block_of))]
fn read_block(reader: &mut BitReader, code: u64) -> Result<u32, FrameEnd>
    requires { code < 16 }
    ensures { Gives (λ v. v) result (block_of code reader.old) reader.new }
{
    if code == 6 {
        let v = read_field(reader, 8, Rule::Any)?;
        return Ok(v as u32 + 1);
    }
    if code == 7 {
        let v = read_field(reader, 16, Rule::Below(65535))?;
        return Ok(v as u32 + 1);
    }
    Ok(table_block(code))
}

#[tactic(auto, unfolding(crate::specs::Frame::rate_of))]
fn read_rate(reader: &mut BitReader, rate: u32, code: u64) -> Result<u64, FrameEnd>
    ensures { Gives (λ v. v) result (rate_of rate code reader.old) reader.new }
{
    if code == 12 {
        return read_field(reader, 8, Rule::Equal((rate / 1000) as u64));
    }
    if code == 13 {
        return read_field(reader, 16, Rule::Equal(rate as u64));
    }
    if code == 14 {
        return read_field(reader, 16, Rule::Equal((rate / 10) as u64));
    }
    Ok(0)
}

/// A frame's header, before its sum.
#[tactic(auto, unfolding(crate::specs::Frame::header))]
pub fn read_header(reader: &mut BitReader, stream: &FlacStream) -> Result<Header, FrameEnd>
    ensures { Gives header_of result (header stream.now reader.old) reader.new }
{
    let _sync = read_field(reader, 15, Rule::Equal(32764))?;
    let strategy = read_field(reader, 1, Rule::Any)?;
    let size = read_field(reader, 4, Rule::NotZero)?;
    let rate = read_field(reader, 4, Rule::Rate(stream.rate))?;
    let form = read_field(reader, 4, Rule::Form(stream.channels))?;
    let _depth = read_field(reader, 3, Rule::Depth(stream.bits))?;
    let _zero = read_field(reader, 1, Rule::Equal(0))?;
    let number = read_number(reader, strategy != 0)?;
    let block = read_block(reader, size)?;
    let _rate = read_rate(reader, stream.rate, rate)?;
    Ok(Header {
        number,
        block,
        form: form as u8,
    })
}
