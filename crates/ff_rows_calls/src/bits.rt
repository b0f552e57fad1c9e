//! Calls that read and write bits, and of the checksums.
ghost use Rattle.std.specs.Prelude.{◌<◌, ◌^◌};

use crate::table::Stop;
use crate::told::Told;
use crate::words::Call;
use ff_bits::{BitEnd, BitReader, BitWriter, crc8, crc16};
use std::alloc::AllocError;

fn tell(told: &mut Told, read: Result<u64, BitEnd>) {
    match read {
        Ok(value) => told.count(value),
        Err(BitEnd::Short) => told.text("short"),
        Err(BitEnd::BadNumber) => told.text("no number"),
    }
}

fn tell_taken(told: &mut Told, read: Result<u64, BitEnd>) {
    match read {
        Ok(value) => told.hex_number(value),
        Err(_) => told.text("short"),
    }
}

fn tell_code(told: &mut Told, read: Option<(u32, u64)>) {
    match read {
        Some((zeros, low)) => {
            told.count(u64::from(zeros));
            told.text(" zeros ");
            told.hex_number(low);
        }
        None => told.text("none"),
    }
}

// Does a step of a reading that takes a number.
fn counted_step(told: &mut Told, reader: &mut BitReader, name: &str, count: u32) {
    match name {
        "take" if count <= 64 => tell_taken(told, reader.take(count)),
        "has" if count <= 64 => told.text(if reader.has(count) { "yes" } else { "no" }),
        "code" if count <= 57 => tell_code(told, reader.code(count)),
        "zeros" => tell(told, reader.zeros(u64::from(count))),
        "number_below" if 0xc0 < count && count <= 0xff => {
            tell(told, reader.number_below(u64::from(count)));
        }
        _ => told.fail(Stop::Unreadable),
    }
}

fn plain_step(told: &mut Told, reader: &mut BitReader, name: &str) {
    let bytes = reader.bytes_left();
    if bytes > 1 << 40 {
        return told.fail(Stop::Unreadable);
    }
    match name {
        "unary" => tell(told, reader.unary()),
        "number" => tell(told, reader.number()),
        "left" => told.count(reader.left()),
        "bytes_left" => told.count(bytes as u64),
        "bits_to_byte" => told.count(u64::from(reader.bits_to_byte())),
        _ => told.fail(Stop::Unreadable),
    }
}

fn step(told: &mut Told, reader: &mut BitReader, word: &str) {
    let Some((name, count)) = word.split_once('=') else {
        return plain_step(told, reader, word);
    };
    match count.parse::<u32>() {
        Ok(count) => counted_step(told, reader, name, count),
        Err(_) => told.fail(Stop::Unreadable),
    }
}

/// `bits BYTES STEP..`: what each step of a reading of these bytes answers. The steps: `take=N`, `has=N`, `code=N`,
/// `zeros=LIMIT`, `number_below=END`, `unary`, `number`, `left`, `bytes_left`, `bits_to_byte`.
pub fn read(call: &mut Call, told: &mut Told) {
    let bytes = call.bytes(0);
    let mut reader = BitReader::new(bytes.as_slice());
    for at in 1..call.len() {
        if at > 1 {
            told.text(", ");
        }
        step(told, &mut reader, call.text(at));
    }
}

// Writes a value in so many bits.
fn put(call: &mut Call, writer: &mut BitWriter, value: u64, count: u64) -> Result<(), AllocError> {
    match count {
        0..=63 if value < 1 << count => writer.put(value, count as u32),
        64 => writer.put(value, 64),
        100 => writer.put(value, 100),
        _ => {
            call.misread();
            Ok(())
        }
    }
}

fn put_number(call: &mut Call, writer: &mut BitWriter, word: &str) -> Result<(), AllocError> {
    let value = call.read_number(word);
    if value >= 1 << 36 {
        call.misread();
        return Ok(());
    }
    writer.put_number(value)
}

fn put_word(call: &mut Call, writer: &mut BitWriter, word: &str) {
    let done = match word.split_once('/') {
        Some((value, count)) => {
            let (value, count) = (call.read_number(value), call.read_number(count));
            put(call, writer, value, count)
        }
        None => put_number(call, writer, word),
    };
    call.note(done);
}

/// `written WORD..`: the bytes of bits, filled up with zeros: `VALUE/COUNT` is a value in so many bits (up to 64, or 100),
/// `VALUE` alone a coded number.
pub fn written(call: &mut Call, told: &mut Told) {
    let mut writer = BitWriter::new(call.alloc);
    for at in 0..call.len() {
        let word = call.text(at);
        put_word(call, &mut writer, word);
    }
    match writer.pad() {
        Ok(()) => told.hex(writer.into_bytes().as_slice()),
        Err(_) => told.fail(Stop::Broken),
    }
}

/// `crc8 BYTES`: the sum of 8 bits.
pub fn sum_of_8(call: &mut Call, told: &mut Told) {
    let bytes = call.bytes(0);
    told.hex_number(u64::from(crc8(bytes.as_slice())));
}

/// `crc16 BYTES`: the sum of 16 bits.
pub fn sum_of_16(call: &mut Call, told: &mut Told) {
    let bytes = call.bytes(0);
    told.hex_number(u64::from(crc16(bytes.as_slice())));
}
