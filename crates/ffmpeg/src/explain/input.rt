//! An input that isn't read, or that breaks its format.
use crate::explain::au::tell_au_field;
use crate::explain::avi::tell_avi_field;
use crate::explain::bytes::{stands, tell_bytes};
use crate::explain::flac::tell_flac_field;
use crate::explain::line::CommandLine;
use crate::explain::quoted::{tell_listed, tell_quoted};
use crate::explain::told::Told;
use crate::explain::values::read_formats;
use crate::explain::wav::tell_wav_field;
use crate::explain::y4m::tell_y4m_field;
use ff_words::Kind;

/// How many of an input's first bytes are looked at.
pub const FRONT: usize = 65_536;

/// How long a head may be.
const LONGEST_HEAD: u64 = 268_435_456;

/// What is known of an input besides the words.
#[derive(Clone, Copy)]
pub(crate) struct Known<'a> {
    /// Its number.
    pub(crate) input: u32,
    /// The offset of what isn't read, or breaks its format.
    pub(crate) offset: u64,
    /// Its first bytes, where they can be read again.
    pub(crate) front: Option<&'a [u8]>,
}

// The formats that an input may have: that of its `-f`, or all.
fn tell_wanted(told: &mut Told, line: &CommandLine, input: u32) {
    let asked = line
        .input(input)
        .and_then(|file| line.last_value(file, Kind::Format));
    match asked {
        Some(format) => told.text(format),
        None => {
            let all = read_formats(told);
            tell_listed(told, all.as_slice(), " or ");
        }
    }
}

// What an input begins with: four bytes, and behind a size the kind of a RIFF.
fn tell_begin(told: &mut Told, front: &[u8]) {
    tell_bytes(told, front.get(..4).unwrap_or(front));
    if let Some(kind) = front.get(8..12)
        && stands(front, 0, b"RIFF")
    {
        told.text(" and then ");
        tell_bytes(told, kind);
    }
}

// An input of no format that may be there.
fn tell_no_format(told: &mut Told, line: &CommandLine, known: Known) {
    match known.front {
        Some([]) => {
            told.text("it is empty, and not ");
            tell_wanted(told, line, known.input);
        }
        Some(front) => {
            told.text("it isn't ");
            tell_wanted(told, line, known.input);
            told.text(": it begins with ");
            tell_begin(told, front);
        }
        None => {
            told.text("it isn't ");
            tell_wanted(told, line, known.input);
        }
    }
}

// Tells the field of a head at an offset, by the format whose first bytes the input has, and answers whether it could.
fn tell_field(told: &mut Told, front: &[u8], at: usize) -> bool {
    if stands(front, 0, b"RIFF") && stands(front, 8, b"AVI ") {
        tell_avi_field(told, front, at)
    } else if stands(front, 0, b"RIFF") || stands(front, 0, b"RF64") {
        tell_wav_field(told, front, at)
    } else if stands(front, 0, b".snd") {
        tell_au_field(told, front, at)
    } else if stands(front, 0, b"fLaC") {
        tell_flac_field(told, front, at)
    } else if stands(front, 0, b"YUV4MPEG2") {
        tell_y4m_field(told, front, at)
    } else {
        false
    }
}

// Tells a number between two strings.
fn tell_between(told: &mut Told, before: &str, number: u64, after: &str) {
    told.text(before);
    told.number(number);
    told.text(after);
}

// What stands in a head at an offset.
fn tell_at_offset(told: &mut Told, known: Known) {
    let offset = known.offset;
    if offset == LONGEST_HEAD {
        return tell_between(told, "its head isn't over within ", offset, " bytes");
    }
    let front = known.front.unwrap_or(&[]);
    if front.len() as u64 == offset && front.len() < FRONT && !front.is_empty() {
        return tell_between(told, "it ends at byte ", offset, ", within its head");
    }
    if tell_field(told, front, offset as usize) {
        tell_between(told, " (at offset ", offset, ")");
    } else {
        tell_between(told, "what stands at offset ", offset, " isn't read");
    }
}

fn tell_name(told: &mut Told, line: &CommandLine, input: u32) {
    match line.input(input) {
        Some(file) => tell_quoted(told, line.word(file.name)),
        None => tell_between(told, "input ", u64::from(input), ""),
    }
}

/// Tells of an input of a kind that isn't read.
pub(crate) fn tell_unsupported(told: &mut Told, line: &CommandLine, known: Known) {
    tell_name(told, line, known.input);
    told.text(" isn't read: ");
    if known.offset == 0 {
        tell_no_format(told, line, known);
    } else {
        tell_at_offset(told, known);
    }
}

/// Tells of an input whose head breaks its format, or where outputs are there already what follows it.
pub(crate) fn tell_damaged(told: &mut Told, line: &CommandLine, known: Known, begun: bool) {
    tell_name(told, line, known.input);
    told.text(" is damaged: ");
    if begun {
        let part = if stands(known.front.unwrap_or(&[]), 0, b"RIFF") {
            "no whole chunk begins at offset "
        } else {
            "no whole frame begins at offset "
        };
        tell_between(told, part, known.offset, "");
    } else {
        tell_at_offset(told, known);
    }
}
