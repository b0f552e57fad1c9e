//! The values that strings read as, by the kind of their option.
ghost use Rattle.std.specs.Prelude.{◌≡◌, ◌-◌, ◌^◌, ◌<◌, ◌≤◌, ℕ, length, IfOk, MatchOption, None};
ghost use Rattle.ff_time.specs.Duration.{IsDigit};
ghost use Rattle.ff_words.specs.maps.Grammar.{IsNumber};
ghost use Rattle.ff_words.specs.Values.{Reads, ReadsGraph, ReadsTime, ReadsMap, ReadsWhole, hash_value, rf64_value, pixels_value, is_spelled, switched};
ghost use Rattle.ff_words.specs.Values.{value_named, IsSmall, ReadsNumber, ReadsLevel, mode_value};
ghost use Rattle.ff_words.specs.Table.{is_level as level_named};

use crate::error::WordKind;
use crate::job::Solo;
use crate::maps::{MapError, MapSpec, read_map};
use crate::naming::{input_name, trace_name};
use crate::numbers::{rate_of, size_of};
use crate::table::{
    Kind, audio_codec, format_of, is_frame_mode, is_level, is_sync_mode, video_codec,
};
use crate::value::{Micros, Value};
use ff_format::Rf64;
use ff_frame::{Format, HashKind};
use ff_lang::{Graph, LangError, Text, read_graph};
use ff_time::{TimeError, read_duration};
use std::alloc::{AllocError, Global};

// A graph, or where it leaves the language.
fn graph_of(alloc: Global, text: &str) -> Result<Result<Graph, WordKind>, AllocError>
    ensures { IfOk result (λ r. ReadsGraph text.now r) }
{
    match read_graph(alloc, text) {
        Ok(graph) => Ok(Ok(graph)),
        Err(LangError::Bad { at }) => Ok(Err(WordKind::BadGraph { at })),
        Err(LangError::NoMemory) => Err(AllocError),
    }
}

// A map, or where it leaves the grammar.
fn map_of(alloc: Global, text: &str) -> Result<Result<MapSpec, WordKind>, AllocError>
    ensures { IfOk result (λ r. ReadsMap text.now r) }
{
    match read_map(alloc, text) {
        Ok(map) => Ok(Ok(map)),
        Err(MapError::Bad { at }) => Ok(Err(WordKind::BadMap { at })),
        Err(MapError::NoMemory) => Err(AllocError),
    }
}

fn micros(us: u64) -> Micros
    requires { us ≤ 10 ^ 15 }
    ensures { result.us ≡ us }
{
    Micros { us }
}

// Microseconds, or where the string is no time.
fn time_of(text: &str) -> Result<Micros, WordKind>
    ensures { ReadsTime text.now result }
{
    match read_duration(text.as_bytes()) {
        Ok(us) => Ok(micros(us)),
        Err(TimeError::BadTime { at }) => Err(WordKind::BadTime { at }),
        Err(_) => Err(WordKind::BadTime { at: text.len() }),
    }
}

fn digit_of(byte: u8) -> Option<u8>
    ensures { MatchOption result (IsDigit byte → ⊥) (λ digit. IsDigit byte × (digit ≡ byte - 48)) }
{
    if byte < b'0' || byte > b'9' {
        None
    } else {
        Some(byte - b'0')
    }
}

// The number of some digits, at most nine.
fn number_in(text: &[u8]) -> Option<u32>
    requires some { 0 < length text.now }
    requires short { length text.now ≤ 9 }
    ensures { MatchOption result ((n : ℕ) → IsNumber text.now n → ⊥) (λ n. IsNumber text.now n) }
{
    let mut number = 0u32;
    for byte in text.iter() {
        match digit_of(*byte) {
            Some(digit) => number = number * 10 + u32::from(digit),
            None => return None,
        }
    }
    Some(number)
}

// The number of 1 to 9 digits.
fn number_of(text: &[u8]) -> Option<u32>
    ensures { MatchOption result ((n : ℕ) → IsNumber text.now n → ⊥) (λ n. IsNumber text.now n) }
{
    if text.len() == 0 {
        return None;
    }
    if text.len() > 9 {
        return None;
    }
    number_in(text)
}

// A whole number in its range.
fn whole_of(text: &str, low: u32, high: u32) -> Result<u32, WordKind>
    ensures { ReadsWhole low high text.now result }
{
    match number_of(text.as_bytes()) {
        Some(number) => {
            if low <= number && number <= high {
                Ok(number)
            } else {
                Err(WordKind::BadValue)
            }
        }
        None => Err(WordKind::BadValue),
    }
}

// A whole number that has no effect.
fn passed_number(text: &str) -> Result<Value, WordKind>
    ensures { ReadsNumber text.now result }
{
    match whole_of(text, 0, 999999999) {
        Ok(_number) => Ok(Value::Nothing),
        Err(kind) => Err(kind),
    }
}

// A level of the list, or a whole number; it has no effect.
fn level_of(text: &str) -> Result<Value, WordKind>
    ensures { ReadsLevel (level_named text.now) text.now result }
{
    if is_level(text) {
        Ok(Value::Nothing)
    } else {
        passed_number(text)
    }
}

// A value that has no effect, where it is in its set.
fn mode(fine: bool) -> Option<Value>
    ensures { result ≡ mode_value fine }
{
    if fine { Some(Value::Nothing) } else { None }
}

fn is_name(text: &str, name: &str) -> bool
    ensures { result ≡ is_spelled text.now name.now }
{
    text.eq_ignore_ascii_case(name)
}

fn hash_of(text: &str) -> Option<Value>
    ensures { result ≡ hash_value text.now }
{
    if is_name(text, "SHA256") {
        Some(Value::Hash(HashKind::Sha256))
    } else if is_name(text, "MD5") {
        Some(Value::Hash(HashKind::Md5))
    } else {
        None
    }
}

fn rf64_of(text: &str) -> Option<Value>
    ensures { result ≡ rf64_value text.now }
{
    if text == "never" {
        Some(Value::Rf64(Rf64::Never))
    } else if text == "auto" {
        Some(Value::Rf64(Rf64::Auto))
    } else if text == "always" {
        Some(Value::Rf64(Rf64::Always))
    } else {
        None
    }
}

fn pixels_of(text: &str) -> Option<Value>
    ensures { result ≡ pixels_value text.now }
{
    if text == "yuv420p" {
        Some(Value::Pixels(Format::C420))
    } else if text == "yuv422p" {
        Some(Value::Pixels(Format::C422))
    } else if text == "yuv444p" {
        Some(Value::Pixels(Format::C444))
    } else if text == "gray" {
        Some(Value::Pixels(Format::Mono))
    } else {
        None
    }
}

/// A copy of a string.
pub fn text_of(alloc: Global, text: &str) -> Result<Text, AllocError>
    ensures { IfOk result (λ copy. copy ≡ text.now) }
{
    Ok(Text::of(String::from_str(alloc, text)?))
}

/// What the string reads as, as the value of an option of this kind, which has one.
pub(crate) fn read_value(
    alloc: Global,
    kind: Kind,
    text: &str,
) -> Result<Result<Value, WordKind>, AllocError>
    requires { switched kind ≡ None }
    ensures { IfOk result (λ r. Reads kind text.now r) }
{
    match kind {
        Kind::Complex => match graph_of(alloc, text)? {
            Ok(graph) => Ok(Ok(Value::Complex(graph))),
            Err(kind) => Ok(Err(kind)),
        },
        Kind::VideoGraph => match graph_of(alloc, text)? {
            Ok(graph) => Ok(Ok(Value::VideoGraph(graph))),
            Err(kind) => Ok(Err(kind)),
        },
        Kind::AudioGraph => match graph_of(alloc, text)? {
            Ok(graph) => Ok(Ok(Value::AudioGraph(graph))),
            Err(kind) => Ok(Err(kind)),
        },
        Kind::Map => match map_of(alloc, text)? {
            Ok(map) => Ok(Ok(Value::Map(map))),
            Err(kind) => Ok(Err(kind)),
        },
        Kind::Input => match input_name(text) {
            Some(name) => Ok(Ok(Value::Input(text_of(alloc, name)?))),
            None => Ok(Err(WordKind::BadValue)),
        },
        Kind::Trace => match trace_name(text) {
            Some(name) => Ok(Ok(Value::Trace(text_of(alloc, name)?))),
            None => Ok(Err(WordKind::BadValue)),
        },
        kind => Ok(read_small(kind, text)),
    }
}

// The same of a value that is no string and no structure.
fn read_small(kind: Kind, text: &str) -> Result<Value, WordKind>
    requires { IsSmall kind }
    ensures { Reads kind text.now result }
{
    match kind {
        Kind::Level => level_of(text),
        Kind::Word => Ok(Value::Nothing),
        Kind::Number => passed_number(text),
        Kind::Start => match time_of(text) {
            Ok(micros) => Ok(Value::Start(micros)),
            Err(kind) => Err(kind),
        },
        Kind::Length => match time_of(text) {
            Ok(micros) => Ok(Value::Length(micros)),
            Err(kind) => Err(kind),
        },
        Kind::End => match time_of(text) {
            Ok(end) => Ok(Value::End {
                end,
                len: text.len(),
            }),
            Err(kind) => Err(kind),
        },
        Kind::Queue => match whole_of(text, 1, 1024) {
            Ok(size) => Ok(Value::Queue(size)),
            Err(kind) => Err(kind),
        },
        Kind::Frames => match whole_of(text, 0, 999999999) {
            Ok(frames) => Ok(Value::Frames(frames)),
            Err(kind) => Err(kind),
        },
        Kind::Rate => match whole_of(text, 1, 999999999) {
            Ok(rate) => Ok(Value::Rate(rate)),
            Err(kind) => Err(kind),
        },
        Kind::Channels => match whole_of(text, 1, 8) {
            Ok(channels) => Ok(Value::Channels(channels)),
            Err(kind) => Err(kind),
        },
        Kind::FrameRate => match rate_of(text) {
            Ok(base) => Ok(Value::FrameRate(base)),
            Err(kind) => Err(kind),
        },
        Kind::SelfRun => match whole_of(text, 0, 3600) {
            Ok(seconds) => Ok(Value::Solo(Solo::SelfRun(seconds))),
            Err(kind) => Err(kind),
        },
        kind => named_value(kind, text).ok_or(WordKind::BadValue),
    }
}

// The value of a list that the string names.
fn named_value(kind: Kind, text: &str) -> Option<Value>
    ensures { result ≡ value_named kind text.now }
{
    match kind {
        Kind::Format => match format_of(text) {
            Some(named) => Some(Value::Format {
                format: named.format,
                read: named.read,
                written: named.written,
            }),
            None => None,
        },
        Kind::AudioCodec => match audio_codec(text) {
            Some(codec) => Some(Value::AudioCodec(codec)),
            None => None,
        },
        Kind::VideoCodec => match video_codec(text) {
            Some(codec) => Some(Value::VideoCodec(codec)),
            None => None,
        },
        Kind::FrameMode => mode(is_frame_mode(text)),
        Kind::SyncMode => mode(is_sync_mode(text)),
        Kind::Hash => hash_of(text),
        Kind::Rf64 => rf64_of(text),
        Kind::Pixels => pixels_of(text),
        Kind::Size => match size_of(text) {
            Some(size) => Some(Value::Size(size)),
            None => None,
        },
        _ => None,
    }
}
