//! The chunks and lists before the data (AVI RIFF File Reference).
ghost use Rattle.std.specs.Prelude.{◌≡◌, ◌+◌, ◌≤◌, ◌<◌, ◌^◌, ℕ, length};
ghost use Rattle.ff_reader.specs.declared.step.Step.TheVariants.{Skip};
ghost use Rattle.ff_avi.specs.declared.head.AviState.{AviState};
ghost use Rattle.ff_avi.specs.Lists.{rest_of, passed as step_past, with_stream, after_stream, data_list, outer_list, inner_list, unit};

use crate::head::{AviHead, AviState, AviStep};
use crate::stream::{Told, has_word, padded, stream};
use ff_frame::StreamHead;
use ff_reader::{HeadFault, Step};
use ff_wav::at_32;

// How many bytes of a chunk follow its first one.
fn rest(bytes: &[u8]) -> u64
    requires { 8 ≤ length bytes.now }
    ensures value { result ≡ rest_of bytes.now }
    ensures few { result ≤ 2 ^ 32 + 7 }
{
    7 + padded(at_32(bytes, 4))
}

// Passes over so many bytes after the first.
#[tactic(auto, unfolding(crate::specs::Lists::passed))]
fn passed(known: AviState, rest: u64) -> AviStep
    requires { rest ≤ 2 ^ 32 + 7 }
    ensures value { result ≡ step_past known rest }
    ensures small { (size : ℕ) (next : AviState) → result ≡ Skip size next → size ≤ 2 ^ 33 }
{
    if known.left == 0 {
        return Step::Skip(rest, known);
    }
    if rest + 1 < known.left {
        let left = known.left - (rest + 1);
        return Step::Skip(rest, AviState { left, ..known });
    }
    Step::Skip(
        known.left + known.left % 2 - 1,
        AviState { left: 0, ..known },
    )
}

// What is known with one stream more.
fn with(known: AviState, head: StreamHead) -> AviState
    ensures { result ≡ with_stream known known.first head }
{
    match known.first {
        None => AviState {
            first: Some(head),
            ..known
        },
        Some(_) => AviState {
            second: Some(head),
            ..known
        },
    }
}

// Goes on behind the list of a stream.
fn after(known: AviState, rest: u64, told: Told) -> AviStep
    requires { rest ≤ 2 ^ 32 + 7 }
    ensures value { result ≡ after_stream known rest told }
    ensures small { (size : ℕ) (next : AviState) → result ≡ Skip size next → size ≤ 2 ^ 33 }
{
    match told {
        None => Step::Wait,
        Some(Err(fault)) => Step::Decide(Err(fault)),
        Some(Ok(head)) => passed(with(known, head), rest),
    }
}

// The list of the data ends the head.
fn data(first: Option<StreamHead>, second: Option<StreamHead>, at: u64) -> AviStep
    requires { at < 2 ^ 32 }
    ensures value { result ≡ data_list first second at }
    ensures small { (size : ℕ) (next : AviState) → result ≡ Skip size next → size ≤ 2 ^ 33 }
{
    match first {
        None => Step::Decide(Err(HeadFault::Damaged { offset: at })),
        Some(first) => Step::Decide(Ok(AviHead {
            first,
            second,
            start: at + 12,
        })),
    }
}

// A list outside of the list of heads.
#[tactic(auto, unfolding(crate::specs::Lists::outer_list))]
fn outer(known: AviState, at: u64, bytes: &[u8]) -> AviStep
    requires place { at < 2 ^ 32 }
    requires there { 12 ≤ length bytes.now }
    ensures value { result ≡ outer_list known at bytes.now }
    ensures small { (size : ℕ) (next : AviState) → result ≡ Skip size next → size ≤ 2 ^ 33 }
{
    if has_word(bytes, 8, b"movi") {
        return data(known.first, known.second, at);
    }
    let size = at_32(bytes, 4);
    if has_word(bytes, 8, b"hdrl") && size >= 4 {
        let left = size as u64 - 4;
        return Step::Skip(11, AviState { left, ..known });
    }
    passed(known, rest(bytes))
}

// A list within the list of heads.
#[tactic(auto, unfolding(crate::specs::Lists::inner_list))]
fn inner(known: AviState, at: u64, bytes: &[u8]) -> AviStep
    requires place { at < 2 ^ 32 }
    requires there { 12 ≤ length bytes.now }
    ensures value { result ≡ inner_list known at bytes.now }
    ensures small { (size : ℕ) (next : AviState) → result ≡ Skip size next → size ≤ 2 ^ 33 }
{
    if has_word(bytes, 8, b"strl") {
        return after(known, rest(bytes), stream(&known, at, bytes));
    }
    passed(known, rest(bytes))
}

/// What the chunk or list does that begins the bytes.
#[tactic(auto, unfolding(crate::specs::Lists::unit))]
pub(crate) fn unit_at(known: AviState, at: u64, bytes: &[u8]) -> AviStep
    requires { at < 2 ^ 32 }
    ensures value { result ≡ unit known at bytes.now }
    ensures small { (size : ℕ) (next : AviState) → result ≡ Skip size next → size ≤ 2 ^ 33 }
{
    if bytes.len() < 8 {
        return Step::Wait;
    }
    if !has_word(bytes, 0, b"LIST") {
        return passed(known, rest(bytes));
    }
    if 0 < known.left && at_32(bytes, 4) < 4 {
        return passed(known, rest(bytes));
    }
    if bytes.len() < 12 {
        return Step::Wait;
    }
    if known.left == 0 {
        outer(known, at, bytes)
    } else {
        inner(known, at, bytes)
    }
}
