//! The lines of files that are one digest of all packets, or one of each stream.
ghost use Rattle.std.specs.Prelude.{◌≡◌, ℕ, ◌<◌, ◌*◌, ◌+◌, List, ◌++◌, IfOk, OnOk, codes, decimal};
ghost use Rattle.ff_lists.specs.Text.{line as line_of};
ghost use Rattle.ff_mux.specs.CrcTexts.{sum_text};
ghost use Rattle.ff_mux.specs.DigestTexts.{letter, named_digest};
ghost use Rattle.ff_mux.specs.laws.Hashers.{hasher_kind, HasTaken};

use crate::adler::{Sums, both};
use crate::digest::Hasher;
use crate::frame_crc::push_sum;
use ff_frame::StreamHead;
use std::alloc::{AllocError, Global};

// Adds a digest behind its name.
fn push_named(line: &mut Vec<u8>, name: &[u8], digest: &str) -> Result<(), AllocError>
    ensures { OnOk result (line.new.items ≡ line.old.items ++ (name.now ++ codes "=" ++ digest.now)) }
{
    line.extend_from_slice(name)?;
    line.extend_from_slice(b"=")?;
    line.extend_from_slice(digest.as_bytes())?;
    Ok(())
}

/// The line of the digest of the bytes that were taken.
pub(crate) fn joined_line(alloc: Global, hasher: &Hasher) -> Result<Vec<u8>, AllocError>
    ensures { IfOk result (λ text. (all : List ℕ) → HasTaken hasher.now all → text.items ≡ line_of (named_digest (hasher_kind hasher.now) all)) }
{
    let digest = hasher.text(alloc)?;
    let mut line = Vec::new(alloc);
    push_named(&mut line, hasher.name(), digest.as_str())?;
    line.push(b'\n')?;
    Ok(line)
}

/// The line of an Adler-32 sum.
pub(crate) fn sum_line(alloc: Global, sums: Sums) -> Result<Vec<u8>, AllocError>
    requires small_bytes { sums.bytes < 65521 }
    requires small_sums { sums.sums < 65521 }
    ensures { IfOk result (λ text. text.items ≡ line_of (codes "CRC=" ++ sum_text (sums.sums * 65536 + sums.bytes))) }
{
    let mut line = Vec::from_slice(alloc, b"CRC=")?;
    push_sum(alloc, &mut line, both(sums))?;
    line.push(b'\n')?;
    Ok(line)
}

// The letter of a kind of stream, between commas.
fn letter_of(head: &StreamHead) -> &'static [u8]
    ensures { result.now ≡ codes "," ++ letter head.now ++ codes "," }
{
    match head {
        StreamHead::Audio { .. } => b",a,",
        StreamHead::Video { .. } => b",v,",
    }
}

/// Adds the line of a stream: its number, its kind, and the digest of the bytes that were taken.
pub(crate) fn push_stream_line(
    alloc: Global,
    text: &mut Vec<u8>,
    stream: u32,
    head: &StreamHead,
    hasher: &Hasher,
) -> Result<(), AllocError>
    ensures { OnOk result ((all : List ℕ) → HasTaken hasher.now all → text.new.items
        ≡ text.old.items ++ line_of (decimal stream ++ codes "," ++ letter head.now ++ codes "," ++ named_digest (hasher_kind hasher.now) all)) }
{
    let digest = hasher.text(alloc)?;
    let number = stream.to_string(alloc)?;
    text.extend_from_slice(number.as_bytes())?;
    text.extend_from_slice(letter_of(head))?;
    push_named(text, hasher.name(), digest.as_str())?;
    text.push(b'\n')?;
    Ok(())
}
