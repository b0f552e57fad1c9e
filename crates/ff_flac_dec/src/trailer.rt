//! The tags behind the last frame (APEv2, ID3v1).
ghost use Rattle.std.specs.Prelude.{◌≡◌, ◌≢◌, ◌≤◌, ◌<◌, ◌^◌, ◌⊎◌, ℕ, true, false, length};
ghost use Rattle.ff_frame.specs.declared.packet.Pkt.{Pkt};
ghost use Rattle.ff_flac_dec.specs.Trailers.{ape_size, is_id3, is_ape, are_tags as tags_in};
ghost use Rattle.ff_flac_dec.specs.laws.Trails.{may_be_id3, may_be_ape, may_be_tags};

use ff_frame::Cut;
use ff_lists::from_place;
use ff_reader::agree;

/// What an ID3v1 tag begins with.
const ID3_MAGIC: [Option<u8>; 3] = [Some(b'T'), Some(b'A'), Some(b'G')];

/// What an APEv2 tag begins with.
const APE_MAGIC: [Option<u8>; 8] = [
    Some(b'A'),
    Some(b'P'),
    Some(b'E'),
    Some(b'T'),
    Some(b'A'),
    Some(b'G'),
    Some(b'E'),
    Some(b'X'),
];

// How many bytes an APEv2 tag has, with its header.
fn ape_size_at(bytes: &[u8]) -> u64
    requires { 32 ≤ length bytes.now }
    ensures value { result ≡ ape_size bytes.now }
    ensures bound { result < 2 ^ 33 }
{
    32 + bytes[12] as u64
        + 256 * bytes[13] as u64
        + 65536 * bytes[14] as u64
        + 16777216 * bytes[15] as u64
}

fn id3_here(bytes: &[u8]) -> bool
    ensures { result ≡ is_id3 bytes.now }
{
    agree(&ID3_MAGIC, bytes) && bytes.len() == 128
}

fn id3_begun(bytes: &[u8]) -> bool
    ensures value { result ≡ may_be_id3 bytes.now }
    ensures few { result ≡ true → length bytes.now ≤ 128 }
{
    agree(&ID3_MAGIC, bytes) && bytes.len() <= 128
}

// An APEv2 tag whose header is there, and what may follow it.
fn ape_whole(bytes: &[u8]) -> bool
    ensures { result ≡ is_ape bytes.now }
{
    if !agree(&APE_MAGIC, bytes) || bytes.len() < 32 {
        return false;
    }
    let size = ape_size_at(bytes);
    let len = bytes.len() as u64;
    len == size || size <= len && id3_here(from_place(bytes, size as usize))
}

fn ape_begun(bytes: &[u8]) -> bool
    ensures value { result ≡ may_be_ape bytes.now }
    ensures few { result ≡ true → length bytes.now < 2 ^ 34 }
{
    if !agree(&APE_MAGIC, bytes) {
        return false;
    }
    if bytes.len() < 32 {
        return true;
    }
    let size = ape_size_at(bytes);
    bytes.len() as u64 <= size || id3_begun(from_place(bytes, size as usize))
}

/// What comes where no frame begins, of which these bytes are there: the end behind tags, or damage at this offset.
pub(crate) fn behind_frames(bytes: &[u8], ended: bool, offset: u64) -> Cut
    ensures not_yet { result ≡ Cut.NotYet → (ended ≡ false) × (may_be_tags bytes.now ≡ true) × (length bytes.now < 2 ^ 34) }
    ensures over { result ≡ Cut.End → (ended ≡ true) × (tags_in bytes.now ≡ true) }
    ensures broken { (place : ℕ) → result ≡ Cut.Broken place
        → (place ≡ offset) × (((ended ≡ true) × (tags_in bytes.now ≡ false)) ⊎ (may_be_tags bytes.now ≡ false)) }
    ensures none { (p : Pkt) → result ≢ Cut.Pkt p }
{
    if ended {
        if id3_here(bytes) || ape_whole(bytes) {
            return Cut::End;
        }
        return Cut::Broken { offset };
    }
    if id3_begun(bytes) || ape_begun(bytes) {
        return Cut::NotYet;
    }
    Cut::Broken { offset }
}
