//! Machine words of eight bytes.

ghost use Rattle.std.specs.Prelude.{◌≡◌, ◌++◌, ◌≤◌, length, take, replicate, slice_index};
ghost use Rattle.ff_bits.specs.Bits.{value_of, bits};

/// The first eight bytes as a number, the first the highest, with zeros past the end.
pub fn word_of(bytes: &[u8]) -> u64
    ensures { result ≡ value_of (bits (take 8 (bytes.now ++ replicate 8 0))) }
{
    if bytes.len() >= 8 {
        whole_word(bytes)
    } else {
        last_word(bytes)
    }
}

/// The first eight bytes as a number.
pub(crate) fn whole_word(bytes: &[u8]) -> u64
    requires { 8 ≤ length bytes.now }
    ensures { result ≡ value_of (bits (take 8 bytes.now)) }
{
    u64::from_be_bytes([
        bytes[0], bytes[1], bytes[2], bytes[3], bytes[4], bytes[5], bytes[6], bytes[7],
    ])
}

/// The same at the end of the bytes.
#[cold]
fn last_word(bytes: &[u8]) -> u64
    ensures { result ≡ value_of (bits (take 8 (bytes.now ++ replicate 8 0))) }
{
    let mut word = 0u64;
    for i in 0..8usize {
        word = word * 256 + byte_or_zero(bytes, i) as u64;
    }
    word
}

fn byte_or_zero(bytes: &[u8], i: usize) -> u8
    ensures { result ≡ slice_index bytes.now i }
{
    if i < bytes.len() { bytes[i] } else { 0 }
}
