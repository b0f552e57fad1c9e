//! The reader of codes, several of them from one machine word.

ghost use Rattle.std.specs.Prelude.{◌≡◌, ℕ, ◌≤◌, ◌<◌, ◌+◌, ◌-◌, ◌*◌, ◌^◌, List, Bool, length, drop, IfSome, IfNone};
ghost use lib.Count.{count_leading_zeros};
ghost use Rattle.ff_bits.specs.Bits.{bits};
ghost use Rattle.ff_bits.specs.laws.Reads.{IsCounted, IsCoded};
ghost use Rattle.ff_bits.specs.laws.Window.{IsWindow, IsFront};

use crate::reader::BitReader;
use crate::word::word_of;
use std::marker::Model;

/// The bits that a reader has left, the next of them in a word. To a contract it is the list of them.
#[derive(Drop)]
pub struct BitWindow<'a> {
    bytes: &'a [u8],
    /// The offset in `bytes` at which the bits that the word holds end.
    at: usize,
    /// The bits that come next, the first of them the highest, and then zeros.
    word: u64,
    /// How many bits the word holds, below 64. After them some bits of the byte at `at` may stand already.
    held: u32,
}

impl<'a> Model for BitWindow<'a> {
    ghost use Rattle.std.specs.Prelude.{◌*◌, ◌-◌, List, Bool, drop};
    ghost use Rattle.ff_bits.specs.Bits.{bits};
    ghost use Rattle.ff_bits.specs.laws.Window.{IsWindow};

    ghost Value = { List Bool };

    ghost view = { λ w. drop (8 * w.at - w.held) (bits w.bytes.now) };

    ghost invariant = { λ w. IsWindow w.bytes.now w.at w.word w.held };
}

impl<'a> BitWindow<'a> {
    /// All bits of these bytes but the first `used`.
    #[inline(always)]
    pub(crate) fn past(bytes: &'a [u8], used: u32) -> BitWindow<'a>
        requires few { used < 8 }
        requires there { used ≤ 8 * length bytes.now }
        ensures { result ≡ drop used (bits bytes.now) }
    {
        let at = bytes.len().min(7);
        BitWindow {
            bytes,
            at,
            word: word_of(bytes) << used,
            held: 8 * at as u32 - used,
        }
    }

    /// A reader of the same bits.
    #[inline(always)]
    pub fn reader(&self) -> BitReader<'a>
        ensures { result ≡ self.now }
    {
        let back = (self.held + 7) / 8;
        BitReader::past(&self.bytes[self.at - back as usize..], 8 * back - self.held)
    }

    /// Fills the word up, so that the next codes are read from it.
    #[inline(always)]
    pub fn fill(&mut self)
        ensures { self.new ≡ self.old }
    {
        let (word, more) = filled(self.bytes, self.at, self.word, self.held);
        self.word = word;
        self.at += more as usize;
        self.held += 8 * more;
    }

    /// How many zeros stand before the next one, and the value of the `n` bits after it. None, which leaves the window,
    /// only where fewer than 120 bits are left or these are more than 56.
    #[inline(always)]
    pub fn code(&mut self, n: u32) -> Option<(u32, u64)>
        requires { n ≤ 57 }
        ensures read { IfSome result (λ r. IsCoded n self.old r.0 r.1 self.new) }
        ensures below { IfSome result (λ r. (r.0 < 64) × (r.1 < 2 ^ n)) }
        ensures none { IfNone result ((zeros : ℕ) → zeros + 1 + n ≤ 56 → 120 ≤ length self.old → IsCounted self.old zeros (drop (zeros + 1) self.old) → ⊥) }
        ensures unchanged { IfNone result (self.new ≡ self.old) }
        ensures shorter { length self.new ≤ length self.old }
    {
        let high = match high_in(self.word, self.held, n) {
            Some(high) => high,
            None => {
                let (word, more) = filled(self.bytes, self.at, self.word, self.held);
                self.word = word;
                self.at += more as usize;
                self.held += 8 * more;
                match high_in(self.word, self.held, n) {
                    Some(high) => high,
                    None => return None,
                }
            }
        };
        let (read, word, held) = taken(self.word, self.held, n, high);
        self.word = word;
        self.held = held;
        Some(read)
    }

    /// The next four codes where the word holds them whole. Each is the count of the zeros before its one, and the
    /// value of the `n` bits after that. None leaves the window.
    #[inline(always)]
    pub fn four(&mut self, n: u32) -> Option<((u32, u64), (u32, u64), (u32, u64), (u32, u64))>
        requires { n ≤ 57 }
        ensures read { IfSome result (λ r. (one two three : List Bool) × IsCoded n self.old r.0.0 r.0.1 one × IsCoded n one r.1.0 r.1.1 two
            × IsCoded n two r.2.0 r.2.1 three × IsCoded n three r.3.0 r.3.1 self.new) }
        ensures below { IfSome result (λ r. (r.0.0 < 64) × (r.0.1 < 2 ^ n) × (r.1.0 < 64) × (r.1.1 < 2 ^ n)
            × (r.2.0 < 64) × (r.2.1 < 2 ^ n) × (r.3.0 < 64) × (r.3.1 < 2 ^ n)) }
        ensures unchanged { IfNone result (self.new ≡ self.old) }
    {
        // (no turned word is 0 where this one isn't, so that the zeros of all four are counted without a test for 0)
        if self.word == 0 {
            return None;
        }
        let (a, word, first) = turned(self.word, n);
        let (b, word, second) = turned(word, n);
        let (c, word, third) = turned(word, n);
        let (d, _, fourth) = turned(word, n);
        let len = first + second + third + fourth;
        if len > self.held {
            return None;
        }
        self.word <<= len;
        self.held -= len;
        Some((a, b, c, d))
    }
}

/// The code that a word begins with, the word turned, and how many bits long the code is. The word is turned so that
/// it begins with what stands after the code. What the word is turned by comes last in it, where no bits are held.
#[inline(always)]
fn turned(word: u64, n: u32) -> ((u32, u64), u64, u32)
    requires { n ≤ 57 }
    ensures read { (held : ℕ) → result.2 ≤ held → (list : List Bool) → IsFront list word held
        → IsFront (drop result.2 list) result.1 (held - result.2) × IsCoded n list result.0.0 result.0.1 (drop result.2 list) }
    ensures zeros { result.0.0 ≤ 64 }
    ensures low { result.0.1 < 2 ^ n }
    ensures long { result.2 ≡ result.0.0 + 1 + n }
{
    let zeros = word.leading_zeros();
    let len = zeros + 1 + n;
    let word = word.rotate_left(len);
    ((zeros, word & ((1u64 << n) - 1)), word, len)
}

/// The code whose one stands at place `high` of a word that holds all of it. Beside it stand the word after it, and
/// how many bits that holds.
#[inline(always)]
fn taken(word: u64, held: u32, n: u32, high: u32) -> ((u32, u64), u64, u32)
    requires held { held < 64 }
    requires more { n ≤ 57 }
    requires high { high + count_leading_zeros 64 word ≡ 63 }
    requires enough { 64 + n ≤ high + held }
    ensures read { (bytes : List ℕ) → (at : ℕ) → IsWindow bytes at word held
        → IsWindow bytes at result.1 result.2 × IsCoded n (drop (8 * at - held) (bits bytes)) result.0.0 result.0.1 (drop (8 * at - result.2) (bits bytes)) }
    ensures below { (result.0.0 < 64) × (result.0.1 < 2 ^ n) }
    ensures less { result.2 ≤ held }
{
    let low = (word >> (high - n)) & ((1u64 << n) - 1);
    let len = 64 + n - high;
    ((63 - high, low), word << len, held - len)
}

/// The place of a word's highest one, the lowest place being 0, where the bits from there on and `n` more are held.
#[inline(always)]
fn high_in(word: u64, held: u32, n: u32) -> Option<u32>
    requires held { held < 64 }
    requires more { n ≤ 57 }
    ensures some { IfSome result (λ high. (high + count_leading_zeros 64 word ≡ 63) × (64 + n ≤ high + held)) }
    ensures none { IfNone result (held < count_leading_zeros 64 word + 1 + n) }
{
    if word == 0 {
        return None;
    }
    let high = 63 - word.leading_zeros();
    if 64 + n - high > held {
        return None;
    }
    Some(high)
}

/// The word with the bits that follow those that it holds, and how many whole bytes more it holds then. There are
/// none only where fewer than eight are left or no more fit in.
#[inline(always)]
fn filled(bytes: &[u8], at: usize, word: u64, held: u32) -> (u64, u32)
    requires { IsWindow bytes.now at word held }
    ensures window { IsWindow bytes.now (at + result.1) result.0 (held + 8 * result.1) }
    ensures full { at + 8 ≤ length bytes.now → 56 ≤ held + 8 * result.1 }
{
    if bytes.len() - at < 8 {
        return (word, 0);
    }
    let next = word_of(&bytes[at..]);
    (word | next >> held, (63 - held) / 8)
}
